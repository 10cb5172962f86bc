//! Abbreviation declarations (section 7.5.3).
ghost use Rattle.std.specs.Prelude.{◌≡◌, ◌<◌, ◌≤◌, false, length, None, IfOk, IfErr, OnOk, OnErr, map};
ghost use Rattle.std.specs.Result.{result_err};
ghost use Rattle.dw_leb.specs.View.{uleb_of};
ghost use Rattle.dw_leb.specs.Watch.{inner_of, fault_of, writer_fault, Wrote};
ghost use Rattle.dw_abbrev.specs.Spelling.{head_bytes, zeros_bytes, declaration_bytes};
ghost use Rattle.dw_abbrev.specs.Table.{described_of, is_null};
ghost use Rattle.dw_abbrev.specs.Build.{new_refusal, without_pairs, pair_refusal, with_pair, or_memory, has_too_many, DeclarationFits};
ghost use Rattle.dw_abbrev.specs.ReadTable.{read_described};
ghost use Rattle.dw_abbrev.specs.PairView.{pair_of, pair_from};
ghost use Rattle.dw_abbrev.specs.Prefix.{IsPrefix};
ghost use Rattle.dw_abbrev.specs.Place.{Gives, IsErrorAt};

use crate::fields::{flag_at, kept_zero, uleb_at, write_flag, write_uleb, zero};
use crate::pair::{MOST_PAIRS, Pair, misfit, pairs_at, write_pairs};
use crate::prefix::FixedPrefix;
use crate::refusal::TableRefusal;
use dw_leb::{ReadError, Sleb, Uleb, Watched, WriteError};
use std::alloc::Global;
use std::fmt;
use std::io::Write;
use std::marker::Model;

/// An abbreviation declaration: what the entries of a code have in common.
#[derive(Drop)]
pub struct Decl {
    code: Uleb,
    tag: Uleb,
    children: bool,
    /// In how many bytes each of the two zeros behind the pairs is written: their numbers, of sixteen bytes each, would
    /// be a third of what a declaration takes.
    name_zero: u8,
    form_zero: u8,
    pairs: Vec<Pair>,
    /// That of its entries' values, kept since each entry asks for it.
    prefix: FixedPrefix,
}

impl Model for Decl {
    ghost use Rattle.dw_leb.specs.Number.{UlebFits};
    ghost use Rattle.dw_abbrev.specs.Table.{Declaration, zero_of};

    ghost Value = { Declaration };

    ghost use Rattle.std.specs.Prelude.{◌≡◌, false, map};
    ghost use Rattle.dw_leb.specs.View.{uleb_of};
    ghost use Rattle.dw_abbrev.specs.PairView.{pair_of};
    ghost use Rattle.dw_abbrev.specs.Build.{ArePairs};
    ghost use Rattle.dw_abbrev.specs.Prefix.{IsPrefix};
    ghost use Rattle.dw_abbrev.specs.Table.{is_null};

    ghost view = { λ d.
        record {
          code = uleb_of d.code;
          tag = uleb_of d.tag;
          children = d.children;
          pairs = map pair_of d.pairs.items;
          name_zero = d.name_zero;
          form_zero = d.form_zero;
        } };

    ghost invariant = { λ d.
        record {
          name_zero : UlebFits (zero_of d.name_zero);
          form_zero : UlebFits (zero_of d.form_zero);
          some : is_null (uleb_of d.code) ≡ false;
          pairs : ArePairs (map pair_of d.pairs.items);
          prefix : IsPrefix (map pair_of d.pairs.items) d.prefix;
        } };
}

/// What is written, without what is kept of it.
impl fmt::Debug for Decl {
    fn fmt<W: fmt::Write>(&self, f: &mut fmt::Formatter<W>) -> fmt::Result {
        f.debug_struct("Decl")
            .field("code", &self.code)
            .field("tag", &self.tag)
            .field("children", &self.children)
            .field("pairs", &self.pairs)
            .field("name_zero", &kept_zero(self.name_zero))
            .field("form_zero", &kept_zero(self.form_zero))
            .finish()
    }
}

impl Decl {
    /// A declaration without pairs. `zeros` are the counts of bytes in which the two zeros behind
    /// the pairs are written. It takes no memory.
    ///
    /// Refused are a code 0 (`ZeroCode`), and then counts of bytes other than 1 to 16 (`BadWidth`).
    pub fn new(
        alloc: Global,
        code: Uleb,
        tag: Uleb,
        children: bool,
        zeros: (u8, u8),
    ) -> Result<Decl, TableRefusal>
        ensures new { IfOk result (λ d. d ≡ without_pairs (uleb_of code) (uleb_of tag) children zeros) }
        ensures refused { result_err result ≡ new_refusal (uleb_of code) zeros }
    {
        if code.value == 0 {
            return Err(TableRefusal::ZeroCode);
        }
        let name_zero = zero(zeros.0)?;
        let form_zero = zero(zeros.1)?;
        Ok(Decl {
            code,
            tag,
            children,
            name_zero: name_zero.width,
            form_zero: form_zero.width,
            pairs: Vec::new(alloc),
            prefix: FixedPrefix::empty(),
        })
    }

    /// One more attribute specification, behind the others. A declaration may have any number of
    /// them; a table takes one of at most 1,024.
    ///
    /// Refused are a name or a form 0 (`HalfPair`), then a constant with a form other than
    /// `DW_FORM_implicit_const` or that form without a constant (`WrongConstant`), and then a
    /// growth for which there is no memory (`NoMemory`). After each the declaration is unchanged.
    pub fn pair(
        &mut self,
        name: Uleb,
        form: Uleb,
        constant: Option<Sleb>,
    ) -> Result<(), TableRefusal>
        ensures added { OnOk result (self.new ≡ with_pair self.old (pair_from name form constant)) }
        ensures allowed { OnOk result (pair_refusal (pair_from name form constant) ≡ None) }
        ensures refused { IfErr result (λ e. e ≡ or_memory (pair_refusal (pair_from name form constant))) }
        ensures unchanged { OnErr result (self.new ≡ self.old) }
    {
        let pair = Pair {
            name,
            form,
            constant,
        };
        if let Some(refusal) = misfit(pair) {
            return Err(refusal);
        }
        let prefix = self.prefix.extended(&pair, self.pairs.len());
        self.pairs.push(pair)?;
        self.prefix = prefix;
        Ok(())
    }

    /// The abbreviation code, by which entries name the declaration. It isn't 0.
    pub fn code(&self) -> Uleb
        ensures { uleb_of result ≡ self.now.code }
    {
        self.code
    }

    /// The tag of the entries, `DW_TAG_..`.
    pub fn tag(&self) -> Uleb
        ensures { uleb_of result ≡ self.now.tag }
    {
        self.tag
    }

    /// Whether the entries have children.
    pub fn has_children(&self) -> bool
        ensures { result ≡ self.now.children }
    {
        self.children
    }

    /// The attribute specifications, in the order of the entries' values.
    pub fn pairs(&self) -> &[Pair]
        ensures { map pair_of result.now ≡ self.now.pairs }
    {
        self.pairs.as_slice()
    }

    /// The values at the front of its entries whose sizes their forms tell.
    #[inline(always)]
    pub fn prefix(&self) -> FixedPrefix
        ensures { IsPrefix self.now.pairs result }
    {
        let Decl { prefix, .. } = self;
        *prefix
    }

    /// The counts of bytes, 1 to 16, in which the two zeros behind the pairs are written.
    pub fn zeros(&self) -> (u8, u8)
        ensures { result ≡ (self.now.name_zero, self.now.form_zero) }
    {
        (self.name_zero, self.form_zero)
    }

    /// Whether the declaration has more pairs than a table takes. Without that it fits one.
    pub(crate) fn has_too_many(&self) -> bool
        ensures count { result ≡ has_too_many self.now }
        ensures fits { result ≡ false → DeclarationFits self.now }
    {
        self.pairs.len() > MOST_PAIRS
    }

    /// Writes the declaration, the two zeros behind its pairs included.
    pub(crate) fn write<W: Write>(&self, writer: &mut Watched<W>) -> Result<(), WriteError>
        requires { fault_of writer.old ≡ None }
        ensures written { Wrote (W.contents (inner_of writer.old)) (W.contents (inner_of writer.new))
            (declaration_bytes self.now)
            result }
        ensures fault { fault_of writer.new ≡ writer_fault result }
    {
        self.write_head(writer)?;
        write_pairs(writer, self.pairs.as_slice())?;
        self.write_zeros(writer)
    }

    /// Writes what stands before the pairs.
    fn write_head<W: Write>(&self, writer: &mut Watched<W>) -> Result<(), WriteError>
        requires { fault_of writer.old ≡ None }
        ensures written { Wrote (W.contents (inner_of writer.old)) (W.contents (inner_of writer.new))
            (head_bytes self.now) result }
        ensures fault { fault_of writer.new ≡ writer_fault result }
    {
        write_uleb(writer, self.code)?;
        write_uleb(writer, self.tag)?;
        write_flag(writer, self.children)
    }

    /// Writes the two zeros behind the pairs.
    fn write_zeros<W: Write>(&self, writer: &mut Watched<W>) -> Result<(), WriteError>
        requires { fault_of writer.old ≡ None }
        ensures written { Wrote (W.contents (inner_of writer.old)) (W.contents (inner_of writer.new))
            (zeros_bytes self.now) result }
        ensures fault { fault_of writer.new ≡ writer_fault result }
    {
        write_uleb(writer, kept_zero(self.name_zero))?;
        write_uleb(writer, kept_zero(self.form_zero))
    }
}

/// The declaration of a code: what stands behind the code, at `at`, and where what follows begins. (It is inlined where
/// tables are read for themselves, as nearly all are: a result that holds a vector is copied byte by byte.)
#[inline(always)]
pub(crate) fn decl_at(
    alloc: Global,
    abbreviations: &[u8],
    at: usize,
    code: Uleb,
) -> Result<(Decl, usize), ReadError>
    requires within { at ≤ length abbreviations.now }
    requires some { is_null (uleb_of code) ≡ false }
    ensures ok { IfOk result (λ x. Gives read_described abbreviations.now at (described_of x.0) x.1) }
    ensures code { IfOk result (λ x. x.0.code ≡ uleb_of code) }
    ensures forward { IfOk result (λ x. (at < x.1) × (x.1 ≤ length abbreviations.now)) }
    ensures err { IfErr result (λ e. IsErrorAt read_described abbreviations.now at e) }
{
    let (tag, behind_tag) = uleb_at(abbreviations, at)?;
    let (children, behind_flag) = flag_at(abbreviations, behind_tag)?;
    let mut pairs = Vec::new(alloc);
    let (zeros, next) = pairs_at(&mut pairs, abbreviations, behind_flag)?;
    let prefix = FixedPrefix::of(pairs.as_slice());
    let decl = Decl {
        code,
        tag,
        children,
        name_zero: zeros.name_zero.width,
        form_zero: zeros.form_zero.width,
        pairs,
        prefix,
    };
    Ok((decl, next))
}

/// The same, for what isn't asked so often.
#[inline(never)]
pub(crate) fn decl_behind(
    alloc: Global,
    abbreviations: &[u8],
    at: usize,
    code: Uleb,
) -> Result<(Decl, usize), ReadError>
    requires within { at ≤ length abbreviations.now }
    requires some { is_null (uleb_of code) ≡ false }
    ensures ok { IfOk result (λ x. Gives read_described abbreviations.now at (described_of x.0) x.1) }
    ensures code { IfOk result (λ x. x.0.code ≡ uleb_of code) }
    ensures forward { IfOk result (λ x. (at < x.1) × (x.1 ≤ length abbreviations.now)) }
{
    decl_at(alloc, abbreviations, at, code)
}
