//! Abbreviation tables (section 7.5.3).
ghost use Rattle.std.specs.Prelude.{◌≡◌, ◌<◌, ◌≤◌, ◌++◌, length, map, None, IfOk, IfSome, IfNone, IfErr, OnOk, IsTrue, option_copied};
ghost use Rattle.dw_leb.specs.View.{uleb_of};
ghost use Rattle.dw_leb.specs.Watch.{inner_of, fault_of, writer_fault, Wrote};
ghost use Rattle.dw_abbrev.specs.Table.{Table as Spelled, table as part, declared, declared_in, declaration_parts, IsZero, TableAt};
ghost use Rattle.dw_abbrev.specs.TableView.{joined, with_shared};
ghost use Rattle.dw_abbrev.specs.FewPairs.{FewPairs};
ghost use Rattle.dw_abbrev.specs.TableErrors.{IsScan, IsTableError, Declares, IsFault, refused_memory};
ghost use Rattle.dw_abbrev.specs.Place.{Gives, IsErrorAt};
ghost use Rattle.dw_abbrev.specs.ReadTable.{read_code, read_table};

use crate::decl::{Decl, decl_at};
use crate::decls::Decls;
use crate::fields::{fault, uleb_at, write_uleb};
use crate::known::KnownOffsets;
use crate::shared::{SharedRun, find_shared, share_all, write_decls, write_shared};
use dw_leb::{Fault, ReadError, Reason, SectionId, Uleb, Watched, WriteError};
use std::alloc::{AllocError, Global};
use std::fmt;
use std::io::Write;
use std::marker::Model;

/// An abbreviation table: declarations of distinct codes, and the zero that ends them.
#[derive(Drop)]
pub struct Table {
    /// Those that are its own.
    decls: Decls,
    /// Those behind them that other tables of the section have too. Few tables have any.
    shared: Vec<SharedRun>,
    last_zero: Uleb,
}

impl Model for Table {
    ghost use Rattle.dw_abbrev.specs.Table.{Table};

    ghost Value = { Table };

    ghost use Rattle.dw_leb.specs.View.{uleb_of};
    ghost use Rattle.dw_abbrev.specs.Table.{table, IsZero};
    ghost use Rattle.dw_abbrev.specs.TableView.{with_shared};

    ghost view = { λ t. record { declarations = with_shared t.decls t.shared.items; last_zero = t.last_zero.width } };

    ghost invariant = { λ t.
        record {
          zero : IsZero (uleb_of t.last_zero);
          fits : table.Fits
              (record { declarations = with_shared t.decls t.shared.items; last_zero = t.last_zero.width });
        } };
}

/// What is written, whether the table has it alone or not.
impl fmt::Debug for Table {
    fn fmt<W: fmt::Write>(&self, f: &mut fmt::Formatter<W>) -> fmt::Result {
        f.debug_struct("Table")
            .field("decls", &Declarations { table: self })
            .field("last_zero", &self.last_zero)
            .finish()
    }
}

/// The declarations of a table, for `Debug`.
#[derive(Drop)]
struct Declarations<'t> {
    table: &'t Table,
}

impl<'t> fmt::Debug for Declarations<'t> {
    fn fmt<W: fmt::Write>(&self, f: &mut fmt::Formatter<W>) -> fmt::Result {
        let table: &Table = self.table;
        let mut out = f.debug_map();
        for decl in table.decls.as_slice() {
            out.entry(&decl.code().value, decl);
        }
        for run in table.shared.as_slice() {
            for decl in run.as_slice() {
                out.entry(&decl.code().value, decl);
            }
        }
        out.finish()
    }
}

impl Table {
    /// The table that begins at `offset` of the section `.debug_abbrev`, with every width in which
    /// its numbers are written. What stands behind the table isn't looked at.
    ///
    /// The first broken field is the fault, with its offset from the section's first byte: an
    /// `offset` at or past the section's end (`AbbrevOffset`), a number that the section's end cuts
    /// (`Truncated`), that has no last byte among sixteen (`LebTooLong`) or that doesn't fit 64 bits
    /// (`LebTooBig`), a code that was declared before (`DuplicateCode`), a children flag other than
    /// 0 and 1 (`BadChildren`), a pair of which one number is 0 (`HalfPair`) and one past 1,024
    /// others (`TooManyPairs`), both at the pair's name. `NoMemory` is answered where a growth by
    /// one pair or one declaration was refused; so there is one. Never `Io`.
    pub fn read(alloc: Global, abbreviations: &[u8], offset: u64) -> Result<Table, ReadError>
        ensures found { IfOk result (λ t. TableAt abbreviations.now offset t) }
        ensures only { (t : Spelled) → TableAt abbreviations.now offset t
            → IfOk result (λ x. x ≡ t) × IfErr result (λ e. e ≡ refused_memory) }
        ensures broken { IfErr result (λ e. IsTableError abbreviations.now offset e) }
        ensures memory { IfErr result (λ e. e ≡ refused_memory → Declares abbreviations.now offset) }
    {
        match Table::read_unknown(alloc, abbreviations, offset, &mut KnownOffsets::none(alloc)) {
            Ok(Some(table)) => Ok(table),
            Ok(None) => unreachable!(),
            Err(e) => Err(e),
        }
    }

    /// The same where no declaration of the table is known yet, all of which are then. None where one is: another table
    /// was read there.
    #[inline(always)]
    pub(crate) fn read_unknown(
        alloc: Global,
        abbreviations: &[u8],
        offset: u64,
        known: &mut KnownOffsets,
    ) -> Result<Option<Table>, ReadError>
        ensures found { IfOk result (λ o. IfSome o (λ t. TableAt abbreviations.now offset t)) }
        ensures only { (t : Spelled) → TableAt abbreviations.now offset t
            → IfOk result (λ o. IfSome o (λ x. x ≡ t)) × IfErr result (λ e. e ≡ refused_memory) }
        ensures broken { IfErr result (λ e. IsTableError abbreviations.now offset e) }
        ensures memory { IfErr result (λ e. e ≡ refused_memory → Declares abbreviations.now offset) }
        ensures met { IfOk result (λ o. IfNone o (IsTrue known.old.keeps)) }
        ensures inside { OnOk result (offset < length abbreviations.now) }
    {
        if offset >= abbreviations.len() as u64 {
            return Err(ReadError::Fault(Fault {
                section: SectionId::Abbrev,
                offset,
                reason: Reason::AbbrevOffset,
            }));
        }
        Table::scan(alloc, abbreviations, offset as usize, known)
    }

    #[inline(always)]
    fn scan(
        alloc: Global,
        abbreviations: &[u8],
        at: usize,
        known: &mut KnownOffsets,
    ) -> Result<Option<Table>, ReadError>
        requires { at ≤ length abbreviations.now }
        ensures ok { IfOk result (λ o. IfSome o (λ t. IsScan abbreviations.now at t)) }
        ensures met { IfOk result (λ o. IfNone o (IsTrue known.old.keeps)) }
        ensures err { IfErr result (λ e. IsErrorAt read_table abbreviations.now at e) }
        ensures memory { IfErr result (λ e. e ≡ refused_memory → Declares abbreviations.now at) }
    {
        let mut decls = Decls::new(alloc);
        let mut here = at;
        loop {
            let (code, behind) = code_at(&decls, abbreviations, here)?;
            if code.value == 0 {
                known.reach(behind);
                return Ok(Some(Table {
                    decls,
                    shared: Vec::new(alloc),
                    last_zero: code,
                }));
            }
            if known.meets(here)? {
                return Ok(None);
            }
            let (decl, next) = decl_at(alloc, abbreviations, behind, code)?;
            match decls.push(decl) {
                Ok(()) => here = next,
                Err(_) => return Err(ReadError::NoMemory),
            }
        }
    }

    /// A table of these declarations, and of the zero that ends them.
    pub(crate) fn of(decls: Decls, last_zero: Uleb) -> Table
        requires zero { IsZero (uleb_of last_zero) }
        requires fits { part.Fits (record { declarations = decls; last_zero = last_zero.width }) }
        ensures { result ≡ record { declarations = decls; last_zero = last_zero.width } }
    {
        let shared = Vec::new(decls.allocator());
        Table {
            decls,
            shared,
            last_zero,
        }
    }

    /// A table of declarations that others have too: those of a run, and those of the runs behind it. A zero ends them.
    pub(crate) fn sharing(
        alloc: Global,
        first: SharedRun,
        rest: &[SharedRun],
        last_zero: Uleb,
    ) -> Result<Table, AllocError>
        requires zero { IsZero (uleb_of last_zero) }
        requires fits { part.Fits (record { declarations = first ++ joined rest.now; last_zero = last_zero.width }) }
        ensures { IfOk result (λ t. t ≡ record {
          declarations = first ++ joined rest.now;
          last_zero = last_zero.width;
        }) }
    {
        let mut shared = Vec::new(alloc);
        shared.push(first)?;
        share_all(&mut shared, rest)?;
        Ok(Table {
            decls: Decls::new(alloc),
            shared,
            last_zero,
        })
    }

    /// How many declarations the first of the runs has that the table shares, if it shares any.
    pub(crate) fn first_shared(&self) -> usize {
        match self.shared.as_slice().first() {
            Some(run) => run.count(),
            None => 0,
        }
    }

    /// What the table shares, once more, and the zero behind it, if it has no declarations of its own.
    pub(crate) fn shared_runs(&self) -> Result<Option<(Vec<SharedRun>, Uleb)>, AllocError>
        ensures { IfOk result (λ o. IfSome o (λ x. (self.now ≡ record
            { declarations = joined x.0.items; last_zero = x.1.width }) × IsZero (uleb_of x.1))) }
    {
        if !self.decls.is_empty() {
            return Ok(None);
        }
        let mut runs = Vec::new(self.decls.allocator());
        share_all(&mut runs, self.shared.as_slice())?;
        Ok(Some((runs, self.last_zero)))
    }

    /// The declaration of a code.
    #[inline(always)]
    pub fn get(&self, code: u64) -> Option<&Decl>
        ensures value { option_copied result ≡ declared self.now code }
        ensures fits { part.Fits self.now }
    {
        match self.decls.numbered(code) {
            Some(decl) => Some(decl),
            None => self.search(code),
        }
    }

    /// The same wherever it stands, also among what is shared. (It stands alone, since compilers number codes from 1
    /// on.)
    #[inline(never)]
    fn search(&self, code: u64) -> Option<&Decl>
        ensures { option_copied result ≡ declared self.now code }
    {
        match self.decls.get(code) {
            Some(decl) => Some(decl),
            None => find_shared(self.shared.as_slice(), code),
        }
    }

    /// No declaration has more than 1,024 pairs. It does nothing.
    #[inline(always)]
    pub fn pairs_are_few(&self)
        ensures { FewPairs self.now }
    {
        // A look inside tells the proof what is true of every table.
        let _declarations = &self.decls;
    }

    /// Writes the table: its one spelling, which each table has, with each number in its own width. So
    /// the table stands where it was written (`laws::written_stands`). It takes no memory. After an error
    /// a beginning of the table was written.
    pub fn write<W: Write>(&self, writer: &mut Watched<W>) -> Result<(), WriteError>
        requires { fault_of writer.old ≡ None }
        ensures written { Wrote (W.contents (inner_of writer.old)) (W.contents (inner_of writer.new))
            (part.spell self.now) result }
        ensures fits { part.Fits self.now }
        ensures fault { fault_of writer.new ≡ writer_fault result }
    {
        write_decls(writer, self.decls.as_slice())?;
        write_shared(writer, self.shared.as_slice())?;
        write_uleb(writer, self.last_zero)
    }
}

/// The code at `at`, behind these declarations, and where what follows begins.
#[inline(always)]
fn code_at(decls: &Decls, abbreviations: &[u8], at: usize) -> Result<(Uleb, usize), ReadError>
    requires within { at ≤ length abbreviations.now }
    ensures ok { IfOk result (λ x. Gives (read_code (map declaration_parts decls.now))
        abbreviations.now at (uleb_of x.0) x.1) }
    ensures forward { IfOk result (λ x. (at < x.1) × (x.1 ≤ length abbreviations.now)) }
    ensures fresh { IfOk result (λ x. declared_in decls.now x.0.value ≡ None) }
    ensures err { IfErr result (λ e. IsErrorAt (read_code (map declaration_parts decls.now)) abbreviations.now at e) }
    ensures fault { IfErr result IsFault }
{
    let (code, next) = uleb_at(abbreviations, at)?;
    if decls.has(code.value) {
        return Err(fault(at, Reason::DuplicateCode));
    }
    Ok((code, next))
}
