//! Attribute specifications: the pairs of name and form (section 7.5.3).
ghost use Rattle.std.specs.Prelude.{◌≡◌, ◌<◌, ◌≤◌, true, false, [], length, None, IfOk, IfErr, IfSome, OnOk, map, option_map};
ghost use Rattle.dw_leb.specs.View.{uleb_of, sleb_of};
ghost use Rattle.dw_leb.specs.Watch.{inner_of, fault_of, writer_fault, Wrote};
ghost use Rattle.dw_abbrev.specs.Spelling.{pair_bytes, pairs_bytes};
ghost use Rattle.dw_abbrev.specs.Table.{is_end as ends_pairs, refused_pair};
ghost use Rattle.dw_leb.specs.ReadNumber.{read_uleb};
ghost use Rattle.dw_abbrev.specs.ReadTable.{read_names, read_constant, read_pairs};
ghost use Rattle.dw_abbrev.specs.PairView.{pair_of, pairs_of};
ghost use Rattle.dw_abbrev.specs.PairTaken.{HasConstant};
ghost use Rattle.dw_abbrev.specs.Place.{Gives, IsErrorAt};
ghost use Rattle.dw_abbrev.specs.Build.{constant_belongs, pair_refusal, ArePairs};

use crate::fields::{fault, sleb_at, uleb_at, write_sleb, write_uleb};
use crate::refusal::TableRefusal;
use dw_leb::constants::form::DW_FORM_IMPLICIT_CONST;
use dw_leb::{ReadError, Reason, Sleb, Uleb, Watched, WriteError};
use std::io::Write;

/// The most pairs of a declaration.
pub(crate) const MOST_PAIRS: usize = 1024;

/// An attribute specification: the name of an attribute and the form of its values.
#[derive(Clone, Copy, Debug, PartialEq, Eq)]
pub struct Pair {
    /// The attribute's name, `DW_AT_..`.
    pub name: Uleb,
    /// The form of its values, `DW_FORM_..`.
    pub form: Uleb,
    /// The value that a pair of the form `DW_FORM_implicit_const` has itself.
    pub constant: Option<Sleb>,
}

/// Why a pair can't stand in a declaration.
pub(crate) fn misfit(pair: Pair) -> Option<TableRefusal>
    ensures { result ≡ pair_refusal (pair_of pair) }
{
    if pair.name.value == 0 || pair.form.value == 0 {
        return Some(TableRefusal::HalfPair);
    }
    if pair.constant.is_some() != (pair.form.value == DW_FORM_IMPLICIT_CONST) {
        return Some(TableRefusal::WrongConstant);
    }
    None
}

/// The two zeros that end the pairs of a declaration.
#[derive(Clone, Copy)]
pub(crate) struct Zeros {
    pub(crate) name_zero: Uleb,
    pub(crate) form_zero: Uleb,
}

impl Zeros {
    /// This name and this form, both 0.
    #[inline(always)]
    fn of(name: Uleb, form: Uleb) -> Zeros
        ensures name_zero { result.name_zero ≡ name }
        ensures form_zero { result.form_zero ≡ form }
    {
        Zeros {
            name_zero: name,
            form_zero: form,
        }
    }
}

/// Whether a name and a form end the pairs.
fn is_end(name: Uleb, form: Uleb) -> bool
    ensures { result ≡ ends_pairs (uleb_of name, uleb_of form) }
{
    name.value == 0 && form.value == 0
}

/// Why a name and a form are refused, after `before` pairs of their declaration.
fn refusal(name: Uleb, form: Uleb, before: usize) -> Option<Reason>
    ensures { result ≡ refused_pair before (uleb_of name, uleb_of form) }
{
    if (name.value == 0) != (form.value == 0) {
        return Some(Reason::HalfPair);
    }
    if before >= MOST_PAIRS && !is_end(name, form) {
        return Some(Reason::TooManyPairs);
    }
    None
}

/// The name and the form at `at`, and where what follows begins.
#[inline(always)]
fn names_at(
    abbreviations: &[u8],
    at: usize,
    before: usize,
) -> Result<((Uleb, Uleb), usize), ReadError>
    requires { at ≤ length abbreviations.now }
    ensures ok { IfOk result (λ x. Gives (read_names before) abbreviations.now at (uleb_of x.0.0, uleb_of x.0.1) x.1) }
    ensures forward { IfOk result (λ x. (at < x.1) × (x.1 ≤ length abbreviations.now)) }
    ensures judged { IfOk result (λ x. refused_pair before (uleb_of x.0.0, uleb_of x.0.1) ≡ None) }
    ensures err { IfErr result (λ e. IsErrorAt (read_names before) abbreviations.now at e) }
{
    let (name, form_at) = uleb_at(abbreviations, at)?;
    let (form, next) = uleb_at(abbreviations, form_at)?;
    match refusal(name, form, before) {
        Some(reason) => Err(fault(at, reason)),
        None => Ok(((name, form), next)),
    }
}

/// The same, where the name and the form have one byte each, as nearly all do: the compiler then knows their widths,
/// and what it keeps of the pair. None too where they are refused.
#[inline(always)]
fn small_names_at(abbreviations: &[u8], at: usize, before: usize) -> Option<((Uleb, Uleb), usize)>
    requires { at ≤ length abbreviations.now }
    ensures there { IfSome result (λ x. Gives (read_names before) abbreviations.now at
        (uleb_of x.0.0, uleb_of x.0.1) x.1) }
    ensures forward { IfSome result (λ x. (at < x.1) × (x.1 ≤ length abbreviations.now)) }
    ensures judged { IfSome result (λ x. refused_pair before (uleb_of x.0.0, uleb_of x.0.1) ≡ None) }
{
    let (name, form_at) = one_byte_at(abbreviations, at)?;
    let (form, next) = one_byte_at(abbreviations, form_at)?;
    if name.value != 0 && form.value != 0 && before < MOST_PAIRS {
        return Some(((name, form), next));
    }
    match refusal(name, form, before) {
        Some(_) => None,
        None => Some(((name, form), next)),
    }
}

/// The number at `at` and where what follows begins, where it has one byte.
#[inline(always)]
fn one_byte_at(abbreviations: &[u8], at: usize) -> Option<(Uleb, usize)>
    requires { at ≤ length abbreviations.now }
    ensures there { IfSome result (λ x. Gives read_uleb abbreviations.now at (uleb_of x.0) x.1) }
    ensures forward { IfSome result (λ x. (at < x.1) × (x.1 ≤ length abbreviations.now)) }
{
    if *abbreviations.get(at)? >= 128 {
        return None;
    }
    match uleb_at(abbreviations, at) {
        Ok(x) => Some(x),
        Err(_) => None,
    }
}

/// The constant that a pair of this form has, at `at`, and where what follows begins.
#[inline(always)]
fn constant_at(
    abbreviations: &[u8],
    at: usize,
    name: Uleb,
    form: Uleb,
) -> Result<(Option<Sleb>, usize), ReadError>
    requires { at ≤ length abbreviations.now }
    ensures ok { IfOk result
        (λ x. Gives (read_constant (uleb_of name, uleb_of form)) abbreviations.now at (option_map sleb_of x.0) x.1) }
    ensures forward { IfOk result (λ x. (at ≤ x.1) × (x.1 ≤ length abbreviations.now)) }
    ensures belongs { IfOk result (λ x. constant_belongs (uleb_of form) (option_map sleb_of x.0) ≡ true) }
    ensures err { IfErr result (λ e. IsErrorAt (read_constant (uleb_of name, uleb_of form)) abbreviations.now at e) }
{
    if form.value != DW_FORM_IMPLICIT_CONST {
        return Ok((None, at));
    }
    let (constant, next) = sleb_at(abbreviations, at)?;
    Ok((Some(constant), next))
}

/// The pairs at `at` go to the list, which has none, and the result is the zeros behind them and where what follows
/// begins. The list grows by one pair at a time, each judged before. (It is the caller's, since a result that holds a
/// vector is copied byte by byte.)
#[inline(always)]
pub(crate) fn pairs_at(
    list: &mut Vec<Pair>,
    abbreviations: &[u8],
    at: usize,
) -> Result<(Zeros, usize), ReadError>
    requires none { list.old.items ≡ [] }
    requires within { at ≤ length abbreviations.now }
    ensures ok { IfOk result (λ x. Gives read_pairs abbreviations.now at (pairs_of list.new.items x.0) x.1) }
    ensures forward { IfOk result (λ x. (at < x.1) × (x.1 ≤ length abbreviations.now)) }
    ensures zeros { IfOk result (λ x. (x.0.name_zero.value ≡ 0) × (x.0.form_zero.value ≡ 0)) }
    ensures pairs { OnOk result (ArePairs (map pair_of list.new.items)) }
    ensures err { IfErr result (λ e. IsErrorAt read_pairs abbreviations.now at e) }
{
    let mut here = at;
    loop {
        if let Some(((name, form), behind)) = small_names_at(abbreviations, here, list.len()) {
            if is_end(name, form) {
                return Ok((Zeros::of(name, form), behind));
            }
            here = take_pair(list, abbreviations, behind, name, form)?;
            continue;
        }
        let ((name, form), behind) = names_at(abbreviations, here, list.len())?;
        if is_end(name, form) {
            return Ok((Zeros::of(name, form), behind));
        }
        here = take_pair(list, abbreviations, behind, name, form)?;
    }
}

/// The pair of a name and a form goes to the list, behind the others, with the constant that stands at `at` where it
/// has one. The result is where what follows begins.
#[inline(always)]
fn take_pair(
    list: &mut Vec<Pair>,
    abbreviations: &[u8],
    at: usize,
    name: Uleb,
    form: Uleb,
) -> Result<usize, ReadError>
    requires { at ≤ length abbreviations.now }
    ensures ok { IfOk result (λ next. HasConstant abbreviations.now at name form next list.old.items list.new.items) }
    ensures forward { IfOk result (λ next. (at ≤ next) × (next ≤ length abbreviations.now)) }
    ensures err { IfErr result (λ e. IsErrorAt (read_constant (uleb_of name, uleb_of form)) abbreviations.now at e) }
{
    if form.value != DW_FORM_IMPLICIT_CONST {
        list.push(Pair {
            name,
            form,
            constant: None,
        })?;
        return Ok(at);
    }
    let (constant, next) = constant_at(abbreviations, at, name, form)?;
    list.push(Pair {
        name,
        form,
        constant,
    })?;
    Ok(next)
}

/// Writes pairs, one behind the other.
pub(crate) fn write_pairs<W: Write>(
    writer: &mut Watched<W>,
    pairs: &[Pair],
) -> Result<(), WriteError>
    requires { fault_of writer.old ≡ None }
    ensures written { Wrote (W.contents (inner_of writer.old)) (W.contents (inner_of writer.new))
        (pairs_bytes (map pair_of pairs.now)) result }
    ensures fault { fault_of writer.new ≡ writer_fault result }
{
    for pair in pairs {
        write_pair(writer, *pair)?;
    }
    Ok(())
}

fn write_pair<W: Write>(writer: &mut Watched<W>, pair: Pair) -> Result<(), WriteError>
    requires { fault_of writer.old ≡ None }
    ensures written { Wrote (W.contents (inner_of writer.old)) (W.contents (inner_of writer.new))
        (pair_bytes (pair_of pair)) result }
    ensures fault { fault_of writer.new ≡ writer_fault result }
{
    write_uleb(writer, pair.name)?;
    write_uleb(writer, pair.form)?;
    match pair.constant {
        Some(constant) => write_sleb(writer, constant),
        None => Ok(()),
    }
}
