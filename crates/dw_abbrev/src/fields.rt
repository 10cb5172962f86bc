//! The fields of tables, each read at its offset from the first byte of `.debug_abbrev`, and
//! written. Only the section's end bounds a table.
ghost use Rattle.std.specs.Prelude.{◌≡◌, ◌<◌, ◌≤◌, length, None, IfOk, IfErr, IfSome, OnOk};
ghost use Rattle.std.specs.Result.{result_err};
ghost use Rattle.dw_leb.specs.Number.{UlebFits, uleb, sleb};
ghost use Rattle.dw_leb.specs.View.{uleb_of, sleb_of};
ghost use Rattle.dw_leb.specs.Watch.{inner_of, fault_of, writer_fault, Wrote};
ghost use Rattle.dw_abbrev.specs.Table.{zero_of};
ghost use Rattle.dw_abbrev.specs.Build.{width_refusal};
ghost use Rattle.dw_abbrev.specs.Spelling.{flag_bytes};
ghost use Rattle.dw_leb.specs.ReadNumber.{read_fixed as fixed_reader, read_uleb, read_sleb};
ghost use Rattle.dw_leb.specs.Reader.{outcome_of};
ghost use Rattle.dw_leb.specs.declared.order.Order.TheVariants.{Little};
ghost use Rattle.dw_abbrev.specs.ReadTable.{read_flag, flag_number};
ghost use Rattle.dw_abbrev.specs.Place.{Gives, IsErrorAt, fault_at};
ghost use Rattle.dw_abbrev.specs.TableErrors.{IsFault};

use crate::refusal::TableRefusal;
use dw_leb::{
    Fault, Order, ReadError, Reason, SectionId, Sleb, Uleb, Watched, WriteError, read_fixed,
    write_all,
};
use std::io::Write;

/// The fault of the field at `at`.
pub(crate) fn fault(at: usize, reason: Reason) -> ReadError
    ensures { result ≡ fault_at at reason }
{
    ReadError::Fault(Fault {
        section: SectionId::Abbrev,
        offset: at as u64,
        reason,
    })
}

/// A zero in so many bytes.
pub(crate) fn zero(width: u8) -> Result<Uleb, TableRefusal>
    ensures zero { IfOk result (λ z. uleb_of z ≡ zero_of width) }
    ensures refused { result_err result ≡ width_refusal width }
{
    match Uleb::with_width(0, width) {
        Some(number) => Ok(number),
        None => Err(TableRefusal::BadWidth),
    }
}

/// The zero of which only the count of its bytes was kept.
#[inline(always)]
pub(crate) fn kept_zero(count: u8) -> Uleb
    requires { UlebFits (zero_of count) }
    ensures { uleb_of result ≡ zero_of count }
{
    match Uleb::with_width(0, count) {
        Some(zero) => zero,
        None => unreachable!(),
    }
}

/// The unsigned number at `at`, and where what follows begins.
#[inline(always)]
pub(crate) fn uleb_at(abbreviations: &[u8], at: usize) -> Result<(Uleb, usize), ReadError>
    requires { at ≤ length abbreviations.now }
    ensures ok { IfOk result (λ x. Gives read_uleb abbreviations.now at (uleb_of x.0) x.1) }
    ensures forward { IfOk result (λ x. (at < x.1) × (x.1 ≤ length abbreviations.now)) }
    ensures err { IfErr result (λ e. IsErrorAt read_uleb abbreviations.now at e) }
    ensures fault { IfErr result IsFault }
{
    if let Some(n) = of_two_bytes(&abbreviations[at..]) {
        return Ok((n, at + 2));
    }
    match Uleb::read(&abbreviations[at..], u64::MAX) {
        Ok(n) => Ok((n, at + n.width as usize)),
        Err(reason) => Err(fault(at, reason)),
    }
}

/// The number at the front, where it has two bytes, as many names of attributes have.
#[inline(always)]
fn of_two_bytes(b: &[u8]) -> Option<Uleb>
    ensures there { IfSome result (λ n. Gives read_uleb b.now 0 (uleb_of n) 2) }
{
    let (first, others) = b.split_first()?;
    if *first < 128 {
        return None;
    }
    let (second, _) = others.split_first()?;
    if *second >= 128 {
        return None;
    }
    Uleb::with_width((*first - 128) as u64 + 128 * *second as u64, 2)
}

/// The signed number at `at`, and where what follows begins.
pub(crate) fn sleb_at(abbreviations: &[u8], at: usize) -> Result<(Sleb, usize), ReadError>
    requires { at ≤ length abbreviations.now }
    ensures ok { IfOk result (λ x. Gives read_sleb abbreviations.now at (sleb_of x.0) x.1) }
    ensures forward { IfOk result (λ x. (at < x.1) × (x.1 ≤ length abbreviations.now)) }
    ensures err { IfErr result (λ e. IsErrorAt read_sleb abbreviations.now at e) }
{
    match Sleb::read(&abbreviations[at..], u64::MAX) {
        Ok(n) => Ok((n, at + n.width as usize)),
        Err(reason) => Err(fault(at, reason)),
    }
}

/// The first byte, as the plain reader's outcome.
fn byte(b: &[u8], lim: u64) -> Result<u128, Reason>
    ensures exact { fixed_reader Little 1 b.now lim ≡ outcome_of (λ x. x) (λ _. 1) result }
    ensures room { IfOk result (λ _. (1 ≤ length b.now) × (1 ≤ lim)) }
{
    read_fixed(Order::Little, 1, b, lim)
}

/// The children flag at `at`, and where what follows begins.
pub(crate) fn flag_at(abbreviations: &[u8], at: usize) -> Result<(bool, usize), ReadError>
    requires { at ≤ length abbreviations.now }
    ensures ok { IfOk result (λ x. Gives read_flag abbreviations.now at (flag_number x.0) x.1) }
    ensures forward { IfOk result (λ x. (at < x.1) × (x.1 ≤ length abbreviations.now)) }
    ensures err { IfErr result (λ e. IsErrorAt read_flag abbreviations.now at e) }
{
    match byte(&abbreviations[at..], u64::MAX) {
        Ok(0) => Ok((false, at + 1)),
        Ok(1) => Ok((true, at + 1)),
        Ok(_) => Err(fault(at, Reason::BadChildren)),
        Err(reason) => Err(fault(at, reason)),
    }
}

/// Writes an unsigned number.
pub(crate) fn write_uleb<W: Write>(writer: &mut Watched<W>, n: Uleb) -> Result<(), WriteError>
    requires { fault_of writer.old ≡ None }
    ensures written { Wrote (W.contents (inner_of writer.old)) (W.contents (inner_of writer.new))
        (uleb.spell (uleb_of n)) result }
    ensures fault { fault_of writer.new ≡ writer_fault result }
{
    write_all(writer, n.bytes().as_slice())
}

/// Writes a signed number.
pub(crate) fn write_sleb<W: Write>(writer: &mut Watched<W>, n: Sleb) -> Result<(), WriteError>
    requires { fault_of writer.old ≡ None }
    ensures written { Wrote (W.contents (inner_of writer.old)) (W.contents (inner_of writer.new))
        (sleb.spell (sleb_of n)) result }
    ensures fault { fault_of writer.new ≡ writer_fault result }
{
    write_all(writer, n.bytes().as_slice())
}

/// Writes a children flag.
pub(crate) fn write_flag<W: Write>(writer: &mut Watched<W>, flag: bool) -> Result<(), WriteError>
    requires { fault_of writer.old ≡ None }
    ensures written { Wrote (W.contents (inner_of writer.old)) (W.contents (inner_of writer.new))
        (flag_bytes flag) result }
    ensures fault { fault_of writer.new ≡ writer_fault result }
{
    write_all(writer, &[flag as u8])
}
