//! Initial lengths (sections 7.2.2 and 7.4).
ghost use Rattle.std.specs.Prelude.{◌≡◌, ◌≤◌, ◌<◌, ◌^◌, ℕ, length, Ok, IfOk, IfErr};
ghost use Rattle.dw_leb.specs.Part.{Taken};
ghost use Rattle.dw_leb.specs.Number.{initial_length, length_field, length_size, length_limit, FitsLength};
ghost use Rattle.dw_leb.specs.declared.order.Format.{Format as TheFormat};
ghost use Rattle.dw_leb.specs.Scan.{length_scan, length_within};

use crate::errors::Reason;
use crate::fixed::{number_at, write_fixed};
use crate::order::{Format, Order};
use arrayvec::ArrayVec;

/// The initial length at the front of `b`: the format that it gives, and the length, which counts
/// the unit's bytes after this field. `start` is the offset of the field's first byte: 0 where a
/// unit is read alone, and else counted from the section's first byte.
///
/// Refused are a field that the input cuts (`Truncated`), a first number from 0xfffffff0 to
/// 0xfffffffe (`ReservedLength`), and a length with which the unit's end, `start` and the field's
/// own size included, would lie past 2^63 - 1 (`LengthTooBig`). The length isn't compared with the
/// input's size, and no unit's end cuts the field, so `PastUnit` doesn't come.
pub fn read_length(order: Order, start: u64, b: &[u8]) -> Result<(Format, u64), Reason>
    ensures found { IfOk result (λ x.
        Taken (initial_length order start) b.now length_limit x (length_size x.0)) }
    ensures only { (format : TheFormat) (n : ℕ)
        → Taken (initial_length order start) b.now length_limit (format, n) (length_size format)
        → result ≡ Ok (format, n) }
    ensures broken { IfErr result (λ reason. (initial_length order start).Break b.now length_limit 0 reason) }
    ensures room { IfOk result (λ x. length_size x.0 ≤ length b.now) }
    ensures end { IfOk result (λ x. x.1 < 2 ^ 63) }
{
    scan(order, start, b)
}

fn scan(order: Order, start: u64, b: &[u8]) -> Result<(Format, u64), Reason>
    ensures exact { result ≡ length_scan order start b.now }
    ensures room { IfOk result (λ x. length_size x.0 ≤ length b.now) }
    ensures end { IfOk result (λ x. x.1 < 2 ^ 63) }
{
    let first = number_at(order, 4, b, 12)?;
    if first < 0xffff_fff0 {
        return within(start, Format::Dwarf32, first);
    }
    if first < 0xffff_ffff {
        return Err(Reason::ReservedLength);
    }
    let n = number_at(order, 8, &b[4..], 8)?;
    within(start, Format::Dwarf64, n)
}

/// The length `n`, unless the unit's end would lie past 2^63 - 1.
fn within(start: u64, format: Format, n: u128) -> Result<(Format, u64), Reason>
    requires { n < 2 ^ 64 }
    ensures exact { result ≡ length_within start format n }
    ensures format { IfOk result (λ x. x.0 ≡ format) }
    ensures end { IfOk result (λ x. x.1 < 2 ^ 63) }
{
    if start as u128 + format.length_size() as u128 + n < 1 << 63 {
        Ok((format, n as u64))
    } else {
        Err(Reason::LengthTooBig)
    }
}

/// The spelling of an initial length: 4 bytes in the 32-bit format, where the length is below
/// 0xfffffff0, and 12 in the 64-bit format.
pub fn write_length(order: Order, format: Format, n: u64) -> ArrayVec<u8, 16>
    requires { FitsLength format n }
    ensures spelling { result.items ≡ (length_field order).spell (format, n) }
    ensures length { length result.items ≡ length_size format }
{
    match format {
        Format::Dwarf32 => write_fixed(order, 4, n as u128),
        Format::Dwarf64 => {
            let mut bytes = write_fixed(order, 4, 0xffff_ffff);
            let _fits = bytes.try_extend_from_slice(write_fixed(order, 8, n as u128).as_slice());
            bytes
        }
    }
}
