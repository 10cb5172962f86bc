//! Reading a header and its unit_length.
ghost use Rattle.std.specs.Prelude.{◌≡◌, ◌≤◌, ◌<◌, ◌+◌, ◌^◌, ℕ, length, IfOk, IfErr, IsOkAnd, Ok, Err};
ghost use Rattle.dw_leb.specs.declared.errors.Fault.{Fault as TheFault};
ghost use Rattle.dw_leb.specs.declared.errors.SectionId.TheVariants.{Info};
ghost use Rattle.dw_header.specs.Header.{Header as TheHeader};
ghost use Rattle.dw_leb.specs.Number.{length_limit, length_size};
ghost use Rattle.dw_leb.specs.Reader.{outcome_of};
ghost use Rattle.dw_leb.specs.ReadNumber.{read_length as length_reader};
ghost use Rattle.dw_header.specs.HeaderPlace.{HeaderAt, HeaderAtUnder, HeaderFault, HeaderFaultUnder, header_size};
ghost use Rattle.dw_header.specs.ReadHeader.{read_head};
ghost use Rattle.dw_leb.specs.Outcomes.{outcome_from};

use crate::fields::header_fields;
use crate::header::Header;
use crate::versions::Versions;
use dw_leb::{Bad, Fault, Format, Order, Reason, SectionId, read_length};

/// The header of version 5 at the front of `b`, and the unit_length: the count of bytes that the unit has
/// after its initial length. No memory is taken.
///
/// The fault is that of the first bad field, in `.debug_info`, its offset from the first byte of `b`, and at most the
/// count of its bytes. The unit_length is never compared with the count of bytes in `b`: a field past the unit's end is
/// `PastUnit`, before it could be `Truncated`.
pub fn read_header(order: Order, b: &[u8]) -> Result<(Header, u64), Fault>
    ensures found { IfOk result (λ x. HeaderAt order b.now x.0 x.1) }
    ensures room { IfOk result (λ x. header_size x.0 ≤ length b.now) }
    ensures within { IfOk result (λ x. header_size x.0 ≤ length_size x.0.format + x.1) }
    ensures end { IfOk result (λ x. length_size x.0.format + x.1 < 2 ^ 63) }
    ensures only { (h : TheHeader) (n : ℕ) → HeaderAt order b.now h n → IsOkAnd result (λ x. (x.0 ≡ h) × (x.1 ≡ n)) }
    ensures broken { IfErr result (HeaderFault order b.now) }
    ensures near { IfErr result (λ f. f.offset ≤ length b.now) }
    ensures first { (f : TheFault) → HeaderFault order b.now f → result ≡ Err f }
{
    read_header_as(order, Versions::Five, b)
}

/// The header of one of these versions at the front of `b`, and the unit_length, as `read_header` gives
/// them for version 5. A header of version 4 has the unit_length, the version, the offset of its table
/// and the size of an address (section 7.5.1.1 of DWARF 4), and they are judged in this order. No memory
/// is taken.
///
/// The fault is that of the first bad field, in `.debug_info`, its offset from the first byte of
/// `b`, and at most the count of its bytes. It is `BadVersion` at the version for a version that isn't asked
/// for. The unit_length is never compared with the count of bytes in `b`.
pub fn read_header_as(order: Order, versions: Versions, b: &[u8]) -> Result<(Header, u64), Fault>
    ensures found { IfOk result (λ x. HeaderAtUnder versions order b.now x.0 x.1) }
    ensures room { IfOk result (λ x. header_size x.0 ≤ length b.now) }
    ensures within { IfOk result (λ x. header_size x.0 ≤ length_size x.0.format + x.1) }
    ensures end { IfOk result (λ x. length_size x.0.format + x.1 < 2 ^ 63) }
    ensures only { (h : TheHeader) (n : ℕ) → HeaderAtUnder versions order b.now h n
        → IsOkAnd result (λ x. (x.0 ≡ h) × (x.1 ≡ n)) }
    ensures broken { IfErr result (HeaderFaultUnder versions order b.now) }
    ensures near { IfErr result (λ f. f.offset ≤ length b.now) }
    ensures first { (f : TheFault) → HeaderFaultUnder versions order b.now f → result ≡ Err f }
{
    match head_at(order, versions, b) {
        Ok((head, _)) => Ok(head),
        Err(e) => Err(info_fault(e)),
    }
}

/// The fault of a field of `.debug_info`.
fn info_fault(e: Bad) -> Fault
    ensures { result ≡ record { section = Info; offset = e.offset; reason = e.reason } }
{
    Fault {
        section: SectionId::Info,
        offset: e.offset as u64,
        reason: e.reason,
    }
}

/// The initial length, as the plain reader's outcome.
fn length_at(order: Order, b: &[u8]) -> Result<(Format, u64), Reason>
    ensures exact { length_reader order 0 b.now length_limit ≡ outcome_of (λ x. x) (λ x. length_size x.0) result }
    ensures room { IfOk result (λ x. length_size x.0 ≤ length b.now) }
    ensures end { IfOk result (λ x. x.1 < 2 ^ 63) }
{
    read_length(order, 0, b)
}

/// The header with its unit_length, and the count of the bytes of both.
fn head_at(order: Order, versions: Versions, b: &[u8]) -> Result<((Header, u64), usize), Bad>
    ensures exact { read_head versions order b.now ≡ outcome_from (λ x. x) result }
    ensures room { IfOk result (λ x. x.1 ≤ length b.now) }
    ensures near { IfErr result (λ e. e.offset ≤ length b.now) }
{
    let (format, unit_length) = length_at(order, b).map_err(Bad::here)?;
    let size = format.length_size() as usize;
    match header_fields(order, versions, format, &b[size..], unit_length) {
        Ok((fields, more)) => {
            let header = Header::of(order, format, fields);
            Ok(((header, unit_length), size + more))
        }
        Err(e) => Err(e.behind(size)),
    }
}
