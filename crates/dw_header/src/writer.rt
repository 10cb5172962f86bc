//! Writing a header and its unit_length.
ghost use Rattle.std.specs.Prelude.{◌≡◌, ◌≤◌, ◌<◌, ◌^◌, ◌++◌, length, None};
ghost use Rattle.dw_leb.specs.Watch.{inner_of, fault_of, writer_fault, Wrote};
ghost use Rattle.dw_leb.specs.Number.{FitsLength, fixed, offset_size};
ghost use Rattle.dw_header.specs.Header.{fields, fields_of, five_part, four_part, numbers, added_sizes, kind_number, kind_fields, KindFits};
ghost use Rattle.dw_header.specs.HeaderPlace.{header_bytes};

use crate::header::Header;
use crate::kind::Kind;
use arrayvec::ArrayVec;
use dw_leb::{Format, Order, Watched, WriteError, write_all, write_fixed, write_length};
use std::io::Write;

/// Writes the initial length for a unit_length, and then the header: exactly their bytes. It takes
/// no memory. After an error a prefix of them was written (sections 7.4 and 7.5.1).
///
/// They are read back as this header where its fields lie within the unit_length, and the unit's end
/// below 2^63. Neither is judged here.
///
/// Errors: `Io` with the kind of the writer's failure, `WriteZero` where it took no byte of some.
pub fn write_header<W: Write>(
    header: Header,
    unit_length: u64,
    writer: &mut Watched<W>,
) -> Result<(), WriteError>
    requires fits { FitsLength header.format unit_length }
    requires clear { fault_of writer.old ≡ None }
    ensures written { Wrote (W.contents (inner_of writer.old)) (W.contents (inner_of writer.new))
        (header_bytes header unit_length)
        result }
    ensures fault { fault_of writer.new ≡ writer_fault result }
{
    write_all(
        writer,
        write_length(header.order(), header.format(), unit_length).as_slice(),
    )?;
    write_all(writer, field_bytes(header).as_slice())
}

/// The fields of a header.
fn field_bytes(header: Header) -> ArrayVec<u8, 32>
    ensures spelling { result.items ≡ (fields header.order header.format).spell (fields_of header) }
{
    match header.kind() {
        Kind::Four => four_bytes(header),
        Kind::Compile | Kind::Partial | Kind::TypeUnit { .. } | Kind::Skeleton { .. } => five_bytes(
            header,
        ),
    }
}

/// The fields of a header of version 5.
fn five_bytes(header: Header) -> ArrayVec<u8, 32>
    ensures spelling { result.items
        ≡ (fixed header.order 2).spell 5
        ++ (five_part header.order header.format).spell
        (kind_number header.kind, (header.address_size, (header.abbrev_offset, kind_fields header.kind))) }
{
    let (order, format) = (header.order(), header.format());
    let context = header.context();
    let mut bytes = ArrayVec::new();
    let _fits = bytes.try_extend_from_slice(write_fixed(order, 2, 5).as_slice());
    let _fits = bytes.try_extend_from_slice(&[unit_type(header.kind()), context.address_size]);
    let offset = offset_bytes(order, format, header.abbrev_offset());
    let _fits = bytes.try_extend_from_slice(offset.as_slice());
    let _fits = bytes.try_extend_from_slice(added_bytes(order, format, header.kind()).as_slice());
    bytes
}

/// The fields of a header of version 4 (section 7.5.1.1 of DWARF 4).
fn four_bytes(header: Header) -> ArrayVec<u8, 32>
    ensures spelling { result.items
        ≡ (fixed header.order 2).spell 4
        ++ (four_part header.order header.format).spell (header.abbrev_offset, header.address_size) }
{
    let (order, format) = (header.order(), header.format());
    let context = header.context();
    let mut bytes = ArrayVec::new();
    let _fits = bytes.try_extend_from_slice(write_fixed(order, 2, 4).as_slice());
    let offset = offset_bytes(order, format, header.abbrev_offset());
    let _fits = bytes.try_extend_from_slice(offset.as_slice());
    let _fits = bytes.try_extend_from_slice(&[context.address_size]);
    bytes
}

// The bytes of a section offset. (Each of its sizes by itself is moved at once.)
#[inline(always)]
fn offset_bytes(order: Order, format: Format, offset: u64) -> ArrayVec<u8, 16>
    requires { offset < 256 ^ offset_size format }
    ensures spelling { result.items ≡ (fixed order (offset_size format)).spell offset }
    ensures length { length result.items ≡ offset_size format }
{
    match format {
        Format::Dwarf32 => write_fixed(order, 4, offset as u128),
        Format::Dwarf64 => write_fixed(order, 8, offset as u128),
    }
}

/// The number of a kind (section 7.5.1). A unit of version 4 has none: 0.
fn unit_type(kind: Kind) -> u8
    ensures number { result ≡ kind_number kind }
    ensures small { result ≤ 4 }
{
    match kind {
        Kind::Compile => 1,
        Kind::TypeUnit { .. } => 2,
        Kind::Partial => 3,
        Kind::Skeleton { .. } => 4,
        Kind::Four => 0,
    }
}

/// What the unit type adds to a header.
fn added_bytes(order: Order, format: Format, kind: Kind) -> ArrayVec<u8, 16>
    requires { KindFits format kind }
    ensures spelling { result.items ≡ (numbers order (added_sizes format (kind_number kind))).spell (kind_fields kind) }
{
    match kind {
        Kind::Compile | Kind::Partial | Kind::Four => ArrayVec::new(),
        Kind::TypeUnit {
            signature,
            type_offset,
        } => {
            let mut bytes = write_fixed(order, 8, signature as u128);
            let offset = offset_bytes(order, format, type_offset);
            let _fits = bytes.try_extend_from_slice(offset.as_slice());
            bytes
        }
        Kind::Skeleton { dwo_id } => write_fixed(order, 8, dwo_id as u128),
    }
}
