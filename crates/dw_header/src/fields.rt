//! The fields of a unit header after its length (section 7.5.1).
ghost use Rattle.std.specs.Prelude.{◌≡◌, ◌≤◌, ◌<◌, ◌+◌, ◌^◌, ◌==◌, length, IfOk, IfErr};
ghost use Rattle.dw_leb.specs.Number.{offset_size};
ghost use Rattle.dw_leb.specs.Reader.{checked, ◌and_then◌};
ghost use Rattle.dw_leb.specs.ReadNumber.{read_fixed as fixed_reader};
ghost use Rattle.dw_header.specs.Header.{HeaderFits, added_sizes, kind_number, kind_fields, bad_type, bad_address_size};
ghost use Rattle.dw_header.specs.ReadHeader.{kind_from, header_from, read_numbers, read_four, read_five, read_behind, read_fields};
ghost use Rattle.dw_leb.specs.Outcomes.{outcome_from};
ghost use Rattle.dw_header.specs.FieldsView.{after_type, after_version, all_fields};

use crate::kind::Kind;
use crate::versions::Versions;
use dw_leb::{Bad, Format, Order, Reason, read_fixed};

/// The fields between the version and the first entry.
#[derive(Clone, Copy)]
pub(crate) struct HeaderFields {
    pub(crate) kind: Kind,
    pub(crate) address_size: u8,
    pub(crate) abbrev_offset: u64,
}

/// A number of `n` bytes and its size.
fn number(order: Order, n: u8, b: &[u8], lim: u64) -> Result<(u64, usize), Bad>
    requires some { 1 ≤ n }
    requires most { n ≤ 8 }
    ensures exact { fixed_reader order n b.now lim ≡ outcome_from (λ x. x) result }
    ensures small { IfOk result (λ x. x.0 < 256 ^ n) }
    ensures room { IfOk result (λ x. (x.1 ≡ n) × (n ≤ length b.now) × (n ≤ lim)) }
    ensures near { IfErr result (λ e. e.offset ≤ length b.now) }
{
    match read_fixed(order, n, b, lim) {
        Ok(x) => Ok((x as u64, n as usize)),
        Err(reason) => Err(Bad::here(reason)),
    }
}

/// What the unit type adds.
fn added(
    order: Order,
    format: Format,
    unit_type: u8,
    b: &[u8],
    lim: u64,
) -> Result<(Kind, usize), Bad>
    requires some { 1 ≤ unit_type }
    requires most { unit_type ≤ 4 }
    ensures exact { read_numbers order (added_sizes format unit_type) b.now lim ≡ outcome_from kind_fields result }
    ensures kind { IfOk result (λ x. kind_number x.0 ≡ unit_type) }
    ensures room { IfOk result (λ x. (x.1 ≤ length b.now) × (x.1 ≤ lim) × (x.1 ≤ 16)) }
    ensures near { IfErr result (λ e. e.offset ≤ length b.now) }
{
    match unit_type {
        1 => Ok((Kind::Compile, 0)),
        3 => Ok((Kind::Partial, 0)),
        2 => type_fields(order, format, b, lim),
        _ => {
            let (dwo_id, size) = number(order, 8, b, lim)?;
            Ok((Kind::Skeleton { dwo_id }, size))
        }
    }
}

/// The signature and the type's offset.
fn type_fields(order: Order, format: Format, b: &[u8], lim: u64) -> Result<(Kind, usize), Bad>
    ensures exact { read_numbers order (added_sizes format 2) b.now lim ≡ outcome_from kind_fields result }
    ensures kind { IfOk result (λ x. kind_number x.0 ≡ 2) }
    ensures room { IfOk result (λ x. (x.1 ≤ length b.now) × (x.1 ≤ lim) × (x.1 ≤ 16)) }
    ensures near { IfErr result (λ e. e.offset ≤ length b.now) }
{
    let (signature, _) = number(order, 8, b, lim)?;
    match number(order, format.offset_size(), &b[8..], lim - 8) {
        Ok((type_offset, size)) => {
            let kind = Kind::TypeUnit {
                signature,
                type_offset,
            };
            Ok((kind, 8 + size))
        }
        Err(e) => Err(e.behind(8)),
    }
}

/// The abbreviation offset, and what the unit type adds.
fn offsets(
    order: Order,
    format: Format,
    unit_type: u8,
    b: &[u8],
    lim: u64,
) -> Result<((u64, Kind), usize), Bad>
    requires some { 1 ≤ unit_type }
    requires most { unit_type ≤ 4 }
    ensures exact { (fixed_reader order (offset_size format) and_then λ _. read_numbers order
        (added_sizes format unit_type)) b.now
        lim
        ≡ outcome_from (λ x. (x.0, kind_fields x.1)) result }
    ensures kind { IfOk result (λ x. kind_number x.0.1 ≡ unit_type) }
    ensures room { IfOk result (λ x. (x.1 ≤ length b.now) × (x.1 ≤ lim) × (x.1 ≤ 24)) }
    ensures near { IfErr result (λ e. e.offset ≤ length b.now) }
{
    let (offset, size) = number(order, format.offset_size(), b, lim)?;
    match added(order, format, unit_type, &b[size..], lim - size as u64) {
        Ok((kind, more)) => Ok(((offset, kind), size + more)),
        Err(e) => Err(e.behind(size)),
    }
}

/// The address size, and what follows it.
fn address(
    order: Order,
    format: Format,
    unit_type: u8,
    b: &[u8],
    lim: u64,
) -> Result<(HeaderFields, usize), Bad>
    requires some { 1 ≤ unit_type }
    requires most { unit_type ≤ 4 }
    ensures exact { (checked (fixed_reader order 1) bad_address_size and_then
        λ _. fixed_reader order (offset_size format) and_then λ _. read_numbers order (added_sizes format unit_type))
        b.now lim
        ≡ outcome_from after_type result }
    ensures kind { IfOk result (λ x. kind_number x.0.kind ≡ unit_type) }
    ensures room { IfOk result (λ x. (x.1 ≤ length b.now) × (x.1 ≤ lim) × (x.1 ≤ 25)) }
    ensures near { IfErr result (λ e. e.offset ≤ length b.now) }
{
    let (address_size, _) = number(order, 1, b, lim)?;
    if address_size < 1 || address_size > 8 {
        return Err(Bad::here(Reason::BadAddressSize));
    }
    match offsets(order, format, unit_type, &b[1..], lim - 1) {
        Ok(((abbrev_offset, kind), size)) => {
            let fields = HeaderFields {
                kind,
                address_size: address_size as u8,
                abbrev_offset,
            };
            Ok((fields, 1 + size))
        }
        Err(e) => Err(e.behind(1)),
    }
}

/// The unit type, and what follows it.
fn typed(order: Order, format: Format, b: &[u8], lim: u64) -> Result<(HeaderFields, usize), Bad>
    ensures exact { (checked (fixed_reader order 1) bad_type and_then λ kind. checked (fixed_reader order 1)
        bad_address_size and_then λ _. fixed_reader order (offset_size format) and_then λ _. read_numbers order
        (added_sizes format kind)) b.now lim ≡ outcome_from after_version result }
    ensures kind { IfOk result (λ x. kind_from (kind_number x.0.kind) (kind_fields x.0.kind) ≡ x.0.kind) }
    ensures room { IfOk result (λ x. (x.1 ≤ length b.now) × (x.1 ≤ lim) × (x.1 ≤ 26)) }
    ensures near { IfErr result (λ e. e.offset ≤ length b.now) }
{
    let (unit_type, _) = number(order, 1, b, lim)?;
    if unit_type < 1 || unit_type > 4 {
        return Err(Bad::here(Reason::BadUnitType));
    }
    match address(order, format, unit_type as u8, &b[1..], lim - 1) {
        Ok((fields, size)) => Ok((fields, 1 + size)),
        Err(e) => Err(e.behind(1)),
    }
}

/// What follows version 5.
fn five_fields(
    order: Order,
    format: Format,
    b: &[u8],
    lim: u64,
) -> Result<(HeaderFields, usize), Bad>
    ensures exact { read_five order format b.now lim ≡ outcome_from all_fields result }
    ensures room { IfOk result (λ x. (x.1 ≤ length b.now) × (x.1 ≤ lim) × (x.1 ≤ 26)) }
    ensures near { IfErr result (λ e. e.offset ≤ length b.now) }
{
    typed(order, format, b, lim)
}

/// What follows version 4: the abbreviation offset and the address size.
fn four_fields(
    order: Order,
    format: Format,
    b: &[u8],
    lim: u64,
) -> Result<(HeaderFields, usize), Bad>
    ensures exact { read_four order format b.now lim ≡ outcome_from all_fields result }
    ensures room { IfOk result (λ x. (x.1 ≤ length b.now) × (x.1 ≤ lim) × (x.1 ≤ 26)) }
    ensures near { IfErr result (λ e. e.offset ≤ length b.now) }
{
    let (abbrev_offset, size) = number(order, format.offset_size(), b, lim)?;
    match address_size(order, &b[size..], lim - size as u64) {
        Ok((address_size, more)) => {
            let fields = HeaderFields {
                kind: Kind::Four,
                address_size,
                abbrev_offset,
            };
            Ok((fields, size + more))
        }
        Err(e) => Err(e.behind(size)),
    }
}

/// The address size.
fn address_size(order: Order, b: &[u8], lim: u64) -> Result<(u8, usize), Bad>
    ensures exact { checked (fixed_reader order 1) bad_address_size b.now lim ≡ outcome_from (λ x. x) result }
    ensures room { IfOk result (λ x. (x.1 ≡ 1) × (1 ≤ length b.now) × (1 ≤ lim)) }
    ensures near { IfErr result (λ e. e.offset ≤ length b.now) }
{
    let (size, bytes) = number(order, 1, b, lim)?;
    if size < 1 || size > 8 {
        return Err(Bad::here(Reason::BadAddressSize));
    }
    Ok((size as u8, bytes))
}

/// What follows a version.
fn behind_version(
    order: Order,
    format: Format,
    version: u64,
    b: &[u8],
    lim: u64,
) -> Result<(HeaderFields, usize), Bad>
    ensures exact { read_behind order format (version == 4) b.now lim ≡ outcome_from all_fields result }
    ensures room { IfOk result (λ x. (x.1 ≤ length b.now) × (x.1 ≤ lim) × (x.1 ≤ 26)) }
    ensures near { IfErr result (λ e. e.offset ≤ length b.now) }
{
    if version == 4 {
        four_fields(order, format, b, lim)
    } else {
        five_fields(order, format, b, lim)
    }
}

/// All fields after the length: `lim` is the unit_length.
pub(crate) fn header_fields(
    order: Order,
    versions: Versions,
    format: Format,
    b: &[u8],
    lim: u64,
) -> Result<(HeaderFields, usize), Bad>
    ensures exact { read_fields versions order format b.now lim ≡ outcome_from all_fields result }
    ensures fits { IfOk result (λ x. HeaderFits (header_from order format (all_fields x.0))) }
    ensures room { IfOk result (λ x. (x.1 ≤ length b.now) × (x.1 ≤ lim) × (x.1 ≤ 28)) }
    ensures near { IfErr result (λ e. e.offset ≤ length b.now) }
{
    versioned(order, versions, format, b, lim)
}

#[tactic(auto, unfolding(crate::specs::ReadHeader::read_fields))]
fn versioned(
    order: Order,
    versions: Versions,
    format: Format,
    b: &[u8],
    lim: u64,
) -> Result<(HeaderFields, usize), Bad>
    ensures exact { read_fields versions order format b.now lim ≡ outcome_from all_fields result }
    ensures room { IfOk result (λ x. (x.1 ≤ length b.now) × (x.1 ≤ lim) × (x.1 ≤ 28)) }
    ensures near { IfErr result (λ e. e.offset ≤ length b.now) }
{
    let (version, _) = number(order, 2, b, lim)?;
    if versions.refuse(version) {
        return Err(Bad::here(Reason::BadVersion));
    }
    match behind_version(order, format, version, &b[2..], lim - 2) {
        Ok((fields, size)) => Ok((fields, 2 + size)),
        Err(e) => Err(e.behind(2)),
    }
}
