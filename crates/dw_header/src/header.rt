//! Unit headers (section 7.5.1).
ghost use Rattle.std.specs.Prelude.{◌≡◌, ◌≤◌, ◌<◌, ◌+◌, ◌^◌, ℕ, length, nat_lt, IsSome, IfSome, IsTrue, ◌↔◌};
ghost use Rattle.dw_leb.specs.Number.{offset_size};
ghost use Rattle.dw_header.specs.FieldsView.{all_fields};
ghost use Rattle.dw_header.specs.ReadHeader.{header_from};
ghost use Rattle.dw_header.specs.Header.{HeaderFits, KindFits, context_of, fields, fields_of, header_of};
ghost use Rattle.dw_header.specs.HeaderPlace.{header_size};

use crate::fields::HeaderFields;
use crate::kind::Kind;
use dw_form::Ctx;
use dw_leb::{Format, Order};
use std::marker::Model;

/// The header of a unit, all but its unit_length. An address has 1 to 8 bytes, and each offset fits
/// the format's size.
#[derive(Clone, Copy, Debug, PartialEq, Eq)]
pub struct Header {
    order: Order,
    format: Format,
    kind: Kind,
    address_size: u8,
    abbrev_offset: u64,
}

impl Model for Header {
    ghost use Rattle.dw_header.specs.Header.{Header as TheHeader, HeaderFits};

    ghost Value = { TheHeader };

    ghost view = { λ a.
        record {
          order = a.order;
          format = a.format;
          kind = a.kind;
          address_size = a.address_size;
          abbrev_offset = a.abbrev_offset;
        } };

    ghost invariant = { λ a.
        HeaderFits
        (record {
          order = a.order;
          format = a.format;
          kind = a.kind;
          address_size = a.address_size;
          abbrev_offset = a.abbrev_offset;
        }) };

    ghost inverse = { λ h.
        record {
          order = h.order;
          format = h.format;
          kind = h.kind;
          address_size = h.address_size;
          abbrev_offset = h.abbrev_offset;
        } };
}

impl Header {
    /// A header of these fields, of version 4 where the kind is `Four`, and else of version 5. None exactly
    /// where the address size isn't 1 to 8, or an offset (the abbreviation offset, and a type unit's type
    /// offset) doesn't fit the format's size.
    pub fn new(
        order: Order,
        format: Format,
        kind: Kind,
        address_size: u8,
        abbrev_offset: u64,
    ) -> Option<Header>
        ensures some { IsSome result ↔ HeaderFits (header_of order format kind address_size abbrev_offset) }
        ensures value { IfSome result (λ h. h ≡ header_of order format kind address_size abbrev_offset) }
    {
        if address_size < 1 || address_size > 8 {
            return None;
        }
        if !fits_offset(format, abbrev_offset) || !fits_kind(format, kind) {
            return None;
        }
        Some(Header {
            order,
            format,
            kind,
            address_size,
            abbrev_offset,
        })
    }

    /// A header of fields that fit.
    pub(crate) fn of(order: Order, format: Format, fields: HeaderFields) -> Header
        requires { HeaderFits (header_from order format (all_fields fields)) }
        ensures { result ≡ header_from order format (all_fields fields) }
    {
        Header {
            order,
            format,
            kind: fields.kind,
            address_size: fields.address_size,
            abbrev_offset: fields.abbrev_offset,
        }
    }

    /// The byte order of its fixed numbers.
    pub fn order(&self) -> Order
        ensures { result ≡ self.now.order }
    {
        self.order
    }

    /// The format of its lengths and offsets.
    pub fn format(&self) -> Format
        ensures { result ≡ self.now.format }
    {
        self.format
    }

    /// The kind of unit, with the fields that it adds.
    pub fn kind(&self) -> Kind
        ensures { result ≡ self.now.kind }
    {
        self.kind
    }

    /// The bytes of an address.
    pub fn address_size(&self) -> u8
        ensures { result ≡ self.now.address_size }
    {
        self.address_size
    }

    /// Where the unit's abbreviation table begins in `.debug_abbrev`.
    pub fn abbrev_offset(&self) -> u64
        ensures { result ≡ self.now.abbrev_offset }
    {
        self.abbrev_offset
    }

    /// What the bytes of its values depend on.
    pub fn context(&self) -> Ctx
        ensures context { result ≡ context_of self.now }
        ensures fits { HeaderFits self.now }
    {
        Ctx {
            order: self.order,
            format: self.format,
            address_size: self.address_size,
        }
    }

    /// The count of its bytes, with those of the initial length before it (section 7.5.1): at most 44.
    /// The unit's root begins there.
    pub fn size(&self) -> u64
        ensures size { result ≡ header_size self.now }
        ensures small { result ≤ 44 }
    {
        fields_size(*self) + self.format.length_size() as u64
    }
}

/// The count of the bytes of a header's fields.
fn fields_size(header: Header) -> u64
    ensures size { result ≡ length ((fields header.order header.format).spell (fields_of header)) }
    ensures small { result ≤ 32 }
{
    let offset = header.format.offset_size() as u64;
    match header.kind {
        Kind::Compile | Kind::Partial => 4 + offset,
        Kind::TypeUnit { .. } => 12 + 2 * offset,
        Kind::Skeleton { .. } => 12 + offset,
        Kind::Four => 3 + offset,
    }
}

/// Whether an offset fits the format's size.
fn fits_offset(format: Format, offset: u64) -> bool
    ensures { result ≡ nat_lt offset (256 ^ offset_size format) }
{
    match format {
        Format::Dwarf32 => offset < 1 << 32,
        Format::Dwarf64 => true,
    }
}

/// Whether the fields of a kind fit their sizes.
fn fits_kind(format: Format, kind: Kind) -> bool
    ensures { IsTrue result ↔ KindFits format kind }
{
    match kind {
        Kind::TypeUnit { type_offset, .. } => fits_offset(format, type_offset),
        _ => true,
    }
}
