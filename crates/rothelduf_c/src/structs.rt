//! The structs that cross to C.
ghost use Rattle.std.specs.Prelude.{◌≡◌, ◌≤◌};
ghost use Rattle.dw_form.specs.Head.{via_width};
ghost use Rattle.dw_form.specs.Lent.{attribute_of};
ghost use Rattle.dw_tree.specs.Lent.{attr_of};
ghost use Rattle.dw_feed.specs.HeldView.{held_of};
ghost use Rattle.rothelduf_c.specs.Numbers.{section_number, reason_number};
ghost use Rattle.rothelduf_c.specs.Opens.{order_of, versions_of};
ghost use Rattle.rothelduf_c.specs.Seen as seen;
ghost use Rattle.rothelduf_c.specs.Seen.{seen_attr, seen_entry, seen_finding, seen_held, seen_unit, signed_by, wide};

use crate::numbers;
use dw_check::Finding;
use dw_feed::Held;
use dw_form::{AttrValue, Value};
use dw_leb::{Fault, Format, Order};
use dw_section::EntryId;
use dw_unit::{AttrRef, EntryRef, Kind, Unit, Versions};

/// No entry begins here.
pub const END: u64 = u64::MAX;

/// Why a section is refused, and where.
#[repr(C)]
#[derive(Clone, Copy)]
pub struct CFault {
    /// 0 is `.debug_info`, 1 is `.debug_abbrev`.
    pub section: u32,
    /// The number of a `Reason`.
    pub reason: u32,
    /// Where the broken field begins.
    pub offset: u64,
}

/// An entry's name: its item, and where it begins in it.
#[repr(C)]
#[derive(Clone, Copy)]
pub struct CId {
    pub item: usize,
    pub offset: u64,
}

/// A unit (section 7.5.1).
#[repr(C)]
#[derive(Clone, Copy)]
pub struct CUnit {
    /// Where it begins in the section.
    pub start: u64,
    /// Its bytes, with its initial length.
    pub size: u64,
    pub abbrev_offset: u64,
    /// The signature of a type unit, the id of a skeleton unit, else 0.
    pub signature: u64,
    /// The type_offset of a type unit, else 0.
    pub type_offset: u64,
    /// The count of its entries and of the nulls that end their children.
    pub rows: usize,
    /// 1 to 4 as the unit type, 0 of version 4.
    pub kind: u32,
    /// Whether its format is the 64-bit one.
    pub wide: bool,
    pub address_size: u8,
}

/// An entry.
#[repr(C)]
#[derive(Clone, Copy)]
pub struct CEntry {
    pub offset: u64,
    pub tag: u64,
    pub depth: u64,
    /// How many attributes it has, where they were asked for.
    pub attributes: usize,
}

/// An attribute.
#[repr(C)]
#[derive(Clone, Copy)]
pub struct CAttr {
    pub name: u64,
    pub form: u64,
    /// Where its value begins in the unit.
    pub offset: u64,
    /// The number of the kinds 0 and 1; of 7 its lower half.
    pub number: u64,
    /// The number of the kinds 2 and 3.
    pub signed: i64,
    /// The upper half of a number of 16 bytes.
    pub high: u64,
    /// How many bytes the content of the kinds 5 and 6 has.
    pub length: usize,
    /// How many bytes of the value stand before that content.
    pub front: u32,
    /// 0 a fixed number, 1 an unsigned LEB128 one, 2 a signed one, 3 the declaration's constant, 4 that it is there,
    /// 5 a block, 6 a text, 7 a number of 16 bytes.
    pub kind: u32,
}

/// A text: in which section, where, and how long.
#[repr(C)]
#[derive(Clone, Copy)]
pub struct CText {
    /// Counted from the section's first byte.
    pub offset: u64,
    pub length: usize,
    /// 1 `.debug_str`, 2 `.debug_line_str`; 0 would be a value that is a text of its own, and no number is one.
    pub section: u32,
}

/// What `rothelduf_walk` filled.
#[repr(C)]
#[derive(Clone, Copy)]
pub struct CFilled {
    pub entries: usize,
    pub attributes: usize,
    /// Where the first entry begins that isn't filled; `END` where all are.
    pub next: u64,
}

/// What a feed holds of a unit.
#[repr(C)]
#[derive(Clone, Copy)]
pub struct CHeld {
    /// The bytes of a number or of a length field that isn't whole.
    pub pending: usize,
    /// The entries whose subtree hasn't ended.
    pub nested: usize,
    pub entries: usize,
    /// The bytes of texts and blocks that came.
    pub pool: usize,
    /// The values that are whole: the lower half of their count.
    pub values: u64,
    /// The upper half.
    pub values_high: u64,
}

/// Something that is wrong.
#[repr(C)]
#[derive(Clone, Copy)]
pub struct CFinding {
    pub offset: u64,
    pub position: u64,
    pub kind: u32,
}

pub fn order_of(big: bool) -> Order
    ensures { result ≡ order_of big }
{
    if big { Order::Big } else { Order::Little }
}

pub fn versions_of(four: bool) -> Versions
    ensures { result ≡ versions_of four }
{
    if four {
        Versions::FourAndFive
    } else {
        Versions::Five
    }
}

/// The number of this size, or its negative.
pub fn signed(minus: bool, size: u64) -> i128
    ensures { result ≡ signed_by minus size }
{
    if minus { -(size as i128) } else { size as i128 }
}

pub fn c_fault(fault: Fault) -> CFault
    ensures section { result.section ≡ section_number fault.section }
    ensures offset { result.offset ≡ fault.offset }
    ensures reason { result.reason ≡ reason_number fault.reason }
{
    CFault {
        section: numbers::of_section(fault.section),
        reason: numbers::of_reason(fault.reason),
        offset: fault.offset,
    }
}

pub fn id_of(id: &CId) -> EntryId
    ensures { result ≡ seen.id_of id.now }
{
    EntryId {
        item: id.item,
        offset: id.offset,
    }
}

pub fn c_id(id: EntryId) -> CId
    ensures { seen.id_of result ≡ id }
{
    CId {
        item: id.item,
        offset: id.offset,
    }
}

pub fn c_unit(unit: &Unit, start: u64) -> CUnit
    ensures { result ≡ seen_unit start unit.now }
{
    let header = unit.header();
    let (kind, signature, type_offset) = match header.kind() {
        Kind::Compile => (1, 0, 0),
        Kind::TypeUnit {
            signature,
            type_offset,
        } => (2, signature, type_offset),
        Kind::Partial => (3, 0, 0),
        Kind::Skeleton { dwo_id } => (4, dwo_id, 0),
        Kind::Four => (0, 0, 0),
    };
    CUnit {
        start,
        size: unit.size(),
        abbrev_offset: header.abbrev_offset(),
        signature,
        type_offset,
        rows: unit.tree().row_count(),
        kind,
        wide: is_wide(header.format()),
        address_size: header.address_size(),
    }
}

/// Whether it is the 64-bit format (section 7.4).
fn is_wide(format: Format) -> bool
    ensures { result ≡ wide format }
{
    match format {
        Format::Dwarf32 => false,
        Format::Dwarf64 => true,
    }
}

#[inline(always)]
pub fn c_entry(entry: &EntryRef<'_>) -> CEntry
    ensures { result ≡ seen_entry entry.now }
{
    CEntry {
        offset: entry.offset(),
        tag: entry.tag(),
        depth: entry.depth(),
        attributes: 0,
    }
}

/// The count of bytes of the form that an indirect value names.
#[inline(always)]
fn via_width(attr: &AttrValue<'_>) -> u32
    ensures width { result ≡ via_width (attribute_of attr.now).via }
    ensures small { result ≤ 255 }
{
    match attr.via {
        Some(via) => via.width as u32,
        None => 0,
    }
}

#[inline(always)]
pub fn c_attr(attr: &AttrRef<'_>) -> CAttr
    ensures { result ≡ seen_attr (attr_of attr.now) }
{
    let mut seen = CAttr {
        name: attr.name,
        form: attr.form,
        offset: attr.offset,
        number: 0,
        signed: 0,
        high: 0,
        length: 0,
        front: via_width(&attr.attr),
        kind: 0,
    };
    match attr.attr.value {
        Value::Num(number) => seen.number = number,
        Value::Uleb(number) => {
            seen.number = number.value;
            seen.kind = 1;
        }
        Value::Sleb(number) => {
            seen.signed = number.value;
            seen.kind = 2;
        }
        Value::Implicit(number) => {
            seen.signed = number.value;
            seen.kind = 3;
        }
        Value::Present => seen.kind = 4,
        Value::Block { width, bytes } => {
            seen.front += width as u32;
            seen.length = bytes.len();
            seen.kind = 5;
        }
        Value::Text(bytes) => {
            seen.length = bytes.len();
            seen.kind = 6;
        }
        Value::Wide(number) => {
            seen.number = (number % (1 << 64)) as u64;
            seen.high = (number / (1 << 64)) as u64;
            seen.kind = 7;
        }
    }
    seen
}

pub fn c_finding(finding: &Finding) -> CFinding
    ensures { result ≡ seen_finding finding.now }
{
    CFinding {
        offset: finding.offset,
        position: finding.position,
        kind: finding.kind.number() as u32,
    }
}

pub fn c_held(held: &Held) -> CHeld
    ensures { result ≡ seen_held (held_of held.now) }
{
    CHeld {
        pending: held.pending,
        nested: held.nested,
        entries: held.entries,
        pool: held.pool,
        values: (held.values % (1 << 64)) as u64,
        values_high: (held.values / (1 << 64)) as u64,
    }
}
