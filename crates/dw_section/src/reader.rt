//! Reading a section from a reader.
ghost use Rattle.std.specs.Prelude.{◌≡◌, ◌<◌, ◌≤◌, ◌+◌, ◌^◌, List, ℕ, Option, length, true, false, None, IfOk, IfErr, OnOk};
ghost use Rattle.dw_leb.specs.declared.errors.SectionId.TheVariants.{Info};
ghost use Rattle.dw_abbrev.specs.TableErrors.{refused_memory};
ghost use Rattle.dw_leb.specs.Watch.{inner_of, fault_of, reader_fault, KeptSome};
ghost use Rattle.dw_header.specs.declared.versions.Versions.TheVariants.{Five};
ghost use Rattle.dw_unit.specs.UnitView.{FaultWithin};
ghost use Rattle.dw_feed.specs.Feed.{behind};
ghost use Rattle.dw_section.specs.Item.{ItemFits};
ghost use Rattle.dw_section.specs.ItemView.{item_of};
ghost use Rattle.dw_section.specs.Push.{with_item};
ghost use Rattle.dw_section.specs.Reads.{TakesSection, TakesNoSection, AddsItem, AddsNext, EndsAt, TakesNoItem, ReadsMarks, HasLength, HasKind, moved, moved_error, fault_at};
ghost use Rattle.dw_section.specs.Section.{section_bytes};

use crate::item::Item;
use crate::kind::shows_known;
use crate::section::Section;
use dw_abbrev::Tables;
use dw_feed::{read_field, read_some, read_unit_as, read_unit_begun, read_up_to};
use dw_leb::{Fault, Order, ReadError, Reason, SectionId, Watched, read_length};
use dw_unit::Versions;
use std::alloc::Global;
use std::io::Read;

/// The most bytes behind an initial length that show of which kind an item is: a version and a unit type.
const MARKS: u64 = 3;

/// The most bytes behind an initial length that are asked for at once. Where a read gives fewer, and for a longer unit,
/// they go into the feeds as they come.
const SHORT: u64 = 1024;

/// The section `.debug_info` that is all of what the reader has left, with units of version 5 (section 7.5), in
/// whatever pieces its bytes come. At `Ok` nothing is left unread. `abbreviations` has the bytes of the
/// section `.debug_abbrev` that belongs to it.
///
/// Items of other versions and unit types are kept as their bytes. An item of at most 1,024 bytes behind its length
/// field is asked for at once. Where the reader gives fewer, what came is looked at before it is asked for more; so the
/// bytes of a longer unit go into the feeds as they come, and none is kept beside the unit's tree.
///
/// A fault is the first one of the section. Its offset counts from the section's first byte, or from the first
/// byte of `.debug_abbrev` where it is a table's. `Truncated` comes only where the reader has no more: a short
/// read is no end, and a read of 0 bytes is. `Io` is returned exactly where the reader failed, with the kind
/// that `fault()` then returns. `NoMemory` is returned where a growth was refused, and only where at least a
/// byte was taken. After an error no byte was taken past the end of the item where it came, and none past that item's
/// length field while this is unread or refused.
///
/// Memory grows by the bytes that came, never by a length that was only announced.
pub fn read_section<R: Read>(
    alloc: Global,
    order: Order,
    abbreviations: &[u8],
    reader: &mut Watched<R>,
) -> Result<Section, ReadError>
    requires { fault_of reader.old ≡ None }
    ensures found { IfOk result (TakesSection Five order abbreviations.now
        (R.remaining (inner_of reader.old))
        (R.remaining (inner_of reader.new))) }
    ensures broken { IfErr result (TakesNoSection Five order abbreviations.now
        (R.remaining (inner_of reader.old))
        (R.remaining (inner_of reader.new))) }
    ensures memory { KeptSome (R.remaining (inner_of reader.old)) (R.remaining (inner_of reader.new)) result }
    ensures fault { fault_of reader.new ≡ reader_fault result }
{
    read_section_as(alloc, order, Versions::Five, abbreviations, reader)
}

/// The section `.debug_info` that is all of what the reader has left, with units of these versions, as
/// `read_section` gives it for version 5.
pub fn read_section_as<R: Read>(
    alloc: Global,
    order: Order,
    versions: Versions,
    abbreviations: &[u8],
    reader: &mut Watched<R>,
) -> Result<Section, ReadError>
    requires { fault_of reader.old ≡ None }
    ensures found { IfOk result (TakesSection versions order abbreviations.now
        (R.remaining (inner_of reader.old))
        (R.remaining (inner_of reader.new))) }
    ensures broken { IfErr result (TakesNoSection versions order abbreviations.now
        (R.remaining (inner_of reader.old))
        (R.remaining (inner_of reader.new))) }
    ensures memory { KeptSome (R.remaining (inner_of reader.old)) (R.remaining (inner_of reader.new)) result }
    ensures fault { fault_of reader.new ≡ reader_fault result }
{
    let mut tables = Tables::new(alloc, abbreviations);
    read_items(alloc, order, versions, &mut tables, reader)
}

/// The items of the section, one after the other, over these tables.
fn read_items<R: Read>(
    alloc: Global,
    order: Order,
    versions: Versions,
    tables: &mut Tables<'_>,
    reader: &mut Watched<R>,
) -> Result<Section, ReadError>
    requires { fault_of reader.old ≡ None }
    ensures found { IfOk result (TakesSection versions order tables.old
        (R.remaining (inner_of reader.old))
        (R.remaining (inner_of reader.new))) }
    ensures broken { IfErr result (TakesNoSection versions order tables.old
        (R.remaining (inner_of reader.old))
        (R.remaining (inner_of reader.new))) }
    ensures memory { KeptSome (R.remaining (inner_of reader.old)) (R.remaining (inner_of reader.new)) result }
    ensures tables { tables.new ≡ tables.old }
    ensures fault { fault_of reader.new ≡ reader_fault result }
{
    let mut section = Section::new_as(alloc, order, versions);
    let mut taken = Vec::new(alloc);
    loop {
        let start = Start {
            order,
            versions,
            offset: section.size(),
        };
        let more = next_item(alloc, start, &mut taken, tables, reader, &mut section)?;
        if !more {
            return Ok(section);
        }
    }
}

/// Where an item begins, and what is read there.
#[derive(Clone, Copy)]
struct Start {
    order: Order,
    versions: Versions,
    /// Counted from the section's first byte.
    offset: u64,
}

/// Adds the item that begins there, and at the front of what the reader has left, to a section that ends there; false
/// where that is nothing. `taken` is room for bytes of it. It is added where it is read, since handing it from call
/// to call would cost more than a small one.
fn next_item<R: Read>(
    alloc: Global,
    start: Start,
    taken: &mut Vec<u8>,
    tables: &mut Tables<'_>,
    reader: &mut Watched<R>,
    section: &mut Section,
) -> Result<bool, ReadError>
    requires clear { fault_of reader.old ≡ None }
    requires there { EndsAt start.versions start.order start.offset section.old }
    ensures found { IfOk result (AddsNext start.versions start.order tables.old start.offset
        (R.remaining (inner_of reader.old))
        (R.remaining (inner_of reader.new))
        section.old section.new) }
    ensures broken { IfErr result (TakesNoItem start.versions start.order tables.old start.offset
        (R.remaining (inner_of reader.old))
        (R.remaining (inner_of reader.new))) }
    ensures memory { KeptSome (R.remaining (inner_of reader.old)) (R.remaining (inner_of reader.new)) result }
    ensures tables { tables.new ≡ tables.old }
    ensures fault { fault_of reader.new ≡ reader_fault result }
{
    taken.clear();
    read_field(reader, taken)?;
    if taken.as_slice().is_empty() {
        return Ok(false);
    }
    match read_length(start.order, start.offset, taken.as_slice()) {
        Ok((_, n)) => {
            item_behind(alloc, start, n, taken, tables, reader, section)?;
            Ok(true)
        }
        Err(reason) => Err(fault_at(start.offset, reason)),
    }
}

/// A fault in the section's own bytes, where they are no unit's.
fn fault_at(offset: u64, reason: Reason) -> ReadError
    ensures { result ≡ fault_at offset reason }
{
    ReadError::Fault(Fault {
        section: SectionId::Info,
        offset,
        reason,
    })
}

/// Adds an item that was taken.
fn keep_taken(section: &mut Section, item: Item) -> Result<(), ReadError>
    requires { ItemFits section.old.versions section.old.order (length (section_bytes section.old)) (item_of item) }
    ensures kept { OnOk result (section.new ≡ with_item section.old (item_of item)) }
    ensures refused { IfErr result (λ e. e ≡ refused_memory) }
{
    match section.keep(item) {
        Ok(()) => Ok(()),
        Err(_) => Err(ReadError::NoMemory),
    }
}

/// Adds the item of which these bytes, its length field, were taken, with `n` bytes behind them.
fn item_behind<R: Read>(
    alloc: Global,
    start: Start,
    n: u64,
    taken: &mut Vec<u8>,
    tables: &mut Tables<'_>,
    reader: &mut Watched<R>,
    section: &mut Section,
) -> Result<(), ReadError>
    requires clear { fault_of reader.old ≡ None }
    requires begun { HasLength start.order start.offset n taken.old.items }
    requires there { EndsAt start.versions start.order start.offset section.old }
    ensures found { OnOk result (AddsItem start.versions start.order tables.old start.offset
        (behind taken.old.items (R.remaining (inner_of reader.old)))
        (R.remaining (inner_of reader.new))
        section.old section.new) }
    ensures broken { IfErr result (TakesNoItem start.versions start.order tables.old start.offset
        (behind taken.old.items (R.remaining (inner_of reader.old)))
        (R.remaining (inner_of reader.new))) }
    ensures memory { KeptSome (behind taken.old.items (R.remaining (inner_of reader.old)))
        (R.remaining (inner_of reader.new)) result }
    ensures tables { tables.new ≡ tables.old }
    ensures fault { fault_of reader.new ≡ reader_fault result }
{
    let field = taken.as_slice().len();
    take_marks(n, taken, reader)?;
    match shows_known(start.versions, start.order, n, &taken.as_slice()[field..]) {
        Ok(true) => {
            if taken.as_slice().len() as u64 == field as u64 + n {
                return whole_item(alloc, start, taken.as_slice(), tables, section);
            }
            known_item(alloc, start, taken.as_slice(), tables, reader, section)
        }
        Ok(false) => other_item(alloc, start, field, n, taken, reader, section),
        Err(e) => Err(fault_at(start.offset + field as u64 + e.offset as u64, e.reason)),
    }
}

/// Takes of the `n` bytes behind a length field those that show of which kind the item is; of a short item all that one
/// read gives.
fn take_marks<R: Read>(
    n: u64,
    taken: &mut Vec<u8>,
    reader: &mut Watched<R>,
) -> Result<(), ReadError>
    requires { fault_of reader.old ≡ None }
    ensures bytes { ReadsMarks taken.old.items taken.new.items
        (R.remaining (inner_of reader.old))
        (R.remaining (inner_of reader.new))
        n result }
    ensures few { OnOk result (length taken.new.items ≤ length taken.old.items + 1027) }
    ensures memory { KeptSome (R.remaining (inner_of reader.old)) (R.remaining (inner_of reader.new)) result }
    ensures fault { fault_of reader.new ≡ reader_fault result }
{
    if n > SHORT {
        return read_up_to(reader, MARKS, taken);
    }
    let field = taken.as_slice().len();
    read_some(reader, n as usize, taken)?;
    let got = (taken.as_slice().len() - field) as u64;
    read_up_to(reader, n.min(MARKS).saturating_sub(got), taken)
}

/// Adds the item of a known kind that these bytes are.
fn whole_item(
    alloc: Global,
    start: Start,
    bytes: &[u8],
    tables: &mut Tables<'_>,
    section: &mut Section,
) -> Result<(), ReadError>
    requires begun { (n : ℕ) × (field : ℕ) × HasKind start.versions start.order start.offset n field bytes.now true
        × (length bytes.now ≡ field + n) }
    requires there { EndsAt start.versions start.order start.offset section.old }
    ensures found { (old : Option (List ℕ)) → OnOk result (AddsItem start.versions start.order tables.old
        start.offset (behind bytes.now old) old section.old section.new) }
    ensures broken { (old : Option (List ℕ)) → IfErr result (TakesNoItem start.versions start.order tables.old
        start.offset (behind bytes.now old) old) }
    ensures memory { (old : Option (List ℕ)) → KeptSome (behind bytes.now old) old result }
    ensures tables { tables.new ≡ tables.old }
    ensures fault { reader_fault result ≡ None }
{
    match read_unit_as(alloc, start.order, start.versions, tables, bytes) {
        Ok((unit, _)) => keep_taken(section, Item::Known(unit)),
        Err(e) => Err(moved_error(start.offset, e)),
    }
}

/// Adds the item of a known kind of which these bytes were taken.
fn known_item<R: Read>(
    alloc: Global,
    start: Start,
    taken: &[u8],
    tables: &mut Tables<'_>,
    reader: &mut Watched<R>,
    section: &mut Section,
) -> Result<(), ReadError>
    requires clear { fault_of reader.old ≡ None }
    requires begun { (n : ℕ) × (field : ℕ) × HasKind start.versions start.order start.offset n field taken.now true }
    requires few { length taken.now ≤ 65536 }
    requires there { EndsAt start.versions start.order start.offset section.old }
    ensures found { OnOk result (AddsItem start.versions start.order tables.old start.offset
        (behind taken.now (R.remaining (inner_of reader.old)))
        (R.remaining (inner_of reader.new))
        section.old section.new) }
    ensures broken { IfErr result (TakesNoItem start.versions start.order tables.old start.offset
        (behind taken.now (R.remaining (inner_of reader.old)))
        (R.remaining (inner_of reader.new))) }
    ensures memory { KeptSome (behind taken.now (R.remaining (inner_of reader.old)))
        (R.remaining (inner_of reader.new)) result }
    ensures tables { tables.new ≡ tables.old }
    ensures fault { fault_of reader.new ≡ reader_fault result }
{
    match read_unit_begun(alloc, start.order, start.versions, taken, tables, reader) {
        Ok(unit) => keep_taken(section, Item::Known(unit)),
        Err(error) => Err(moved_error(start.offset, error)),
    }
}

/// Adds the item of no known kind of which these bytes were taken: its length field of so many bytes, and some of the
/// `n` behind it.
fn other_item<R: Read>(
    alloc: Global,
    start: Start,
    field: usize,
    n: u64,
    taken: &mut Vec<u8>,
    reader: &mut Watched<R>,
    section: &mut Section,
) -> Result<(), ReadError>
    requires clear { fault_of reader.old ≡ None }
    requires begun { HasKind start.versions start.order start.offset n field taken.old.items false }
    requires there { EndsAt start.versions start.order start.offset section.old }
    ensures found { (abbreviations : List ℕ) → OnOk result
        (AddsItem start.versions start.order abbreviations start.offset
        (behind taken.old.items (R.remaining (inner_of reader.old)))
        (R.remaining (inner_of reader.new))
        section.old section.new) }
    ensures broken { (abbreviations : List ℕ) → IfErr result
        (TakesNoItem start.versions start.order abbreviations start.offset
        (behind taken.old.items (R.remaining (inner_of reader.old)))
        (R.remaining (inner_of reader.new))) }
    ensures memory { KeptSome (behind taken.old.items (R.remaining (inner_of reader.old)))
        (R.remaining (inner_of reader.new)) result }
    ensures fault { fault_of reader.new ≡ reader_fault result }
{
    let size = field as u64 + n;
    let most = size - taken.as_slice().len() as u64;
    read_up_to(reader, most, taken)?;
    if (taken.as_slice().len() as u64) < size {
        return Err(fault_at(start.offset + field as u64, Reason::Truncated));
    }
    let none = Vec::new(alloc);
    let bytes = std::mem::replace(taken, none);
    keep_taken(section, Item::Other(bytes))
}

/// The fault of a unit that stands alone, where the unit begins at this start of the section. A table's isn't
/// moved.
fn moved(start: u64, fault: Fault) -> Fault
    requires near { fault.section ≡ Info → fault.offset ≤ 2 ^ 63 }
    requires start { start < 2 ^ 63 }
    ensures { result ≡ moved start fault }
{
    match fault.section {
        SectionId::Info => Fault {
            section: SectionId::Info,
            offset: start + fault.offset,
            reason: fault.reason,
        },
        SectionId::Abbrev => fault,
    }
}

/// The error of reading a unit that stands alone, where the unit begins at this start of the section.
fn moved_error(start: u64, error: ReadError) -> ReadError
    requires near { FaultWithin (2 ^ 63) error }
    requires start { start < 2 ^ 63 }
    ensures { result ≡ moved_error start error }
{
    match error {
        ReadError::Fault(fault) => ReadError::Fault(moved(start, fault)),
        ReadError::NoMemory => ReadError::NoMemory,
        ReadError::Io(kind) => ReadError::Io(kind),
    }
}
