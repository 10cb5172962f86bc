//! The entry at an offset of a section.
ghost use Rattle.std.specs.Prelude.{◌≡◌, ◌≤◌, ◌<◌, ℕ, nat_le, length, slice_index_or, true, false, Some, IfSome};
ghost use Rattle.dw_tree.specs.Lent.{EntryAt};
ghost use Rattle.dw_section.specs.declared.id.EntryId.{EntryId};
ghost use Rattle.std.specs.List.Sorted.{IsNonDecreasingBy, IsPartitionPoint};
ghost use Rattle.dw_section.specs.ItemView.{item_of};
ghost use Rattle.dw_section.specs.Reference.{items_at, entry_in, in_item, in_section};
ghost use Rattle.dw_section.specs.Section.{SectionFits};
ghost use Rattle.dw_section.specs.Lookup.{find};
ghost use Rattle.dw_section.specs.Found.{BeginsAt};

use crate::id::{EntryId, RefFault};
use crate::item::Item;
use crate::section::Section;
use dw_unit::Unit;

impl Section {
    /// The entry that begins exactly at this offset, counted from the section's first byte: there is at most
    /// one. None exactly where no entry begins there. The item is found by halving, and so is the entry in it.
    /// No memory is taken.
    pub fn find(&self, section_offset: u64) -> Option<EntryId>
        ensures find { result ≡ find self.now.items section_offset }
        ensures found { IfSome result (λ id. (e : EntryAt) × BeginsAt self.now.items id e section_offset) }
        ensures each { (id : EntryId) (e : EntryAt) → BeginsAt self.now.items id e section_offset → result ≡ Some id }
    {
        match self.in_section(section_offset) {
            Ok(id) => Some(id),
            Err(_) => None,
        }
    }

    /// The entry that begins exactly at this offset of the section, or why there is none.
    pub(crate) fn in_section(&self, offset: u64) -> Result<EntryId, RefFault>
        ensures named { result ≡ in_section (items_at self.now.items) offset }
        ensures fits { SectionFits self.now }
    {
        if offset >= self.end {
            return Err(RefFault::OutsideSection);
        }
        let starts = self.starts.as_slice();
        let number = last_start(starts, offset);
        let id = EntryId {
            item: number,
            offset: offset - starts[number],
        };
        match self.items.get(number) {
            Some(item) => in_item(item, id),
            None => unreachable!(),
        }
    }
}

/// The number of the last start at or before an offset, found by halving.
fn last_start(starts: &[u64], offset: u64) -> usize
    requires rising { IsNonDecreasingBy (λ x. x) starts.now }
    requires some { 0 < length starts.now }
    requires first { (d : ℕ) → slice_index_or starts.now 0 d ≤ offset }
    ensures inside { result < length starts.now }
    ensures at { (d : ℕ) → slice_index_or starts.now result d ≤ offset }
    ensures behind { (i d : ℕ) → result < i → i < length starts.now → offset < slice_index_or starts.now i d }
{
    let count = starts_up_to(starts, offset);
    count - 1
}

/// How many starts are at or before an offset.
fn starts_up_to(starts: &[u64], offset: u64) -> usize
    requires { IsNonDecreasingBy (λ x. x) starts.now }
    ensures bound { result ≤ length starts.now }
    ensures point { IsPartitionPoint (λ y. nat_le y offset ≡ true) (λ y. nat_le y offset ≡ false) starts.now result }
{
    starts.partition_point(
        |start: &u64| -> bool
            ensures { result ≡ nat_le start.now offset }
        { *start <= offset },
    )
}

/// The entry of an item that begins exactly there, or why there is none.
fn in_item(item: &Item, id: EntryId) -> Result<EntryId, RefFault>
    ensures { result ≡ in_item id.item id.offset (item_of item.now) }
{
    match item {
        Item::Known(unit) => entry_in(unit, id, RefFault::NotAnEntry),
        Item::Other(_) => Err(RefFault::InOther),
    }
}

/// The entry of a unit that begins exactly there, or why there is none.
pub(crate) fn entry_in(unit: &Unit, id: EntryId, why: RefFault) -> Result<EntryId, RefFault>
    ensures { result ≡ entry_in why unit.now id }
{
    match unit.entry_at(id.offset) {
        Some(_) => Ok(id),
        None => Err(why),
    }
}
