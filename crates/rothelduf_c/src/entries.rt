//! Entries and attributes.
ghost use Rattle.std.specs.Prelude.{◌≡◌, ◌≢◌, ℕ, List, [], length, min, take, map, Some, None};
ghost use Rattle.dw_tree.specs.Lent.{EntryAt, attributes_of, entries_of};
ghost use Rattle.dw_unit.specs.Unit.{WholeUnit, tree_of};
ghost use Rattle.dw_section.specs.Lookup.{entry, find, unit_at};
ghost use Rattle.dw_section.specs.Section.{WholeSection};
ghost use Rattle.rothelduf_c.specs.Seen.{id_of, seen_attr, seen_entry};
ghost use Rattle.rothelduf_c.specs.Status as status;
ghost use Rattle.rothelduf_c.specs.Walked.{IsWalked, entries_on};
ghost use Rattle.rothelduf_c.specs.declared.structs.CAttr.{CAttr};
ghost use Rattle.rothelduf_c.specs.declared.structs.CEntry.{CEntry};

use crate::fill::{fill_attributes, fill_both, fill_entries};
use crate::handle::{Slot, put, taken};
use crate::status::{CLOSED, NOTHING, OK};
use crate::structs;
use crate::structs::{CAttr, CEntry, CFilled, CId, END, c_id};
use std::alloc::Global;

/// Fills `out` with the entries of an item, as many as there is room for, and answers how many.
#[unsafe(no_mangle)]
pub extern "C" fn rothelduf_entries(
    alloc: Global,
    s: &mut Slot,
    item: usize,
    out: &mut [CEntry],
) -> usize
    ensures same { s.new.handle.value ≡ s.old.handle.value }
    ensures count { (x : WholeSection) (u : WholeUnit) → s.old.handle.value ≡ Some x → unit_at x.items item ≡ Some u
        → result ≡ min (length out.old) (length (entries_of (tree_of u))) }
    ensures filled { (x : WholeSection) (u : WholeUnit) → s.old.handle.value ≡ Some x → unit_at x.items item ≡ Some u
        → take result out.new ≡ map seen_entry (take result (entries_of (tree_of u))) }
    ensures nothing { (x : WholeSection) → s.old.handle.value ≡ Some x → unit_at x.items item ≡ None → result ≡ 0 }
    ensures closed { s.old.handle.value ≡ None → result ≡ 0 }
{
    match taken(alloc, s) {
        Some(section) => {
            let count = match section.unit(item) {
                Some(unit) => fill_entries(unit, out),
                None => 0,
            };
            put(s, section);
            count
        }
        None => 0,
    }
}

/// Fills `out` with the attributes of an entry, as many as there is room for, and answers how many.
#[unsafe(no_mangle)]
pub extern "C" fn rothelduf_attributes(
    alloc: Global,
    s: &mut Slot,
    id: &CId,
    out: &mut [CAttr],
) -> usize
    ensures same { s.new.handle.value ≡ s.old.handle.value }
    ensures count { (x : WholeSection) (e : EntryAt) → s.old.handle.value ≡ Some x
        → entry x.items (id_of id.now) ≡ Some e
        → result ≡ min (length out.old) (length (attributes_of e)) }
    ensures filled { (x : WholeSection) (e : EntryAt) → s.old.handle.value ≡ Some x
        → entry x.items (id_of id.now) ≡ Some e
        → take result out.new ≡ map seen_attr (take result (attributes_of e)) }
    ensures nothing { (x : WholeSection) → s.old.handle.value ≡ Some x → entry x.items (id_of id.now) ≡ None
        → result ≡ 0 }
    ensures closed { s.old.handle.value ≡ None → result ≡ 0 }
{
    match taken(alloc, s) {
        Some(section) => {
            let count = match section.entry(structs::id_of(id)) {
                Some(entry) => fill_attributes(&entry, out),
                None => 0,
            };
            put(s, section);
            count
        }
        None => 0,
    }
}

/// Fills `entries` and `attributes` with the entries of an item from the one on that begins at `from`, or from its
/// root on where that is 0, and with their attributes. It stops where there is no room for an entry with all its
/// attributes. The number of an entry's attributes is the place behind its last. The answer tells where the next
/// entry begins, so that a call goes on where the last one ended.
#[unsafe(no_mangle)]
pub extern "C" fn rothelduf_walk(
    alloc: Global,
    s: &mut Slot,
    item: usize,
    from: u64,
    entries: &mut [CEntry],
    attributes: &mut [CAttr],
) -> CFilled
    ensures same { s.new.handle.value ≡ s.old.handle.value }
    ensures filled { (x : WholeSection) (u : WholeUnit) → s.old.handle.value ≡ Some x → unit_at x.items item ≡ Some u
        → IsWalked (length entries.old) (length attributes.old) (entries_on from (entries_of (tree_of u)))
        entries.new attributes.new result }
    ensures nothing { (x : WholeSection) → s.old.handle.value ≡ Some x → unit_at x.items item ≡ None
        → IsWalked (length entries.old) (length attributes.old) [] entries.new attributes.new result }
    ensures closed { s.old.handle.value ≡ None
        → IsWalked (length entries.old) (length attributes.old) [] entries.new attributes.new result }
{
    match taken(alloc, s) {
        Some(section) => {
            let filled = match section.unit(item) {
                Some(unit) => fill_both(unit, from, entries, attributes),
                None => none_filled(),
            };
            put(s, section);
            filled
        }
        None => none_filled(),
    }
}

fn none_filled() -> CFilled
    ensures { (entry_room attribute_room : ℕ) (entries : List CEntry) (attributes : List CAttr)
        → IsWalked entry_room attribute_room [] entries attributes result }
{
    CFilled {
        entries: 0,
        attributes: 0,
        next: END,
    }
}

/// The entry that begins at an offset of the section.
#[unsafe(no_mangle)]
pub extern "C" fn rothelduf_find(alloc: Global, s: &mut Slot, offset: u64, out: &mut CId) -> u32
    ensures same { s.new.handle.value ≡ s.old.handle.value }
    ensures found { (x : WholeSection) → s.old.handle.value ≡ Some x → result ≡ status.OK
        → find x.items offset ≡ Some (id_of out.new) }
    ensures nothing { (x : WholeSection) → s.old.handle.value ≡ Some x → result ≢ status.OK
        → (result ≡ status.NOTHING) × (find x.items offset ≡ None) }
    ensures closed { s.old.handle.value ≡ None → result ≡ status.CLOSED }
    ensures kept { result ≢ status.OK → out.new ≡ out.old }
{
    match taken(alloc, s) {
        Some(section) => {
            let answer = match section.find(offset) {
                Some(id) => {
                    *out = c_id(id);
                    OK
                }
                None => NOTHING,
            };
            put(s, section);
            answer
        }
        None => CLOSED,
    }
}
