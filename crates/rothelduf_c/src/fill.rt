//! Entries and attributes in the arrays of a caller (sections 2.2 and 7.5.2).
ghost use Rattle.std.specs.Prelude.{◌≡◌, ◌≤◌, ◌<◌, ◌+◌, ◌++◌, length, min, take, map, IfSome, IfNone};
ghost use Rattle.dw_tree.specs.Lent.{attributes_of, entries_of};
ghost use Rattle.dw_unit.specs.Unit.{tree_of};
ghost use Rattle.rothelduf_c.specs.Seen.{seen_attr, seen_entry};
ghost use Rattle.rothelduf_c.specs.Walked as walked;
ghost use Rattle.rothelduf_c.specs.Walked.{IsWalked, entries_on};

use crate::structs::{CAttr, CEntry, CFilled, END, c_attr, c_entry};
use dw_unit::{Entries, EntryRef, Unit};

/// Fills the front of `out` with the entries of a unit, as many as there is room for.
pub fn fill_entries(unit: &Unit, out: &mut [CEntry]) -> usize
    ensures count { result ≡ min (length out.old) (length (entries_of (tree_of unit.now))) }
    ensures filled { take result out.new ≡ map seen_entry (take result (entries_of (tree_of unit.now))) }
    ensures length { length out.new ≡ length out.old }
{
    let mut n = 0;
    for entry in unit.entries() {
        if n >= out.len() {
            break;
        }
        out[n] = c_entry(&entry);
        n += 1;
    }
    n
}

/// Fills the front of `out` with the attributes of an entry, as many as there is room for.
pub fn fill_attributes(entry: &EntryRef<'_>, out: &mut [CAttr]) -> usize
    ensures count { result ≡ min (length out.old) (length (attributes_of entry.now)) }
    ensures filled { take result out.new ≡ map seen_attr (take result (attributes_of entry.now)) }
    ensures length { length out.new ≡ length out.old }
{
    let mut n = 0;
    for attr in entry.attrs() {
        if n >= out.len() {
            break;
        }
        out[n] = c_attr(&attr);
        n += 1;
    }
    n
}

/// Fills `out` with the attributes of an entry from a place on, and answers the place behind the last. None where
/// there is no room for all of them.
#[inline(always)]
fn add_attributes(entry: &EntryRef<'_>, out: &mut [CAttr], from: usize) -> Option<usize>
    requires { from ≤ length out.old }
    ensures place { IfSome result (λ n. n ≡ from + length (attributes_of entry.now)) }
    ensures within { IfSome result (λ n. n ≤ length out.old) }
    ensures filled { IfSome result (λ n. take n out.new
        ≡ take from out.old ++ map seen_attr (attributes_of entry.now)) }
    ensures full { IfNone result (length out.old < from + length (attributes_of entry.now)) }
    ensures before { take from out.new ≡ take from out.old }
    ensures length { length out.new ≡ length out.old }
{
    let mut n = from;
    for attr in entry.attrs() {
        if n >= out.len() {
            return None;
        }
        out[n] = c_attr(&attr);
        n += 1;
    }
    Some(n)
}

/// Fills `entries` and `attributes` with the entries of a unit from the one on that begins at an offset, or from the
/// root on where that is 0, and with their attributes. It stops where there is no room for an entry with all its
/// attributes.
pub fn fill_both(
    unit: &Unit,
    from: u64,
    entries: &mut [CEntry],
    attributes: &mut [CAttr],
) -> CFilled
    ensures { IsWalked (length entries.old) (length attributes.old)
        (entries_on from (entries_of (tree_of unit.now))) entries.new attributes.new result }
{
    let left = if from == 0 {
        unit.entries()
    } else {
        unit.entries_from(from)
    };
    fill_from(left, entries, attributes)
}

fn fill_from(left: Entries<'_>, entries: &mut [CEntry], attributes: &mut [CAttr]) -> CFilled
    ensures { IsWalked (length entries.old) (length attributes.old) left.entry entries.new attributes.new result }
{
    let mut n = 0;
    let mut m = 0;
    for entry in left {
        if n >= entries.len() {
            return filled(n, m, entry.offset());
        }
        let Some(next) = add_attributes(&entry, attributes, m) else {
            return filled(n, m, entry.offset());
        };
        entries[n] = placed(&entry, next);
        n += 1;
        m = next;
    }
    filled(n, m, END)
}

#[inline(always)]
fn filled(entries: usize, attributes: usize, next: u64) -> CFilled
    ensures { result ≡ record { entries = entries; attributes = attributes; next = next } }
{
    CFilled {
        entries,
        attributes,
        next,
    }
}

/// The entry with the place behind its last attribute.
#[inline(always)]
fn placed(entry: &EntryRef<'_>, place: usize) -> CEntry
    ensures { result ≡ walked.placed place entry.now }
{
    CEntry {
        attributes: place,
        ..c_entry(entry)
    }
}
