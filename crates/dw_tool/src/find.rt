//! The entries of a name in a section, a line for each. Each call answers the writer's fault where it fails, as
//! `Output::append` does, and else whether a line was appended.
ghost use Rattle.std.specs.Prelude.{◌≡◌, Some, IfOk, slice_get};
ghost use Rattle.dw_section.specs.ItemView.{item_of};
ghost use Rattle.dw_strings.specs.TextView.{sections_of};
ghost use Rattle.dw_tool.specs.Find.{found_entries, found_entry, found_item, found_line, found_text, is_any, is_named};
ghost use Rattle.dw_tool.specs.Output.{Puts, IsClear};
ghost use Rattle.dw_tool.specs.Place.{IsPlace};

use crate::entries::Place;
use crate::output::Output;
use crate::text::{push_hexadecimal, push_tag};
use dw_leb::WriteError;
use dw_leb::constants::attribute::DW_AT_NAME;
use dw_section::{EntryId, Item, Section};
use dw_strings::Strings;
use dw_unit::{Entries, EntryRef};
use std::io::Write;

/// Appends a line for each entry of a section whose first DW_AT_name has this text: its offset, counted from the
/// section's first byte, and its tag. The entries come in the order of the section, each before those below it.
/// A name that can't be looked up in `strings` is none.
pub(crate) fn push_found<W: Write>(
    out: &mut Output<'_, W>,
    section: &Section,
    strings: &Strings<'_>,
    name: &[u8],
) -> Result<bool, WriteError>
    requires { IsClear out.old }
    ensures puts { Puts W.contents out.old out.new (found_text (sections_of strings.now) name.now section.now) result }
    ensures any { IfOk result (λ found. found ≡ is_any (found_text (sections_of strings.now) name.now section.now)) }
{
    let mut found = false;
    let mut number = 0;
    let mut left = section.items();
    while let Some((item, others)) = left.split_first() {
        found |= push_found_item(out, section, strings, number, item, name)?;
        number += 1;
        left = others;
    }
    Ok(found)
}

/// The same of an item, which is the one of this number in the section.
fn push_found_item<W: Write>(
    out: &mut Output<'_, W>,
    section: &Section,
    strings: &Strings<'_>,
    number: usize,
    item: &Item,
    name: &[u8],
) -> Result<bool, WriteError>
    requires clear { IsClear out.old }
    requires there { slice_get section.now.items number ≡ Some (item_of item.now) }
    ensures puts { Puts W.contents out.old out.new
        (found_item (sections_of strings.now) section.now.items number name.now (item_of item.now)) result }
    ensures any { IfOk result
        (λ found.
        found ≡ is_any (found_item (sections_of strings.now) section.now.items number name.now (item_of item.now))) }
{
    let Some(start) = section.start(number) else {
        unreachable!()
    };
    match item {
        Item::Known(unit) => {
            let place = Place {
                section,
                strings,
                item: number,
                start,
            };
            push_found_entries(out, &place, unit.entries(), name)
        }
        Item::Other(_) => Ok(false),
    }
}

/// The same of entries of a unit.
fn push_found_entries<W: Write>(
    out: &mut Output<'_, W>,
    place: &Place<'_>,
    entries: Entries<'_>,
    name: &[u8],
) -> Result<bool, WriteError>
    requires clear { IsClear out.old }
    requires place { IsPlace place.now }
    ensures puts { Puts W.contents out.old out.new
        (found_entries (sections_of place.now.strings.now) place.now.section.now.items place.now.item name.now
        entries.entry)
        result }
    ensures any { IfOk result (λ found. found ≡ is_any (found_entries (sections_of place.now.strings.now)
        place.now.section.now.items place.now.item name.now entries.entry)) }
{
    let mut found = false;
    for entry in entries {
        found |= push_if_named(out, place, &entry, name)?;
    }
    Ok(found)
}

/// The same of an entry of a unit.
fn push_if_named<W: Write>(
    out: &mut Output<'_, W>,
    place: &Place<'_>,
    entry: &EntryRef<'_>,
    name: &[u8],
) -> Result<bool, WriteError>
    requires clear { IsClear out.old }
    requires place { IsPlace place.now }
    ensures puts { Puts W.contents out.old out.new
        (found_entry (sections_of place.now.strings.now) place.now.section.now.items place.now.item name.now
        entry.now)
        result }
    ensures any { IfOk result (λ found. found ≡ is_any (found_entry (sections_of place.now.strings.now)
        place.now.section.now.items place.now.item name.now entry.now)) }
{
    let named = is_named(place, entry, name);
    if named {
        push_found_line(out, place.start, entry)?;
    }
    Ok(named)
}

/// Whether the first DW_AT_name of an entry of a unit has this text.
fn is_named(place: &Place<'_>, entry: &EntryRef<'_>, name: &[u8]) -> bool
    requires { IsPlace place.now }
    ensures { result
        ≡ is_named (sections_of place.now.strings.now) place.now.section.now.items place.now.item name.now entry.now }
{
    let Some(attribute) = entry.attr(DW_AT_NAME) else {
        return false;
    };
    let id = EntryId {
        item: place.item,
        offset: entry.offset(),
    };
    match place.strings.place(place.section, id, &attribute) {
        Ok(begin) => place.strings.has_text(begin, name),
        Err(_) => false,
    }
}

/// Appends the line of an entry of a unit that starts here: its offset in the section, and its tag.
fn push_found_line<W: Write>(
    out: &mut Output<'_, W>,
    start: u64,
    entry: &EntryRef<'_>,
) -> Result<(), WriteError>
    requires { IsClear out.old }
    ensures { Puts W.contents out.old out.new (found_line start entry.now) result }
{
    push_hexadecimal(out, start as u128 + entry.offset() as u128)?;
    push_tag(out, entry.tag())?;
    out.append(b"\n")
}
