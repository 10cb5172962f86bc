//! The text of a section: a line for the header of each unit, and what stands below it; a line for each other
//! item. Each call answers the writer's fault where it fails, as `Output::append` does.
ghost use Rattle.std.specs.Prelude.{◌≡◌, ◌++◌, Some, codes, slice_get};
ghost use Rattle.dw_section.specs.ItemView.{item_of};
ghost use Rattle.dw_strings.specs.TextView.{sections_of};
ghost use Rattle.dw_tool.specs.Output.{Puts, IsClear};
ghost use Rattle.dw_tool.specs.Place.{BeginIn, IsPlace};
ghost use Rattle.dw_tool.specs.Show.{added_text, format_text, header_line, header_sizes, item_text, kind_text, other_line, section_text, unit_text};
ghost use Rattle.dw_tool.specs.Text.{labelled};

use crate::entries::{Place, push_entries};
use crate::output::Output;
use crate::text::{push_labelled, push_labelled_decimal};
use dw_leb::{Format, WriteError};
use dw_section::{EntryOffsets, Item, Section};
use dw_strings::Strings;
use dw_unit::{Header, Kind, Unit};
use std::alloc::Global;
use std::io::Write;

/// Appends the text of a section: of its items, one after the other. Of a unit that are the line of its header and its
/// entries with their attributes, of another item one line. Offsets count from the section's first byte. The texts that
/// attributes name are those of `strings`. The memory that is asked for only makes it faster: where it is refused the
/// text is the same.
pub(crate) fn push_section<W: Write>(
    alloc: Global,
    out: &mut Output<'_, W>,
    section: &Section,
    strings: &Strings<'_>,
) -> Result<(), WriteError>
    requires { IsClear out.old }
    ensures { Puts W.contents out.old out.new (section_text (sections_of strings.now) section.now) result }
{
    let mut begins = EntryOffsets::new(alloc);
    let mut number = 0;
    let mut left = section.items();
    while let Some((item, others)) = left.split_first() {
        push_item(out, section, strings, &mut begins, number, item)?;
        number += 1;
        left = others;
    }
    Ok(())
}

/// Appends the text of an item, which is the one of this number in the section.
fn push_item<W: Write>(
    out: &mut Output<'_, W>,
    section: &Section,
    strings: &Strings<'_>,
    begins: &mut EntryOffsets,
    number: usize,
    item: &Item,
) -> Result<(), WriteError>
    requires clear { IsClear out.old }
    requires there { slice_get section.now.items number ≡ Some (item_of item.now) }
    ensures { Puts W.contents out.old out.new
        (item_text (sections_of strings.now) section.now.items number (item_of item.now)) result }
{
    let Some(start) = section.start(number) else {
        unreachable!()
    };
    match item {
        Item::Known(unit) => {
            let place = Place {
                section,
                strings,
                item: number,
                start,
            };
            begins.learn(unit);
            push_unit(out, &place, begins, unit)
        }
        Item::Other(_) => push_other(out, start, item.size()),
    }
}

/// Appends the text of a unit: the line of its header, and its entries.
fn push_unit<W: Write>(
    out: &mut Output<'_, W>,
    place: &Place<'_>,
    begins: &EntryOffsets,
    unit: &Unit,
) -> Result<(), WriteError>
    requires clear { IsClear out.old }
    requires place { IsPlace place.now }
    requires begins { BeginIn place.now.section.now.items place.now.item begins.now }
    ensures { Puts W.contents out.old out.new
        (unit_text (sections_of place.now.strings.now) place.now.section.now.items place.now.item unit.now) result }
{
    push_header(out, place.start, unit.header(), unit.size())?;
    push_entries(out, place, begins, unit.entries())
}

/// Appends the line of an item that isn't read.
fn push_other<W: Write>(out: &mut Output<'_, W>, start: u64, size: u64) -> Result<(), WriteError>
    requires { IsClear out.old }
    ensures { Puts W.contents out.old out.new (other_line start size) result }
{
    push_labelled(out, b"other ", start)?;
    push_labelled_decimal(out, b" size ", size)?;
    out.append(b"\n")
}

/// Appends the line of the header of a unit that starts here.
fn push_header<W: Write>(
    out: &mut Output<'_, W>,
    start: u64,
    header: Header,
    size: u64,
) -> Result<(), WriteError>
    requires { IsClear out.old }
    ensures { Puts W.contents out.old out.new (header_line start header size) result }
{
    push_labelled(out, b"unit ", start)?;
    out.append(b" ")?;
    push_kind(out, header.kind())?;
    push_format(out, header.format())?;
    push_sizes(out, header, size)?;
    push_added(out, header.kind())?;
    out.append(b"\n")
}

fn push_kind<W: Write>(out: &mut Output<'_, W>, kind: Kind) -> Result<(), WriteError>
    requires { IsClear out.old }
    ensures { Puts W.contents out.old out.new (kind_text kind) result }
{
    out.append(kind_name(kind))
}

fn kind_name(kind: Kind) -> &'static [u8]
    ensures { result.now ≡ kind_text kind }
{
    match kind {
        Kind::Compile => b"compile",
        Kind::Partial => b"partial",
        Kind::TypeUnit { .. } => b"type",
        Kind::Skeleton { .. } => b"skeleton",
        Kind::Four => b"four",
    }
}

fn push_format<W: Write>(out: &mut Output<'_, W>, format: Format) -> Result<(), WriteError>
    requires { IsClear out.old }
    ensures { Puts W.contents out.old out.new (format_text format) result }
{
    match format {
        Format::Dwarf32 => out.append(b" 32"),
        Format::Dwarf64 => out.append(b" 64"),
    }
}

fn push_sizes<W: Write>(
    out: &mut Output<'_, W>,
    header: Header,
    size: u64,
) -> Result<(), WriteError>
    requires { IsClear out.old }
    ensures { Puts W.contents out.old out.new (header_sizes header size) result }
{
    push_labelled_decimal(out, b" size ", size)?;
    push_labelled(out, b" abbrev ", header.abbrev_offset())?;
    push_labelled_decimal(out, b" addr ", header.address_size() as u64)
}

// What a kind of unit adds to the line of its header.
fn push_added<W: Write>(out: &mut Output<'_, W>, kind: Kind) -> Result<(), WriteError>
    requires { IsClear out.old }
    ensures { Puts W.contents out.old out.new (added_text kind) result }
{
    match kind {
        Kind::Compile | Kind::Partial | Kind::Four => Ok(()),
        Kind::TypeUnit {
            signature,
            type_offset,
        } => push_type(out, signature, type_offset),
        Kind::Skeleton { dwo_id } => push_labelled(out, b" dwo ", dwo_id),
    }
}

fn push_type<W: Write>(
    out: &mut Output<'_, W>,
    signature: u64,
    type_offset: u64,
) -> Result<(), WriteError>
    requires { IsClear out.old }
    ensures { Puts W.contents out.old out.new
        (labelled (codes " signature ") signature ++ labelled (codes " type ") type_offset) result }
{
    push_labelled(out, b" signature ", signature)?;
    push_labelled(out, b" type ", type_offset)
}
