//! The texts of entries and of their attributes, in a section. Each call answers the writer's fault where it
//! fails, as `Output::append` does.
ghost use Rattle.std.specs.Prelude.{◌≡◌, ◌+◌, ◌++◌, is_some, IsSome, IfOk, codes};
ghost use Rattle.dw_form.specs.Form.{at_number};
ghost use Rattle.dw_form.specs.Lent.{value_of};
ghost use Rattle.dw_tree.specs.Lent.{attr_of, number_of};
ghost use Rattle.dw_section.specs.Lookup.{start_of};
ghost use Rattle.dw_section.specs.Reference.{ref_forms};
ghost use Rattle.dw_strings.specs.Text.{stored_forms};
ghost use Rattle.dw_strings.specs.TextView.{sections_of};
ghost use Rattle.dw_tool.specs.Output.{Puts, IsClear};
ghost use Rattle.dw_tool.specs.Place.{BeginIn, IsOrigin, IsPlace, is_entry, is_text};
ghost use Rattle.dw_tool.specs.Pieces.{entry_head, next_attribute, next_attributes};
ghost use Rattle.dw_tool.specs.Show.{entries_text, entry_text, named_behind, named_quoted, no_text, placed_value, target_of, target_text, text_of, unresolved, value_text};
ghost use Rattle.dw_tool.specs.Text.{labelled, quoted};

use crate::output::Output;
use crate::text::{
    push_attribute, push_block, push_depth, push_hexadecimal, push_quoted, push_signed, push_tag,
};
use dw_form::Value;
use dw_leb::WriteError;
use dw_leb::constants::form::*;
use dw_section::{EntryId, EntryOffsets, RefFault, Section};
use dw_strings::{StrFault, Strings};
use dw_unit::{AttrRef, Attrs, Entries, EntryRef, NumberRef};
use std::io::Write;

/// A unit in its section, beside the sections of texts.
#[derive(Clone, Copy)]
pub(crate) struct Place<'a> {
    pub(crate) section: &'a Section,
    pub(crate) strings: &'a Strings<'a>,
    /// The number of the item that the unit is.
    pub(crate) item: usize,
    /// Where the unit starts, counted from the section's first byte.
    pub(crate) start: u64,
}

/// An entry of a unit in its section, beside what the values of its attributes name.
#[derive(Clone, Copy)]
struct Origin<'a> {
    section: &'a Section,
    strings: &'a Strings<'a>,
    /// Offsets at which entries of the unit begin.
    begins: &'a EntryOffsets,
    from: EntryId,
}

/// Appends the texts of entries of a unit, one after the other. `begins` are offsets at which entries of the unit
/// begin.
pub(crate) fn push_entries<W: Write>(
    out: &mut Output<'_, W>,
    place: &Place<'_>,
    begins: &EntryOffsets,
    entries: Entries<'_>,
) -> Result<(), WriteError>
    requires clear { IsClear out.old }
    requires place { IsPlace place.now }
    requires begins { BeginIn place.now.section.now.items place.now.item begins.now }
    ensures { Puts W.contents out.old out.new
        (entries_text (sections_of place.now.strings.now) place.now.section.now.items place.now.item entries.entry)
        result }
{
    for entry in entries {
        push_entry(out, place, begins, &entry)?;
    }
    Ok(())
}

/// Appends the line of an entry, and one for each of its attributes, in their order. Each newline is appended in one
/// piece with the beginning of the line behind it.
fn push_entry<W: Write>(
    out: &mut Output<'_, W>,
    place: &Place<'_>,
    begins: &EntryOffsets,
    entry: &EntryRef<'_>,
) -> Result<(), WriteError>
    requires clear { IsClear out.old }
    requires place { IsPlace place.now }
    requires begins { BeginIn place.now.section.now.items place.now.item begins.now }
    ensures { Puts W.contents out.old out.new
        (entry_text (sections_of place.now.strings.now) place.now.section.now.items place.now.item entry.now) result }
{
    push_entry_head(out, place.start, entry)?;
    let origin = Origin {
        section: place.section,
        strings: place.strings,
        begins,
        from: EntryId {
            item: place.item,
            offset: entry.offset(),
        },
    };
    push_attributes(out, &origin, entry.attrs())?;
    out.append(b"\n")
}

/// Appends the line of an entry of a unit that starts here, without its newline: its depth, its offset in the section,
/// and its tag.
fn push_entry_head<W: Write>(
    out: &mut Output<'_, W>,
    start: u64,
    entry: &EntryRef<'_>,
) -> Result<(), WriteError>
    requires { IsClear out.old }
    ensures { Puts W.contents out.old out.new (entry_head start entry.now) result }
{
    push_depth(out, entry.depth())?;
    push_hexadecimal(out, start as u128 + entry.offset() as u128)?;
    push_tag(out, entry.tag())
}

/// Appends the label, and the offset in the section of what has this offset in a unit that starts here.
#[inline(always)]
fn push_offset<W: Write>(
    out: &mut Output<'_, W>,
    label: &[u8],
    start: u64,
    offset: u64,
) -> Result<(), WriteError>
    requires { IsClear out.old }
    ensures { Puts W.contents out.old out.new (labelled label.now (start + offset)) result }
{
    out.append(label)?;
    push_hexadecimal(out, start as u128 + offset as u128)
}

/// Appends a newline before each attribute of an entry, and its line without its own.
fn push_attributes<W: Write>(
    out: &mut Output<'_, W>,
    origin: &Origin<'_>,
    attributes: Attrs<'_>,
) -> Result<(), WriteError>
    requires clear { IsClear out.old }
    requires origin { IsOrigin origin.now }
    ensures { Puts W.contents out.old out.new
        (next_attributes (sections_of origin.now.strings.now) origin.now.section.now.items origin.now.from.item
        attributes.entry)
        result }
{
    let mut left = attributes;
    loop {
        if let Some(number) = left.next_number() {
            push_next_number(out, origin, &number)?;
            continue;
        }
        if let Some(bare) = left.next_bare() {
            push_next_attribute(out, origin, &bare)?;
            continue;
        }
        match left.next() {
            Some(attribute) => {
                push_next_attribute(out, origin, &attribute)?;
            }
            None => return Ok(()),
        }
    }
}

/// Appends a newline, and the line of an attribute whose value is a number, without its own.
#[inline(always)]
fn push_next_number<W: Write>(
    out: &mut Output<'_, W>,
    origin: &Origin<'_>,
    number: &NumberRef,
) -> Result<(), WriteError>
    requires clear { IsClear out.old }
    requires origin { IsOrigin origin.now }
    ensures { Puts W.contents out.old out.new
        (next_attribute (sections_of origin.now.strings.now) origin.now.section.now.items origin.now.from.item
        (number_of number.now))
        result }
{
    push_attribute(out, number.name)?;
    push_hexadecimal(out, number.number as u128)?;
    push_named_by_number(out, origin, number)
}

/// Appends what the number names, as `push_named` does. Only a number that names something becomes an attribute first.
#[inline(always)]
fn push_named_by_number<W: Write>(
    out: &mut Output<'_, W>,
    origin: &Origin<'_>,
    number: &NumberRef,
) -> Result<(), WriteError>
    requires clear { IsClear out.old }
    requires origin { IsOrigin origin.now }
    ensures { Puts W.contents out.old out.new
        (named_behind (sections_of origin.now.strings.now) origin.now.section.now.items origin.now.from.item
        (number_of number.now))
        result }
{
    match named_under(number.form) {
        Names::Entry => push_reference(out, origin, &number.attribute()),
        Names::Text => push_text(out, origin, &number.attribute()),
        Names::Nothing => Ok(()),
    }
}

/// Appends a newline, and the line of an attribute of an entry without its own: its name, and its value in its place.
#[inline(always)]
fn push_next_attribute<W: Write>(
    out: &mut Output<'_, W>,
    origin: &Origin<'_>,
    attribute: &AttrRef<'_>,
) -> Result<(), WriteError>
    requires clear { IsClear out.old }
    requires origin { IsOrigin origin.now }
    ensures { Puts W.contents out.old out.new
        (next_attribute (sections_of origin.now.strings.now) origin.now.section.now.items origin.now.from.item
        (attr_of attribute.now))
        result }
{
    push_attribute(out, attribute.name)?;
    push_placed_value(out, origin, attribute)
}

/// Appends the value of an attribute of an entry, and behind it what it names: an entry or a text.
#[inline(always)]
fn push_placed_value<W: Write>(
    out: &mut Output<'_, W>,
    origin: &Origin<'_>,
    attribute: &AttrRef<'_>,
) -> Result<(), WriteError>
    requires clear { IsClear out.old }
    requires origin { IsOrigin origin.now }
    ensures { Puts W.contents out.old out.new
        (placed_value (sections_of origin.now.strings.now) origin.now.section.now.items origin.now.from.item
        (attr_of attribute.now))
        result }
{
    push_value(out, &attribute.attr.value)?;
    push_named(out, origin, attribute)
}

/// Appends what the value of an attribute of an entry names: an entry or a text. Most values name nothing.
#[inline(always)]
fn push_named<W: Write>(
    out: &mut Output<'_, W>,
    origin: &Origin<'_>,
    attribute: &AttrRef<'_>,
) -> Result<(), WriteError>
    requires clear { IsClear out.old }
    requires origin { IsOrigin origin.now }
    ensures { Puts W.contents out.old out.new
        (named_behind (sections_of origin.now.strings.now) origin.now.section.now.items origin.now.from.item
        (attr_of attribute.now))
        result }
{
    match named_under(attribute.form) {
        Names::Entry => push_reference(out, origin, attribute),
        Names::Text => push_text(out, origin, attribute),
        Names::Nothing => Ok(()),
    }
}

/// What a value under a form names besides itself.
#[derive(Clone, Copy)]
enum Names {
    Entry,
    Text,
    Nothing,
}

/// What the values of this form name: references an entry (section 7.5.5), numbers of texts a text.
#[inline(always)]
fn named_under(form: u64) -> Names
    ensures entry { is_entry result ≡ is_some (at_number form ref_forms) }
    ensures text { is_text result ≡ is_some (at_number form stored_forms) }
{
    match form {
        DW_FORM_REF1
        | DW_FORM_REF2
        | DW_FORM_REF4
        | DW_FORM_REF8
        | DW_FORM_REF_UDATA
        | DW_FORM_REF_ADDR
        | DW_FORM_REF_SIG8
        | DW_FORM_REF_SUP4
        | DW_FORM_REF_SUP8
        | DW_FORM_GNU_REF_ALT => Names::Entry,
        DW_FORM_STRP
        | DW_FORM_LINE_STRP
        | DW_FORM_STRX
        | DW_FORM_STRX1
        | DW_FORM_STRX2
        | DW_FORM_STRX3
        | DW_FORM_STRX4
        | DW_FORM_STRP_SUP
        | DW_FORM_GNU_STRP_ALT => Names::Text,
        _ => Names::Nothing,
    }
}

/// Appends the value as text. A number is written in hexadecimal digits, or in decimal ones where
/// it has a sign; a block as by `push_block`, a text as by `push_quoted`, a flag as `present`.
#[inline(always)]
fn push_value<W: Write>(out: &mut Output<'_, W>, value: &Value<'_>) -> Result<(), WriteError>
    requires { IsClear out.old }
    ensures { Puts W.contents out.old out.new (value_text (value_of value.now)) result }
{
    match value {
        Value::Num(number) => push_hexadecimal(out, *number as u128),
        Value::Wide(number) => push_hexadecimal(out, *number),
        Value::Uleb(number) => push_hexadecimal(out, number.value as u128),
        Value::Sleb(number) => push_signed(out, number.value),
        Value::Block { bytes, .. } => push_block(out, bytes),
        Value::Text(bytes) => push_quoted(out, bytes),
        Value::Present => out.append(b"present"),
        Value::Implicit(number) => push_signed(out, number.value),
    }
}

/// Appends what stands behind the value of an attribute of an entry where it is a reference; nothing behind any
/// other value.
fn push_reference<W: Write>(
    out: &mut Output<'_, W>,
    origin: &Origin<'_>,
    attribute: &AttrRef<'_>,
) -> Result<(), WriteError>
    requires clear { IsClear out.old }
    requires origin { IsOrigin origin.now }
    ensures { Puts W.contents out.old out.new
        (target_text origin.now.section.now.items
        (target_of origin.now.section.now.items origin.now.from.item (attr_of attribute.now)))
        result }
{
    let target = origin
        .section
        .resolve_among(origin.begins, origin.from, attribute);
    push_target(out, origin.section, target)
}

/// Appends an arrow and where the entry begins that is named, or why there is none; nothing behind what is no
/// reference.
fn push_target<W: Write>(
    out: &mut Output<'_, W>,
    section: &Section,
    target: Result<EntryId, RefFault>,
) -> Result<(), WriteError>
    requires clear { IsClear out.old }
    requires there { IfOk target (λ id. IsSome (start_of section.now.items id.item)) }
    ensures { Puts W.contents out.old out.new (target_text section.now.items target) result }
{
    match target {
        Ok(id) => match section.start(id.item) {
            Some(start) => push_offset(out, b" -> ", start, id.offset),
            None => unreachable!(),
        },
        Err(fault) => out.append(unresolved(fault).as_bytes()),
    }
}

/// What stands behind a reference that names no entry; nothing behind what is no reference.
fn unresolved(fault: RefFault) -> &'static str
    ensures { result.now ≡ unresolved fault }
{
    match fault {
        RefFault::NotReference => "",
        RefFault::OutsideUnit => " -> OutsideUnit",
        RefFault::OutsideSection => " -> OutsideSection",
        RefFault::NotAnEntry => " -> NotAnEntry",
        RefFault::InOther => " -> InOther",
        RefFault::NoSignature => " -> NoSignature",
        RefFault::BadTypeOffset => " -> BadTypeOffset",
        RefFault::Supplementary => " -> Supplementary",
    }
}

/// Appends the text that an attribute of an entry names, or why there is none; nothing behind a value that names none.
fn push_text<W: Write>(
    out: &mut Output<'_, W>,
    origin: &Origin<'_>,
    attribute: &AttrRef<'_>,
) -> Result<(), WriteError>
    requires clear { IsClear out.old }
    requires origin { IsOrigin origin.now }
    ensures { Puts W.contents out.old out.new (named_quoted (text_of (sections_of origin.now.strings.now)
        origin.now.section.now.items origin.now.from.item (attr_of attribute.now))) result }
{
    match origin.strings.text(origin.section, origin.from, attribute) {
        Ok(text) => push_behind_space(out, text),
        Err(fault) => out.append(no_text(fault).as_bytes()),
    }
}

fn push_behind_space<W: Write>(out: &mut Output<'_, W>, text: &[u8]) -> Result<(), WriteError>
    requires { IsClear out.old }
    ensures { Puts W.contents out.old out.new (codes " " ++ quoted text.now) result }
{
    out.append(b" ")?;
    push_quoted(out, text)
}

/// What stands behind a number that names no text; nothing behind what is no text.
fn no_text(fault: StrFault) -> &'static str
    ensures { result.now ≡ no_text fault }
{
    match fault {
        StrFault::NotText => "",
        StrFault::PastSection => " PastSection",
        StrFault::NoZero => " NoZero",
        StrFault::NoBase => " NoBase",
        StrFault::PastOffsets => " PastOffsets",
        StrFault::Supplementary => " Supplementary",
    }
}
