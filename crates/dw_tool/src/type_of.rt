//! The type of the entry at an offset of a section, as a line of text.
ghost use Rattle.std.specs.Prelude.{◌≡◌, IfErr, IfOk, IsSome, Ok};
ghost use Rattle.dw_ctype.specs.View.{source_of};
ghost use Rattle.dw_section.specs.Lookup.{entry, unit_at};
ghost use Rattle.dw_strings.specs.TextView.{sections_of};
ghost use Rattle.dw_tool.specs.TypeOf.{OrMemory, has_name, name_shown, own_name, type_line};

use dw_ctype::{TypeError, type_text};
use dw_leb::constants::attribute::DW_AT_NAME;
use dw_leb::constants::tag::{
    DW_TAG_FORMAL_PARAMETER, DW_TAG_MEMBER, DW_TAG_SUBPROGRAM, DW_TAG_VARIABLE,
};
use dw_section::{EntryId, Section};
use dw_strings::Strings;
use dw_unit::EntryRef;
use std::alloc::Global;

/// The type of the entry that begins at this offset of the section, in C notation, with a newline behind it: of a
/// variable, a formal parameter, a member or a subprogram with its own name, of any other entry without a name.
///
/// Errors: those of `type_text`; `NoEntry` exactly where no entry begins at the offset, `NoMemory` only where
/// there is a line.
pub(crate) fn type_line<'a>(
    alloc: Global,
    section: &'a Section,
    strings: &Strings<'a>,
    offset: u64,
) -> Result<Vec<u8>, TypeError>
    ensures line { IfOk result (λ line. type_line (sections_of strings.now) offset section.now ≡ Ok line.items) }
    ensures refused { IfErr result (OrMemory (type_line (sections_of strings.now) offset section.now)) }
{
    let Some(id) = section.find(offset) else {
        return Err(TypeError::NoEntry);
    };
    let mut line = Vec::new(alloc);
    let name = name_shown(section, strings, id);
    type_text(alloc, section, strings, id, name, &mut line)?;
    if line.push(b'\n').is_err() {
        return Err(TypeError::NoMemory);
    }
    Ok(line)
}

/// The name with which the type of an entry is shown.
fn name_shown<'a>(section: &'a Section, strings: &Strings<'a>, id: EntryId) -> &'a [u8]
    ensures { result.now ≡ name_shown (source_of section.now strings.now) id.item (entry section.now.items id) }
{
    match section.entry(id) {
        Some(entry) => own_name(section, strings, id.item, &entry),
        None => b"",
    }
}

/// The name of an entry of this item that has one of its own, and none for any other.
fn own_name<'a>(
    section: &'a Section,
    strings: &Strings<'a>,
    item: usize,
    entry: &EntryRef<'a>,
) -> &'a [u8]
    requires { IsSome (unit_at section.now.items item) }
    ensures { result.now ≡ own_name (source_of section.now strings.now) item entry.now }
{
    if !has_name(entry.tag()) {
        return b"";
    }
    let Some(attr) = entry.attr(DW_AT_NAME) else {
        return b"";
    };
    let id = EntryId {
        item,
        offset: entry.offset(),
    };
    match strings.text(section, id, &attr) {
        Ok(name) => name,
        Err(_) => b"",
    }
}

/// Whether the types of entries of this tag are shown with a name.
fn has_name(tag: u64) -> bool
    ensures { result ≡ has_name tag }
{
    matches!(
        tag,
        DW_TAG_VARIABLE | DW_TAG_FORMAL_PARAMETER | DW_TAG_MEMBER | DW_TAG_SUBPROGRAM
    )
}
