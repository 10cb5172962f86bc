//! What is wrong with an attribute of an entry.
ghost use Rattle.std.specs.Prelude.{◌≡◌, ◌+◌, ◌<◌, ◌^◌, ◌++◌, ◌||◌, ◌==◌, true, false, is_some, OnOk};
ghost use Rattle.dw_form.specs.Form.{at_number};
ghost use Rattle.dw_form.specs.Head.{own_bare};
ghost use Rattle.dw_form.specs.Lent.{attribute_of, number_in};
ghost use Rattle.dw_tree.specs.Lent.{attr_of, number_of};
ghost use Rattle.dw_section.specs.EntryOffsets.{AreEntryOffsets};
ghost use Rattle.dw_section.specs.Reference.{ref_forms};
ghost use Rattle.dw_strings.specs.Text.{stored_forms};
ghost use Rattle.dw_check.specs.Ends.{is_behind};
ghost use Rattle.dw_check.specs.Findings as definition;
ghost use Rattle.dw_check.specs.Place.{IsPlace, unit_in};
ghost use Rattle.dw_check.specs.Wrong.{findings_of};

use crate::finding::{Finding, FindingKind, push_if};
use crate::place::Place;
use dw_leb::constants::attribute::DW_AT_SIBLING;
use dw_leb::constants::form::*;
use dw_section::{EntryId, EntryOffsets, RefFault, is_right_sibling};
use dw_strings::StrFault;
use dw_unit::{AttrRef, EntryRef, NumberRef};
use std::alloc::AllocError;

/// Adds the findings of an attribute of an entry, which is at this position. `repeated` says whether an earlier one
/// has its name. Nearly no attribute has any, so nothing but that is found out where it is inlined.
#[inline(always)]
pub(crate) fn check_attribute(
    found: &mut Vec<Finding>,
    place: &Place<'_>,
    begins: &EntryOffsets,
    entry: &EntryRef<'_>,
    position: u64,
    attribute: &AttrRef<'_>,
    repeated: bool,
) -> Result<(), AllocError>
    requires place { IsPlace place.now }
    requires begins { AreEntryOffsets place.now.unit.now begins.now }
    requires near { place.now.start + entry.now.offset < 2 ^ 64 }
    ensures { OnOk result
        (found.new.items
        ≡ found.old.items
        ++ definition.findings_at (unit_in place.now) entry.now position (attr_of attribute.now) repeated) }
{
    let wrong = Wrong {
        reference: is_bad_reference(place, begins, entry, attribute),
        sibling: is_bad_sibling(place, entry, attribute),
        text: is_bad_text(place, entry, attribute),
        name: repeated,
    };
    if !(wrong.reference || wrong.sibling || wrong.text || wrong.name) {
        return Ok(());
    }
    let offset = place.start + entry.offset();
    push_wrong(found, offset, position, wrong)
}

/// Adds the findings of an attribute whose value is a number of a fixed size, as `check_attribute` does. Only one that
/// is looked at becomes an attribute first.
#[inline(always)]
pub(crate) fn check_number(
    found: &mut Vec<Finding>,
    place: &Place<'_>,
    begins: &EntryOffsets,
    entry: &EntryRef<'_>,
    position: u64,
    number: &NumberRef,
    repeated: bool,
) -> Result<(), AllocError>
    requires place { IsPlace place.now }
    requires begins { AreEntryOffsets place.now.unit.now begins.now }
    requires near { place.now.start + entry.now.offset < 2 ^ 64 }
    ensures { OnOk result
        (found.new.items
        ≡ found.old.items
        ++ definition.findings_at (unit_in place.now) entry.now position (number_of number.now) repeated) }
{
    if number.name == DW_AT_SIBLING || repeated || names_entry(number.form) {
        let attribute = number.attribute();
        return check_attribute(found, place, begins, entry, position, &attribute, repeated);
    }
    if names_text(number.form) {
        return check_text(found, place, entry, position, &number.attribute());
    }
    Ok(())
}

/// The same as `check_attribute`, of what is no sibling, no reference, and has no name of an earlier one.
#[inline(always)]
fn check_text(
    found: &mut Vec<Finding>,
    place: &Place<'_>,
    entry: &EntryRef<'_>,
    position: u64,
    attribute: &AttrRef<'_>,
) -> Result<(), AllocError>
    requires place { IsPlace place.now }
    requires near { place.now.start + entry.now.offset < 2 ^ 64 }
    requires other { (attribute.now.name == 0x01) ≡ false }
    requires unnamed { is_some (at_number attribute.now.form ref_forms) ≡ false }
    ensures { OnOk result
        (found.new.items
        ≡ found.old.items
        ++ definition.findings_at (unit_in place.now) entry.now position (attr_of attribute.now) false) }
{
    if is_bad_text(place, entry, attribute) {
        let wrong = Wrong {
            reference: false,
            sibling: false,
            text: true,
            name: false,
        };
        return push_wrong(found, place.start + entry.offset(), position, wrong);
    }
    Ok(())
}

/// Adds the findings of an attribute whose value has no bytes, as `check_attribute` does. Such a value is no reference
/// and no text, so it has findings only where it is named as a sibling or has the name of an earlier one.
#[inline(always)]
pub(crate) fn check_bare(
    found: &mut Vec<Finding>,
    place: &Place<'_>,
    begins: &EntryOffsets,
    entry: &EntryRef<'_>,
    position: u64,
    bare: &AttrRef<'_>,
    repeated: bool,
) -> Result<(), AllocError>
    requires place { IsPlace place.now }
    requires begins { AreEntryOffsets place.now.unit.now begins.now }
    requires near { place.now.start + entry.now.offset < 2 ^ 64 }
    requires bare { is_some (own_bare (attribute_of bare.now.attr)) ≡ true }
    ensures { OnOk result
        (found.new.items
        ≡ found.old.items
        ++ definition.findings_at (unit_in place.now) entry.now position (attr_of bare.now) repeated) }
{
    if bare.name == DW_AT_SIBLING || repeated {
        return check_rare(found, place, begins, entry, position, bare, repeated);
    }
    Ok(())
}

/// The same as `check_attribute`, for what is too rare to be inlined.
#[inline(never)]
fn check_rare(
    found: &mut Vec<Finding>,
    place: &Place<'_>,
    begins: &EntryOffsets,
    entry: &EntryRef<'_>,
    position: u64,
    attribute: &AttrRef<'_>,
    repeated: bool,
) -> Result<(), AllocError>
    requires place { IsPlace place.now }
    requires begins { AreEntryOffsets place.now.unit.now begins.now }
    requires near { place.now.start + entry.now.offset < 2 ^ 64 }
    ensures { OnOk result
        (found.new.items
        ≡ found.old.items
        ++ definition.findings_at (unit_in place.now) entry.now position (attr_of attribute.now) repeated) }
{
    check_attribute(found, place, begins, entry, position, attribute, repeated)
}

/// What is wrong with an attribute: as a reference, as a sibling, as a text, and with its name.
#[derive(Clone, Copy)]
struct Wrong {
    reference: bool,
    sibling: bool,
    text: bool,
    name: bool,
}

/// Adds a finding for each thing that is wrong.
#[inline(never)]
fn push_wrong(
    found: &mut Vec<Finding>,
    offset: u64,
    position: u64,
    wrong: Wrong,
) -> Result<(), AllocError>
    ensures { OnOk result (found.new.items ≡ found.old.items ++ findings_of wrong offset position) }
{
    let Wrong {
        reference,
        sibling,
        text,
        name,
    } = wrong;
    push_if(
        found,
        reference,
        offset,
        position,
        FindingKind::BadReference,
    )?;
    push_if(found, sibling, offset, position, FindingKind::BadSibling)?;
    push_if(found, text, offset, position, FindingKind::BadText)?;
    push_if(found, name, offset, position, FindingKind::RepeatedName)
}

/// Whether an attribute is a reference that names no entry. A DW_AT_sibling is judged by `is_bad_sibling` alone.
#[inline(always)]
fn is_bad_reference(
    place: &Place<'_>,
    begins: &EntryOffsets,
    entry: &EntryRef<'_>,
    attribute: &AttrRef<'_>,
) -> bool
    requires place { IsPlace place.now }
    requires begins { AreEntryOffsets place.now.unit.now begins.now }
    ensures { result ≡ definition.is_bad_reference (unit_in place.now) (attr_of attribute.now) }
{
    if attribute.name == DW_AT_SIBLING {
        return false;
    }
    if !names_entry(attribute.form) {
        return false;
    }
    let id = id_in(place, entry);
    match place.section.resolve_among(begins, id, attribute) {
        Ok(_) | Err(RefFault::NotReference | RefFault::Supplementary) => false,
        Err(_) => true,
    }
}

/// Whether an attribute is a DW_AT_sibling that points elsewhere than just behind the entry and all below it.
#[inline(always)]
fn is_bad_sibling(place: &Place<'_>, entry: &EntryRef<'_>, attribute: &AttrRef<'_>) -> bool
    ensures { result ≡ definition.is_bad_sibling (unit_in place.now) entry.now (attr_of attribute.now) }
{
    attribute.name == DW_AT_SIBLING && !is_right_sibling(place.start, entry, attribute)
}

/// Whether an attribute is a text that can't be looked up. One that stands in the unit itself always can; most others
/// are offsets, for which it suffices to know where the texts end.
#[inline(always)]
fn is_bad_text(place: &Place<'_>, entry: &EntryRef<'_>, attribute: &AttrRef<'_>) -> bool
    requires { IsPlace place.now }
    ensures { result ≡ definition.is_bad_text (unit_in place.now) (attr_of attribute.now) }
{
    match attribute.form {
        DW_FORM_STRP => is_behind(place.text_ends.str, attribute),
        DW_FORM_LINE_STRP => is_behind(place.text_ends.line_str, attribute),
        form => names_text(form) && is_unreadable(place, entry, attribute),
    }
}

/// Whether the value of an attribute is an offset at which no text begins, where the texts of its section end here.
#[inline(always)]
fn is_behind(end: u64, attribute: &AttrRef<'_>) -> bool
    ensures { result ≡ is_behind end (number_in (attribute_of attribute.now.attr).value) }
{
    match attribute.attr.as_number() {
        Some(offset) => offset >= end,
        None => false,
    }
}

/// The same as `is_bad_text`, of a number that names a text by an index, or in another file.
fn is_unreadable(place: &Place<'_>, entry: &EntryRef<'_>, attribute: &AttrRef<'_>) -> bool
    requires place { IsPlace place.now }
    requires stored { is_some (at_number attribute.now.form stored_forms) ≡ true }
    requires other { (attribute.now.form == 0x1f) ≡ false }
    ensures { result ≡ definition.is_bad_text (unit_in place.now) (attr_of attribute.now) }
{
    let id = id_in(place, entry);
    match place.strings.place(place.section, id, attribute) {
        Ok(text) => place.text_ends.has_none(text),
        Err(StrFault::NotText | StrFault::Supplementary) => false,
        Err(_) => true,
    }
}

/// The id of an entry of the unit.
#[inline(always)]
fn id_in(place: &Place<'_>, entry: &EntryRef<'_>) -> EntryId
    ensures { result.item ≡ place.now.item }
{
    EntryId {
        item: place.item,
        offset: entry.offset(),
    }
}

/// Whether values of this form are references (section 7.5.5).
#[inline(always)]
pub(crate) fn names_entry(form: u64) -> bool
    ensures { result ≡ is_some (at_number form ref_forms) }
{
    match form {
        DW_FORM_REF1
        | DW_FORM_REF2
        | DW_FORM_REF4
        | DW_FORM_REF8
        | DW_FORM_REF_UDATA
        | DW_FORM_REF_ADDR
        | DW_FORM_REF_SIG8
        | DW_FORM_REF_SUP4
        | DW_FORM_REF_SUP8
        | DW_FORM_GNU_REF_ALT => true,
        _ => false,
    }
}

/// Whether values of this form are numbers of texts (section 7.5.5).
#[inline(always)]
pub(crate) fn names_text(form: u64) -> bool
    ensures { result ≡ is_some (at_number form stored_forms) }
{
    match form {
        DW_FORM_STRP
        | DW_FORM_LINE_STRP
        | DW_FORM_STRX
        | DW_FORM_STRX1
        | DW_FORM_STRX2
        | DW_FORM_STRX3
        | DW_FORM_STRX4
        | DW_FORM_STRP_SUP
        | DW_FORM_GNU_STRP_ALT => true,
        _ => false,
    }
}
