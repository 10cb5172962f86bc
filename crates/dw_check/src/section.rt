//! The findings of a section, of its units and of their entries.
ghost use Rattle.std.specs.Prelude.{◌≡◌, ◌+◌, ◌<◌, ◌^◌, ◌++◌, [], ℕ, nat_eq, None, IfOk, IsSome, OnErr, OnOk};
ghost use Rattle.indexmap.specs.IndexMap.{get};
ghost use Rattle.dw_section.specs.EntryOffsets.{AreEntryOffsets};
ghost use Rattle.dw_section.specs.Lookup.{unit_at};
ghost use Rattle.dw_strings.specs.TextView.{sections_of};
ghost use Rattle.dw_tree.specs.Lent.{attributes_of};
ghost use Rattle.dw_check.specs.Findings as definition;
ghost use Rattle.dw_check.specs.Repeats.{AreRepeatsOf, AreRepeats, RepeatsInItsEntries};
ghost use Rattle.dw_check.specs.Place.{IsPlace, unit_in};

use crate::attribute::{check_attribute, check_bare, check_number};
use crate::ends::TextEnds;
use crate::finding::Finding;
use crate::place::Place;
use crate::repeats::{Repeats, keep_repeats, kept_repeats, refers};
use crate::root::check_root;
use dw_section::{EntryOffsets, Item, Section};
use dw_strings::Strings;
use dw_unit::{EntryRef, Unit};
use indexmap::IndexMap;
use std::alloc::{AllocError, Global};
use std::mem::swap;

/// All that is wrong in a section, ordered by the entries' offsets, by the positions of their attributes, and by the
/// numbers of the kinds. This checks for:
///
/// - references under another name than DW_AT_sibling that name no entry (`BadReference`);
/// - a DW_AT_sibling that isn't the offset just behind the entry and all entries below it (`BadSibling`);
/// - a root whose tag isn't one for the kind of its unit (`RootTag`);
/// - a type unit at whose type offset no entry begins (`TypeOffset`);
/// - texts that can't be looked up (`BadText`);
/// - attributes whose name an earlier one of the entry has (`RepeatedName`).
///
/// What is in a supplementary file isn't looked up, and items that aren't read have no findings. The sections of texts
/// are searched once, for their last zero bytes, and no text is. `AllocError` is answered where a growth was
/// refused, other than one that only makes the check faster; there is none in a section without units.
pub fn check<'a>(
    alloc: Global,
    section: &'a Section,
    strings: &'a Strings<'a>,
) -> Result<Vec<Finding>, AllocError>
    ensures found { IfOk result (λ found. found.items ≡ definition.findings (sections_of strings.now) section.now) }
    ensures memory { OnErr result ((item : ℕ) × IsSome (unit_at section.now.items item)) }
{
    // The size tells the proof that no offset in the section passes 64 bits.
    let _size = section.size();
    let text_ends = TextEnds::of(strings);
    let mut found = Vec::new(alloc);
    let mut spare = EntryOffsets::new(alloc);
    let mut number = 0;
    let mut start = 0;
    let mut left = section.items();
    while let Some((item, others)) = left.split_first() {
        match item {
            Item::Known(unit) => {
                let place = Place {
                    section: &*section,
                    strings: &*strings,
                    text_ends,
                    item: number,
                    start,
                    unit,
                };
                check_unit(alloc, &mut found, &place, &mut spare)?;
            }
            Item::Other(_) => (),
        }
        number += 1;
        start += item.size();
        left = others;
    }
    Ok(found)
}

/// Adds the findings of a unit. Where its entries begin is learnt as soon as there is one that can refer to another.
/// `spare` has the memory for that from unit to unit.
fn check_unit(
    alloc: Global,
    found: &mut Vec<Finding>,
    place: &Place<'_>,
    spare: &mut EntryOffsets,
) -> Result<(), AllocError>
    requires { IsPlace place.now }
    ensures { OnOk result (found.new.items ≡ found.old.items ++ definition.unit_findings (unit_in place.now)) }
{
    check_root(found, place)?;
    let mut kept = IndexMap::new(alloc);
    let mut begins = EntryOffsets::new(alloc);
    let mut is_learnt = false;
    for entry in place.unit.entries() {
        let code = entry.code().value;
        match kept_repeats(&kept, code) {
            Some(repeats) => check_entry(found, place, &begins, &entry, repeats)?,
            None => {
                learn_for(code, &mut is_learnt, &mut begins, spare, place.unit);
                check_first(alloc, found, place, &begins, &mut kept, &entry, code)?;
            }
        }
    }
    if is_learnt {
        swap(&mut begins, spare);
    }
    Ok(())
}

/// Learns where the entries of the unit begin, unless that is learnt, where a value of this code can be a reference to
/// one of them. Not where they are so few that their places would cost more than they save: in a unit with a large
/// block or text, or with much padding. The memory is that of `spare`.
fn learn_for(
    code: u64,
    is_learnt: &mut bool,
    begins: &mut EntryOffsets,
    spare: &mut EntryOffsets,
    unit: &Unit,
)
    requires { AreEntryOffsets unit.now begins.old }
    ensures { AreEntryOffsets unit.now begins.new }
{
    if *is_learnt || !refers(unit.tree().table(), code) {
        return;
    }
    *is_learnt = true;
    if unit.size() / 64 <= unit.tree().row_count() as u64 {
        swap(begins, spare);
        begins.learn(unit);
    }
}

/// Adds the findings of an entry that is the first of its code in the unit. The repeats of the code are kept for those
/// that follow.
#[inline(never)]
fn check_first(
    alloc: Global,
    found: &mut Vec<Finding>,
    place: &Place<'_>,
    begins: &EntryOffsets,
    kept: &mut Repeats,
    entry: &EntryRef<'_>,
    code: u64,
) -> Result<(), AllocError>
    requires place { IsPlace place.now }
    requires begins { AreEntryOffsets place.now.unit.now begins.now }
    requires near { place.now.start + entry.now.offset < 2 ^ 64 }
    requires repeating { RepeatsInItsEntries place.now.unit.now.table code entry.now }
    requires kept { AreRepeats place.now.unit.now.table kept.old.entries }
    requires absent { get nat_eq kept.old code ≡ None }
    ensures are { AreRepeats place.now.unit.now.table kept.new.entries }
    ensures found { OnOk result (found.new.items ≡ found.old.items ++ definition.entry_findings
        (unit_in place.now) entry.now) }
{
    keep_repeats(alloc, kept, place.unit.tree().table(), code)?;
    match kept_repeats(kept, code) {
        Some(repeats) => check_entry(found, place, begins, entry, repeats),
        None => unreachable!(),
    }
}

/// Adds the findings of an entry. `repeats` says of each of its attributes whether an earlier one has its name; those
/// behind the last flag have no findings. Nearly every value is a number or has no bytes: these are judged where it is
/// known that they are.
#[inline(always)]
fn check_entry(
    found: &mut Vec<Finding>,
    place: &Place<'_>,
    begins: &EntryOffsets,
    entry: &EntryRef<'_>,
    repeats: &[bool],
) -> Result<(), AllocError>
    requires place { IsPlace place.now }
    requires begins { AreEntryOffsets place.now.unit.now begins.now }
    requires near { place.now.start + entry.now.offset < 2 ^ 64 }
    requires repeating { AreRepeatsOf [] (attributes_of entry.now) repeats.now }
    ensures { OnOk result (found.new.items ≡ found.old.items ++ definition.entry_findings
        (unit_in place.now) entry.now) }
{
    let mut position = 0;
    let mut attributes = entry.attrs();
    let mut left = repeats;
    while let Some((repeated, others)) = left.split_first() {
        position += 1;
        left = others;
        if let Some(number) = attributes.next_number() {
            check_number(found, place, begins, entry, position, &number, *repeated)?;
            continue;
        }
        if let Some(bare) = attributes.next_bare() {
            check_bare(found, place, begins, entry, position, &bare, *repeated)?;
            continue;
        }
        match attributes.next() {
            Some(attribute) => check_attribute(
                found, place, begins, entry, position, &attribute, *repeated,
            )?,
            None => return Ok(()),
        }
    }
    Ok(())
}
