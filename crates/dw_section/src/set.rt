//! One number of a section becomes another (sections 2.2 and 7.5.2).
ghost use Rattle.std.specs.Prelude.{◌≡◌, ℕ, List, length, Some, None, IsSome, OnOk, OnErr, IfErr, Ok, not};
ghost use Rattle.dw_form.specs.Form.{IsContext, at_number};
ghost use Rattle.dw_form.specs.Lent.{attribute_of, value_of};
ghost use Rattle.dw_tree.specs.Lent.{EntryAt, attr_of, find_at, entries_of};
ghost use Rattle.dw_tree.specs.Put.{Takes};
ghost use Rattle.dw_unit.specs.Unit.{WholeUnit, tree_of};
ghost use Rattle.dw_section.specs.Item.{Known};
ghost use Rattle.dw_section.specs.ItemView.{item_of};
ghost use Rattle.dw_section.specs.Section.{HoldsTables, SectionReadAs, section_bytes};
ghost use Rattle.dw_section.specs.Reference.{ref_forms, named};
ghost use Rattle.dw_section.specs.Lookup.{unit_at};
ghost use Rattle.dw_section.specs.StringBase as strings;
ghost use Rattle.dw_section.specs.SetNumber as definition;

use crate::base::base_in;
use crate::id::EntryId;
use crate::item::Item;
use crate::resolve::RefKind;
use crate::section::Section;
use crate::set_refusal::SetRefusal;
use crate::sibling::is_right_sibling;
use dw_form::{AttrValue, Ctx, Value, renumbered};
use dw_leb::constants::attribute::DW_AT_SIBLING;
use dw_unit::{AttrRef, EntryRef, Unit};

impl Section {
    /// Puts a number in the place of that of an attribute: the first one of this name, `DW_AT_..`, of this
    /// entry. The value keeps its width or size, and the form that an indirect one names; every offset and all
    /// else stay. So `write_section` writes as many bytes, which are read back as that section where the tables
    /// of its units stand. No memory is taken.
    ///
    /// Errors, for the first reason that holds, and then nothing is changed: `NoEntry`, `NoAttribute`,
    /// `NotANumber`, `InTable`, `DoesNotFit`, and `BadTarget` where the attribute is a reference that would name
    /// no entry of the section, or a DW_AT_sibling whose form or number would not be the right one
    /// (`is_right_sibling`).
    pub fn set_number(&mut self, id: EntryId, name: u64, number: i128) -> Result<(), SetRefusal>
        ensures set { OnOk result (self.new ≡ definition.edited self.old id name number) }
        ensures allowed { OnOk result (definition.set_refusal self.old id name number ≡ None) }
        ensures refused { IfErr result (λ why. definition.set_refusal self.old id name number ≡ Some why) }
        ensures unchanged { OnErr result (self.new ≡ self.old) }
        ensures size { length (section_bytes self.new) ≡ length (section_bytes self.old) }
        ensures offsets { definition.KeepsOffsets self.old.items self.new.items }
        ensures read_back { (abbreviations : List ℕ) → HoldsTables abbreviations self.old.items
            → SectionReadAs self.new.versions self.new.order abbreviations self.new.items (section_bytes self.new) }
    {
        if let Some(refusal) = self.refuse_number(id, name, number) {
            return Err(refusal);
        }
        let base = put_in_item(&mut self.items[id.item], id.offset, name, number);
        self.bases[id.item] = base;
        Ok(())
    }

    /// Why the number isn't put.
    fn refuse_number(&self, id: EntryId, name: u64, number: i128) -> Option<SetRefusal>
        ensures { result ≡ definition.set_refusal self.now id name number }
    {
        match (self.start(id.item), self.unit(id.item)) {
            (Some(start), Some(unit)) => self.refuse_in(unit, start, id, name, number),
            _ => Some(SetRefusal::NoEntry),
        }
    }

    /// Why it isn't put in this unit, which begins at `start`.
    fn refuse_in(
        &self,
        unit: &Unit,
        start: u64,
        id: EntryId,
        name: u64,
        number: i128,
    ) -> Option<SetRefusal>
        requires { unit_at self.now.items id.item ≡ Some unit.now }
        ensures { result
            ≡ definition.entry_refusal self.now.items id name number unit.now start
            (find_at id.offset (entries_of (tree_of unit.now))) }
    {
        let entry = match unit.entry_at(id.offset) {
            Some(entry) => entry,
            None => return Some(SetRefusal::NoEntry),
        };
        let attr = match entry.attr(name) {
            Some(attr) => attr,
            None => return Some(SetRefusal::NoAttribute),
        };
        match new_value(unit.header().context(), attr.form, number, &attr.attr.value) {
            Ok(value) => self.refuse_value(id, start, &entry, &attr, &value),
            Err(why) => Some(why),
        }
    }

    /// Why an attribute doesn't get this value, which is one of its form.
    fn refuse_value(
        &self,
        id: EntryId,
        start: u64,
        entry: &EntryRef<'_>,
        attr: &AttrRef<'_>,
        value: &Value<'_>,
    ) -> Option<SetRefusal>
        requires { IsSome (unit_at self.now.items id.item) }
        ensures { (u : WholeUnit) → unit_at self.now.items id.item ≡ Some u →
            result ≡ definition.value_refusal self.now.items id u start entry.now (attr_of attr.now)
            (Ok (value_of value.now)) }
    {
        let new = AttrRef {
            name: attr.name,
            form: attr.form,
            offset: attr.offset,
            attr: AttrValue {
                via: attr.attr.via,
                value: *value,
            },
        };
        let right = if attr.name == DW_AT_SIBLING {
            is_right_sibling(start, entry, &new)
        } else {
            self.names_entry(id, &new)
        };
        if right {
            None
        } else {
            Some(SetRefusal::BadTarget)
        }
    }

    /// Whether an attribute names an entry, where it is a reference.
    fn names_entry(&self, id: EntryId, attr: &AttrRef<'_>) -> bool
        requires { IsSome (unit_at self.now.items id.item) }
        ensures { (u : WholeUnit) → unit_at self.now.items id.item ≡ Some u →
            result ≡ not (definition.names_nothing (at_number attr.now.form ref_forms)
            (named self.now.items id.item u attr.now.form (attribute_of attr.now.attr).value)) }
    {
        RefKind::of(attr.form).is_none() || self.resolve(id, attr).is_ok()
    }
}

/// The value of a form with this number in the place of its own, or why there is none.
fn new_value<'a>(
    ctx: Ctx,
    form: u64,
    number: i128,
    value: &Value<'a>,
) -> Result<Value<'a>, SetRefusal>
    requires { IsContext ctx }
    ensures { definition.seen_value result ≡ definition.new_value ctx form number (value_of value.now) }
{
    match value {
        Value::Num(_) | Value::Uleb(_) | Value::Sleb(_) => match renumbered(
            ctx, form, number, value,
        ) {
            Some(value) => Ok(value),
            None => Err(SetRefusal::DoesNotFit),
        },
        Value::Implicit(_) => Err(SetRefusal::InTable),
        _ => Err(SetRefusal::NotANumber),
    }
}

/// Puts a number in the unit that an item is, and gives the base of its strings then.
fn put_in_item(item: &mut Item, offset: u64, name: u64, number: i128) -> Option<u64>
    requires { (u : WholeUnit) × (item_of item.old ≡ Known u)
        × Takes (record { offset = offset; name = name; number = number }) (tree_of u) }
    ensures put { item_of item.new
        ≡ definition.put_in_item (record { offset = offset; name = name; number = number }) (item_of item.old) }
    ensures keeps { definition.ItemKept (item_of item.old) (item_of item.new) }
    ensures base { result ≡ strings.base_in (item_of item.new) }
{
    match item {
        Item::Known(unit) => unit.put_number(offset, name, number),
        Item::Other(_) => unreachable!(),
    }
    base_in(item)
}
