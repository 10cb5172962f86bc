//! Sections (section 7.5).
ghost use Rattle.std.specs.Prelude.{◌≡◌, ◌∷◌, ◌++◌, [], map, length, option_copied, None, OnOk, OnErr, IfErr};
ghost use Rattle.dw_section.specs.Item.{Known, ItemFits};
ghost use Rattle.dw_section.specs.ItemView.{item_of};
ghost use Rattle.dw_section.specs.Section.{SectionFits, section_bytes};
ghost use Rattle.dw_unit.specs.Unit.{WholeUnit, UnitFits};
ghost use Rattle.dw_section.specs.Push.{with_item, same_order, accepts, push_refusal, or_memory};
ghost use Rattle.dw_section.specs.Lookup.{unit_at, start_of, entry};
ghost use Rattle.dw_section.specs.StringBase.{str_offsets_base};
ghost use Rattle.dw_header.specs.declared.versions.Versions.TheVariants.{Five};

use crate::base::base_in;
use crate::id::EntryId;
use crate::item::Item;
use crate::lists::{add, keep_type, make_room};
use crate::refusal::SectionRefusal;
use dw_leb::Order;
use dw_unit::{EntryRef, Kind, Unit, Versions};
use indexmap::IndexMap;
use std::alloc::Global;
use std::marker::Model;

/// The most bytes of a section: 2^63 - 1.
const MOST_BYTES: u64 = (1 << 63) - 1;

/// A whole section `.debug_info`: its items one after the other, and where each begins.
#[derive(Debug, Drop)]
pub struct Section {
    pub(crate) order: Order,
    pub(crate) versions: Versions,
    pub(crate) items: Vec<Item>,
    /// Where each item begins, counted from the section's first byte.
    pub(crate) starts: Vec<u64>,
    /// The base of the strings of each item.
    pub(crate) bases: Vec<Option<u64>>,
    /// The entry of the type of each type unit, by the unit's signature; of two with one signature that of
    /// the first.
    pub(crate) types: IndexMap<u64, EntryId>,
    /// The count of its bytes.
    pub(crate) end: u64,
}

impl Model for Section {
    ghost use Rattle.std.specs.Prelude.{map};
    ghost use Rattle.dw_section.specs.ItemView.{item_of, section_code};
    ghost use Rattle.dw_section.specs.Section.{WholeSection};
    ghost use Rattle.dw_section.specs.SectionView.{IsSection};

    ghost Value = { WholeSection };

    ghost coded = { section_code };

    ghost view = { λ s. record { order = s.order; versions = s.versions; items = map item_of s.items.items } };

    ghost invariant = { λ s.
        IsSection (record { order = s.order; versions = s.versions; items = map item_of s.items.items })
        s.starts.items s.bases.items s.types.entries s.end };
}

impl Section {
    /// A section without items, for units of version 5. It takes no memory.
    pub fn new(alloc: Global, order: Order) -> Section
        ensures { result ≡ record { order = order; versions = Five; items = [] } }
    {
        Section::new_as(alloc, order, Versions::Five)
    }

    /// A section without items, for units of these versions. It takes no memory.
    pub fn new_as(alloc: Global, order: Order, versions: Versions) -> Section
        ensures { result ≡ record { order = order; versions = versions; items = [] } }
    {
        Section {
            order,
            versions,
            items: Vec::new(alloc),
            starts: Vec::new(alloc),
            bases: Vec::new(alloc),
            types: IndexMap::new(alloc),
            end: 0,
        }
    }

    /// The byte order of its units.
    pub fn order(&self) -> Order
        ensures { result ≡ self.now.order }
    {
        self.order
    }

    /// The versions of its units.
    pub fn versions(&self) -> Versions
        ensures { result ≡ self.now.versions }
    {
        self.versions
    }

    /// Its items, in order.
    pub fn items(&self) -> &[Item]
        ensures { map item_of result.now ≡ self.now.items }
    {
        self.items.as_slice()
    }

    /// The count of the bytes of its spelling, which each section has.
    pub fn size(&self) -> u64
        ensures size { result ≡ length (section_bytes self.now) }
        ensures fits { SectionFits self.now }
    {
        self.end
    }

    /// The unit of this number, counted from 0 over all items. None exactly where the item is none that is
    /// read, or where there is none.
    pub fn unit(&self, item: usize) -> Option<&Unit>
        ensures { option_copied result ≡ unit_at self.now.items item }
    {
        match self.items.get(item) {
            Some(Item::Known(unit)) => Some(unit),
            _ => None,
        }
    }

    /// Where the item of this number begins, counted from the section's first byte. None exactly where there is
    /// no such item.
    pub fn start(&self, item: usize) -> Option<u64>
        ensures { result ≡ start_of self.now.items item }
    {
        match self.starts.get(item) {
            Some(start) => Some(*start),
            None => None,
        }
    }

    /// Where the entries of a unit's strings begin in `.debug_str_offsets`, counted from the first byte of that
    /// section (sections 3.1.1 and 7.26): the value of the first DW_AT_str_offsets_base of its root, where that
    /// is a fixed number of 1 to 8 bytes or an unsigned LEB128 one. None exactly where it isn't, where the root
    /// has none, and where the item is no unit that is read. It was looked up when the unit was added.
    pub fn str_offsets_base(&self, item: usize) -> Option<u64>
        ensures { result ≡ str_offsets_base self.now.items item }
    {
        match self.bases.get(item) {
            Some(base) => *base,
            None => None,
        }
    }

    /// The entry of an id. None exactly where no entry begins there. No memory is taken.
    pub fn entry(&self, id: EntryId) -> Option<EntryRef<'_>>
        ensures { result ≡ entry self.now.items id }
    {
        match self.unit(id.item) {
            Some(unit) => unit.entry_at(id.offset),
            None => None,
        }
    }

    /// One more unit, behind the others (section 7.5).
    ///
    /// Refused are a unit of the other byte order (`WrongOrder`), then one of version 4 where the section's
    /// units are of version 5 alone (`WrongVersion`), then one with which the section would pass 2^63 - 1 bytes
    /// (`TooLong`), and then a growth for which there is no memory (`NoMemory`). After each the section is
    /// unchanged, and the unit is handed back.
    pub fn push(&mut self, unit: Unit) -> Result<(), (SectionRefusal, Unit)>
        ensures added { OnOk result (self.new ≡ with_item self.old (Known unit)) }
        ensures allowed { OnOk result (push_refusal self.old unit ≡ None) }
        ensures refused { IfErr result (λ e. e.0 ≡ or_memory (push_refusal self.old unit)) }
        ensures handed_back { IfErr result (λ e. e.1 ≡ unit) }
        ensures unchanged { OnErr result (self.new ≡ self.old) }
    {
        if let Some(refusal) = self.refuse(&unit) {
            return Err((refusal, unit));
        }
        match self.keep(Item::Known(unit)) {
            Ok(()) => Ok(()),
            Err(item) => Err((SectionRefusal::NoMemory, unit_of(item))),
        }
    }

    /// Why the unit isn't added, whatever memory there is.
    fn refuse(&self, unit: &Unit) -> Option<SectionRefusal>
        ensures refusal { result ≡ push_refusal self.now unit.now }
        ensures fits { UnitFits unit.now }
    {
        let header = unit.header();
        let size = unit.size();
        if !same_order(header.order(), self.order) {
            return Some(SectionRefusal::WrongOrder);
        }
        if !accepts(self.versions, header.kind()) {
            return Some(SectionRefusal::WrongVersion);
        }
        if size > MOST_BYTES - self.end {
            return Some(SectionRefusal::TooLong);
        }
        None
    }

    /// One more item, behind the others. Where memory is refused the section is unchanged, and the item is
    /// handed back.
    pub(crate) fn keep(&mut self, item: Item) -> Result<(), Item>
        requires { ItemFits self.old.versions self.old.order (length (section_bytes self.old)) (item_of item) }
        ensures kept { OnOk result (self.new ≡ with_item self.old (item_of item)) }
        ensures handed_back { IfErr result (λ x. x ≡ item) }
        ensures unchanged { OnErr result (self.new ≡ self.old) }
    {
        if make_room(
            &mut self.items,
            &mut self.starts,
            &mut self.bases,
            &mut self.types,
        )
        .is_err()
        {
            return Err(item);
        }
        let end = self.end + item.size();
        let start = std::mem::replace(&mut self.end, end);
        let number = self.items.as_slice().len();
        keep_type(&mut self.types, number, &item);
        add(&mut self.starts, start);
        add(&mut self.bases, base_in(&item));
        add(&mut self.items, item);
        Ok(())
    }
}

/// Whether two byte orders are the same.
fn same_order(one: Order, other: Order) -> bool
    ensures { result ≡ same_order one other }
{
    one == other
}

/// Whether a unit of this kind is of one of the versions.
fn accepts(versions: Versions, kind: Kind) -> bool
    ensures { result ≡ accepts versions kind }
{
    match versions {
        Versions::Five => kind != Kind::Four,
        Versions::FourAndFive => true,
    }
}

/// The unit of an item that is one.
fn unit_of(item: Item) -> Unit
    requires { (u : WholeUnit) × (item_of item ≡ Known u) }
    ensures { item_of item ≡ Known result }
{
    match item {
        Item::Known(unit) => unit,
        Item::Other(_) => unreachable!(),
    }
}
