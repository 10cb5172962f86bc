//! What texts need of the types that they go on to, looked up once for each: of those with many children, and in a text
//! of many visits of all. Without it each visit of a function or an array would look at all of its children again.
ghost use Rattle.std.specs.Prelude.{◌≡◌, ◌++◌, ◌<◌, length, nat_le, IfOk, IfSome, IsSome, OnOk, Some};
ghost use Rattle.dw_tree.specs.Lent.{children_of};
ghost use Rattle.dw_section.specs.Lookup.{entry as entry_there, unit_at};
ghost use Rattle.dw_ctype.specs.Parts.{ArePartsOf, is_shown, parameter_types, shown_of, types_of};

use crate::kind::Kind;
use crate::typed::{Typed, kind_of, type_of};
use dw_leb::constants::tag::{
    DW_TAG_FORMAL_PARAMETER, DW_TAG_SUBRANGE_TYPE, DW_TAG_UNSPECIFIED_PARAMETERS,
};
use dw_section::{EntryId, Section};
use dw_unit::EntryRef;
use indexmap::IndexMap;
use std::alloc::{AllocError, Global};
use std::marker::Model;
use std::rc::Rc;

/// The most children that are looked at again at each visit: to keep what is needed of so few is dearer.
const FEW_CHILDREN: u8 = 32;

/// What the text of an entry needs.
#[derive(Drop)]
pub(crate) struct Parts<'a> {
    /// The types whose texts it counts: its own, and then those of its parameters.
    pub(crate) types: Vec<Typed>,
    /// The children that it shows: the parameters of a function, the subranges of an array.
    pub(crate) shown: Vec<EntryRef<'a>>,
}

/// The parts of entries of a section.
#[derive(Drop)]
pub(crate) struct TypeCache<'a> {
    alloc: Global,
    section: &'a Section,
    parts: IndexMap<EntryId, Rc<Parts<'a>>>,
}

impl<'a> Model for TypeCache<'a> {
    ghost use Rattle.std.specs.List.{AllByRecursion};
    ghost use Rattle.dw_section.specs.ItemView.{section_code};
    ghost use Rattle.dw_section.specs.Lookup.{entry};
    ghost use Rattle.dw_section.specs.Section.{WholeSection};
    ghost use Rattle.dw_ctype.specs.Parts.{ArePartsOf};

    ghost Value = { WholeSection };

    ghost coded = { section_code };

    ghost view = { λ k. k.section.now };

    ghost invariant = { λ k.
        AllByRecursion (λ e. ArePartsOf k.section.now.items e.0.item (entry k.section.now.items e.0) e.1.value)
        k.parts.entries };
}

impl<'a> TypeCache<'a> {
    /// The parts of no entry. No memory is taken.
    pub(crate) fn nothing(alloc: Global, section: &'a Section) -> TypeCache<'a>
        ensures { result ≡ section.now }
    {
        TypeCache {
            alloc,
            section,
            parts: IndexMap::new(alloc),
        }
    }

    /// The parts of an entry, if they are kept.
    pub(crate) fn parts(&self, id: EntryId) -> Option<&Parts<'a>>
        ensures { IfSome result (λ p. ArePartsOf self.now.items id.item (entry_there self.now.items id) p.now) }
    {
        if self.parts.is_empty() {
            return None;
        }
        match self.parts.get(&id) {
            Some(parts) => Some(parts),
            None => None,
        }
    }

    /// The parts of an entry, if they are kept, to be held while others are kept.
    pub(crate) fn found(&self, id: EntryId) -> Option<Rc<Parts<'a>>>
        ensures { IfSome result (λ p. ArePartsOf self.now.items id.item (entry_there self.now.items id) p.value) }
    {
        match self.parts.get(&id) {
            Some(parts) => match parts.clone() {
                Ok(shared) => Some(shared),
                Err(_) => None,
            },
            None => None,
        }
    }

    /// The parts of an entry that has many children, or where there are many visits of any entry, which are kept from
    /// then on. None of others, and where the memory for the parts is refused: they aren't kept then.
    pub(crate) fn keep(
        &mut self,
        id: EntryId,
        entry: &EntryRef<'a>,
        many_visits: bool,
    ) -> Option<Rc<Parts<'a>>>
        requires { entry_there self.old.items id ≡ Some entry.now }
        ensures section { self.new ≡ self.old }
        ensures parts { IfSome result (λ p. ArePartsOf self.old.items id.item (entry_there self.old.items id) p.value) }
    {
        if !(many_visits || has_many(entry)) {
            return None;
        }
        self.shared(id, entry).ok()
    }

    /// The parts of an entry, which are kept from then on.
    fn shared(&mut self, id: EntryId, entry: &EntryRef<'a>) -> Result<Rc<Parts<'a>>, AllocError>
        requires { entry_there self.old.items id ≡ Some entry.now }
        ensures section { self.new ≡ self.old }
        ensures parts { IfOk result (λ p. ArePartsOf self.old.items id.item (entry_there self.old.items id) p.value) }
    {
        if let Some(parts) = self.parts.get(&id) {
            return Ok(parts.clone()?);
        }
        let types = types_of(self.alloc, self.section, id.item, entry)?;
        let shown = shown_of(self.alloc, entry)?;
        let parts = Rc::new(self.alloc, Parts { types, shown })?;
        let shared = parts.clone()?;
        self.parts.insert(id, parts)?;
        Ok(shared)
    }
}

/// Whether an entry has more children than are looked at again at each visit.
fn has_many(entry: &EntryRef<'_>) -> bool
    ensures { result ≡ nat_le 33 (length (children_of entry.now)) }
{
    let mut left = FEW_CHILDREN;
    for _child in entry.children() {
        if left == 0 {
            return true;
        }
        left -= 1;
    }
    false
}

/// The types whose texts the text of an entry of this item counts.
fn types_of(
    alloc: Global,
    section: &Section,
    item: usize,
    entry: &EntryRef<'_>,
) -> Result<Vec<Typed>, AllocError>
    requires { IsSome (unit_at section.now.items item) }
    ensures { IfOk result (λ types. types.items ≡ types_of section.now.items item entry.now) }
{
    let mut types = Vec::new(alloc);
    match kind_of(entry) {
        Kind::Named | Kind::Tagged(_) | Kind::Other => {}
        Kind::Marked(_) | Kind::Qualified(_) | Kind::Array => {
            types.push(type_of(section, item, entry))?;
        }
        Kind::Function => {
            types.push(type_of(section, item, entry))?;
            push_parameter_types(section, item, entry, &mut types)?;
        }
    }
    Ok(types)
}

/// Appends the types of the parameters of a function, an entry of this item.
fn push_parameter_types(
    section: &Section,
    item: usize,
    function: &EntryRef<'_>,
    types: &mut Vec<Typed>,
) -> Result<(), AllocError>
    requires { IsSome (unit_at section.now.items item) }
    ensures { OnOk result
        (types.new.items ≡ types.old.items ++ parameter_types section.now.items item (children_of function.now)) }
{
    for child in function.children() {
        if child.tag() == DW_TAG_FORMAL_PARAMETER {
            types.push(type_of(section, item, &child))?;
        }
    }
    Ok(())
}

/// The children of an entry that its text shows.
fn shown_of<'a>(alloc: Global, entry: &EntryRef<'a>) -> Result<Vec<EntryRef<'a>>, AllocError>
    ensures { IfOk result (λ shown. shown.items ≡ shown_of entry.now) }
{
    let kind = kind_of(entry);
    let mut shown = Vec::new(alloc);
    for child in entry.children() {
        if is_shown(kind, child.tag()) {
            shown.push(child)?;
        }
    }
    Ok(shown)
}

/// Whether the text of an entry of a kind shows a child of this tag.
fn is_shown(kind: Kind, tag: u64) -> bool
    ensures { result ≡ is_shown kind tag }
{
    match kind {
        Kind::Function => matches!(tag, DW_TAG_FORMAL_PARAMETER | DW_TAG_UNSPECIFIED_PARAMETERS),
        Kind::Array => tag == DW_TAG_SUBRANGE_TYPE,
        _ => false,
    }
}
