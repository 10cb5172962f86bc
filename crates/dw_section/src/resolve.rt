//! The entry that a reference names (sections 2.2 and 7.5.5).
ghost use Rattle.std.specs.Prelude.{◌≡◌, IsSome, Some, IfOk};
ghost use Rattle.dw_form.specs.Form.{at_number};
ghost use Rattle.dw_form.specs.Lent.{attribute_of};
ghost use Rattle.dw_tree.specs.Lent.{EntryAt};
ghost use Rattle.dw_unit.specs.Unit.{WholeUnit};
ghost use Rattle.dw_section.specs.EntryOffsets.{AreEntryOffsets};
ghost use Rattle.dw_section.specs.Reference.{ref_forms, in_unit, in_type, by_signature, items_at, named, named_by};
ghost use Rattle.dw_section.specs.Lookup.{unit_at, entry};

use crate::entry_offsets::EntryOffsets;
use crate::find::entry_in;
use crate::id::{EntryId, RefFault};
use crate::section::Section;
use dw_leb::constants::form::*;
use dw_unit::AttrRef;

/// What a reference is an offset or a signature of (section 7.5.5).
#[derive(Clone, Copy, PartialEq, Eq)]
pub(crate) enum RefKind {
    /// An offset from the unit's first byte.
    InUnit,
    /// An offset from the section's first byte.
    InSection,
    /// The signature of a type unit.
    BySignature,
    /// An entry of a supplementary file.
    Elsewhere,
}

impl RefKind {
    /// What the values of a form are, where they are references.
    pub(crate) fn of(form: u64) -> Option<RefKind>
        ensures { result ≡ at_number form ref_forms }
    {
        match form {
            DW_FORM_REF1 | DW_FORM_REF2 | DW_FORM_REF4 | DW_FORM_REF8 | DW_FORM_REF_UDATA => Some(
                RefKind::InUnit,
            ),
            DW_FORM_REF_ADDR => Some(RefKind::InSection),
            DW_FORM_REF_SIG8 => Some(RefKind::BySignature),
            DW_FORM_REF_SUP4 | DW_FORM_REF_SUP8 | DW_FORM_GNU_REF_ALT => Some(RefKind::Elsewhere),
            _ => None,
        }
    }
}

impl Section {
    /// The entry that the value of an attribute names, where the attribute is one of the entry `from`: it begins
    /// exactly where the reference says. The item of `from` has to be a unit. No memory is taken.
    ///
    /// Errors, each exactly in its case: `NotReference`; for an offset in the unit `OutsideUnit` and
    /// `NotAnEntry`; for an offset in the section `OutsideSection`, `InOther` and `NotAnEntry`; for a signature
    /// `NoSignature`, and `BadTypeOffset` where no entry begins at the type offset of the first type unit with
    /// that signature; `Supplementary`.
    pub fn resolve(&self, from: EntryId, attr: &AttrRef<'_>) -> Result<EntryId, RefFault>
        requires { IsSome (unit_at self.now.items from.item) }
        ensures named { (u : WholeUnit) → unit_at self.now.items from.item ≡ Some u
            → result ≡ named self.now.items from.item u attr.now.form (attribute_of attr.now.attr).value }
        ensures entry { IfOk result (λ id. (e : EntryAt) × (entry self.now.items id ≡ Some e)
            × (e.offset ≡ id.offset)) }
    {
        match attr.attr.as_number() {
            Some(value) => self.named_by(from.item, value, RefKind::of(attr.form)),
            None => Err(RefFault::NotReference),
        }
    }

    /// The same as `resolve`, where some offsets are known at which entries of the unit begin: a reference to one of
    /// these in the unit is looked up in one step.
    #[inline(always)]
    pub fn resolve_among(
        &self,
        begins: &EntryOffsets,
        from: EntryId,
        attr: &AttrRef<'_>,
    ) -> Result<EntryId, RefFault>
        requires unit { IsSome (unit_at self.now.items from.item) }
        requires known { (u : WholeUnit) → unit_at self.now.items from.item ≡ Some u → AreEntryOffsets u begins.now }
        ensures named { (u : WholeUnit) → unit_at self.now.items from.item ≡ Some u
            → result ≡ named self.now.items from.item u attr.now.form (attribute_of attr.now.attr).value }
        ensures entry { IfOk result (λ id. (e : EntryAt) × (entry self.now.items id ≡ Some e)
            × (e.offset ≡ id.offset)) }
    {
        if let Some(RefKind::InUnit) = RefKind::of(attr.form) {
            if let Some(offset) = attr.attr.as_number() {
                if begins.knows(offset) {
                    return Ok(EntryId {
                        item: from.item,
                        offset,
                    });
                }
            }
        }
        self.resolve(from, attr)
    }

    /// The entry that a number names, where it is a reference in the unit of this item.
    fn named_by(&self, item: usize, value: u64, kind: Option<RefKind>) -> Result<EntryId, RefFault>
        requires { IsSome (unit_at self.now.items item) }
        ensures { (u : WholeUnit) → unit_at self.now.items item ≡ Some u → result
            ≡ named_by self.now.items item u value kind }
    {
        match kind {
            Some(RefKind::InUnit) => self.in_unit(item, value),
            Some(RefKind::InSection) => self.in_section(value),
            Some(RefKind::BySignature) => self.by_signature(value),
            Some(RefKind::Elsewhere) => Err(RefFault::Supplementary),
            None => Err(RefFault::NotReference),
        }
    }

    /// The entry that begins exactly at this offset of the unit, or why there is none.
    fn in_unit(&self, item: usize, offset: u64) -> Result<EntryId, RefFault>
        requires { IsSome (unit_at self.now.items item) }
        ensures { (u : WholeUnit) → unit_at self.now.items item ≡ Some u → result ≡ in_unit item u offset }
    {
        match self.unit(item) {
            Some(unit) => {
                if offset >= unit.size() {
                    return Err(RefFault::OutsideUnit);
                }
                entry_in(unit, EntryId { item, offset }, RefFault::NotAnEntry)
            }
            None => unreachable!(),
        }
    }

    /// The entry of the type that has this signature, or why there is none.
    fn by_signature(&self, signature: u64) -> Result<EntryId, RefFault>
        ensures { result ≡ by_signature (items_at self.now.items) signature }
    {
        match self.types.get(&signature) {
            Some(id) => self.type_entry(*id),
            None => Err(RefFault::NoSignature),
        }
    }

    /// The entry of a type unit's type, or that there is none.
    fn type_entry(&self, id: EntryId) -> Result<EntryId, RefFault>
        requires { IsSome (unit_at self.now.items id.item) }
        ensures { (u : WholeUnit) → unit_at self.now.items id.item ≡ Some u → result ≡ in_type u id }
    {
        match self.unit(id.item) {
            Some(unit) => entry_in(unit, id, RefFault::BadTypeOffset),
            None => unreachable!(),
        }
    }
}
