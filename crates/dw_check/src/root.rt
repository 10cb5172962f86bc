//! What is wrong with the root of a unit as a whole.
ghost use Rattle.std.specs.Prelude.{◌≡◌, ◌++◌, OnOk};
ghost use Rattle.dw_check.specs.Findings as definition;
ghost use Rattle.dw_check.specs.Place.{IsPlace, unit_in};

use crate::finding::{Finding, FindingKind, push_if};
use crate::place::Place;
use dw_leb::constants::tag::*;
use dw_unit::{Kind, Unit};
use std::alloc::AllocError;

/// Adds the findings of the root of a unit as a whole.
pub(crate) fn check_root(found: &mut Vec<Finding>, place: &Place<'_>) -> Result<(), AllocError>
    requires { IsPlace place.now }
    ensures { OnOk result (found.new.items ≡ found.old.items ++ definition.root_findings (unit_in place.now)) }
{
    let kind = place.unit.header().kind();
    let root = place.unit.root();
    let offset = place.start + root.offset();
    let mistagged = !is_root_tag(kind, root.tag());
    push_if(found, mistagged, offset, 0, FindingKind::RootTag)?;
    let typeless = !has_type(place.unit, kind);
    push_if(found, typeless, offset, 0, FindingKind::TypeOffset)
}

/// Whether the root of a unit of this kind may have this tag (section 3.1).
fn is_root_tag(kind: Kind, tag: u64) -> bool
    ensures { result ≡ definition.is_root_tag kind tag }
{
    match kind {
        Kind::Compile | Kind::Partial | Kind::Four => {
            tag == DW_TAG_COMPILE_UNIT || tag == DW_TAG_PARTIAL_UNIT
        }
        Kind::TypeUnit { .. } => tag == DW_TAG_TYPE_UNIT,
        Kind::Skeleton { .. } => tag == DW_TAG_SKELETON_UNIT || tag == DW_TAG_COMPILE_UNIT,
    }
}

/// Whether an entry of the unit begins at its type offset, where its kind has one.
fn has_type(unit: &Unit, kind: Kind) -> bool
    ensures { result ≡ definition.has_type unit.now kind }
{
    match kind {
        Kind::TypeUnit { type_offset, .. } => unit.entry_at(type_offset).is_some(),
        _ => true,
    }
}
