//! Where the entries of a unit's strings begin (sections 3.1.1 and 7.26).
ghost use Rattle.std.specs.Prelude.{◌≡◌};
ghost use Rattle.dw_section.specs.ItemView.{item_of};
ghost use Rattle.dw_section.specs.StringBase as definition;

use crate::item::Item;
use dw_leb::constants::attribute::DW_AT_STR_OFFSETS_BASE;
use dw_unit::Unit;

/// The base of an item's strings: that of a unit, where it has one.
pub(crate) fn base_in(item: &Item) -> Option<u64>
    ensures { result ≡ definition.base_in (item_of item.now) }
{
    match item {
        Item::Known(unit) => base_of(unit),
        Item::Other(_) => None,
    }
}

/// The first DW_AT_str_offsets_base of the unit's root, where it is a number.
fn base_of(unit: &Unit) -> Option<u64>
    ensures { result ≡ definition.base_of unit.now }
{
    match unit.root().attr(DW_AT_STR_OFFSETS_BASE) {
        Some(base) => base.attr.as_number(),
        None => None,
    }
}
