//! The one right value of a DW_AT_sibling (section 2.3).
ghost use Rattle.std.specs.Prelude.{◌≡◌};
ghost use Rattle.dw_form.specs.Lent.{attribute_of};
ghost use Rattle.dw_section.specs.Sibling as definition;

use crate::resolve::RefKind;
use dw_unit::{AttrRef, EntryRef};

/// Whether the value of an attribute is the right one of a DW_AT_sibling of this entry, whose unit begins at
/// `start`, counted from the section's first byte: its form is one of ref1, ref2, ref4, ref8, ref_udata and
/// ref_addr, and it is exactly where what follows the entry and all below it begins, for ref_addr counted from
/// the section's first byte. Of a last child that is the null that ends the chain. No memory is taken.
pub fn is_right_sibling(start: u64, entry: &EntryRef<'_>, attr: &AttrRef<'_>) -> bool
    ensures { result ≡ definition.is_right_sibling start entry.now attr.now.form (attribute_of attr.now.attr).value }
{
    let end = entry.end_offset();
    match (RefKind::of(attr.form), attr.attr.as_number()) {
        (Some(RefKind::InUnit), Some(number)) => number == end,
        (Some(RefKind::InSection), Some(number)) => number >= start && number - start == end,
        _ => false,
    }
}
