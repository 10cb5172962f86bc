//! The dimensions of arrays (section 5.13).
ghost use Rattle.std.specs.Prelude.{◌≡◌, ◌^◌, ◌-◌, [], ◌∷◌, Some, pos, decimal, IfSome, option_map, unwrap_or, ◌≤ℤ◌};
ghost use Rattle.dw_form.specs.Lent.{value_of};
ghost use Rattle.dw_tree.specs.Lent.{children_of};
ghost use Rattle.dw_section.specs.Lookup.{entry};
ghost use Rattle.dw_ctype.specs.declared.kind.Kind.TheVariants.{Array};
ghost use Rattle.dw_ctype.specs.Append.{Puts};
ghost use Rattle.dw_ctype.specs.Types as definition;

use crate::append::push;
use crate::parts::TypeCache;
use dw_form::Value;
use dw_leb::constants::attribute::{DW_AT_COUNT, DW_AT_UPPER_BOUND};
use dw_leb::constants::form::*;
use dw_leb::constants::tag::DW_TAG_SUBRANGE_TYPE;
use dw_section::EntryId;
use dw_unit::EntryRef;
use itoa::Buffer;
use std::alloc::AllocError;

/// Appends the dimensions of an array: of each subrange, or empty brackets where it has none.
pub(crate) fn push_dimensions(
    kept: &TypeCache<'_>,
    id: EntryId,
    array: &EntryRef<'_>,
    out: &mut Vec<u8>,
) -> Result<(), AllocError>
    requires there { entry kept.now.items id ≡ Some array.now }
    requires kind { definition.kind_of array.now ≡ Array }
    ensures { Puts out.old out.new (definition.dimensions array.now) result }
{
    let before = out.len();
    push_each_dimension(kept, id, array, out)?;
    if out.len() > before {
        return Ok(());
    }
    push(b"[]", out)
}

/// Appends the dimension of each subrange, by the array's parts where they are kept.
fn push_each_dimension(
    kept: &TypeCache<'_>,
    id: EntryId,
    array: &EntryRef<'_>,
    out: &mut Vec<u8>,
) -> Result<(), AllocError>
    requires there { entry kept.now.items id ≡ Some array.now }
    requires kind { definition.kind_of array.now ≡ Array }
    ensures { Puts out.old out.new (definition.dimensions_of (children_of array.now)) result }
{
    match kept.parts(id) {
        Some(parts) => push_dimensions_of(&parts.shown, out),
        None => push_dimensions_among(array, out),
    }
}

/// Appends the dimension of each of these that is a subrange.
fn push_dimensions_of(shown: &[EntryRef<'_>], out: &mut Vec<u8>) -> Result<(), AllocError>
    ensures { Puts out.old out.new (definition.dimensions_of shown.now) result }
{
    for entry in shown {
        push_if_subrange(entry, out)?;
    }
    Ok(())
}

/// Appends the dimension of each child that is a subrange.
fn push_dimensions_among(array: &EntryRef<'_>, out: &mut Vec<u8>) -> Result<(), AllocError>
    ensures { Puts out.old out.new (definition.dimensions_of (children_of array.now)) result }
{
    for child in array.children() {
        push_if_subrange(&child, out)?;
    }
    Ok(())
}

/// Appends the dimension of an entry that is a subrange.
fn push_if_subrange(entry: &EntryRef<'_>, out: &mut Vec<u8>) -> Result<(), AllocError>
    ensures { Puts out.old out.new (definition.dimensions_of (entry.now ∷ [])) result }
{
    if entry.tag() == DW_TAG_SUBRANGE_TYPE {
        push_dimension(entry, out)
    } else {
        Ok(())
    }
}

/// Appends the dimension of a subrange: its size between square brackets.
fn push_dimension(subrange: &EntryRef<'_>, out: &mut Vec<u8>) -> Result<(), AllocError>
    ensures { Puts out.old out.new (definition.dimension subrange.now) result }
{
    push(b"[", out)?;
    push_size(subrange, out)?;
    push(b"]", out)
}

/// Appends the size of a subrange: its count, or where that is no number what its upper bound makes it.
fn push_size(subrange: &EntryRef<'_>, out: &mut Vec<u8>) -> Result<(), AllocError>
    ensures { Puts out.old out.new
        (definition.size (definition.number (definition.first 0x37 subrange.now))
        (definition.number (definition.first 0x2f subrange.now)))
        result }
{
    if let Some(count) = number(subrange, DW_AT_COUNT) {
        return push_number(count, out);
    }
    match number(subrange, DW_AT_UPPER_BOUND) {
        Some(upper) => push_number(one_more(upper), out),
        None => Ok(()),
    }
}

/// Appends the number in decimal digits, or nothing where it is negative.
fn push_number(number: i128, out: &mut Vec<u8>) -> Result<(), AllocError>
    ensures { Puts out.old out.new (definition.size_text number) result }
{
    match natural(number) {
        Some(number) => push(Buffer::new().format(number).as_bytes(), out),
        None => Ok(()),
    }
}

/// The number, unless it is negative.
fn natural(number: i128) -> Option<u128>
    ensures { unwrap_or (option_map decimal result) [] ≡ definition.size_text number }
{
    if number >= 0 {
        Some(number as u128)
    } else {
        None
    }
}

/// The number of elements up to this bound, counted from 0.
fn one_more(bound: i128) -> i128
    requires { bound ≤ℤ pos (2 ^ 64 - 1) }
    ensures { result ≡ definition.one_more bound }
{
    bound + 1
}

/// The number of the first attribute of this name: unsigned under the forms data1 to data8 and udata, signed
/// under sdata and implicit_const. None under any other form, and where there is no such attribute.
fn number(entry: &EntryRef<'_>, name: u64) -> Option<i128>
    ensures value { result ≡ definition.number (definition.first name entry.now) }
    ensures small { IfSome result (λ n. n ≤ℤ pos (2 ^ 64 - 1)) }
{
    let attr = entry.attr(name)?;
    if is_unsigned(attr.form) {
        return attr.attr.as_number().map(|number| i128::from(number));
    }
    signed(&attr.attr.value)
}

/// Whether the values of a form are unsigned numbers.
fn is_unsigned(form: u64) -> bool
    ensures { result ≡ definition.is_unsigned form }
{
    matches!(
        form,
        DW_FORM_DATA1 | DW_FORM_DATA2 | DW_FORM_DATA4 | DW_FORM_DATA8 | DW_FORM_UDATA
    )
}

/// The number that a value is under a signed form.
fn signed(value: &Value<'_>) -> Option<i128>
    ensures value { result ≡ definition.signed_in (value_of value.now) }
    ensures small { IfSome result (λ n. n ≤ℤ pos (2 ^ 64 - 1)) }
{
    match value {
        Value::Sleb(number) | Value::Implicit(number) => Some(i128::from(number.value)),
        _ => None,
    }
}
