//! A number in the place of a value's own, in the same bytes.
ghost use Rattle.std.specs.Prelude.{◌≡◌, Some, option_map};
ghost use Rattle.dw_leb.specs.View.{uleb_of, sleb_of};
ghost use Rattle.dw_form.specs.declared.shape.Shape.TheVariants as shapes;
ghost use Rattle.dw_form.specs.Form.{IsContext, IsFixedSize, shape};
ghost use Rattle.dw_form.specs.Lent.{value_of};
ghost use Rattle.dw_form.specs.Renumber as definition;

use crate::fit::is_below;
use crate::shape::{Ctx, Shape};
use crate::value::Value;
use dw_leb::{Sleb, Uleb};

/// The value with this number in the place of its own, in as many bytes (section 7.5.6). None exactly
/// where the value is no number of at most 64 bits, and where its bytes don't hold this one: the n bytes
/// of a fixed number hold 0 to 256^n - 1, a LEB128 number's hold what `with_width` takes in its width.
///
/// `form` is the form in effect, of an indirect value the one that it names. No memory is taken.
pub fn renumbered<'a>(ctx: Ctx, form: u64, number: i128, value: &Value<'a>) -> Option<Value<'a>>
    requires { IsContext ctx }
    ensures { option_map value_of result ≡ definition.renumbered ctx form number (value_of value.now) }
{
    match value {
        Value::Num(_) => Some(Value::Num(fixed_number(ctx, form, number)?)),
        Value::Uleb(old) => Some(Value::Uleb(unsigned_number(old.width, number)?)),
        Value::Sleb(old) => Some(Value::Sleb(signed_number(old.width, number)?)),
        _ => None,
    }
}

/// The number, where the bytes of a fixed one of this form hold it.
fn fixed_number(ctx: Ctx, form: u64, number: i128) -> Option<u64>
    requires { IsContext ctx }
    ensures { result ≡ definition.fixed_number (shape form ctx.address_size ctx.format) number }
{
    match Shape::of(form, ctx.address_size, ctx.format) {
        Some(Shape::Fixed(n)) => in_bytes(n, number),
        _ => None,
    }
}

/// The number, where n bytes hold it and it has at most 64 bits.
fn in_bytes(n: u8, number: i128) -> Option<u64>
    requires { IsFixedSize n }
    ensures { result ≡ definition.fixed_number (Some (shapes.Fixed n)) number }
{
    if number < 0 {
        return None;
    }
    let number = number as u128;
    if n == 16 || !is_below(number, n) {
        return None;
    }
    Some(number as u64)
}

/// The number in unsigned LEB128, where so many bytes hold it.
fn unsigned_number(width: u8, number: i128) -> Option<Uleb>
    ensures { option_map uleb_of result ≡ definition.unsigned_number width number }
{
    if number < 0 || number >= 1 << 64 {
        return None;
    }
    Uleb::with_width(number as u64, width)
}

/// The number in signed LEB128, where so many bytes hold it.
fn signed_number(width: u8, number: i128) -> Option<Sleb>
    ensures { option_map sleb_of result ≡ definition.signed_number width number }
{
    if number < -(1 << 63) || number >= 1 << 63 {
        return None;
    }
    Sleb::with_width(number as i64, width)
}
