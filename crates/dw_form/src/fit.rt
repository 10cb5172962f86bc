//! Whether a value has a spelling under a form.
ghost use Rattle.std.specs.Prelude.{◌≡◌, ◌^◌, ◌↔◌, IsTrue, length, nat_lt, option_map};
ghost use Rattle.dw_leb.specs.View.{sleb_of};
ghost use Rattle.dw_form.specs.Form.{attribute, IsContext, IsFixedSize, ShapeFits};
ghost use Rattle.dw_form.specs.Lent.{attribute_of, value_of};
ghost use Rattle.dw_form.specs.Fit.{value_fits, form_fits, shape_fits, is_text as has_no_zero, is_length as holds_length, is_constant as has_constant};

use crate::lend::zero_at;
use crate::shape::{Ctx, Shape};
use crate::value::{AttrValue, Value};
use dw_leb::constants::form::{DW_FORM_IMPLICIT_CONST, DW_FORM_INDIRECT};
use dw_leb::{Sleb, Uleb};

/// Whether a value has a spelling under form `form` (section 7.5.6): it is one of the form's shape, or
/// under indirect one of the shape of the form in `via`, which is neither indirect nor implicit_const;
/// its numbers and lengths fit their bytes; its text has no zero byte; and a constant is the one of the
/// declaration, in its width. No memory is taken.
pub fn fits(ctx: Ctx, form: u64, implicit: Option<Sleb>, value: &AttrValue<'_>) -> bool
    requires { IsContext ctx }
    ensures { IsTrue result ↔ (attribute ctx form (option_map sleb_of implicit)).Fits (attribute_of value.now) }
{
    is_fitting(ctx, form, implicit, value)
}

/// The same, as a test.
fn is_fitting(ctx: Ctx, form: u64, implicit: Option<Sleb>, value: &AttrValue<'_>) -> bool
    requires { IsContext ctx }
    ensures { result ≡ value_fits ctx form (option_map sleb_of implicit) (attribute_of value.now) }
{
    match value.via {
        None => form != DW_FORM_INDIRECT && is_of_form(ctx, form, implicit, &value.value),
        Some(via) => {
            let inner = via.value;
            form == DW_FORM_INDIRECT
                && inner != DW_FORM_INDIRECT
                && inner != DW_FORM_IMPLICIT_CONST
                && is_of_form(ctx, inner, None, &value.value)
        }
    }
}

/// Whether a value has a spelling under a form other than indirect.
fn is_of_form(ctx: Ctx, form: u64, implicit: Option<Sleb>, value: &Value<'_>) -> bool
    requires { IsContext ctx }
    ensures { result ≡ form_fits ctx (option_map sleb_of implicit) form (value_of value.now) }
{
    match Shape::of(form, ctx.address_size, ctx.format) {
        Some(shape) => is_of_shape(shape, implicit, value),
        None => false,
    }
}

/// Whether a value has a spelling under a shape.
fn is_of_shape(shape: Shape, implicit: Option<Sleb>, value: &Value<'_>) -> bool
    requires { ShapeFits shape }
    ensures { result ≡ shape_fits (option_map sleb_of implicit) shape (value_of value.now) }
{
    match (shape, value) {
        (Shape::Fixed(n), Value::Num(x)) => n != 16 && is_below(*x as u128, n),
        (Shape::Fixed(n), Value::Wide(x)) => n == 16 && is_below(*x, n),
        (Shape::Uleb, Value::Uleb(_)) => true,
        (Shape::Sleb, Value::Sleb(_)) => true,
        (Shape::Counted(n), Value::Block { width, bytes }) => *width == n
            && is_below(bytes.len() as u128, n),
        (Shape::CountedUleb, Value::Block { width, bytes }) => is_length(
            bytes.len() as u64,
            *width,
        ),
        (Shape::Text, Value::Text(bytes)) => is_text(bytes),
        (Shape::Present, Value::Present) => true,
        (Shape::Implicit, Value::Implicit(x)) => is_constant(implicit, *x),
        _ => false,
    }
}

/// Whether a number fits so many bytes.
pub(crate) fn is_below(x: u128, n: u8) -> bool
    requires { IsFixedSize n }
    ensures { result ≡ nat_lt x (256 ^ n) }
{
    match n {
        1 => x < 1 << 8,
        2 => x < 1 << 16,
        3 => x < 1 << 24,
        4 => x < 1 << 32,
        5 => x < 1 << 40,
        6 => x < 1 << 48,
        7 => x < 1 << 56,
        8 => x < 1 << 64,
        _ => true,
    }
}

/// Whether so many bytes of an unsigned LEB128 number hold a block's length.
fn is_length(len: u64, width: u8) -> bool
    ensures { result ≡ holds_length width len }
{
    Uleb::with_width(len, width).is_some()
}

/// Whether no byte of a text is 0.
fn is_text(bytes: &[u8]) -> bool
    ensures { result ≡ has_no_zero bytes.now }
{
    zero_at(bytes).is_none()
}

/// Whether it is the constant of the declaration, in the same width.
fn is_constant(implicit: Option<Sleb>, x: Sleb) -> bool
    ensures { result ≡ has_constant (option_map sleb_of implicit) (sleb_of x) }
{
    match implicit {
        Some(constant) => constant.value == x.value && constant.width == x.width,
        None => false,
    }
}
