//! Values at the front of bytes, borrowed from them.
ghost use Rattle.std.specs.Prelude.{◌≡◌, ◌==◌, ◌≤◌, ◌<◌, ◌+◌, ◌^◌, ℕ, length, min, take, IfOk, IfErr, IfSome, IsOkAnd, option_map};
ghost use Rattle.dw_leb.specs.Part.{Taken};
ghost use Rattle.dw_leb.specs.Number.{unended};
ghost use Rattle.dw_leb.specs.View.{sleb_of, uleb_of};
ghost use Rattle.dw_leb.specs.Reader.{made, outcome_of, ◌and_then◌};
ghost use Rattle.dw_leb.specs.ReadNumber.{before_zero, bytes_of, read_text, read_uleb, read_sleb, read_fixed as fixed_reader};
ghost use Rattle.dw_form.specs.Form.{Attribute, attribute, Block as TheBlock, IsFixedSize, ShapeFits, IsContext};
ghost use Rattle.dw_form.specs.ReadForm.{fixed_from, indirect_from, read_shaped, read_formed, read_indirect, read_by_indirection, read_attribute};
ghost use Rattle.dw_form.specs.Lent.{value_of, attribute_of, Lends, lent_outcome, ZeroAt};
ghost use Rattle.dw_form.specs.Pieces.{HasSpelling, spelling};

use crate::shape::{Ctx, Shape};
use crate::value::{AttrValue, Value};
use bstr::ByteSlice;
use dw_leb::constants::form::{DW_FORM_IMPLICIT_CONST, DW_FORM_INDIRECT};
use dw_leb::{Order, Reason, Sleb, Uleb, read_fixed};

/// The first `n` bytes: the content of a block of this length.
fn content(n: u64, b: &[u8], lim: u64) -> Result<(&[u8], usize), Reason>
    ensures exact { Lends (λ x. x.now) result (bytes_of n b.now lim) }
    ensures room { IfOk result (λ x. (x.1 ≤ length b.now) × (x.1 ≤ lim)) }
{
    if lim < n {
        return Err(Reason::PastUnit);
    }
    if (b.len() as u64) < n {
        return Err(Reason::Truncated);
    }
    Ok((&b[..n as usize], n as usize))
}

/// The place of the first zero byte.
pub(crate) fn zero_at(b: &[u8]) -> Option<usize>
    ensures exact { ZeroAt b.now result (before_zero b.now) }
    ensures within { IfSome result (λ i. i < length b.now) }
{
    b.find_byte(0)
}

/// The bytes before the first zero byte; the size counts the zero.
fn text(b: &[u8], lim: u64) -> Result<(&[u8], usize), Reason>
    ensures exact { read_text b.now lim ≡ lent_outcome (λ x. x.now) result }
    ensures room { IfOk result (λ x. (x.1 ≤ length b.now) × (x.1 ≤ lim)) }
{
    let m = (b.len() as u64).min(lim);
    match zero_at(&b[..m as usize]) {
        Some(end) => Ok((&b[..end], end + 1)),
        None => Err(unended_text(m, lim)),
    }
}

/// Why none of the first `m` bytes ends a text.
fn unended_text(m: u64, lim: u64) -> Reason
    ensures { result ≡ unended m lim }
{
    if m == lim {
        Reason::PastUnit
    } else {
        Reason::Truncated
    }
}

/// An unsigned number, as the plain reader's outcome.
pub(crate) fn unsigned(b: &[u8], lim: u64) -> Result<Uleb, Reason>
    ensures exact { read_uleb b.now lim ≡ outcome_of uleb_of (λ x. x.width) result }
    ensures room { IfOk result (λ x. (x.width ≤ length b.now) × (x.width ≤ lim)) }
{
    Uleb::read(b, lim)
}

/// A signed number, as the plain reader's outcome.
fn signed(b: &[u8], lim: u64) -> Result<Sleb, Reason>
    ensures exact { read_sleb b.now lim ≡ outcome_of sleb_of (λ x. x.width) result }
    ensures room { IfOk result (λ x. (x.width ≤ length b.now) × (x.width ≤ lim)) }
{
    Sleb::read(b, lim)
}

/// A number of `n` bytes, as the plain reader's outcome.
#[inline(always)]
pub(crate) fn number(order: Order, n: u8, b: &[u8], lim: u64) -> Result<u128, Reason>
    requires some { 1 ≤ n }
    requires most { n ≤ 16 }
    ensures exact { fixed_reader order n b.now lim ≡ outcome_of (λ x. x) (λ _. n) result }
    ensures small { IfOk result (λ x. x < 256 ^ n) }
    ensures word { n ≤ 8 → IfOk result (λ x. x < 2 ^ 64) }
    ensures room { IfOk result (λ _. (n ≤ length b.now) × (n ≤ lim)) }
{
    read_fixed(order, n, b, lim)
}

/// A number of `n` bytes.
#[inline(always)]
fn fixed(ctx: Ctx, n: u8, b: &[u8], lim: u64) -> Result<(Value<'_>, usize), Reason>
    requires { IsFixedSize n }
    ensures exact { Lends value_of result
        (made (fixed_from n) (fixed_reader ctx.order n) b.now lim) }
    ensures room { IfOk result (λ x. (x.1 ≤ length b.now) × (x.1 ≤ lim)) }
{
    let x = number(ctx.order, n, b, lim)?;
    if n == 16 {
        Ok((Value::Wide(x), 16))
    } else {
        Ok((Value::Num(x as u64), n as usize))
    }
}

/// A block after its length in `n` bytes.
fn counted(ctx: Ctx, n: u8, b: &[u8], lim: u64) -> Result<(Value<'_>, usize), Reason>
    requires some { 1 ≤ n }
    requires most { n ≤ 4 }
    ensures exact { Lends value_of result
        (made (λ x. TheBlock n x.1) (fixed_reader ctx.order n and_then bytes_of) b.now lim) }
    ensures room { IfOk result (λ x. (x.1 ≤ length b.now) × (x.1 ≤ lim)) }
{
    let count = number(ctx.order, n, b, lim)? as u64;
    let (bytes, size) = content(count, &b[n as usize..], lim - n as u64)?;
    Ok((Value::Block { width: n, bytes }, n as usize + size))
}

/// A block after its length as unsigned LEB128.
fn counted_uleb(b: &[u8], lim: u64) -> Result<(Value<'_>, usize), Reason>
    ensures exact { Lends value_of result
        (made (λ x. TheBlock x.0.width x.1) (read_uleb and_then λ u. bytes_of u.value) b.now lim) }
    ensures room { IfOk result (λ x. (x.1 ≤ length b.now) × (x.1 ≤ lim)) }
{
    let count = unsigned(b, lim)?;
    let width = count.width;
    let (bytes, size) = content(count.value, &b[width as usize..], lim - width as u64)?;
    Ok((Value::Block { width, bytes }, width as usize + size))
}

/// A value of a shape; `implicit` is the constant of the declaration.
#[inline(always)]
pub(crate) fn shaped(
    ctx: Ctx,
    shape: Shape,
    implicit: Option<Sleb>,
    b: &[u8],
    lim: u64,
) -> Result<(Value<'_>, usize), Reason>
    requires { ShapeFits shape }
    ensures exact { Lends value_of result
        (read_shaped ctx (option_map sleb_of implicit) shape b.now lim) }
    ensures room { IfOk result (λ x. (x.1 ≤ length b.now) × (x.1 ≤ lim)) }
{
    match shape {
        Shape::Fixed(n) => fixed(ctx, n, b, lim),
        Shape::Uleb => {
            let x = unsigned(b, lim)?;
            Ok((Value::Uleb(x), x.width as usize))
        }
        Shape::Sleb => {
            let x = signed(b, lim)?;
            Ok((Value::Sleb(x), x.width as usize))
        }
        Shape::Counted(n) => counted(ctx, n, b, lim),
        Shape::CountedUleb => counted_uleb(b, lim),
        Shape::Text => {
            let (bytes, size) = text(b, lim)?;
            Ok((Value::Text(bytes), size))
        }
        Shape::Present => Ok((Value::Present, 0)),
        Shape::Implicit => match implicit {
            Some(constant) => Ok((Value::Implicit(constant), 0)),
            None => Err(Reason::BadIndirect),
        },
        Shape::Indirect => Err(Reason::BadIndirect),
    }
}

/// A value of a form. The form is judged before any byte of the value.
#[inline(always)]
fn formed(
    ctx: Ctx,
    form: u64,
    implicit: Option<Sleb>,
    b: &[u8],
    lim: u64,
) -> Result<(Value<'_>, usize), Reason>
    requires { IsContext ctx }
    ensures exact { Lends value_of result
        (read_formed ctx (option_map sleb_of implicit) form b.now lim) }
    ensures room { IfOk result (λ x. (x.1 ≤ length b.now) × (x.1 ≤ lim)) }
{
    match Shape::of(form, ctx.address_size, ctx.format) {
        Some(shape) => shaped(ctx, shape, implicit, b, lim),
        None => Err(Reason::UnknownForm),
    }
}

/// A value of the form indirect: the number of a form, and a value of that form.
fn indirect(ctx: Ctx, b: &[u8], lim: u64) -> Result<(AttrValue<'_>, usize), Reason>
    requires { IsContext ctx }
    ensures exact { Lends attribute_of result (made indirect_from (read_indirect ctx) b.now lim) }
    ensures room { IfOk result (λ x. (x.1 ≤ length b.now) × (x.1 ≤ lim)) }
{
    let form = unsigned(b, lim)?;
    if form.value == DW_FORM_INDIRECT || form.value == DW_FORM_IMPLICIT_CONST {
        return Err(Reason::BadIndirect);
    }
    let width = form.width as usize;
    let (value, size) = formed(ctx, form.value, None, &b[width..], lim - width as u64)?;
    let via = Some(form);
    Ok((AttrValue { via, value }, width + size))
}

/// A value of a form, indirect or not.
#[inline(always)]
fn by_form(
    ctx: Ctx,
    form: u64,
    implicit: Option<Sleb>,
    b: &[u8],
    lim: u64,
) -> Result<(AttrValue<'_>, usize), Reason>
    requires { IsContext ctx }
    ensures exact { Lends attribute_of result
        (read_by_indirection ctx (option_map sleb_of implicit) form (form == 0x16) b.now lim) }
    ensures room { IfOk result (λ x. (x.1 ≤ length b.now) × (x.1 ≤ lim)) }
{
    if form == DW_FORM_INDIRECT {
        return indirect(ctx, b, lim);
    }
    match formed(ctx, form, implicit, b, lim) {
        Ok((value, size)) => Ok((AttrValue { via: None, value }, size)),
        Err(reason) => Err(reason),
    }
}

/// A value of a form as one field, as the plain reader's outcome.
fn value_at(
    ctx: Ctx,
    form: u64,
    implicit: Option<Sleb>,
    b: &[u8],
    lim: u64,
) -> Result<(AttrValue<'_>, usize), Reason>
    requires { IsContext ctx }
    ensures exact { read_attribute ctx form (option_map sleb_of implicit) b.now lim
        ≡ lent_outcome attribute_of result }
    ensures room { IfOk result (λ x. (x.1 ≤ length b.now) × (x.1 ≤ lim)) }
{
    by_form(ctx, form, implicit, b, lim)
}

/// The value of form `form` at the front of `b`, where `lim` bytes are left to the unit's end, and
/// the count of its bytes. It is borrowed from `b`: no memory is taken.
///
/// `implicit` is the constant of the declaration where the form is implicit_const; another form
/// doesn't look at it.
///
/// A refusal has the first reason that holds, in the order of the bytes:
/// - of an indirect value, the number of its form is refused as by `Uleb::read`, or that form is
///   indirect or implicit_const (`BadIndirect`);
/// - the form has no shape (`UnknownForm`), or it is implicit_const and its declaration has no
///   constant (`BadIndirect`); no byte of the value matters to these;
/// - the value goes on past the unit's end (`PastUnit`) or, within the unit, past the end of `b`
///   (`Truncated`); a LEB128 number has more than sixteen bytes (`LebTooLong`) or is too big
///   (`LebTooBig`). A block's length is judged before its content.
///
/// A value is one field: its fault is at its first byte, whatever part of it is refused.
#[inline(always)]
pub fn lend_value(
    ctx: Ctx,
    form: u64,
    implicit: Option<Sleb>,
    b: &[u8],
    lim: u64,
) -> Result<(AttrValue<'_>, usize), Reason>
    requires { IsContext ctx }
    ensures found { IfOk result (λ x.
        Taken (attribute ctx form (option_map sleb_of implicit)) b.now lim (attribute_of x.0) x.1) }
    ensures only { (x : Attribute) (size : ℕ) →
        Taken (attribute ctx form (option_map sleb_of implicit)) b.now lim x size →
        IsOkAnd result (λ y. (attribute_of y.0 ≡ x) × (y.1 ≡ size)) }
    ensures spelled { IfOk result (λ x. HasSpelling ctx form (attribute_of x.0)) }
    ensures bytes { IfOk result (λ x. spelling ctx form (attribute_of x.0) ≡ take x.1 b.now) }
    ensures broken { IfErr result (λ reason.
        (attribute ctx form (option_map sleb_of implicit)).Break b.now lim 0 reason) }
    ensures room { IfOk result (λ x. (x.1 ≤ length b.now) × (x.1 ≤ lim)) }
{
    value_at(ctx, form, implicit, b, lim)
}
