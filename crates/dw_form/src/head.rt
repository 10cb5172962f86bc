//! A value by its head: the bytes of its spelling that are no content, with what finds the content in
//! a pool. A value without content is kept as its spelling.
ghost use Rattle.std.specs.Prelude.{◌≡◌, ◌≤◌, ◌<◌, ◌^◌, ◌+◌, ◌++◌, ℕ, List, length, take, drop, Option, None, Some, option_map, IfSome, IsSomeAnd, ◌==◌};
ghost use Rattle.dw_leb.specs.declared.order.Order.TheVariants.{Little};
ghost use Rattle.dw_leb.specs.View.{uleb_of, sleb_of};
ghost use Rattle.dw_form.specs.declared.shape.Ctx.{Ctx};
ghost use Rattle.dw_leb.specs.Number.{Signed};
ghost use Rattle.dw_form.specs.Form.{Attribute, attribute, IsContext, Num, ShapeFits, shape};
ghost use Rattle.dw_form.specs.Pieces.{form_in, HasSpelling, spelling};
ghost use Rattle.dw_form.specs.HeadSize.{finder_size, content_count};
ghost use Rattle.dw_form.specs.StoredView.{bytes_in};
ghost use Rattle.dw_form.specs.Lent.{value_of, attribute_of};
ghost use Rattle.dw_form.specs.Head.{head, head_at, bare_value, number_by_head, Lies, fixed_at, uleb_at, count_at, part_at, placed_at, spelled_at, own_constant, has_content, via_at, via_width, by_content, by_shape, by_via};

use crate::lend::{number, shaped, unsigned};
use crate::shape::{Ctx, Shape};
use crate::value::{AttrValue, Value};
use dw_leb::constants::form::DW_FORM_INDIRECT;
use dw_leb::{Order, Sleb, Uleb};

/// A number of `n` bytes at the front.
#[inline(always)]
fn word(order: Order, n: u8, b: &[u8]) -> Option<u64>
    requires some { 1 ≤ n }
    requires most { n ≤ 8 }
    ensures exact { result ≡ fixed_at order n b.now }
    ensures room { IfSome result (λ _. n ≤ length b.now) }
{
    match number(order, n, b, b.len() as u64) {
        Ok(x) => Some(x as u64),
        Err(_) => None,
    }
}

/// A number in unsigned LEB128 at the front.
fn leb(b: &[u8]) -> Option<Uleb>
    ensures exact { option_map uleb_of result ≡ uleb_at b.now }
    ensures room { IfSome result (λ u. u.width ≤ length b.now) }
{
    match unsigned(b, b.len() as u64) {
        Ok(u) => Some(u),
        Err(_) => None,
    }
}

/// The length of a content, and the width in which it is written.
#[derive(Clone, Copy)]
struct Count {
    value: u64,
    width: u8,
}

/// The length of a content, at the front.
fn counted(ctx: Ctx, shape: Shape, b: &[u8]) -> Option<Count>
    requires { ShapeFits shape }
    ensures exact { option_map (λ c. record { value = c.value; width = c.width }) result ≡ count_at ctx shape b.now }
    ensures room { IfSome result (λ c. c.width ≤ length b.now) }
{
    match shape {
        Shape::Counted(n) => {
            let value = word(ctx.order, n, b)?;
            Some(Count { value, width: n })
        }
        Shape::CountedUleb => {
            let u = leb(b)?;
            Some(Count {
                value: u.value,
                width: u.width,
            })
        }
        Shape::Text => {
            let value = word(Order::Little, 8, b)?;
            Some(Count { value, width: 8 })
        }
        _ => None,
    }
}

/// So many bytes of the pool from this one on.
fn part(pool: &[u8], start: u64, n: u64) -> Option<&[u8]>
    ensures { option_map (λ x. x.now) result ≡ part_at pool.now start n }
{
    let len = pool.len() as u64;
    if len < start || len - start < n {
        return None;
    }
    Some(&pool[start as usize..(start + n) as usize])
}

/// Whether the values of a shape are texts or blocks.
#[inline(always)]
fn holds(shape: Shape) -> bool
    ensures { result ≡ has_content shape }
{
    matches!(shape, Shape::Counted(_) | Shape::CountedUleb | Shape::Text)
}

/// A text or block by its head.
fn placed<'a>(ctx: Ctx, shape: Shape, b: &[u8], pool: &'a [u8]) -> Option<(Value<'a>, usize)>
    requires { ShapeFits shape }
    ensures exact { option_map (λ x. (value_of x.0, x.1)) result ≡ placed_at ctx shape b.now pool.now }
    ensures room { IfSome result (λ x. x.1 ≤ length b.now) }
{
    let count = counted(ctx, shape, b)?;
    let width = count.width as usize;
    let start = word(Order::Little, 8, &b[width..])?;
    let bytes = part(pool, start, count.value)?;
    match shape {
        Shape::Text => Some((Value::Text(bytes), width + 8)),
        _ => Some((
            Value::Block {
                width: count.width,
                bytes,
            },
            width + 8,
        )),
    }
}

/// The form that an indirect value names.
#[inline(always)]
fn via(form: u64, b: &[u8]) -> Option<Option<Uleb>>
    ensures exact { option_map (option_map uleb_of) result ≡ via_at (form == 0x16) b.now }
    ensures room { IfSome result (λ v. via_width (option_map uleb_of v) ≤ length b.now) }
{
    if form != DW_FORM_INDIRECT {
        return Some(None);
    }
    let u = leb(b)?;
    Some(Some(u))
}

/// A value without content, by its spelling.
#[inline(always)]
fn spelled(ctx: Ctx, shape: Shape, implicit: Option<Sleb>, b: &[u8]) -> Option<(Value<'_>, usize)>
    requires { ShapeFits shape }
    ensures exact { option_map (λ x. (value_of x.0, x.1)) result
        ≡ spelled_at ctx (option_map sleb_of implicit) shape b.now }
    ensures room { IfSome result (λ x. x.1 ≤ length b.now) }
{
    match shaped(ctx, shape, implicit, b, b.len() as u64) {
        Ok(x) => Some(x),
        Err(_) => None,
    }
}

/// A value of a shape, by what of its head follows the form that an indirect value names.
#[inline(always)]
fn by_shape<'a>(
    ctx: Ctx,
    shape: Shape,
    implicit: Option<Sleb>,
    b: &'a [u8],
    pool: &'a [u8],
) -> Option<(Value<'a>, usize)>
    requires { ShapeFits shape }
    ensures exact { option_map (λ x. (value_of x.0, x.1)) result
        ≡ by_content ctx (option_map sleb_of implicit) b.now pool.now shape (has_content shape) }
    ensures room { IfSome result (λ x. x.1 ≤ length b.now) }
{
    if holds(shape) {
        placed(ctx, shape, b, pool)
    } else {
        spelled(ctx, shape, implicit, b)
    }
}

/// A value of a form.
#[inline(always)]
fn by_form<'a>(
    ctx: Ctx,
    form: u64,
    implicit: Option<Sleb>,
    b: &'a [u8],
    pool: &'a [u8],
) -> Option<(Value<'a>, usize)>
    requires { IsContext ctx }
    ensures exact { option_map (λ x. (value_of x.0, x.1)) result
        ≡ by_shape ctx (option_map sleb_of implicit) b.now pool.now (shape form ctx.address_size ctx.format) }
    ensures room { IfSome result (λ x. x.1 ≤ length b.now) }
{
    let shape = Shape::of(form, ctx.address_size, ctx.format)?;
    by_shape(ctx, shape, implicit, b, pool)
}

/// The same behind the form that an indirect value names.
#[inline(always)]
fn behind<'a>(
    ctx: Ctx,
    form: u64,
    implicit: Option<Sleb>,
    via: Option<Uleb>,
    heads: &'a [u8],
    pool: &'a [u8],
) -> Option<(AttrValue<'a>, usize)>
    requires context { IsContext ctx }
    requires within { via_width (option_map uleb_of via) ≤ length heads.now }
    ensures exact { option_map (λ x. (attribute_of x.0, x.1)) result
        ≡ by_via ctx form (option_map sleb_of implicit) heads.now pool.now (option_map uleb_of via) }
    ensures room { IfSome result (λ x. x.1 ≤ length heads.now) }
{
    match via {
        Some(u) => {
            let width = u.width as usize;
            let (value, size) = by_form(ctx, u.value, None, &heads[width..], pool)?;
            Some((AttrValue { via, value }, width + size))
        }
        None => {
            let (value, size) = by_form(ctx, form, implicit, heads, pool)?;
            Some((AttrValue { via, value }, size))
        }
    }
}

/// The value of a form whose values have no bytes, and so no head: that the attribute is there, or the constant of its
/// declaration. `lend_head` gives the same, whatever the heads. None under any other form, `DW_FORM_indirect` among
/// them, and where there is no constant.
#[inline(always)]
pub fn lend_bare(ctx: Ctx, form: u64, implicit: Option<Sleb>) -> Option<Value<'static>>
    requires { IsContext ctx }
    ensures exact { option_map value_of result ≡ bare_value (shape form ctx.address_size ctx.format)
        (option_map sleb_of implicit) }
    ensures found { IfSome result (λ v. (heads pool : List ℕ) →
        head_at ctx form (option_map sleb_of implicit) heads pool
        ≡ Some (record { via = None; value = value_of v }, 0)) }
{
    match Shape::of(form, ctx.address_size, ctx.format)? {
        Shape::Present => Some(Value::Present),
        Shape::Implicit => match implicit {
            Some(constant) => Some(Value::Implicit(constant)),
            None => None,
        },
        _ => None,
    }
}

#[tactic(auto, unfolding(crate::specs::Head::head_at))]
fn by_head<'a>(
    ctx: Ctx,
    form: u64,
    implicit: Option<Sleb>,
    heads: &'a [u8],
    pool: &'a [u8],
) -> Option<(AttrValue<'a>, usize)>
    requires { IsContext ctx }
    ensures exact { option_map (λ x. (attribute_of x.0, x.1)) result
        ≡ head_at ctx form (option_map sleb_of implicit) heads.now pool.now }
    ensures room { IfSome result (λ x. x.1 ≤ length heads.now) }
{
    let via = via(form, heads)?;
    behind(ctx, form, implicit, via, heads, pool)
}

// The same, a value of no bytes first.
#[inline(always)]
fn at_front<'a>(
    ctx: Ctx,
    form: u64,
    implicit: Option<Sleb>,
    heads: &'a [u8],
    pool: &'a [u8],
) -> Option<(AttrValue<'a>, usize)>
    requires { IsContext ctx }
    ensures exact { option_map (λ x. (attribute_of x.0, x.1)) result
        ≡ head_at ctx form (option_map sleb_of implicit) heads.now pool.now }
    ensures room { IfSome result (λ x. x.1 ≤ length heads.now) }
{
    match lend_bare(ctx, form, implicit) {
        Some(value) => Some((AttrValue { via: None, value }, 0)),
        None => by_head(ctx, form, implicit, heads, pool),
    }
}

/// The count of bytes, which is less than half of what a word holds.
#[inline(always)]
fn size(b: &[u8]) -> usize
    ensures exact { result ≡ length b.now }
    ensures small { length b.now < 2 ^ 63 }
{
    b.len()
}

/// The value whose head is at the front of `heads`, and the count of its head's bytes. A text or
/// block is borrowed from the pool. None where there is no head of this form.
///
/// `form` and `implicit` are those with which the head was made, the form of the value and the constant
/// of its declaration. Heads may follow, and the pool may have bytes before and behind the content.
#[inline(always)]
pub fn lend_head<'a>(
    ctx: Ctx,
    form: u64,
    implicit: Option<Sleb>,
    heads: &'a [u8],
    pool: &'a [u8],
) -> Option<(AttrValue<'a>, usize)>
    requires { IsContext ctx }
    ensures exact { option_map (λ x. (attribute_of x.0, x.1)) result
        ≡ head_at ctx form (option_map sleb_of implicit) heads.now pool.now }
    ensures put { (a : Attribute) (start : ℕ) (rest : List ℕ)
        → (attribute ctx form (option_map sleb_of implicit)).Fits a → Lies pool.now start (bytes_in a)
        → heads.now ≡ head ctx form start a ++ rest
        → IsSomeAnd result (λ x. (attribute_of x.0 ≡ a) × (x.1 ≡ length (head ctx form start a))) }
    ensures room { IfSome result (λ x. x.1 ≤ length heads.now) }
{
    let _bounded = size(pool);
    at_front(ctx, form, implicit, heads, pool)
}

/// The number whose head is at the front of `heads`, and the count of its head's bytes, where its form is one of
/// fixed numbers of 1 to 8 bytes: `lend_head` gives the same, as a value. None under any other form, and where there
/// is no such head.
#[inline(always)]
pub fn lend_number(ctx: Ctx, form: u64, heads: &[u8]) -> Option<(u64, usize)>
    requires { IsContext ctx }
    ensures exact { (c : Option Signed) (pool : List ℕ) → result ≡ number_by_head (head_at ctx form c heads.now pool) }
    ensures found { IfSome result (λ x. (c : Option Signed) (pool : List ℕ) →
        head_at ctx form c heads.now pool ≡ Some (record { via = None; value = Num x.0 }, x.1)) }
    ensures put { IfSome result (λ x. (c : Option Signed) (a : Attribute) (start : ℕ) (pool rest : List ℕ)
        → (attribute ctx form c).Fits a → Lies pool start (bytes_in a) → length pool < 256 ^ 8
        → heads.now ≡ head ctx form start a ++ rest
        → (record { via = None; value = Num x.0 } ≡ a) × (x.1 ≡ length (head ctx form start a))) }
    ensures room { IfSome result (λ x. x.1 ≤ length heads.now) }
{
    number_by_form(ctx, form, heads)
}

#[inline(always)]
fn number_by_form(ctx: Ctx, form: u64, heads: &[u8]) -> Option<(u64, usize)>
    requires { IsContext ctx }
    ensures exact { (c : Option Signed) (pool : List ℕ) → result ≡ number_by_head (head_at ctx form c heads.now pool) }
    ensures found { IfSome result (λ x. (c : Option Signed) (pool : List ℕ) →
        head_at ctx form c heads.now pool ≡ Some (record { via = None; value = Num x.0 }, x.1)) }
    ensures room { IfSome result (λ x. x.1 ≤ length heads.now) }
{
    match Shape::of(form, ctx.address_size, ctx.format)? {
        Shape::Fixed(n) => {
            if n > 8 {
                return None;
            }
            match number(ctx.order, n, heads, heads.len() as u64) {
                Ok(x) => Some((x as u64, n as usize)),
                Err(_) => None,
            }
        }
        _ => None,
    }
}

/// How many bytes the spelling of a value has whose head has `own` bytes. A text or block stands in the
/// spelling in the place of what finds it in the head, and a zero ends a text.
#[inline(always)]
pub fn size_by_head(value: &AttrValue<'_>, own: usize) -> u64
    requires { own < 2 ^ 63 }
    ensures { (ctx : Ctx) (form start : ℕ) →
        HasSpelling ctx form (attribute_of value.now) →
        own ≡ length (head ctx form start (attribute_of value.now)) →
        result ≡ length (spelling ctx form (attribute_of value.now)) }
{
    let both = own as u64 + content_count(&value.value);
    both.saturating_sub(finder_size(&value.value))
}

/// How many bytes find a content.
#[inline(always)]
fn finder_size(value: &Value<'_>) -> u64
    ensures { result ≡ finder_size (value_of value.now) }
{
    match value {
        Value::Block { .. } => 8,
        Value::Text(_) => 16,
        _ => 0,
    }
}

/// How many bytes a content has, with the zero that ends a text.
#[inline(always)]
fn content_count(value: &Value<'_>) -> u64
    ensures exact { result ≡ content_count (value_of value.now) }
    ensures small { result ≤ 2 ^ 63 }
{
    match *value {
        Value::Block { bytes, .. } => size(bytes) as u64,
        Value::Text(bytes) => size(bytes) as u64 + 1,
        _ => 0,
    }
}
