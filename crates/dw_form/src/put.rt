//! Heads of values, made and kept in a list of bytes. A head has what of the value's spelling
//! comes before its content, and after that what finds the content in a pool.
ghost use Rattle.std.specs.Prelude.{◌≡◌, ◌≤◌, ◌<◌, ◌^◌, ◌+◌, ◌++◌, ◌⊎◌, [], length, IfSome, OnOk, OnErr, vec_len, vec_capacity};
ghost use Rattle.dw_leb.specs.Number.{uleb, UlebFits};
ghost use Rattle.dw_form.specs.Form.{IsContext, ShapeFits, shape};
ghost use Rattle.dw_form.specs.Pieces.{head_of, HeadFits, via_bytes, form_in, HasSpelling, spelling};
ghost use Rattle.dw_form.specs.StoredView.{bytes_in, value_bytes};
ghost use Rattle.dw_form.specs.Lent.{value_of, attribute_of};
ghost use Rattle.dw_form.specs.Head.{finder};
ghost use Rattle.dw_form.specs.HeadFront.{front_size, front_bytes};

use crate::shape::{Ctx, Shape};
use crate::value::{AttrValue, Value};
use arrayvec::ArrayVec;
use dw_leb::{Order, Uleb, write_fixed};
use std::alloc::AllocError;

/// The bytes of the form that an indirect value names.
#[inline(always)]
fn via_part(value: &AttrValue<'_>) -> ArrayVec<u8, 16>
    ensures { result.items ≡ via_bytes (attribute_of value.now).via }
{
    match value.via {
        Some(via) => via.bytes(),
        None => ArrayVec::new(),
    }
}

/// The length of a block.
fn counted(len: u64, width: u8) -> ArrayVec<u8, 16>
    requires { UlebFits (record { value = len; width = width }) }
    ensures { result.items ≡ uleb.spell (record { value = len; width = width }) }
{
    match Uleb::with_width(len, width) {
        Some(x) => x.bytes(),
        None => unreachable!(),
    }
}

/// A number, or a block's length.
fn number_part(ctx: Ctx, shape: Shape, value: &Value<'_>) -> ArrayVec<u8, 16>
    requires fits { HeadFits ctx shape (value_of value.now) }
    requires sizes { ShapeFits shape }
    ensures { result.items ≡ head_of ctx shape (value_of value.now) }
{
    match (shape, value) {
        (Shape::Fixed(n), Value::Num(x)) => write_fixed(ctx.order, n, *x as u128),
        (Shape::Fixed(n), Value::Wide(x)) => write_fixed(ctx.order, n, *x),
        (Shape::Counted(n), Value::Block { bytes, .. }) => write_fixed(
            ctx.order,
            n,
            bytes.len() as u128,
        ),
        (Shape::CountedUleb, Value::Block { width, bytes }) => counted(bytes.len() as u64, *width),
        (_, Value::Uleb(x)) => x.bytes(),
        (_, Value::Sleb(x)) => x.bytes(),
        _ => ArrayVec::new(),
    }
}

/// What finds the content, which begins at `start`.
#[inline(always)]
fn finder_part(start: usize, value: &Value<'_>) -> ArrayVec<u8, 16>
    ensures { result.items ≡ finder start (value_of value.now) }
{
    match value {
        Value::Block { .. } => write_fixed(Order::Little, 8, start as u128),
        Value::Text(bytes) => {
            let mut both = write_fixed(Order::Little, 8, bytes.len() as u128);
            let word = write_fixed(Order::Little, 8, start as u128);
            let _fits = both.try_extend_from_slice(word.as_slice());
            both
        }
        _ => ArrayVec::new(),
    }
}

/// Two parts, one behind the other.
fn joined(a: &[u8], b: &[u8]) -> ArrayVec<u8, 32>
    requires first { length a.now ≤ 16 }
    requires second { length b.now ≤ 16 }
    ensures { result.items ≡ a.now ++ b.now }
{
    let mut all = ArrayVec::new();
    let _first = all.try_extend_from_slice(a);
    let _second = all.try_extend_from_slice(b);
    all
}

/// The content of a text or block.
#[inline(always)]
fn content<'a>(value: &Value<'a>) -> &'a [u8]
    ensures { result.now ≡ value_bytes (value_of value.now) }
{
    match *value {
        Value::Block { bytes, .. } => bytes,
        Value::Text(bytes) => bytes,
        _ => &[],
    }
}

/// The shape of the form in effect.
fn shape_in(ctx: Ctx, form: u64, value: &AttrValue<'_>) -> Option<Shape>
    requires { IsContext ctx }
    ensures shape { result
        ≡ shape (form_in form (attribute_of value.now).via) ctx.address_size ctx.format }
    ensures sizes { IfSome result ShapeFits }
{
    let form = match value.via {
        Some(via) => via.value,
        None => form,
    };
    Shape::of(form, ctx.address_size, ctx.format)
}

/// The form that an indirect value names, and the number or the length field.
fn both_parts(ctx: Ctx, shape: Shape, value: &AttrValue<'_>) -> ArrayVec<u8, 32>
    requires fits { HeadFits ctx shape (value_of value.now.value) }
    requires sizes { ShapeFits shape }
    ensures { result.items
        ≡ via_bytes (attribute_of value.now).via ++ head_of ctx shape (value_of value.now.value) }
{
    let via = via_part(value);
    let number = number_part(ctx, shape, &value.value);
    joined(via.as_slice(), number.as_slice())
}

/// The front of a value's spelling under form `form`: what comes before the bytes of a text or block, or
/// of any other value all. No memory is taken.
pub fn value_front(ctx: Ctx, form: u64, value: &AttrValue<'_>) -> ArrayVec<u8, 32>
    requires context { IsContext ctx }
    requires spelled { HasSpelling ctx form (attribute_of value.now) }
    ensures { result.items
        ≡ front_bytes (attribute_of value.now) (spelling ctx form (attribute_of value.now)) }
{
    match shape_in(ctx, form, value) {
        Some(shape) => both_parts(ctx, shape, value),
        None => unreachable!(),
    }
}

/// How many of the bytes that spell a value, `all`, are of its front: so a reader has the front from
/// the bytes that it read.
#[inline(always)]
pub fn front_len(value: &AttrValue<'_>, all: usize) -> usize
    ensures { result ≡ front_size (attribute_of value.now) all }
{
    let via = match value.via {
        Some(via) => via.width as usize,
        None => 0,
    };
    match value.value {
        Value::Block { width, .. } => via + width as usize,
        Value::Text(_) => via,
        _ => all,
    }
}

/// Keeps a value whose front is `front`: its head goes to the end of `heads`, its text or block to the
/// end of the pool. On an error both hold what they held, and one of them had no room.
#[inline(always)]
pub fn put_head(
    value: &AttrValue<'_>,
    front: &[u8],
    heads: &mut Vec<u8>,
    pool: &mut Vec<u8>,
) -> Result<(), AllocError>
    ensures heads { OnOk result
        (heads.new.items ≡ heads.old.items ++ (front.now ++ finder (length pool.old.items)
        (value_of value.now.value))) }
    ensures pool { OnOk result (pool.new.items ≡ pool.old.items ++ bytes_in (attribute_of value.now)) }
    ensures small { OnOk result (length pool.new.items < 2 ^ 64) }
    ensures heads_kept { OnErr result (heads.new.items ≡ heads.old.items) }
    ensures pool_kept { OnErr result (pool.new.items ≡ pool.old.items) }
    ensures full { OnErr result
        ((vec_capacity heads.old < vec_len heads.old + length
        (front.now ++ finder (length pool.old.items) (value_of value.now.value)))
        ⊎ (vec_capacity pool.old < vec_len pool.old + length (bytes_in (attribute_of value.now)))) }
{
    match value.value {
        Value::Block { .. } | Value::Text(_) => {
            let finder = finder_part(pool.len(), &value.value);
            put_three(front, finder.as_slice(), content(&value.value), heads, pool)
        }
        _ => put_alone(front, heads, pool),
    }
}

/// Appends the head of a value without content.
#[inline(always)]
fn put_alone(front: &[u8], heads: &mut Vec<u8>, pool: &mut Vec<u8>) -> Result<(), AllocError>
    ensures heads { OnOk result (heads.new.items ≡ heads.old.items ++ (front.now ++ [])) }
    ensures heads_kept { OnErr result (heads.new.items ≡ heads.old.items) }
    ensures pool { pool.new.items ≡ pool.old.items ++ [] }
    ensures pool_kept { pool.new.items ≡ pool.old.items }
    ensures small { length pool.new.items < 2 ^ 64 }
    ensures full { OnErr result (vec_capacity heads.old < vec_len heads.old + length front.now) }
{
    let _bounded = pool.len();
    heads.extend_from_slice(front)
}

/// Appends to both, or to none.
fn put_three(
    first: &[u8],
    second: &[u8],
    bytes: &[u8],
    heads: &mut Vec<u8>,
    pool: &mut Vec<u8>,
) -> Result<(), AllocError>
    ensures heads { OnOk result (heads.new.items ≡ heads.old.items ++ (first.now ++ second.now)) }
    ensures pool { OnOk result (pool.new.items ≡ pool.old.items ++ bytes.now) }
    ensures small { OnOk result (length pool.new.items < 2 ^ 64) }
    ensures heads_kept { OnErr result (heads.new.items ≡ heads.old.items) }
    ensures pool_kept { OnErr result (pool.new.items ≡ pool.old.items) }
    ensures full { OnErr result
        ((vec_capacity heads.old < vec_len heads.old + (length first.now + length second.now))
        ⊎ (vec_capacity pool.old < vec_len pool.old + length bytes.now)) }
{
    heads.reserve(first.len() + second.len())?;
    pool.extend_from_slice(bytes)?;
    heads.extend_from_slice(first)?;
    let _bounded = pool.len();
    heads.extend_from_slice(second)
}

/// The head of a text or block that is in the pool already, from `start` on, whose front is
/// `front`: it goes to the end of `heads`, where there is room for it.
pub fn put_found(value: &AttrValue<'_>, front: &[u8], start: usize, heads: &mut Vec<u8>)
    requires { vec_len heads.old + (length front.now + 16) ≤ vec_capacity heads.old }
    ensures { heads.new.items ≡ heads.old.items ++ (front.now ++ finder start (value_of value.now.value)) }
{
    let finder = finder_part(start, &value.value);
    let _front = heads.extend_from_slice(front);
    let _finder = heads.extend_from_slice(finder.as_slice());
}
