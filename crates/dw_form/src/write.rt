//! Writing values, and their sizes.
ghost use Rattle.std.specs.Prelude.{◌≡◌, ◌≤◌, ◌<◌, ◌+◌, ◌^◌, ◌++◌, length, None, IfSome};
ghost use Rattle.dw_leb.specs.Watch.{inner_of, fault_of, writer_fault, Wrote};
ghost use Rattle.dw_leb.specs.Number.{uleb, UlebFits};
ghost use Rattle.dw_form.specs.Form.{shape, ShapeFits, IsContext};
ghost use Rattle.dw_form.specs.Pieces.{head_of, HeadFits, content_of, tail_of, all_pieces, form_in, via_bytes, HasSpelling, spelling};
ghost use Rattle.dw_form.specs.Lent.{value_of, attribute_of};

use crate::shape::{Ctx, Shape};
use crate::value::{AttrValue, Value};
use arrayvec::ArrayVec;
use dw_leb::{Uleb, Watched, WriteError, write_all, write_fixed};
use std::io::Write;

/// Writes a value under form `form`, where it has a spelling: it is one of the form's shape, or
/// under indirect one of the shape of the form in `via`, its numbers and lengths fit their bytes,
/// and its text has no zero byte. What was read under a form has a spelling. After an error, which
/// is the writer's, a prefix of the spelling was written. No memory is taken.
#[inline(always)]
pub fn write_value<W: Write>(
    ctx: Ctx,
    form: u64,
    value: &AttrValue<'_>,
    writer: &mut Watched<W>,
) -> Result<(), WriteError>
    requires context { IsContext ctx }
    requires spelled { HasSpelling ctx form (attribute_of value.now) }
    requires clear { fault_of writer.old ≡ None }
    ensures written { Wrote
        (W.contents (inner_of writer.old))
        (W.contents (inner_of writer.new))
        (spelling ctx form (attribute_of value.now)) result }
    ensures fault { fault_of writer.new ≡ writer_fault result }
{
    match shape_in(ctx, form, value) {
        Some(shape) => write_pieces(ctx, shape, value, writer),
        None => unreachable!(),
    }
}

/// The number of the form that an indirect value names, the head, the content and the end.
#[inline(always)]
fn write_pieces<W: Write>(
    ctx: Ctx,
    shape: Shape,
    value: &AttrValue<'_>,
    writer: &mut Watched<W>,
) -> Result<(), WriteError>
    requires fits { HeadFits ctx shape (value_of value.now.value) }
    requires sizes { ShapeFits shape }
    requires clear { fault_of writer.old ≡ None }
    ensures written { Wrote
        (W.contents (inner_of writer.old))
        (W.contents (inner_of writer.new))
        (all_pieces ctx shape (attribute_of value.now)) result }
    ensures fault { fault_of writer.new ≡ writer_fault result }
{
    write_via(value, writer)?;
    write_head(ctx, shape, &value.value, writer)?;
    write_all(writer, content(&value.value))?;
    write_all(writer, tail(&value.value))
}

/// Writes the number of the form that an indirect value names.
#[inline(always)]
fn write_via<W: Write>(value: &AttrValue<'_>, writer: &mut Watched<W>) -> Result<(), WriteError>
    requires { fault_of writer.old ≡ None }
    ensures written { Wrote
        (W.contents (inner_of writer.old))
        (W.contents (inner_of writer.new))
        (via_bytes (attribute_of value.now).via) result }
    ensures fault { fault_of writer.new ≡ writer_fault result }
{
    write_all(writer, via_part(value).as_slice())
}

/// Writes what comes before the content.
#[inline(always)]
fn write_head<W: Write>(
    ctx: Ctx,
    shape: Shape,
    value: &Value<'_>,
    writer: &mut Watched<W>,
) -> Result<(), WriteError>
    requires fits { HeadFits ctx shape (value_of value.now) }
    requires sizes { ShapeFits shape }
    requires clear { fault_of writer.old ≡ None }
    ensures written { Wrote
        (W.contents (inner_of writer.old))
        (W.contents (inner_of writer.new))
        (head_of ctx shape (value_of value.now)) result }
    ensures fault { fault_of writer.new ≡ writer_fault result }
{
    write_all(writer, head(ctx, shape, value).as_slice())
}

/// The count of bytes of a value's spelling under form `form`, where it has one: of what
/// `write_value` writes.
#[inline(always)]
pub fn size_of(ctx: Ctx, form: u64, value: &AttrValue<'_>) -> u64
    requires context { IsContext ctx }
    requires spelled { HasSpelling ctx form (attribute_of value.now) }
    ensures { result ≡ length (spelling ctx form (attribute_of value.now)) }
{
    match shape_in(ctx, form, value) {
        Some(shape) => size_of_pieces(ctx, shape, value),
        None => unreachable!(),
    }
}

/// The count of bytes of the pieces that `write_pieces` writes.
#[inline(always)]
fn size_of_pieces(ctx: Ctx, shape: Shape, value: &AttrValue<'_>) -> u64
    requires fits { HeadFits ctx shape (value_of value.now.value) }
    requires sizes { ShapeFits shape }
    ensures { result ≡ length (all_pieces ctx shape (attribute_of value.now)) }
{
    let via = via_part(value).len();
    let head = head(ctx, shape, &value.value).len();
    let content = content(&value.value).len();
    (via + head + content + tail(&value.value).len()) as u64
}

/// The shape of the form in effect: of an indirect value the one that it names.
#[inline(always)]
fn shape_in(ctx: Ctx, form: u64, value: &AttrValue<'_>) -> Option<Shape>
    requires { IsContext ctx }
    ensures shape { result
        ≡ shape (form_in form (attribute_of value.now).via) ctx.address_size ctx.format }
    ensures sizes { IfSome result ShapeFits }
{
    let form = match value.via {
        Some(via) => via.value,
        None => form,
    };
    Shape::of(form, ctx.address_size, ctx.format)
}

/// The bytes of the number of the form that an indirect value names.
#[inline(always)]
fn via_part(value: &AttrValue<'_>) -> ArrayVec<u8, 16>
    ensures bytes { result.items ≡ via_bytes (attribute_of value.now).via }
{
    match value.via {
        Some(via) => via.bytes(),
        None => ArrayVec::new(),
    }
}

/// What comes before the content: a number, or a block's length.
#[inline(always)]
fn head(ctx: Ctx, shape: Shape, value: &Value<'_>) -> ArrayVec<u8, 16>
    requires fits { HeadFits ctx shape (value_of value.now) }
    requires sizes { ShapeFits shape }
    ensures { result.items ≡ head_of ctx shape (value_of value.now) }
{
    match (shape, value) {
        (Shape::Fixed(n), Value::Num(x)) => write_fixed(ctx.order, n, *x as u128),
        (Shape::Fixed(n), Value::Wide(x)) => write_fixed(ctx.order, n, *x),
        (Shape::Counted(n), Value::Block { bytes, .. }) => write_fixed(
            ctx.order,
            n,
            bytes.len() as u128,
        ),
        (Shape::CountedUleb, Value::Block { width, bytes }) => counted(bytes.len() as u64, *width),
        (_, Value::Uleb(x)) => x.bytes(),
        (_, Value::Sleb(x)) => x.bytes(),
        _ => ArrayVec::new(),
    }
}

/// The length of a block.
fn counted(len: u64, width: u8) -> ArrayVec<u8, 16>
    requires { UlebFits (record { value = len; width = width }) }
    ensures { result.items ≡ uleb.spell (record { value = len; width = width }) }
{
    match Uleb::with_width(len, width) {
        Some(x) => x.bytes(),
        None => unreachable!(),
    }
}

/// The content of a text or block.
fn content<'a>(value: &Value<'a>) -> &'a [u8]
    ensures { result.now ≡ content_of (value_of value.now) }
{
    match *value {
        Value::Block { bytes, .. } => bytes,
        Value::Text(bytes) => bytes,
        _ => &[],
    }
}

/// The zero byte of a text.
fn tail(value: &Value<'_>) -> &'static [u8]
    ensures { result.now ≡ tail_of (value_of value.now) }
{
    match value {
        Value::Text(_) => &[0],
        _ => &[],
    }
}
