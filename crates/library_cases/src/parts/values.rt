//! Values at the front of bytes (section 7.5.6): lent, stored, measured and written back.
ghost use Rattle.dw_form.specs.Form.{IsContext};

use crate::parts::error::CaseError;
use crate::parts::numbers::refused;
use crate::parts::spelled::{append_attribute, signed};
use crate::parts::words::{allow, append_clause, clause, number, number_of, remark};
use dw_form::{AttrValue, Ctx, Value, ValueError, lend_value, read_value, size_of, write_value};
use dw_leb::{Reason, Sleb, Watched};
use std::alloc::{AllocError, Global};

/// What a value is read under: its form, and the constant of its declaration.
#[derive(Clone, Copy)]
struct Under {
    ctx: Ctx,
    form: u64,
    constant: Option<Sleb>,
}

/// Appends the answer to a case: the value that all the bytes spell or, where the case says how many are left to the
/// unit's end, the one at their front.
pub fn answer(alloc: Global, ctx: Ctx, input: &str, text: &mut String) -> Result<(), CaseError>
    requires { IsContext ctx }
{
    allow(input, &["form", "constant", "bytes", "within", "in"])?;
    let under = Under {
        ctx,
        form: number(input, "form")?,
        constant: signed(input, "constant")?,
    };
    let mut bytes = Vec::new(alloc);
    append_clause(input, "bytes", &mut bytes)?;
    match clause(input, "within") {
        Some(lim) => front(alloc, under, bytes.as_slice(), number_of(lim)?, text),
        None => whole(alloc, under, bytes.as_slice(), text),
    }
}

/// The value at the front of bytes. Where it is refused, a pool is left as it was.
fn front(
    alloc: Global,
    under: Under,
    b: &[u8],
    lim: u64,
    text: &mut String,
) -> Result<(), CaseError>
    requires { IsContext under.ctx }
{
    match lend_value(under.ctx, under.form, under.constant, b, lim) {
        Ok((value, size)) => append_front(&value, size, text),
        Err(reason) => append_refusal(alloc, under, b, lim, reason, text),
    }
}

fn append_front(value: &AttrValue<'_>, size: usize, text: &mut String) -> Result<(), CaseError> {
    append_attribute(value, text)?;
    Ok(write!(text, ", {size} bytes")?)
}

fn append_refusal(
    alloc: Global,
    under: Under,
    b: &[u8],
    lim: u64,
    reason: Reason,
    text: &mut String,
) -> Result<(), CaseError>
    requires { IsContext under.ctx }
{
    refused(reason, text)?;
    let leaves_a_pool = leaves_a_pool(alloc, under, b, lim, reason)?;
    remark(leaves_a_pool, ", stored otherwise", text)
}

/// Whether a pool of three bytes and no more room isn't touched where a value is refused for this reason.
fn leaves_a_pool(
    alloc: Global,
    under: Under,
    b: &[u8],
    lim: u64,
    reason: Reason,
) -> Result<bool, AllocError>
    requires { IsContext under.ctx }
{
    let mut pool = Vec::with_capacity(alloc, 3)?;
    pool.extend_from_slice(&[1, 2, 3])?;
    let capacity = pool.capacity();
    let is_refused = is_refused(alloc, under, b, lim, reason, &mut pool);
    Ok(is_refused && pool.as_slice() == [1, 2, 3].as_slice() && pool.capacity() == capacity)
}

/// Whether a value isn't stored for this reason.
fn is_refused(
    alloc: Global,
    under: Under,
    b: &[u8],
    lim: u64,
    reason: Reason,
    pool: &mut Vec<u8>,
) -> bool
    requires { IsContext under.ctx }
{
    let read = read_value(alloc, under.ctx, under.form, under.constant, b, lim, pool);
    read.err() == Some(ValueError::Bad(reason))
}

/// The value that the bytes spell.
fn whole(alloc: Global, under: Under, b: &[u8], text: &mut String) -> Result<(), CaseError>
    requires { IsContext under.ctx }
{
    match lend_value(under.ctx, under.form, under.constant, b, u64::MAX) {
        Ok((value, size)) => {
            append_attribute(&value, text)?;
            remark(size == b.len(), ", and bytes behind it", text)?;
            append_remarks(alloc, under, b, &value, text)
        }
        Err(reason) => refused(reason, text),
    }
}

/// Says where the value that the bytes spell is written or read otherwise.
fn append_remarks(
    alloc: Global,
    under: Under,
    b: &[u8],
    value: &AttrValue<'_>,
    text: &mut String,
) -> Result<(), CaseError>
    requires { IsContext under.ctx }
{
    let is_written_back = is_written_back(alloc, under, b)?;
    remark(is_written_back, ", measured or written otherwise", text)?;
    remark(
        is_read_anywhere(alloc, under, b, value)?,
        ", read otherwise where the input or the unit ends elsewhere",
        text,
    )
}

/// Whether the value that the bytes spell is measured and written as these.
fn is_written_back(alloc: Global, under: Under, b: &[u8]) -> Result<bool, CaseError>
    requires { IsContext under.ctx }
{
    let Ok((value, _)) = lend_value(under.ctx, under.form, under.constant, b, u64::MAX) else {
        return Ok(false);
    };
    let size = size_of(under.ctx, under.form, &value);
    let mut writer = Watched::new(Vec::new(alloc));
    write_value(under.ctx, under.form, &value, &mut writer)?;
    let is_as_measured = writer.fault() == None && size == b.len() as u64;
    Ok(is_as_measured && writer.into_inner().as_slice() == b)
}

/// Whether the value is lent and stored where it ends the input, the unit, both or neither.
fn is_read_anywhere(
    alloc: Global,
    under: Under,
    spelled: &[u8],
    value: &AttrValue<'_>,
) -> Result<bool, AllocError>
    requires { IsContext under.ctx }
{
    let mut longer = Vec::from_slice(alloc, spelled)?;
    longer.push(0xee)?;
    let end = spelled.len();
    Ok(
        is_read(alloc, under, spelled, end, value)?
            && is_read(alloc, under, longer.as_slice(), end, value)?,
    )
}

/// Whether the value is at the front of these bytes, of which it has so many, whether or not it ends the unit.
fn is_read(
    alloc: Global,
    under: Under,
    b: &[u8],
    size: usize,
    value: &AttrValue<'_>,
) -> Result<bool, AllocError>
    requires { IsContext under.ctx }
{
    for lim in [size as u64, u64::MAX] {
        if !is_lent(under, b, lim, size, value) || !is_stored(alloc, under, b, lim, size, value)? {
            return Ok(false);
        }
    }
    Ok(true)
}

fn is_lent(under: Under, b: &[u8], lim: u64, size: usize, value: &AttrValue<'_>) -> bool
    requires { IsContext under.ctx }
{
    match lend_value(under.ctx, under.form, under.constant, b, lim) {
        Ok((lent, taken)) => lent == *value && taken == size,
        Err(_) => false,
    }
}

/// Whether the value is stored, its text or block behind what a pool had.
fn is_stored(
    alloc: Global,
    under: Under,
    b: &[u8],
    lim: u64,
    size: usize,
    value: &AttrValue<'_>,
) -> Result<bool, AllocError>
    requires { IsContext under.ctx }
{
    let mut pool = Vec::from_slice(alloc, &[0xcc])?;
    Ok(
        gives(alloc, under, b, lim, size, value, &mut pool)
            && has_grown(pool.as_slice(), pooled(&value.value)),
    )
}

fn gives(
    alloc: Global,
    under: Under,
    b: &[u8],
    lim: u64,
    size: usize,
    value: &AttrValue<'_>,
    pool: &mut Vec<u8>,
) -> bool
    requires { IsContext under.ctx }
{
    match read_value(alloc, under.ctx, under.form, under.constant, b, lim, pool) {
        Ok((stored, taken)) => stored.lend(pool.as_slice()) == *value && taken == size,
        Err(_) => false,
    }
}

/// Whether a pool has its first byte and these behind it.
fn has_grown(pool: &[u8], content: &[u8]) -> bool {
    match pool.split_first() {
        Some((first, grown)) => *first == 0xcc && grown == content,
        None => false,
    }
}

/// The bytes of a value that go into the pool.
fn pooled<'a>(value: &Value<'a>) -> &'a [u8] {
    match *value {
        Value::Block { bytes, .. } => bytes,
        Value::Text(bytes) => bytes,
        _ => &[],
    }
}
