//! Heads of values: which bytes they have, and what is lent by them.
ghost use Rattle.dw_form.specs.Form.{IsContext};

use crate::parts::error::CaseError;
use crate::parts::spelled::{append_value, signed};
use crate::parts::words::{allow, append_clause, number, remark, separate, verb};
use case_file::append_hexadecimal;
use dw_form::{
    AttrValue, Ctx, front_len, lend_bare, lend_head, lend_number, lend_value, put_found, put_head,
    size_by_head, value_front,
};
use std::alloc::{AllocError, Global};

/// What the pool has before a content.
const BEFORE: [u8; 2] = [0xee, 0xff];

/// A form in its context.
#[derive(Clone, Copy)]
struct Under {
    ctx: Ctx,
    form: u64,
}

/// Appends the answer to a case.
pub fn answer(alloc: Global, ctx: Ctx, input: &str, text: &mut String) -> Result<(), CaseError>
    requires { IsContext ctx }
{
    match verb(input) {
        "form" => of_value(alloc, ctx, input, text),
        "number-by-head" => of_number(alloc, ctx, input, text),
        "bare" => bare(ctx, input, text),
        _ => Err(CaseError::NoSuchCase),
    }
}

/// The head of the value that bytes spell, whose content begins behind two bytes of the pool.
fn of_value(alloc: Global, ctx: Ctx, input: &str, text: &mut String) -> Result<(), CaseError>
    requires { IsContext ctx }
{
    allow(input, &["form", "bytes", "in"])?;
    let form = number(input, "form")?;
    let mut bytes = Vec::new(alloc);
    append_clause(input, "bytes", &mut bytes)?;
    head_of(alloc, Under { ctx, form }, bytes.as_slice(), text)
}

fn head_of(alloc: Global, under: Under, b: &[u8], text: &mut String) -> Result<(), CaseError>
    requires { IsContext under.ctx }
{
    let Ok((value, size)) = lend_value(under.ctx, under.form, None, b, b.len() as u64) else {
        return Err(CaseError::NoSuchCase);
    };
    let front = value_front(under.ctx, under.form, &value);
    let front = front.as_slice();
    let is_front = size == b.len()
        && b.starts_with(front)
        && front_len(&value, size) == front.len();
    remark(is_front, "of another front, ", text)?;
    put(alloc, under, &value, front, b.len(), text)
}

/// Puts the head, and the content into a pool.
fn put(
    alloc: Global,
    under: Under,
    value: &AttrValue<'_>,
    front: &[u8],
    size: usize,
    text: &mut String,
) -> Result<(), CaseError>
    requires { IsContext under.ctx }
{
    let mut pool = Vec::from_slice(alloc, &BEFORE)?;
    put_into(alloc, under, value, front, size, &mut pool, text)
}

fn put_into(
    alloc: Global,
    under: Under,
    value: &AttrValue<'_>,
    front: &[u8],
    size: usize,
    pool: &mut Vec<u8>,
    text: &mut String,
) -> Result<(), CaseError>
    requires { IsContext under.ctx }
{
    let mut heads = Vec::new(alloc);
    put_head(value, front, &mut heads, pool)?;
    let head = heads.as_slice();
    append_parts(head, pool.as_slice(), text)?;
    let is_found = is_found(alloc, value, front, head)?;
    remark(is_found, ", found otherwise", text)?;
    append_lent(under, value, head, pool.as_slice(), size, text)
}

/// Says where a head lends another value, or tells another size.
fn append_lent(
    under: Under,
    value: &AttrValue<'_>,
    head: &[u8],
    pool: &[u8],
    size: usize,
    text: &mut String,
) -> Result<(), CaseError>
    requires { IsContext under.ctx }
{
    let lent = lend_head(under.ctx, under.form, None, head, pool);
    remark(lent == Some((*value, head.len())), ", lent otherwise", text)?;
    remark(has_size(value, head, size), ", measured otherwise", text)
}

fn append_parts(head: &[u8], pool: &[u8], text: &mut String) -> Result<(), CaseError> {
    append_part("head", head, text)?;
    match pool.strip_prefix(BEFORE.as_slice()) {
        Some(content) => append_part("content", content, text),
        None => Ok(text.push_str(", another pool")?),
    }
}

fn append_part(name: &str, bytes: &[u8], text: &mut String) -> Result<(), CaseError> {
    separate(", ", text)?;
    if bytes.is_empty() {
        write!(text, "no {name}")?;
    } else {
        write!(text, "{name} ")?;
        append_hexadecimal(bytes, text)?;
    }
    Ok(())
}

/// Whether the same head is made of a value whose content the pool has already.
fn is_found(
    alloc: Global,
    value: &AttrValue<'_>,
    front: &[u8],
    head: &[u8],
) -> Result<bool, AllocError> {
    let mut heads = Vec::new(alloc);
    heads.reserve(front.len() + 16)?;
    put_found(value, front, BEFORE.len(), &mut heads);
    Ok(heads.as_slice() == head)
}

/// Whether the size of the value's spelling is told by its head.
fn has_size(value: &AttrValue<'_>, head: &[u8], size: usize) -> bool {
    size_by_head(value, head.len()) == size as u64
}

/// A number by its head.
fn of_number(alloc: Global, ctx: Ctx, input: &str, text: &mut String) -> Result<(), CaseError>
    requires { IsContext ctx }
{
    allow(input, &["number-by-head", "bytes", "in"])?;
    let form = number(input, "number-by-head")?;
    let mut heads = Vec::new(alloc);
    append_clause(input, "bytes", &mut heads)?;
    match lend_number(ctx, form, heads.as_slice()) {
        Some((number, size)) => write!(text, "{number:#x}, {size} bytes")?,
        None => text.push_str("none")?,
    }
    Ok(())
}

/// A value of no bytes by its form.
fn bare(ctx: Ctx, input: &str, text: &mut String) -> Result<(), CaseError>
    requires { IsContext ctx }
{
    allow(input, &["bare", "constant", "in"])?;
    let form = number(input, "bare")?;
    match lend_bare(ctx, form, signed(input, "constant")?) {
        Some(value) => append_value(&value, text),
        None => Ok(text.push_str("none")?),
    }
}
