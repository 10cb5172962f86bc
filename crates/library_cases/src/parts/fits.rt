//! Which values have a spelling under a form, and numbers in the place of a value's own (sections 7.5.5 and 7.5.6).
ghost use Rattle.dw_form.specs.Form.{IsContext};

use crate::parts::error::CaseError;
use crate::parts::spelled::{append_content, append_value, signed, unsigned, value_of};
use crate::parts::words::{allow, number, separate, signed_of, verb, words};
use dw_form::{AttrValue, Ctx, Value, fits, renumbered};
use std::alloc::Global;

/// One value of each kind.
const KINDS: [&str; 8] = [
    "number 1",
    "wide 1",
    "uleb 1/1",
    "sleb 1/1",
    "block in 1: 01",
    "text 61",
    "present",
    "implicit 1/1",
];

/// Appends the answer to a case.
pub fn answer(alloc: Global, ctx: Ctx, input: &str, text: &mut String) -> Result<(), CaseError>
    requires { IsContext ctx }
{
    match verb(input) {
        "form" => judged(alloc, ctx, input, text),
        "kinds" => kinds(alloc, ctx, input, text),
        "renumber" => renumber(alloc, ctx, input, text),
        _ => Err(CaseError::NoSuchCase),
    }
}

/// The keys of the clauses that tell a value, a form, and where.
const KEYS: [&str; 12] = [
    "form", "constant", "in", "via", "number", "wide", "uleb", "sleb", "block", "text", "present",
    "implicit",
];

/// The same of a value that gets another number.
const RENUMBER_KEYS: [&str; 11] = [
    "renumber", "to", "in", "number", "wide", "uleb", "sleb", "block", "text", "present",
    "implicit",
];

/// Whether a value has a spelling.
fn judged(alloc: Global, ctx: Ctx, input: &str, text: &mut String) -> Result<(), CaseError>
    requires { IsContext ctx }
{
    allow(input, &KEYS)?;
    let is_fitting = is_fitting(alloc, ctx, number(input, "form")?, input, input)?;
    Ok(text.push_str(if is_fitting { "fits" } else { "does not fit" })?)
}

/// Whether a value has a spelling under a form where the case says.
fn is_fitting(
    alloc: Global,
    ctx: Ctx,
    form: u64,
    input: &str,
    told: &str,
) -> Result<bool, CaseError>
    requires { IsContext ctx }
{
    let mut content = Vec::new(alloc);
    append_content(told, &mut content)?;
    has_spelling(ctx, form, input, told, content.as_slice())
}

fn has_spelling(
    ctx: Ctx,
    form: u64,
    input: &str,
    told: &str,
    content: &[u8],
) -> Result<bool, CaseError>
    requires { IsContext ctx }
{
    let value = AttrValue {
        via: unsigned(input, "via")?,
        value: value_of(told, content)?,
    };
    Ok(fits(ctx, form, signed(input, "constant")?, &value))
}

/// Which of the kinds have a value with a spelling.
fn kinds(alloc: Global, ctx: Ctx, input: &str, text: &mut String) -> Result<(), CaseError>
    requires { IsContext ctx }
{
    allow(input, &["kinds", "constant", "in"])?;
    let form = number(input, "kinds")?;
    for told in KINDS {
        if is_fitting(alloc, ctx, form, input, told)? {
            append_told(told, text)?;
        }
    }
    append_none(text)
}

fn append_told(told: &str, text: &mut String) -> Result<(), CaseError> {
    separate(", ", text)?;
    Ok(text.push_str(told)?)
}

fn append_none(text: &mut String) -> Result<(), CaseError> {
    if text.is_empty() {
        text.push_str("none")?;
    }
    Ok(())
}

/// The value with another number in the place of its own.
fn renumber(alloc: Global, ctx: Ctx, input: &str, text: &mut String) -> Result<(), CaseError>
    requires { IsContext ctx }
{
    allow(input, &RENUMBER_KEYS)?;
    let mut content = Vec::new(alloc);
    append_content(input, &mut content)?;
    renumber_value(ctx, input, content.as_slice(), text)
}

fn renumber_value(ctx: Ctx, input: &str, content: &[u8], text: &mut String) -> Result<(), CaseError>
    requires { IsContext ctx }
{
    let form = number(input, "renumber")?;
    let number = signed_of(words(input, "to")?)?;
    let value = value_of(input, content)?;
    append_renumbered(renumbered(ctx, form, number, &value), text)
}

fn append_renumbered(value: Option<Value<'_>>, text: &mut String) -> Result<(), CaseError> {
    match value {
        Some(value) => append_value(&value, text),
        None => Ok(text.push_str("not held")?),
    }
}
