//! A unit that is built entry by entry.
use crate::refusals::samples::{header, table};
use crate::refusals::told;
use rothelduf::{AttrValue, ReadError, Refusal, Uleb, UnitBuilder, Value};
use std::alloc::{AllocError, Global};

/// A root with twenty children, and two nulls of padding.
pub(crate) fn tell(alloc: Global, text: &mut String) -> Result<(), ReadError> {
    let mut builder = UnitBuilder::new(alloc, header()?, table(alloc)?);
    fill(&mut builder, text)?;
    match builder.finish() {
        Ok(unit) => Ok(told::unit(alloc, text, &unit)?),
        Err((refusal, _builder)) => Ok(write!(text, "finish {refusal}\n")?),
    }
}

fn fill(builder: &mut UnitBuilder, text: &mut String) -> Result<(), AllocError> {
    open(
        builder,
        1,
        &[AttrValue::from(Value::Text(b"generated"))],
        text,
    )?;
    for size in 0..20 {
        open(builder, 2, &[AttrValue::from(Value::Num(size))], text)?;
    }
    close(builder, text)?;
    pad(builder, 1, text)?;
    pad(builder, 2, text)
}

fn open(
    builder: &mut UnitBuilder,
    code: u64,
    values: &[AttrValue<'_>],
    text: &mut String,
) -> Result<(), AllocError> {
    let mut answer = builder.open(Uleb::least(code), values);
    if answer == Err(Refusal::NoMemory) {
        told::refused(text, "open")?;
        answer = builder.open(Uleb::least(code), values);
    }
    tell_answer(text, "open", answer)
}

fn close(builder: &mut UnitBuilder, text: &mut String) -> Result<(), AllocError> {
    let mut answer = builder.close(2);
    if answer == Err(Refusal::NoMemory) {
        told::refused(text, "close")?;
        answer = builder.close(2);
    }
    tell_answer(text, "close", answer)
}

fn pad(builder: &mut UnitBuilder, width: u8, text: &mut String) -> Result<(), AllocError> {
    let mut answer = builder.pad(width);
    if answer == Err(Refusal::NoMemory) {
        told::refused(text, "pad")?;
        answer = builder.pad(width);
    }
    tell_answer(text, "pad", answer)
}

fn tell_answer(
    text: &mut String,
    call: &str,
    answer: Result<(), Refusal>,
) -> Result<(), AllocError> {
    match answer {
        Ok(()) => told::taken(text, call),
        Err(refusal) => write!(text, "{call} {refusal}\n"),
    }
}
