//! The steps by which a unit is built:
//!
//! - `open CODE`, `open CODE in WIDTH`, each also `with VALUE, VALUE, ..`, as `values` says;
//! - `close WIDTH` and `pad WIDTH`; any of these also as `COUNT times ..`;
//! - `finish as BYTES`, and `finish` alone where it is refused.
//!
//! A step is answered `ok` or with its refusal, where it is one of several with that of the first one. A unit is
//! answered with its size, the place of its root and its padding, and with its bytes where it is written as others than
//! `BYTES`.
use crate::units::put::append_unit_bytes;
use crate::units::reading::is_written_as;
use crate::units::show::separate;
use crate::units::unit::append_size;
use crate::units::values::open_with;
use case_file::append_named;
use dw_leb::Uleb;
use dw_unit::{Refusal, Unit, UnitBuilder};
use std::alloc::{AllocError, Global};

/// What a step is answered.
#[derive(Clone, Copy, Debug, PartialEq, Eq)]
pub enum Said {
    Taken,
    Refused(Refusal),
    /// There is no such step.
    NoStep,
}

impl Said {
    pub fn of(answer: Result<(), Refusal>) -> Said {
        match answer {
            Ok(()) => Said::Taken,
            Err(refusal) => Said::Refused(refusal),
        }
    }
}

pub fn append_steps(
    alloc: Global,
    file: &str,
    builder: &mut Option<UnitBuilder>,
    steps: &str,
    answer: &mut String,
) -> Result<(), AllocError> {
    for step in steps.split(';') {
        separate(answer)?;
        append_step(alloc, file, builder, step.trim(), answer)?;
    }
    Ok(())
}

fn append_step(
    alloc: Global,
    file: &str,
    builder: &mut Option<UnitBuilder>,
    step: &str,
    answer: &mut String,
) -> Result<(), AllocError> {
    if let Some(want) = step.strip_prefix("finish") {
        return append_finished(alloc, file, builder, want, answer);
    }
    match builder {
        Some(building) => append_calls(alloc, building, step, answer),
        None => answer.push_str("no builder"),
    }
}

/// Appends what the first call that is refused is answered, or that all were taken.
fn append_calls(
    alloc: Global,
    builder: &mut UnitBuilder,
    step: &str,
    answer: &mut String,
) -> Result<(), AllocError> {
    let (count, call) = step.split_once(" times ").unwrap_or(("1", step));
    let count: u64 = count.parse().unwrap_or(0);
    let mut said = Said::NoStep;
    for _ in 0..count {
        said = called(alloc, builder, call)?;
        if said != Said::Taken {
            break;
        }
    }
    match said {
        Said::Taken => answer.push_str("ok"),
        Said::Refused(refusal) => write!(answer, "{refusal}"),
        Said::NoStep => answer.push_str("no such step"),
    }
}

fn called(alloc: Global, builder: &mut UnitBuilder, call: &str) -> Result<Said, AllocError> {
    match call.split_once(' ') {
        Some(("open", entry)) => opened(alloc, builder, entry),
        Some(("close", width)) => Ok(match width.parse() {
            Ok(width) => Said::of(builder.close(width)),
            Err(_) => Said::NoStep,
        }),
        Some(("pad", width)) => Ok(match width.parse() {
            Ok(width) => Said::of(builder.pad(width)),
            Err(_) => Said::NoStep,
        }),
        _ => Ok(Said::NoStep),
    }
}

fn opened(alloc: Global, builder: &mut UnitBuilder, entry: &str) -> Result<Said, AllocError> {
    let (code, values) = match entry.split_once(" with ") {
        Some((code, values)) => (code, Some(values)),
        None => (entry, None),
    };
    match (code_of(code), values) {
        (Some(code), Some(values)) => open_with(alloc, builder, code, values),
        (Some(code), None) => Ok(Said::of(builder.open(code, &[]))),
        (None, _) => Ok(Said::NoStep),
    }
}

/// The code that the words spell, in the least width where they name none.
fn code_of(words: &str) -> Option<Uleb> {
    match words.split_once(" in ") {
        Some((value, width)) => Uleb::with_width(value.parse().ok()?, width.parse().ok()?),
        None => Some(Uleb::least(words.parse().ok()?)),
    }
}

/// A builder that isn't finished is handed back, and goes on.
fn append_finished(
    alloc: Global,
    file: &str,
    builder: &mut Option<UnitBuilder>,
    want: &str,
    answer: &mut String,
) -> Result<(), AllocError> {
    let Some(building) = builder.take() else {
        return answer.push_str("no builder");
    };
    match building.finish() {
        Ok(unit) => append_whole(alloc, file, &unit, want, answer),
        Err((refusal, again)) => {
            *builder = Some(again);
            write!(answer, "{refusal}")
        }
    }
}

fn append_whole(
    alloc: Global,
    file: &str,
    unit: &Unit,
    want: &str,
    answer: &mut String,
) -> Result<(), AllocError> {
    append_size(unit, answer)?;
    let mut bytes = Vec::new(alloc);
    let words = want.trim().strip_prefix("as ").unwrap_or("no bytes");
    if append_named(file, words, &mut bytes)? && is_written_as(alloc, unit, bytes.as_slice()) {
        return Ok(());
    }
    answer.push_str(", and written as ")?;
    append_unit_bytes(alloc, unit, answer)
}
