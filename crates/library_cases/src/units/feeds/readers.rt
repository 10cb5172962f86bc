//! Units of readers: `read by COUNT over TABLE: BYTES`, of one that gives so many bytes a call, answered with the size
//! of the unit or its fault, and with the count of bytes that the reader has left. Readers that give other counts of
//! bytes have to come to the same outcome.
ghost use Rattle.std.specs.Prelude.{◌≡◌, None};
ghost use Rattle.dw_leb.specs.Watch.{fault_of};

use crate::units::feeds::input::{Input, Outcome, Setting};
use crate::units::show::append_error;
use dw_abbrev::Tables;
use dw_feed::read_unit_from_as;
use dw_leb::Watched;
use dw_leb::devices::Stepped;
use std::alloc::{AllocError, Global};
use std::io::Read;

/// What comes of a reader that gives so many bytes a call, and how many it has left. It has no fault then.
pub fn read_by(alloc: Global, input: Input<'_>, count: usize) -> (Outcome, usize) {
    let mut reader = Watched::new(Stepped::new(input.bytes, count));
    let outcome = read_from(alloc, input, &mut reader);
    let is_clear = reader.fault().is_none();
    let left = reader.into_inner().inner().len();
    (
        if is_clear {
            outcome
        } else {
            Outcome::Otherwise
        },
        left,
    )
}

/// What comes of a reader of the input.
fn read_from<R: Read>(alloc: Global, input: Input<'_>, reader: &mut Watched<R>) -> Outcome
    requires { fault_of reader.old ≡ None }
{
    let mut tables = Tables::new(alloc, input.section);
    read_over(alloc, input, &mut tables, reader)
}

fn read_over<R: Read>(
    alloc: Global,
    input: Input<'_>,
    tables: &mut Tables<'_>,
    reader: &mut Watched<R>,
) -> Outcome
    requires { fault_of reader.old ≡ None }
{
    let Setting { order, versions } = input.setting;
    match read_unit_from_as(alloc, order, versions, tables, reader) {
        Ok(unit) => Outcome::of_unit(alloc, input, &unit),
        Err(error) => Outcome::Refused(error),
    }
}

pub fn append_read(
    alloc: Global,
    input: Input<'_>,
    count: &str,
    answer: &mut String,
) -> Result<(), AllocError> {
    let Ok(count) = count.parse() else {
        return answer.push_str("no such case");
    };
    let (outcome, left) = read_by(alloc, input, count);
    append_outcome(outcome, answer)?;
    write!(answer, ", {left} left")?;
    append_others(alloc, input, outcome, answer)
}

/// Says where readers that give other counts of bytes come to another outcome.
fn append_others(
    alloc: Global,
    input: Input<'_>,
    outcome: Outcome,
    answer: &mut String,
) -> Result<(), AllocError> {
    for other in [1, 2, 3, 16, 4096] {
        if read_by(alloc, input, other).0 != outcome {
            write!(answer, ", but not by {other}")?;
        }
    }
    Ok(())
}

pub fn append_outcome(outcome: Outcome, answer: &mut String) -> Result<(), AllocError> {
    match outcome {
        Outcome::Unit(size) => write!(answer, "{size} bytes"),
        Outcome::Otherwise => answer.push_str("written otherwise"),
        Outcome::Refused(error) => append_error(error, answer),
    }
}
