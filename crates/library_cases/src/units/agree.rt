//! The read of a unit from a reader, which has to give the same outcome.
ghost use Rattle.std.specs.Prelude.{◌≡◌, None};
ghost use Rattle.dw_leb.specs.Watch.{fault_of};

use crate::units::reading::{Input, Outcome, front, is_written_as};
use dw_abbrev::Tables;
use dw_feed::read_unit_from_as;
use dw_leb::Watched;
use dw_leb::devices::Stepped;
use dw_unit::Unit;
use std::alloc::Global;
use std::io::Read;

/// Whether a reader that gives one byte a call has the same outcome.
pub fn from_a_reader(alloc: Global, input: Input<'_>, outcome: Outcome) -> bool {
    let mut reader = Watched::new(Stepped::new(input.bytes, 1));
    let is_same = reads(alloc, input, &mut reader, outcome);
    let left = reader.into_inner().inner().len();
    match outcome {
        Ok(size) => is_same && left == input.bytes.len().saturating_sub(size),
        Err(_) => is_same,
    }
}

/// Whether the reader gives the outcome.
fn reads<R: Read>(
    alloc: Global,
    input: Input<'_>,
    reader: &mut Watched<R>,
    outcome: Outcome,
) -> bool
    requires { fault_of reader.old ≡ None }
{
    let mut tables = Tables::new(alloc, input.section);
    reads_over(alloc, input, &mut tables, reader, outcome)
}

fn reads_over<R: Read>(
    alloc: Global,
    input: Input<'_>,
    tables: &mut Tables<'_>,
    reader: &mut Watched<R>,
    outcome: Outcome,
) -> bool
    requires { fault_of reader.old ≡ None }
{
    match read_unit_from_as(alloc, input.order, input.versions, tables, reader) {
        Ok(unit) => is_unit(alloc, input, &unit, outcome),
        Err(error) => outcome == Err(error),
    }
}

/// Whether the unit has the size of the outcome, and is written as the front of the input.
fn is_unit(alloc: Global, input: Input<'_>, unit: &Unit, outcome: Outcome) -> bool {
    match outcome {
        Ok(size) => {
            unit.size() == size as u64 && is_written_as(alloc, unit, front(input.bytes, size))
        }
        Err(_) => false,
    }
}
