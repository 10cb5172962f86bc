//! Scenarios for growths that are refused: one after the other, by `scripts/gate/refusals.py`.
//!
//! A scenario makes calls of the library over a small input, and tells what each answered. Where one answers that there is
//! no memory, it tells that and what stands then, and makes the same call again: one growth is refused, not the next. So
//! whichever it was, the lines without those on refusals are the same. With a count, of calls that take no memory, it makes
//! them so often: whatever the count is, as many growths are asked for. Where memory is refused to the scenario itself, it
//! tells nothing.
mod builders;
mod deep;
mod drafts;
mod feeds;
mod quiet;
mod quiet_parts;
mod readers;
mod runs;
mod samples;
mod sections;
mod tables;
mod told;
mod values;

use crate::refusals::told::ROOM;
use dw_tool::command::Command;
use rothelduf::ReadError;
use std::alloc::Global;
use std::io;

const SCENARIOS: [&str; 21] = [
    "value",
    "tables",
    "declaration",
    "table-builder",
    "builder",
    "draft",
    "unit",
    "unit-from",
    "deep",
    "body",
    "section",
    "section-as",
    "push",
    "type",
    "check",
    "run-show",
    "run-find",
    "run-type",
    "run-check",
    "run-set",
    "run-copy",
];

/// Tells each scenario, behind its name.
pub(crate) fn tell_each(rt: &(impl AllocGlobal + Print)) -> io::Result<()> {
    for scenario in SCENARIOS {
        println!(rt; "{scenario}:")?;
        tell_one(rt, scenario, &[])?;
    }
    Ok(())
}

/// Tells a scenario, or what is told of calls that are made so often.
pub(crate) fn tell_one(
    rt: &(impl AllocGlobal + Print),
    scenario: &str,
    count: &[String],
) -> io::Result<()> {
    let mut told = String::with_capacity(rt.alloc(), ROOM)?;
    let answer = match count.first() {
        Some(count) => quiet::tell(
            rt.alloc(),
            scenario,
            count.as_str().parse().unwrap_or(0),
            &mut told,
        ),
        None => tell(rt.alloc(), scenario, &mut told),
    };
    match answer {
        Ok(()) => print!(rt; "{}", told.as_str()),
        Err(_) => Err(io::Error::from(io::ErrorKind::OutOfMemory)),
    }
}

fn tell(alloc: Global, scenario: &str, told: &mut String) -> Result<(), ReadError> {
    match scenario {
        "value" => values::tell(alloc, told),
        "tables" => tables::tell_tables(alloc, told),
        "declaration" => tables::tell_declaration(alloc, told),
        "table-builder" => tables::tell_builder(alloc, told),
        "builder" => builders::tell(alloc, told),
        "draft" => drafts::tell(alloc, told),
        "unit" => readers::tell_unit(alloc, told),
        "unit-from" => readers::tell_unit_from(alloc, told),
        "deep" => deep::tell(alloc, told),
        "body" => feeds::tell(alloc, told),
        "section" => sections::tell_read(alloc, told),
        "section-as" => sections::tell_read_as(alloc, told),
        "push" => sections::tell_push(alloc, told),
        "type" => sections::tell_type(alloc, told),
        "check" => sections::tell_check(alloc, told),
        _ => tell_run(alloc, scenario, told),
    }
}

/// A run of the program's part that is over values, for each command.
fn tell_run(alloc: Global, scenario: &str, told: &mut String) -> Result<(), ReadError> {
    let command = match scenario {
        "run-show" => Command::Show,
        "run-find" => Command::Find(b"int"),
        "run-type" => Command::TypeOf(37),
        "run-check" => Command::Check,
        "run-set" => Command::SetNumber {
            offset: 34,
            name: 0x2f,
            value: 9,
        },
        "run-copy" => Command::Copy,
        _ => return Ok(told.push_str("no such scenario\n")?),
    };
    runs::tell(alloc, command, told)
}
