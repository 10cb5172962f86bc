//! Cases of units: read from bytes, walked, changed in place, built, and pushed in pieces (section 7.5).
//!
//! A case is a line `INPUT -> ANSWER` of a file in `data/`; `ask`, `build` and `feeds` say what an input is. Each line
//! that differs is printed, and for each file how many cases it has.
mod agree;
mod ask;
mod build;
mod calls;
mod entries;
mod feeds;
mod judged;
mod made;
mod put;
mod reading;
mod rule;
mod show;
mod steps;
mod unit;
mod values;

use crate::units::judged::judge_calls;
use case_file::{case_of, is_answered};
use std::alloc::{AllocError, Global};
use std::rt::Files;
use std::{fs, io};

/// The files of cases that are asked in one piece, one for each topic.
const FILES: [&str; 10] = [
    "units",
    "kinds",
    "attributes",
    "trees",
    "faults",
    "versions",
    "compilers",
    "puts",
    "built",
    "calls",
];

/// How the cases of a file are asked.
#[derive(Clone, Copy)]
enum Asked {
    AtOnce,
    InPieces,
}

/// Judges the cases of each file.
pub fn judge_files(rt: &(impl AllocGlobal + Files + Print)) -> io::Result<()> {
    for file in FILES {
        judge_file(rt, file, Asked::AtOnce)?;
    }
    judge_calls(rt)?;
    for file in feeds::FILES {
        judge_file(rt, file, Asked::InPieces)?;
    }
    Ok(())
}

fn judge_file(rt: &(impl AllocGlobal + Files + Print), file: &str, asked: Asked) -> io::Result<()> {
    let text = fs::read_to_string(rt, file)?;
    let count = judge_cases(rt, file, asked, text.as_str())?;
    println!(rt; "{file}: {count} cases")
}

/// Judges each case of a file, and answers how many there are.
fn judge_cases(
    rt: &(impl AllocGlobal + Print),
    file: &str,
    asked: Asked,
    text: &str,
) -> io::Result<u64> {
    let mut answer = String::new(rt.alloc());
    let mut count = 0u64;
    for (index, line) in text.lines().enumerate() {
        if let Some(case) = case_of(line) {
            answer.clear();
            append_answer(rt.alloc(), asked, text, case.input, &mut answer)?;
            is_answered(rt, file, index.saturating_add(1), case, answer.as_str())?;
            count = count.saturating_add(1);
        }
    }
    Ok(count)
}

/// Appends the answer to an input, in a file that may give names to bytes.
fn append_answer(
    alloc: Global,
    asked: Asked,
    file: &str,
    input: &str,
    answer: &mut String,
) -> Result<(), AllocError> {
    if let Asked::InPieces = asked {
        return feeds::append_answer(alloc, file, input, answer);
    }
    match input.strip_prefix("build ") {
        Some(script) => build::append_built(alloc, file, script, answer),
        None => ask::append_answer(alloc, file, input, answer),
    }
}
