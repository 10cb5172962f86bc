//! Tests of the parts of a unit whose cases are data: numbers, forms, values, abbreviation tables and headers. A
//! case is a line of a file: a call in words, an arrow, and its answer, which is taken from the standard.
//! What a call answers otherwise is printed, and at the end of each file how many cases it has.
mod builders;
mod constants;
mod contexts;
mod error;
mod fits;
mod forms;
mod headers;
mod heads;
mod lengths;
mod names;
mod numbers;
mod spelled;
mod tables;
mod values;
mod words;

ghost use Rattle.dw_form.specs.Form.{IsContext};

use crate::parts::contexts::{FIRST, depends_on_context, is_meant};
use crate::parts::error::CaseError;
use case_file::{Case, case_of, is_answered};
use dw_form::Ctx;
use dw_leb::{Format, Order};
use std::alloc::{AllocError, Global};
use std::rt::Files;
use std::{fs, io};

/// One file a topic.
const FILES: [&str; 14] = [
    "numbers",
    "lengths",
    "names",
    "tables",
    "builders",
    "headers",
    "forms",
    "values",
    "refused_values",
    "fits",
    "fitting_numbers",
    "other_numbers",
    "value_heads",
    "printed_tables",
];

/// Judges the cases of each file.
pub fn judge_files(rt: &(impl AllocGlobal + Files + Print)) -> io::Result<()> {
    for file in FILES {
        let text = fs::read_to_string(rt, file)?;
        judge_each(rt, file, text.as_str())?;
    }
    Ok(())
}

/// Judges each case of a file, and prints how many there are.
fn judge_each(rt: &(impl AllocGlobal + Print), file: &str, text: &str) -> io::Result<()> {
    let mut count = 0u64;
    for (index, line) in text.lines().enumerate() {
        if let Some(case) = case_of(line) {
            judge_case(rt, file, index, case)?;
            count = count.saturating_add(1);
        }
    }
    println!(rt; "{file}: {count} cases")
}

/// Judges a case, in each context that it means where its answer depends on that.
fn judge_case(
    rt: &(impl AllocGlobal + Print),
    file: &str,
    index: usize,
    case: Case<'_>,
) -> io::Result<()> {
    if depends_on_context(file) {
        judge_in_contexts(rt, file, index, case)
    } else {
        judge(rt, file, index, case, FIRST)
    }
}

/// Judges a case in each context that it means.
fn judge_in_contexts(
    rt: &(impl AllocGlobal + Print),
    file: &str,
    index: usize,
    case: Case<'_>,
) -> io::Result<()> {
    let mut is_judged = false;
    for order in [Order::Little, Order::Big] {
        for format in [Format::Dwarf32, Format::Dwarf64] {
            for address_size in 1..9 {
                let ctx = Ctx {
                    order,
                    format,
                    address_size,
                };
                if is_meant(ctx, case.input) {
                    judge(rt, file, index, case, ctx)?;
                    is_judged = true;
                }
            }
        }
    }
    if !is_judged {
        println!(rt; "{file}: {} -> in no context", case.input)?;
    }
    Ok(())
}

/// Judges a case in a context.
fn judge(
    rt: &(impl AllocGlobal + Print),
    file: &str,
    index: usize,
    case: Case<'_>,
    ctx: Ctx,
) -> io::Result<()>
    requires { IsContext ctx }
{
    let mut text = String::new(rt.alloc());
    answer_or_say(rt.alloc(), file, ctx, case.input, &mut text)?;
    compare(rt, file, index, case, text.as_str())
}

/// Prints an answer that isn't the one of the case.
fn compare(
    rt: &impl Print,
    file: &str,
    index: usize,
    case: Case<'_>,
    answer: &str,
) -> io::Result<()> {
    let line = index.saturating_add(1);
    let _is_as_stated = is_answered(rt, file, line, case, answer.trim())?;
    Ok(())
}

/// Appends the answer to a case, or why there is none.
fn answer_or_say(
    alloc: Global,
    file: &str,
    ctx: Ctx,
    input: &str,
    text: &mut String,
) -> Result<(), AllocError>
    requires { IsContext ctx }
{
    match answer(alloc, file, ctx, input, text) {
        Ok(()) => Ok(()),
        Err(error) => write!(text, "{error}"),
    }
}

/// Appends what the library answers to a case of this file.
fn answer(
    alloc: Global,
    file: &str,
    ctx: Ctx,
    input: &str,
    text: &mut String,
) -> Result<(), CaseError>
    requires { IsContext ctx }
{
    match file {
        "numbers" => numbers::answer(alloc, input, text),
        "lengths" => lengths::answer(alloc, input, text),
        "names" => names::answer(input, text),
        "tables" => tables::answer(alloc, input, text),
        "builders" | "printed_tables" => builders::answer(alloc, input, text),
        "headers" => headers::answer(alloc, input, text),
        _ => answer_in(alloc, file, ctx, input, text),
    }
}

/// The same where the answer depends on the context.
fn answer_in(
    alloc: Global,
    file: &str,
    ctx: Ctx,
    input: &str,
    text: &mut String,
) -> Result<(), CaseError>
    requires { IsContext ctx }
{
    match file {
        "forms" => forms::answer(ctx, input, text),
        "values" | "refused_values" => values::answer(alloc, ctx, input, text),
        "fits" | "fitting_numbers" | "other_numbers" => fits::answer(alloc, ctx, input, text),
        "value_heads" => heads::answer(alloc, ctx, input, text),
        _ => Err(CaseError::NoSuchCase),
    }
}
