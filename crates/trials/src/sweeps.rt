//! Sweeps: every cut and every change of one byte of small sections, and what the library answers to each.
//!
//! A vector is a file of lines `let NAME = BYTES`, as `case_file` reads them, in which NAME is
//! `info`, `abbrev`, `str`, `line-str` or `str-offsets`; a section that has no line is empty. Behind the file may stand
//! `:v4`, by which units of version 4 are read too, and `:big`, by which the byte order is big-endian. The inputs are,
//! of each of its sections, first its fronts of 0 bytes and more, but for the whole, and then it with each byte in the
//! place of each other, while the other sections stay as they are.
//!
//! Printed is, for each vector, how much of what doesn't hold of it is counted as broken (`judge_wrongly`). For each of
//! its sections it is how many inputs there were, how many of them were read, how many broke what has to hold of all
//! (`judge` says what that is), a checksum of all that was answered, the offset of each fault with it, and how often
//! each reason came. `scripts/gate/sweeps.py` prints what an independent reader answers to the same inputs, in the same words.
mod agree;
mod checksum;
mod input;
mod judge;
mod tally;
mod units;

use crate::sweeps::input::{Input, SectionName, append_sections, input_of};
use crate::sweeps::judge::{judge, judge_wrongly};
use crate::sweeps::tally::Tally;
use std::alloc::{AllocError, Global};
use std::rt::Files;
use std::{fs, io};

const SECTIONS: [SectionName; 5] = [
    SectionName::Info,
    SectionName::Abbrev,
    SectionName::Str,
    SectionName::LineStr,
    SectionName::StrOffsets,
];

/// Sweeps the vectors that these words name.
pub(crate) fn sweep_each(
    rt: &(impl AllocGlobal + Files + Print),
    words: &[String],
) -> io::Result<()> {
    for word in words {
        sweep_vector(rt, word.as_str())?;
    }
    Ok(())
}

/// Sweeps a vector, which the word names.
fn sweep_vector(rt: &(impl AllocGlobal + Files + Print), word: &str) -> io::Result<()> {
    let (file, _) = word.split_once(':').unwrap_or((word, ""));
    let text = fs::read_to_string(rt, file)?;
    sweep_text(rt, word, text.as_str())
}

fn sweep_text(rt: &(impl AllocGlobal + Print), word: &str, text: &str) -> io::Result<()> {
    let mut bytes = Vec::new(rt.alloc());
    let ends = append_sections(text, &mut bytes)?;
    sweep_sections(rt, word, &input_of(word, bytes.as_slice(), ends))
}

fn sweep_sections(
    rt: &(impl AllocGlobal + Print),
    word: &str,
    input: &Input<'_>,
) -> io::Result<()> {
    control(rt, word, input)?;
    for name in SECTIONS {
        if !input.section(name).is_empty() {
            sweep_section(rt, word, input, name)?;
        }
    }
    Ok(())
}

/// Prints how much is counted as broken that is.
fn control(rt: &(impl AllocGlobal + Print), word: &str, input: &Input<'_>) -> io::Result<()> {
    let mut tally = Tally::new(rt.alloc());
    judge_wrongly(rt.alloc(), input, &mut tally);
    println!(rt; "{word}: {} counted as broken", tally.broken())
}

fn sweep_section(
    rt: &(impl AllocGlobal + Print),
    word: &str,
    input: &Input<'_>,
    name: SectionName,
) -> io::Result<()> {
    let mut tally = Tally::new(rt.alloc());
    tally_section(rt.alloc(), input, name, &mut tally)?;
    tally.print(rt, word, name.word())
}

fn tally_section(
    alloc: Global,
    input: &Input<'_>,
    name: SectionName,
    tally: &mut Tally,
) -> Result<(), AllocError> {
    let mut bytes = Vec::from_slice(alloc, input.section(name))?;
    sweep_fronts(alloc, input, name, tally)?;
    sweep_bytes(alloc, input, name, bytes.as_mut_slice(), tally)
}

fn sweep_fronts(
    alloc: Global,
    input: &Input<'_>,
    name: SectionName,
    tally: &mut Tally,
) -> Result<(), AllocError> {
    let bytes = input.section(name);
    for size in 0..bytes.len() {
        let front = bytes.get(..size).unwrap_or(bytes);
        judge(alloc, &input.with(name, front), tally)?;
    }
    Ok(())
}

fn sweep_bytes(
    alloc: Global,
    input: &Input<'_>,
    name: SectionName,
    bytes: &mut [u8],
    tally: &mut Tally,
) -> Result<(), AllocError> {
    for (at, byte) in input.section(name).iter().enumerate() {
        sweep_byte(alloc, input, name, bytes, (at, *byte), tally)?;
    }
    Ok(())
}

/// The section with each other value in the place of its byte `at`, which is put back then.
fn sweep_byte(
    alloc: Global,
    input: &Input<'_>,
    name: SectionName,
    bytes: &mut [u8],
    (at, byte): (usize, u8),
    tally: &mut Tally,
) -> Result<(), AllocError> {
    for value in 0..=255u8 {
        if value != byte {
            put(bytes, at, value);
            judge(alloc, &input.with(name, bytes), tally)?;
        }
    }
    put(bytes, at, byte);
    Ok(())
}

fn put(bytes: &mut [u8], at: usize, value: u8) {
    if let Some(byte) = bytes.get_mut(at) {
        *byte = value;
    }
}
