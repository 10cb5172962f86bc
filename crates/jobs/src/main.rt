//! The jobs that a user of this library waits for, over sections of tens of megabytes.
//!
//! `jobs JOB SIZE SEED` does one job and prints a digest of all its results. Its sections are joined out of real units,
//! which it reads from files in the folder that it runs in (`gcc/debug_info` and so on). SIZE says how often each unit
//! is there; SEED gives the order of the units, and other numbers in the places of some of theirs. The jobs are `copy`,
//! `check`, `show`, `questions`, `pieces` and `made`; `all` does each of them.
//!
//! Others are over the section of the files `info` and `abbrev`, as `bench/inputs.py` makes them: `push` pushes its
//! units in pieces of SIZE bytes, `ask` asks what `questions` does, and `look-one`, `look-four`, `look-near`,
//! `look-along` and `look-any` look up SIZE entries by their offsets.
#![tactic(auto)]

mod bytes;
mod corpus;
mod digest;
mod error;
mod joined;
mod look;
mod made;
mod parts;
mod pieces;
mod questions;
mod random;
mod small;
mod table;
mod whole;

use crate::corpus::Corpus;
use crate::digest::Digest;
use crate::error::JobError;
use crate::look::Pattern;
use crate::random::Random;
use dw_tool::command::Command;
use std::env;
use std::rt::{Env, Files};

fn main(rt: HostRuntime) -> Result<(), JobError> {
    let words = env::args(&rt)?.skip(1).collect::<Vec<String>>(rt.alloc())?;
    match words.as_slice() {
        [job, size, seed] => {
            let size = size.as_str().parse().map_err(|_| JobError::Usage)?;
            let seed = seed.as_str().parse().map_err(|_| JobError::Usage)?;
            act(&rt, job.as_str(), size, seed)
        }
        _ => Err(JobError::Usage),
    }
}

/// Does a job, and prints its digest.
fn act(
    rt: &(impl AllocGlobal + Files + Print),
    job: &str,
    size: usize,
    seed: u64,
) -> Result<(), JobError> {
    if job != "all" {
        return act_and_tell(rt, job, size, seed);
    }
    for job in ["copy", "check", "show", "questions", "pieces", "made"] {
        act_and_tell(rt, job, size, seed)?;
    }
    Ok(())
}

fn act_and_tell(
    rt: &(impl AllocGlobal + Files + Print),
    job: &str,
    size: usize,
    seed: u64,
) -> Result<(), JobError> {
    let mut random = Random::new(seed);
    let mut digest = Digest::new();
    act_on(rt, job, size, &mut random, &mut digest)?;
    println!(rt; "{job} {:016x}", digest.value())?;
    Ok(())
}

fn act_on(
    rt: &(impl AllocGlobal + Files),
    job: &str,
    size: usize,
    random: &mut Random,
    digest: &mut Digest,
) -> Result<(), JobError> {
    match job {
        "copy" => copy(rt, size, random, digest),
        "check" => {
            run_over(rt, "gcc", Command::Check, size, random, digest)?;
            run_over(rt, "clang", Command::Check, size, random, digest)
        }
        "show" => {
            run_over(rt, "gcc", Command::Show, size, random, digest)?;
            run_over(rt, "clang", Command::Show, size, random, digest)
        }
        "questions" => {
            find_and_ask(rt, size, random, digest)?;
            let corpus = Corpus::read(rt, "clang")?;
            questions::of_corpus(rt.alloc(), &corpus, size, random, digest)
        }
        "pieces" => push(rt, size, random, digest),
        "made" => make(rt, size, random, digest),
        "push" => pieces::of_files(rt, size, digest),
        "ask" => questions::of_files(rt, random, digest),
        _ => match pattern_of(job) {
            Some(pattern) => look::of_files(rt, pattern, size, random, digest),
            None => Err(JobError::Usage),
        },
    }
}

fn pattern_of(job: &str) -> Option<Pattern> {
    match job {
        "look-one" => Some(Pattern::One),
        "look-four" => Some(Pattern::Four),
        "look-near" => Some(Pattern::Near),
        "look-along" => Some(Pattern::Along),
        "look-any" => Some(Pattern::Any),
        _ => None,
    }
}

/// Sections of the units in each folder are copied.
fn copy(
    rt: &(impl AllocGlobal + Files),
    size: usize,
    random: &mut Random,
    digest: &mut Digest,
) -> Result<(), JobError> {
    let corpus = Corpus::read(rt, "gcc")?;
    whole::of_corpus(rt.alloc(), &corpus, Command::Copy, size, random, digest)?;
    run_over(rt, "clang", Command::Copy, size, random, digest)?;
    run_over(rt, "dwz", Command::Copy, size, random, digest)?;
    whole::of_corpus(rt.alloc(), &corpus, Command::Copy, size, random, digest)
}

/// The entries of a name, and questions about the entries of another section of the same units.
fn find_and_ask(
    rt: &(impl AllocGlobal + Files),
    size: usize,
    random: &mut Random,
    digest: &mut Digest,
) -> Result<(), JobError> {
    let corpus = Corpus::read(rt, "gcc")?;
    let name = Command::Find(b"push_back");
    whole::of_corpus(rt.alloc(), &corpus, name, size, random, digest)?;
    questions::of_corpus(rt.alloc(), &corpus, size, random, digest)
}

/// A command over a section of the units in a folder.
fn run_over(
    rt: &(impl AllocGlobal + Files),
    folder: &str,
    command: Command<'_>,
    size: usize,
    random: &mut Random,
    digest: &mut Digest,
) -> Result<(), JobError> {
    let corpus = Corpus::read(rt, folder)?;
    whole::of_corpus(rt.alloc(), &corpus, command, size, random, digest)
}

/// Units that come in pieces.
fn push(
    rt: &(impl AllocGlobal + Files),
    size: usize,
    random: &mut Random,
    digest: &mut Digest,
) -> Result<(), JobError> {
    let corpus = Corpus::read(rt, "gcc")?;
    pieces::of_corpus(rt.alloc(), &corpus, size, random, digest)?;
    pieces::of_corpus(rt.alloc(), &corpus, size, random, digest)
}

/// Small units with a table each: built, changed, written and checked; and the smallest ones that there are.
fn make(
    rt: &(impl AllocGlobal + Files),
    size: usize,
    random: &mut Random,
    digest: &mut Digest,
) -> Result<(), JobError> {
    made::units(rt.alloc(), size.saturating_mul(500), random, digest)?;
    small::units(rt.alloc(), size.saturating_mul(2000), random, digest)
}
