//! Trials of the library: calls whose memory is refused (`refusals`), and small sections, cut and changed (`sweeps`).
//!
//! `trials SCENARIO` tells a scenario of `refusals`, and `trials SCENARIO COUNT` one of calls that take no memory.
//! `trials sweep VECTOR..` sweeps these vectors, each a word for a file of `data/` and how it is read. `trials all
//! VECTOR..` tells each scenario and sweeps the vectors. Where memory is refused to the trial itself, or a file can't be
//! read, the status is 4.
#![tactic(auto)]

mod refusals;
mod sweeps;

use std::process::ExitCode;
use std::rt::{Env, Files};
use std::{env, io};

fn main(rt: HostRuntime) -> ExitCode {
    match act(&rt) {
        Ok(()) => ExitCode::from(0),
        Err(_) => ExitCode::from(4),
    }
}

fn act(rt: &(impl AllocGlobal + Env + Files + Print)) -> io::Result<()> {
    let words = env::args(rt)?.skip(1).collect::<Vec<String>>(rt.alloc())?;
    act_on(rt, words.as_slice())
}

fn act_on(rt: &(impl AllocGlobal + Files + Print), words: &[String]) -> io::Result<()> {
    let Some((first, others)) = words.split_first() else {
        return Ok(());
    };
    match first.as_str() {
        "sweep" => sweeps::sweep_each(rt, others),
        "all" => {
            refusals::tell_each(rt)?;
            sweeps::sweep_each(rt, others)
        }
        scenario => refusals::tell_one(rt, scenario, others),
    }
}
