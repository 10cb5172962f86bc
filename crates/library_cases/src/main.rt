//! Tests of the library whose cases are data: lines `INPUT -> ANSWER` of the files in `data/`. `parts` says what those of
//! the parts of a unit are, `units` those of units. Each line that is answered otherwise is printed, and for each file
//! how many cases it has.
#![tactic(auto)]

mod parts;
mod units;

use std::io;

fn main(rt: HostRuntime) -> io::Result<()> {
    parts::judge_files(&rt)?;
    units::judge_files(&rt)
}
