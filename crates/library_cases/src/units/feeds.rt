//! Cases of the feeds: headers and units that are pushed in pieces, and units of readers that give few bytes a call
//! (section 7.5).
//!
//! A case is a line `INPUT -> ANSWER` of a file in `data/`, of which an input is
//!
//! - `head: PIECE | PIECE | ..`, `head printed: ..`, `head by bytes: BYTES` and `wants behind: BYTES`, as `heads` says;
//! - `body of LENGTH over TABLE: PIECE | PIECE | ..` and `held body of ..`, as `bodies` says;
//! - `read by COUNT over TABLE: BYTES`, as `readers` says;
//! - `cuts over TABLE: BYTES`, as `cuts` says;
//! - `fronts over TABLE: BYTES` and `changes over TABLE: BYTES`, as `agree` says.
//!
//! Before an input may stand `big`, else the byte order is little, and then `four`, by which units of version 4 are
//! read too.

mod agree;
mod bodies;
mod cuts;
mod heads;
mod input;
mod over;
mod readers;

use dw_leb::Order;
use dw_unit::Versions;
use input::Setting;
use std::alloc::{AllocError, Global};

/// The files of their cases, one for each topic.
pub const FILES: [&str; 8] = [
    "heads",
    "wants",
    "bodies",
    "held",
    "readers",
    "cuts",
    "agreement",
    "printed",
];

/// Appends the answer to an input, in a file that may give names to bytes.
pub fn append_answer(
    alloc: Global,
    file: &str,
    input: &str,
    answer: &mut String,
) -> Result<(), AllocError> {
    let Some((head, bytes)) = input.split_once(':') else {
        return answer.push_str("no such case");
    };
    let (setting, question) = setting_of(head);
    match question {
        "head" => heads::append_head(alloc, file, setting, bytes, answer),
        "head printed" => heads::append_printed(alloc, file, setting, bytes, answer),
        "head by bytes" => heads::append_by_bytes(alloc, file, setting, bytes, answer),
        "wants behind" => heads::append_wants(alloc, file, setting, bytes, answer),
        question => over::append_over(alloc, file, (setting, question), bytes, answer),
    }
}

/// How bytes are read by the words before a question, and the question.
fn setting_of(head: &str) -> (Setting, &str) {
    let (order, head) = match head.strip_prefix("big ") {
        Some(rest) => (Order::Big, rest),
        None => (Order::Little, head),
    };
    let (versions, question) = match head.strip_prefix("four ") {
        Some(rest) => (Versions::FourAndFive, rest),
        None => (Versions::Five, head),
    };
    (Setting { order, versions }, question)
}
