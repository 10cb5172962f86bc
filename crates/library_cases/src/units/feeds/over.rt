//! Questions over a section of abbreviation tables.
use crate::units::feeds::agree::{append_changes, append_fronts};
use crate::units::feeds::bodies::append_body;
use crate::units::feeds::cuts::append_cuts;
use crate::units::feeds::input::{Input, Setting};
use crate::units::feeds::readers::append_read;
use case_file::append_named;
use std::alloc::{AllocError, Global};

/// Appends the answer to `QUESTION over TABLE`.
pub fn append_over(
    alloc: Global,
    file: &str,
    (setting, question): (Setting, &str),
    bytes: &str,
    answer: &mut String,
) -> Result<(), AllocError> {
    let Some((question, table)) = question.split_once(" over ") else {
        return answer.push_str("no such case");
    };
    let mut section = Vec::new(alloc);
    if !append_named(file, table, &mut section)? {
        return answer.push_str("no such table");
    }
    match question.split_once("body of ") {
        Some(body) => append_body(alloc, file, section.as_slice(), body, bytes, answer),
        None => append_whole(
            alloc,
            file,
            (setting, section.as_slice(), question),
            bytes,
            answer,
        ),
    }
}

/// Appends the answer to a question about all of the bytes.
fn append_whole(
    alloc: Global,
    file: &str,
    (setting, section, question): (Setting, &[u8], &str),
    words: &str,
    answer: &mut String,
) -> Result<(), AllocError> {
    let mut bytes = Vec::new(alloc);
    if !append_named(file, words, &mut bytes)? {
        return answer.push_str("no such bytes");
    }
    let input = Input {
        setting,
        section,
        bytes: bytes.as_slice(),
    };
    append_of(alloc, input, question, answer)
}

fn append_of(
    alloc: Global,
    input: Input<'_>,
    question: &str,
    answer: &mut String,
) -> Result<(), AllocError> {
    if let Some(count) = question.strip_prefix("read by ") {
        return append_read(alloc, input, count, answer);
    }
    match question {
        "cuts" => append_cuts(alloc, input, answer),
        "fronts" => append_fronts(alloc, input, answer),
        "changes" => append_changes(alloc, input, answer),
        _ => answer.push_str("no such case"),
    }
}
