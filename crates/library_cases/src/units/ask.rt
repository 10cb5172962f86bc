//! What is asked of a unit at the front of bytes: `[big] [four] QUESTION over TABLE: BYTES`.
//!
//! The byte order is little where `big` isn't there, and the version is 5 alone where `four` isn't: with it the unit
//! may be one of version 4 too. `TABLE` is the section of abbreviation tables. `QUESTION` is as `unit` says.
use crate::units::reading::{Input, append_read};
use case_file::append_named;
use dw_leb::Order;
use dw_unit::Versions;
use std::alloc::{AllocError, Global};

/// An input in its parts.
#[derive(Clone, Copy)]
struct Ask<'a> {
    order: Order,
    versions: Versions,
    question: &'a str,
    table: &'a str,
    bytes: &'a str,
}

fn ask_of(input: &str) -> Option<Ask<'_>> {
    let (head, bytes) = input.split_once(':')?;
    let (head, table) = head.split_once(" over ")?;
    let (order, head) = order_of(head);
    let (versions, question) = versions_of(head);
    Some(Ask {
        order,
        versions,
        question,
        table,
        bytes,
    })
}

/// The order that words begin with, and the words behind it.
fn order_of(words: &str) -> (Order, &str) {
    match words.strip_prefix("big ") {
        Some(rest) => (Order::Big, rest),
        None => (Order::Little, words),
    }
}

/// The same of the versions.
fn versions_of(words: &str) -> (Versions, &str) {
    match words.strip_prefix("four ") {
        Some(rest) => (Versions::FourAndFive, rest),
        None => (Versions::Five, words),
    }
}

/// Appends the answer to what is asked of a unit.
pub fn append_answer(
    alloc: Global,
    file: &str,
    input: &str,
    answer: &mut String,
) -> Result<(), AllocError> {
    let Some(ask) = ask_of(input) else {
        return answer.push_str("no such case");
    };
    let mut section = Vec::new(alloc);
    if !append_named(file, ask.table, &mut section)? {
        return answer.push_str("no such table");
    }
    append_over(alloc, file, &ask, section.as_slice(), answer)
}

/// Appends it over the bytes of the tables.
fn append_over(
    alloc: Global,
    file: &str,
    ask: &Ask<'_>,
    section: &[u8],
    answer: &mut String,
) -> Result<(), AllocError> {
    let mut bytes = Vec::new(alloc);
    if !append_named(file, ask.bytes, &mut bytes)? {
        return answer.push_str("no such bytes");
    }
    let input = Input {
        order: ask.order,
        versions: ask.versions,
        section,
        bytes: bytes.as_slice(),
    };
    append_read(alloc, input, ask.question, answer)
}
