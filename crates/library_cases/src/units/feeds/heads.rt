//! Headers that are pushed:
//!
//! - `head: PIECE | PIECE | ..`, answered for each piece with the count of its bytes that were taken and what was
//!   said, and with the fault at the end of the input;
//! - `head by bytes: BYTES`, each as a piece of its own with an empty piece before it, answered with the byte at which
//!   something else was said than `more`, what was said to one more byte, and the fault at the end;
//! - `head printed: PIECE | PIECE | ..`, answered for each piece as `head` is, and with the feed as `Debug` prints it;
//! - `wants behind: BYTES`, answered with the count of bytes that a feed wants then.
use crate::units::feeds::input::Setting;
use crate::units::show::{append_end, append_fault, separate};
use case_file::append_named;
use dw_feed::{HeadFeed, Progress};
use dw_unit::Header;
use std::alloc::{AllocError, Global};

type Answer = (usize, Progress<(Header, u64)>);

pub fn append_head(
    alloc: Global,
    file: &str,
    setting: Setting,
    pieces: &str,
    answer: &mut String,
) -> Result<(), AllocError> {
    let mut feed = HeadFeed::new_as(setting.order, setting.versions);
    append_pieces(alloc, file, &mut feed, pieces, answer)?;
    append_end(feed.end(), answer)
}

pub fn append_printed(
    alloc: Global,
    file: &str,
    setting: Setting,
    pieces: &str,
    answer: &mut String,
) -> Result<(), AllocError> {
    let mut feed = HeadFeed::new_as(setting.order, setting.versions);
    append_pieces(alloc, file, &mut feed, pieces, answer)?;
    write!(answer, "; {feed:?}")
}

fn append_pieces(
    alloc: Global,
    file: &str,
    feed: &mut HeadFeed,
    pieces: &str,
    answer: &mut String,
) -> Result<(), AllocError> {
    let mut piece = Vec::new(alloc);
    for words in pieces.split('|') {
        piece.clear();
        if !append_named(file, words, &mut piece)? {
            return answer.push_str("no such bytes");
        }
        append_next(feed.feed(piece.as_slice()), answer)?;
    }
    Ok(())
}

fn append_next(said: Answer, answer: &mut String) -> Result<(), AllocError> {
    separate(answer)?;
    append_said(said, answer)
}

fn append_said((count, said): Answer, answer: &mut String) -> Result<(), AllocError> {
    write!(answer, "{count} ")?;
    match said {
        Progress::More => answer.push_str("more"),
        Progress::Done((header, length)) => write!(answer, "{header:?} of unit_length {length}"),
        Progress::Fault(fault) => append_fault(fault, answer),
        Progress::NoMemory => answer.push_str("no memory"),
        Progress::Spent => answer.push_str("spent"),
    }
}

pub fn append_by_bytes(
    alloc: Global,
    file: &str,
    setting: Setting,
    words: &str,
    answer: &mut String,
) -> Result<(), AllocError> {
    let mut bytes = Vec::new(alloc);
    if !append_named(file, words, &mut bytes)? {
        return answer.push_str("no such bytes");
    }
    let mut feed = HeadFeed::new_as(setting.order, setting.versions);
    append_bytes(&mut feed, bytes.as_slice(), answer)?;
    append_end(feed.end(), answer)
}

/// Pushes the bytes up to the first one at which something else is said than that it was taken and more is needed.
fn append_bytes(feed: &mut HeadFeed, bytes: &[u8], answer: &mut String) -> Result<(), AllocError> {
    for (index, byte) in bytes.iter().enumerate() {
        if feed.feed(&[]) != (0, Progress::More) {
            answer.push_str("not at rest; ")?;
        }
        let said = feed.feed(&[*byte]);
        if said != (1, Progress::More) {
            write!(answer, "byte {}: ", index.saturating_add(1))?;
            append_said(said, answer)?;
            answer.push_str("; then ")?;
            return append_said(feed.feed(&[0]), answer);
        }
    }
    answer.push_str("more")
}

pub fn append_wants(
    alloc: Global,
    file: &str,
    setting: Setting,
    words: &str,
    answer: &mut String,
) -> Result<(), AllocError> {
    let mut bytes = Vec::new(alloc);
    if !append_named(file, words, &mut bytes)? {
        return answer.push_str("no such bytes");
    }
    let mut feed = HeadFeed::new_as(setting.order, setting.versions);
    let _said = feed.feed(bytes.as_slice());
    write!(answer, "{}", feed.wants())
}
