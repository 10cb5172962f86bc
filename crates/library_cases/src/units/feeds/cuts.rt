//! A unit that is pushed in every way as two pieces behind its header, and byte by byte: `cuts over TABLE: BYTES`,
//! answered with what comes of it in one piece, and how many cuts there are. All have to come to the same, after the
//! same bytes.
use crate::units::feeds::input::{Input, Outcome, behind_header, feed_behind};
use crate::units::feeds::readers::append_outcome;
use dw_feed::{BodyFeed, Progress};
use dw_leb::{Fault, ReadError};
use std::alloc::{AllocError, Global};

/// What a feed says, without the unit.
#[derive(Clone, Copy)]
enum Said {
    More,
    Whole(Outcome),
    Spent,
}

fn refused(fault: Fault) -> Outcome {
    Outcome::Refused(ReadError::Fault(fault))
}

fn push(alloc: Global, input: Input<'_>, feed: &mut BodyFeed, piece: &[u8]) -> (usize, Said) {
    let (count, answer) = feed.feed(piece);
    let said = match answer {
        Progress::More => Said::More,
        Progress::Done(unit) => Said::Whole(Outcome::of_unit(alloc, input, &unit)),
        Progress::Fault(fault) => Said::Whole(refused(fault)),
        Progress::NoMemory => Said::Whole(Outcome::Refused(ReadError::NoMemory)),
        Progress::Spent => Said::Spent,
    };
    (count, said)
}

/// Pushes an empty piece, which tells nothing unless the unit is refused by it, and then the piece.
fn push_rested(
    alloc: Global,
    input: Input<'_>,
    feed: &mut BodyFeed,
    piece: &[u8],
) -> (usize, Said) {
    match push(alloc, input, feed, &[]) {
        (0, Said::More) => push(alloc, input, feed, piece),
        other => other,
    }
}

/// Pushes the bytes behind the header in a first piece of so many bytes and then in pieces of `size`, up to the first
/// thing that is said but that more is needed, and answers that and how many bytes were taken.
fn push_pieces(
    alloc: Global,
    input: Input<'_>,
    feed: &mut BodyFeed,
    first: usize,
    size: usize,
) -> (usize, Said) {
    let mut left = behind_header(input);
    let mut taken = 0usize;
    let mut want = first;
    for _ in 0..=left.len() {
        let (piece, rest) = left.split_at(want.min(left.len()));
        let (count, said) = push_rested(alloc, input, feed, piece);
        taken = taken.saturating_add(count);
        match said {
            Said::More if !rest.is_empty() => {}
            said => return (taken, said),
        }
        left = rest;
        want = size;
    }
    (taken, Said::More)
}

/// What comes of a unit whose bytes behind the header are pushed in a first piece of so many bytes and then in pieces
/// of `size`, and how many bytes are taken. None where no feed is there, or it says that it is spent.
pub fn pushed(
    alloc: Global,
    input: Input<'_>,
    first: usize,
    size: usize,
) -> Option<(Outcome, usize)> {
    let mut feed = feed_behind(alloc, input)?;
    let (taken, said) = push_pieces(alloc, input, &mut feed, first, size);
    let outcome = match said {
        Said::Whole(outcome) => Some(outcome),
        Said::More => feed.end().map(refused),
        Said::Spent => None,
    };
    Some((outcome?, taken))
}

/// The same in one piece.
pub fn at_once(alloc: Global, input: Input<'_>) -> Option<(Outcome, usize)> {
    let size = input.bytes.len();
    pushed(alloc, input, size, size)
}

/// Whether pieces of these sizes come to this.
pub fn is_pushed(
    alloc: Global,
    input: Input<'_>,
    (first, size): (usize, usize),
    want: (Outcome, usize),
) -> bool {
    match pushed(alloc, input, first, size) {
        Some((outcome, taken)) => taken == want.1 && outcome == want.0,
        None => false,
    }
}

pub fn append_cuts(alloc: Global, input: Input<'_>, answer: &mut String) -> Result<(), AllocError> {
    let Some(whole) = at_once(alloc, input) else {
        return answer.push_str("no feed");
    };
    append_outcome(whole.0, answer)?;
    append_differences(alloc, input, whole, answer)
}

fn append_differences(
    alloc: Global,
    input: Input<'_>,
    whole: (Outcome, usize),
    answer: &mut String,
) -> Result<(), AllocError> {
    let size = behind_header(input).len();
    for cut in 0..=size {
        if !is_pushed(alloc, input, (cut, size), whole) {
            write!(answer, ", but not cut at {cut}")?;
        }
    }
    if !is_pushed(alloc, input, (0, 1), whole) {
        answer.push_str(", but not byte by byte")?;
    }
    write!(answer, ", {} cuts", size.saturating_add(1))
}
