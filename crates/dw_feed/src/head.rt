//! A header that is pushed in pieces.
ghost use Rattle.std.specs.Prelude.{◌≡◌, ◌<◌, ◌≤◌, ◌++◌, ◌∷◌, [], length};
ghost use Rattle.dw_leb.specs.declared.errors.Reason.TheVariants.{Truncated};
ghost use Rattle.dw_header.specs.declared.versions.Versions.TheVariants.{Five};
ghost use Rattle.dw_header.specs.HeaderPlace.{HeaderFaultUnder};
ghost use Rattle.dw_header.specs.Laws.{HasHeaderBytes};
ghost use Rattle.dw_feed.specs.HeaderCut.{IsCut};
ghost use Rattle.dw_feed.specs.HeadFeed.{FeedsHead, IfDone, Answers, Ends, Reading, Wants, WantsExactly, Lacks, FieldLacks, AreSizes, IsLacking, field_ends, to_end};
ghost use Rattle.dw_feed.specs.HeadFeedView.{state_of, ended, JudgedAs, ShowsHead};

use crate::bytes::is_escape;
use crate::progress::Progress;
use arrayvec::ArrayVec;
use dw_header::{Header, Versions, read_header_as};
use dw_leb::{Fault, Order, Reason};
use std::marker::Model;

/// The most bytes of a header, with its initial length: those of a type unit in the 64-bit format (section
/// 7.5.1).
const MOST: usize = 40;

/// What ended a feed.
#[derive(Clone, Copy, Debug)]
pub(crate) enum Answered {
    Fault(Fault),
    Header,
}

/// A unit's header that is pushed in pieces of any size, with the initial length before it (sections 7.2.2
/// and 7.5.1). The header, or its fault, is answered at the first byte that shows it. No memory is taken.
#[derive(Debug, Drop)]
pub struct HeadFeed {
    order: Order,
    versions: Versions,
    /// The bytes that were taken.
    taken: ArrayVec<u8, MOST>,
    answered: Option<Answered>,
}

impl Model for HeadFeed {
    ghost use Rattle.dw_feed.specs.HeadFeed.{HeadFeed as TheFeed};
    ghost use Rattle.dw_feed.specs.HeadFeedView.{state_of, IsFeed};

    ghost Value = { TheFeed };

    ghost view = { λ a. record { order = a.order; versions = a.versions; state = state_of a.taken.items a.answered } };

    ghost invariant = { λ a. IsFeed a.versions a.order (state_of a.taken.items a.answered) };
}

impl HeadFeed {
    /// A feed of a header of version 5, in this byte order, that took no bytes yet.
    pub fn new(order: Order) -> HeadFeed
        ensures { result ≡ record { order = order; versions = Five; state = Reading [] } }
    {
        HeadFeed::new_as(order, Versions::Five)
    }

    /// The same of a header of one of these versions.
    pub fn new_as(order: Order, versions: Versions) -> HeadFeed
        ensures { result ≡ record { order = order; versions = versions; state = Reading [] } }
    {
        HeadFeed {
            order,
            versions,
            taken: ArrayVec::new(),
            answered: None,
        }
    }

    /// Takes bytes of the piece, and answers how many, and what they show together with those that were
    /// taken before.
    ///
    /// - `More`: the whole piece was taken, and a longer one is needed.
    /// - `Done`: the header and its unit_length, as `read_header_as` gives them. The last byte that was taken
    ///   is the header's last.
    /// - `Fault`: the header's fault, in `.debug_info`, never `Truncated`; its offset counts from the first
    ///   byte of all. The last byte that was taken shows it first. Every later call answers it again.
    /// - `Spent`, after the header was answered.
    /// - never `NoMemory`.
    pub fn feed(&mut self, piece: &[u8]) -> (usize, Progress<(Header, u64)>)
        ensures feeds { FeedsHead self.old piece.now result.0 result.1 self.new }
        ensures spelled { IfDone (λ x. HasHeaderBytes x.0 x.1) result.1 }
        ensures room { result.0 ≤ length piece.now }
    {
        match self.answered {
            None => {
                let (count, answer) = take_head(self.order, self.versions, &mut self.taken, piece);
                self.answered = ended(&answer);
                (count, answer)
            }
            Some(Answered::Fault(fault)) => (0, Progress::Fault(fault)),
            Some(Answered::Header) => (0, Progress::Spent),
        }
    }

    /// How many bytes the feed needs at the least before it can answer: with fewer, every piece is answered
    /// `More`. At first these are the four bytes of a length field, and eight more where it begins with ff ff
    /// ff ff (section 7.2.2); then the rest of the version; then those of the field that comes next in a header of
    /// version 5 (section 7.5.1), or one byte where version 4 is read too. So whoever pushes no
    /// more than these takes no byte that the header doesn't have. 0 once an answer was not `More`.
    pub fn wants(&self) -> usize
        ensures least { Wants self.now.versions self.now.order self.now.state result }
        ensures exact { WantsExactly self.now.versions self.now.state result }
        ensures most { result ≤ 8 }
    {
        match self.answered {
            None => lacking(self.versions, self.taken.as_slice()),
            Some(_) => 0,
        }
    }

    /// The end of the input: the fault of a header of which bytes are missing (`Truncated`), or the fault
    /// that was answered before. None where the header was.
    pub fn end(self) -> Option<Fault>
        ensures { Ends self.versions self.order self.state result }
    {
        match self.answered {
            None => Some(cut_off(self.order, self.versions, self.taken.as_slice())),
            Some(Answered::Fault(fault)) => Some(fault),
            Some(Answered::Header) => None,
        }
    }
}

/// How many bytes the field lacks that comes next, at the least.
fn lacking(versions: Versions, taken: &[u8]) -> usize
    ensures lacks { Lacks versions taken.now result }
    ensures exact { IsLacking versions taken.now result }
    ensures some { 0 < result }
    ensures most { result ≤ 8 }
{
    let (size, offset_size) = sizes(taken);
    if taken.len() < size {
        size - taken.len()
    } else {
        lacking_field(versions, offset_size, taken.len() - size)
    }
}

/// How many bytes a length field has that begins so, and an offset behind it (section 7.4).
fn sizes(taken: &[u8]) -> (usize, usize)
    ensures { AreSizes taken.now result.0 result.1 }
{
    if taken.len() < 4 {
        (4, 4)
    } else if is_escape(&taken[..4]) {
        (12, 8)
    } else {
        (4, 4)
    }
}

/// The same behind the length field and so many bytes of the header's other fields. Where version 4 is read
/// too, it is one behind the version.
fn lacking_field(versions: Versions, offset_size: usize, count: usize) -> usize
    requires { offset_size ≤ 8 }
    ensures lacks { FieldLacks versions offset_size count result }
    ensures exact { result ≡ to_end (field_ends versions offset_size) count }
    ensures some { 0 < result }
    ensures most { result ≤ 8 }
{
    // Where the offset of the table ends, and each of the two numbers that a kind of version 5 may add.
    let offset_end = 4 + offset_size;
    let first_end = offset_end + 8;
    let second_end = first_end + offset_size;
    match versions {
        _ if count < 2 => 2 - count,
        Versions::FourAndFive => 1,
        Versions::Five if count < 4 => 1,
        Versions::Five if count < offset_end => offset_end - count,
        Versions::Five if count < first_end => first_end - count,
        Versions::Five if count < second_end => second_end - count,
        Versions::Five => 1,
    }
}

/// Takes bytes of the piece while more are needed, and answers how many.
// The header is read once for a piece. Only where it is refused the bytes are taken one by one, which finds the first
// that shows it.
fn take_head(
    order: Order,
    versions: Versions,
    taken: &mut ArrayVec<u8, MOST>,
    piece: &[u8],
) -> (usize, Progress<(Header, u64)>)
    requires { IsCut versions order taken.old.items }
    ensures { Answers versions order (Reading taken.old.items) piece.now result.0 result.1
        (state_of taken.new.items (ended result.1)) }
{
    let before = taken.len();
    let front = &piece[..piece.len().min(MOST - before)];
    let _fits = taken.try_extend_from_slice(front);
    match read_header_as(order, versions, taken.as_slice()) {
        Ok(head) => {
            let size = head.0.size() as usize;
            taken.truncate(size);
            (size - before, Progress::Done(head))
        }
        Err(fault) => match judged(fault) {
            Progress::More => (piece.len(), Progress::More),
            _ => {
                taken.truncate(before);
                take_bytes(order, versions, taken, piece)
            }
        },
    }
}

/// The same byte by byte.
fn take_bytes(
    order: Order,
    versions: Versions,
    taken: &mut ArrayVec<u8, MOST>,
    piece: &[u8],
) -> (usize, Progress<(Header, u64)>)
    requires { IsCut versions order taken.old.items }
    ensures { Answers versions order (Reading taken.old.items) piece.now result.0 result.1
        (state_of taken.new.items (ended result.1)) }
{
    let mut left = piece;
    while let Some((byte, rest)) = left.split_first() {
        left = rest;
        match take_byte(order, versions, taken, *byte) {
            Progress::More => {}
            answer => return (piece.len() - left.len(), answer),
        }
    }
    (piece.len(), Progress::More)
}

/// Takes one byte.
fn take_byte(
    order: Order,
    versions: Versions,
    taken: &mut ArrayVec<u8, MOST>,
    byte: u8,
) -> Progress<(Header, u64)>
    requires { IsCut versions order taken.old.items }
    ensures shows { ShowsHead versions order (taken.old.items ++ byte ∷ []) result }
    ensures taken { taken.new.items ≡ taken.old.items ++ byte ∷ [] }
{
    taken.push(byte);
    match read_header_as(order, versions, taken.as_slice()) {
        Ok(head) => Progress::Done(head),
        Err(fault) => judged(fault),
    }
}

/// The fault of a header of which bytes are missing.
fn cut_off(order: Order, versions: Versions, taken: &[u8]) -> Fault
    requires { IsCut versions order taken.now }
    ensures fault { HeaderFaultUnder versions order taken.now result }
    ensures cut { result.reason ≡ Truncated }
{
    match read_header_as(order, versions, taken) {
        Ok(_) => unreachable!(),
        Err(fault) => fault,
    }
}

/// A fault, unless more bytes may mend it.
fn judged(fault: Fault) -> Progress<(Header, u64)>
    ensures { JudgedAs fault result }
{
    if fault.reason == Reason::Truncated {
        Progress::More
    } else {
        Progress::Fault(fault)
    }
}

/// What an answer leaves.
fn ended(answer: &Progress<(Header, u64)>) -> Option<Answered>
    ensures { result ≡ ended answer.now }
{
    match answer {
        Progress::More => None,
        Progress::Fault(fault) => Some(Answered::Fault(*fault)),
        _ => Some(Answered::Header),
    }
}
