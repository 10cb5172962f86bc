//! What a feed answers.
use dw_leb::Fault;

/// What a feed answers to a piece of the bytes that are pushed to it. All bytes that it took of all pieces
/// are called the stream.
#[derive(Clone, Copy, Debug, PartialEq, Eq)]
pub enum Progress<T> {
    /// More bytes are needed: the stream is a front of others that don't break there. The whole piece was
    /// taken.
    More,
    /// What the stream is. Its last byte was in this piece, and no later byte was taken.
    Done(T),
    /// The stream's first fault, which no more bytes would mend. The last byte that was taken shows it first.
    /// The same fault is answered again, however often the feed is called.
    Fault(Fault),
    /// A growth was refused.
    NoMemory,
    /// There is no more: the last answer was `Done` or `NoMemory`, or `Spent`.
    Spent,
}
