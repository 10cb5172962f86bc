//! What becomes of one field of a unit that is pushed in pieces.
use dw_leb::{Fault, Reason};

/// What a feed makes of the field at its place.
#[derive(Clone, Copy, PartialEq, Eq)]
pub(crate) enum Step {
    /// It is whole, and so many bytes of the piece are left over.
    Found(usize),
    /// All bytes of the piece were taken, and it wants more.
    Wanting,
    /// It is refused, whatever follows, and so many bytes of the piece are left over.
    Refused(usize, Reason),
    /// A growth was refused.
    NoMemory,
}

/// What one attempt to read the field at the place gives.
#[derive(Clone, Copy, PartialEq, Eq)]
pub(crate) enum Attempt {
    /// It is at the front, with so many bytes, and was put into the draft.
    Whole(usize),
    /// It is refused. Nothing was changed.
    Broken(Reason),
    /// A growth was refused.
    NoMemory,
}

/// What a unit makes of a piece.
#[derive(Clone, Copy, PartialEq, Eq)]
pub(crate) enum Taken {
    /// All bytes of the piece were taken, and more are needed.
    More,
    /// The unit is whole, and so many bytes of the piece are left over.
    Whole(usize),
    /// A field is refused, whatever follows, and so many bytes of the piece are left over.
    Refused(usize, Fault),
    /// A growth was refused.
    NoMemory,
}
