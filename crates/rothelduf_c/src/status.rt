//! What calls answer: the enum `rothelduf_status` of `rothelduf.h`.

/// All is well.
pub const OK: u32 = 0;
/// The bytes are refused: the fault says why.
pub const FAULT: u32 = 1;
/// Memory was refused.
pub const NO_MEMORY: u32 = 2;
/// There is no open section.
pub const CLOSED: u32 = 3;
/// There is no such item, entry or attribute.
pub const NOTHING: u32 = 4;
/// The request is refused: `why` says for which reason.
pub const REFUSED: u32 = 5;
/// The room for the answer is too small.
pub const SHORT: u32 = 6;
/// Of a feed: more bytes are needed.
pub const MORE: u32 = 7;
/// Of a feed: a header came.
pub const HEADER: u32 = 8;
/// Of a feed: a unit came.
pub const UNIT: u32 = 9;
/// Of a feed: there is no more, since memory was refused before.
pub const SPENT: u32 = 10;
