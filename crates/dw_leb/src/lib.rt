//! Numbers of DWARF 5 with the widths in which they are written, and readers and writers whose
//! first fault is kept. No call takes memory.
//!
//! A number keeps its width, the count of bytes in which it was written, so that it is written back
//! unchanged. Each read of a number is handed `b`, the rest of the input, and `lim`, the count of
//! bytes that are left to the end of the unit to which the number belongs. Either may be the
//! smaller: the input may be cut inside the unit, and may go on after it. Bytes after the number
//! don't matter. A read returns `Ok` exactly where the number is spelled at the front of `b` and
//! within `lim`, and otherwise the reason why not.
//!
//! The sections that comments name are those of the DWARF 5 standard.
//!
//! What its modules have:
//!
//! - `constants`: the numbers of tags, attributes and forms by the names of the standard
//! - `errors`: `Reason`, `Bad`, `SectionId`, `Fault`, `ReadError`, `WriteError`; the texts of reasons and faults
//! - `order`: `Order`, `Format` with the sizes of its lengths and offsets
//! - `unsigned`, `signed`: `Uleb`, `Sleb`: `read`, `bytes`, `least`, `with_width`
//! - `groups`: what both use: the last byte of a number, its groups as a number, the bytes of a number
//! - `fixed`: `read_fixed`, `write_fixed`, for 1 to 16 bytes
//! - `initial`: `read_length`, `write_length`
//! - `watch`: `Watched`: a reader or writer that keeps its first fault
//! - `transfer`: `write_all` over a watched writer
//! - `devices`: `Stepped`, for tests: few bytes a call, an error at a set call
//! - `laws`: one spelling, one outcome, stable outcomes, for numbers and lengths
#![tactic(auto)]

pub mod constants;
pub mod devices;
mod errors;
mod fixed;
mod groups;
mod initial;
pub mod laws;
mod order;
mod signed;
mod transfer;
mod unsigned;
mod watch;

pub use errors::{Bad, Fault, ReadError, Reason, SectionId, WriteError};
pub use fixed::{read_fixed, write_fixed};
pub use initial::{read_length, write_length};
pub use order::{Format, Order};
pub use signed::Sleb;
pub use transfer::write_all;
pub use unsigned::Uleb;
pub use watch::Watched;
