//! Units of DWARF 5 and of DWARF 4, built and written, and their definitions (section 7.5).
//!
//! What its modules have:
//!
//! - `body`: what follows a header: the tree and the padding
//! - `unit`: `Unit`: its header, size, padding, root, entries
//! - `put`: `Unit::put_number`: another number in the place of that of an attribute
//! - `draft`: `most_levels`; `Draft`: a unit under construction, step by step; `begin`, `begin_with`, `next_pairs`,
//!   `value`, in pieces `start`, `bytes`, `end_value`; `close`, `pad`, `undo`, `finish`
//! - `builder`, `given`: `UnitBuilder`, over a draft: `new`, `open`, `close`, `pad`, `finish`; the values that `open`
//!   is given: judged, measured, and put into the draft
//! - `refusal`: `Refusal`: why a call of the builder is refused
//! - `writer`: `write_unit`
//! - `laws`: one spelling, one outcome, stable outcomes, other versions, tables in sections, the round trip, the bytes
//!   of each entry
#![tactic(auto)]

mod body;
mod builder;
mod draft;
mod given;
pub mod laws;
mod put;
mod refusal;
mod unit;
mod writer;

pub use builder::UnitBuilder;
pub use draft::{Draft, most_levels};
pub use dw_header::{Header, Kind, Versions, read_header, read_header_as};
pub use dw_tree::{AttrRef, Attrs, Children, Entries, EntryRef, NumberRef};
pub use refusal::Refusal;
pub use unit::Unit;
pub use writer::write_unit;
