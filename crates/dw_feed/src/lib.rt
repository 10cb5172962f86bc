//! Units of DWARF 5, and of DWARF 4 where a caller asks for them, read from bytes at hand and from any reader, in
//! whatever pieces their bytes come (section 7.5).
//!
//! `read_field`, `read_some`, `read_up_to` and `read_unit_begun` are no calls for users, and `rothelduf` doesn't name
//! them: they are the parts of which `dw_section` makes its reader of whole sections.
//!
//! What its modules have:
//!
//! - `bytes`: `read_field`, `read_some`, `read_up_to`: a length field, what one read gives, or so many bytes, taken from
//!   a reader and kept. Readers of sections call them
//! - `reader`: `read_unit_from`, `read_unit_from_as`: a unit from a reader, its bytes pushed into the feeds as they
//!   come; `read_unit_begun`: the same, where its first bytes are at hand
//! - `progress`: `Progress`: what a feed answers to a piece of bytes that are pushed
//! - `head`: `HeadFeed`: a header that is pushed in pieces
//! - `body`, `held`: `BodyFeed`: the rest of a unit that is pushed in pieces; `Held`: what such a feed holds
//! - `unit_in_parts`: a unit of which only some bytes came: its state, and the loop over its fields
//! - `code`, `value`, `content`: its codes and nulls; its values; its texts and blocks, which are kept as they come
//! - `entry`: the fields below an open entry that stand whole in a piece: a code with the first values of its entry at
//!   once, then its other values, one by one
//! - `step`: what becomes of one field, of an attempt to read one, of a piece
//! - `unit`: `read_unit`, `read_unit_as`: a unit whose bytes are at hand, by the feeds
//! - `laws`: the law of the unit's end; that the bytes that a feed took tell what it holds
#![tactic(auto)]

mod body;
mod bytes;
mod code;
mod content;
mod entry;
mod head;
mod held;
pub mod laws;
mod progress;
mod reader;
mod step;
mod unit;
mod unit_in_parts;
mod value;

pub use body::BodyFeed;
pub use bytes::{read_field, read_some, read_up_to};
pub use head::HeadFeed;
pub use held::Held;
pub use progress::Progress;
pub use reader::{read_unit_begun, read_unit_from, read_unit_from_as};
pub use unit::{read_unit, read_unit_as};
