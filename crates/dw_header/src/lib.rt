//! Unit headers of DWARF 5, and of DWARF 4 where a caller asks for them, with their initial lengths:
//! read, made and written (sections 7.2.2, 7.4 and 7.5.1). No call takes memory.
//!
//! What its modules have:
//!
//! - `kind`, `header`: `Kind`, `Header`: `new`, what a header holds, its size
//! - `versions`: `Versions`: which versions a reader accepts
//! - `fields`: the fields after the length, each step judged
//! - `head`: `read_header`, `read_header_as`
//! - `writer`: `write_header`
//! - `laws`: one spelling, one outcome, stable outcomes, of headers with their initial lengths
#![tactic(auto)]

mod fields;
mod head;
mod header;
mod kind;
pub mod laws;
mod versions;
mod writer;

pub use head::{read_header, read_header_as};
pub use header::Header;
pub use kind::Kind;
pub use versions::Versions;
pub use writer::write_header;
