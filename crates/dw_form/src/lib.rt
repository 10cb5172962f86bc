//! Values of attributes in every form of DWARF 5 (sections 7.5.5 and 7.5.6), and in GNU's two forms
//! for supplementary files, 0x1f20 and 0x1f21.
//!
//! An attribute's form is in its declaration, in the abbreviation table, and its value in the
//! entry. The form, with the unit's address size and format, says how the value is spelled: that is
//! the form's shape. `lend_value` takes no memory: a text or block is borrowed from the input.
//! `read_value` copies it to the end of a pool, which many values share.
//!
//! Each value keeps the widths in which its LEB128 numbers were written, so that it is written back
//! byte for byte. As in `dw_leb`, a read is handed `b`, the rest of the input, and `lim`, the count
//! of bytes that are left to the end of the unit. Bytes after the value don't matter. A read
//! returns `Ok` exactly where a value is spelled at the front of `b` and within `lim`, and
//! otherwise the reason why not.
//!
//! Sections that the comments name are those of the DWARF 5 standard.
//!
//! What its modules have:
//!
//! - `shape`: `Ctx`, `Shape`, `Shape::of`: the form table
//! - `size`: `FormSize`: how many bytes the values of a form have, where the form alone tells, in any unit
//! - `value`: `Value`, `AttrValue`: borrowed values
//! - `lend`: `lend_value`: a value at the front of bytes, borrowed from them
//! - `via`, `span`: the form that an indirect value names, and a part of a pool, as a stored value holds them
//! - `stored`: `Stored`: a value over a pool of bytes, in 24 bytes; `keep`, `of_end`, `lend`
//! - `read`: `read_value`: a value at the front of bytes, stored
//! - `fit`: `fits`: whether a value has a spelling under a form
//! - `head`, `put`: the head of a value: what of its spelling is no content, and what finds the content in a pool;
//!   `lend_head`, `lend_number`, `lend_bare`, `put_head`, `put_found`, `value_front`, `front_len`, `size_by_head`
//! - `renumber`: `renumbered`: a value with another number in the place of its own, in as many bytes
//! - `write`: `write_value`, `size_of`
//! - `laws`: one spelling, one outcome, stable outcomes, for values; that a stored value stays
#![tactic(auto)]

mod fit;
mod head;
pub mod laws;
mod lend;
mod put;
mod read;
mod renumber;
mod shape;
mod size;
mod span;
mod stored;
mod value;
mod via;
mod write;

pub use fit::fits;
pub use head::{lend_bare, lend_head, lend_number, size_by_head};
pub use lend::lend_value;
pub use put::{front_len, put_found, put_head, value_front};
pub use read::{ValueError, read_value};
pub use renumber::renumbered;
pub use shape::{Ctx, Shape};
pub use size::FormSize;
pub use stored::Stored;
pub use value::{AttrValue, Value};
pub use write::{size_of, write_value};
