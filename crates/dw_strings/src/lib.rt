//! The texts that attributes name: in the unit, in `.debug_str` and `.debug_line_str`, and by an index into
//! `.debug_str_offsets` (sections 7.5.5 and 7.26).
//!
//! What its modules have:
//!
//! - `strings`: `Strings`: the sections of texts; `text`: the text that an attribute names; `place`: where it begins;
//!   `text_at`: the text there; `has_text`: whether a given text is
//! - `place`: `TextPlace`: where a text begins
//! - `fault`: `StrFault`: why it names none
//! - `form`: where the texts of a form are
//! - `lookup`: texts at their offsets, and the entries of `.debug_str_offsets`
#![tactic(auto)]

mod fault;
mod form;
mod lookup;
mod place;
mod strings;

pub use fault::StrFault;
pub use place::TextPlace;
pub use strings::Strings;
