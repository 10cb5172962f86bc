//! What is wrong in a section, though it is read without a fault: references that name no entry, texts that can't be
//! looked up, and more, each with its place.
//!
//! What its modules have:
//!
//! - `finding`: `Finding`, `FindingKind`
//! - `section`: `check`: the findings of a section, of its units, of their entries
//! - `root`: those of a unit's root as a whole
//! - `attribute`: those of an attribute: only what the form in effect says is looked up
//! - `ends`: where the texts of a section end, by which it is known whether an offset has one
//! - `repeats`: which attributes have the name of an earlier one, up to the last one that can have findings, kept by
//!   the code of their declaration
//! - `place`: a unit in its section, beside the sections of texts
//! - `laws`: the order of the findings; that they are all that there are
#![tactic(auto)]

mod attribute;
mod ends;
mod finding;
pub mod laws;
mod place;
mod repeats;
mod root;
mod section;

pub use finding::{Finding, FindingKind};
pub use section::check;
