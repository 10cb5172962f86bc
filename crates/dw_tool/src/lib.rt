//! What the program over debugging entries does: what it reads, and the texts that it writes.
//!
//! What its modules have:
//!
//! - `command`: `Command`: what a run does
//! - `names`: the names of tags and attributes that this project prints, alone and in the piece in which a text has
//!   them; the number of an attribute by its name
//! - `buffer`: `Buffer`: at most 16,384 bytes, which take in more at once than is kept of them
//! - `output`: `Output`: a watched writer behind such a buffer
//! - `text`: numbers, names, quoted bytes and blocks, appended to an output
//! - `entries`: the texts of entries and their attributes in a section, and what their values name: entries and texts
//! - `show`: the text of a section, appended to an output as it is made: the headers of units with what is below them,
//!   and other items
//! - `find`: the entries of a name in a section, a line for each
//! - `type_of`: the type of the entry at an offset, a line
//! - `findings`: what is wrong in a section, a line for each finding
//! - `set`: a number that is put in the place of another, by the offset of its entry
//! - `status`: `Status`, `Refused`, `ToolError`
//! - `failure`: `Failure`: why the program gives up, its line on standard error and its exit status; `exit_status`
//! - `run`: `Inputs`, `run`
#![tactic(auto)]

mod buffer;
pub mod command;
mod entries;
pub mod failure;
mod find;
mod findings;
pub mod names;
pub mod output;
pub mod run;
mod set;
mod show;
pub mod status;
mod text;
mod type_of;
