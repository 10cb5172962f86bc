//! Types in C notation: this project's own profile of how a declaration would be written in C.
//!
//! What its modules have:
//!
//! - `kind`: how entries are written, by their tags, and the words for it
//! - `typed`: the type and the name of an entry; what is behind qualifiers
//! - `parts`: `TypeCache`: what a text needs of entries with many children and, in a text of many visits, of all: their
//!   own types and the children that they show
//! - `visits`: the visits that a type's text needs, counted up to a bound; what is kept, is kept on the way
//! - `left`, `right`: what the text of a type has before its declarator, and behind it; the whole text (`say`)
//! - `chain`: the texts of chains, marks and qualifiers one behind the other and then a word: each entry is looked up
//!   once (a pointer behind a qualifier twice), and nothing is kept or counted
//! - `dimension`, `append`: the dimensions of arrays; texts that are appended to a vector
//! - `trimmed`: sections of texts up to their last zero bytes, in which names are looked up
//! - `text`: `type_text`
//! - `fault`: `TypeError`: why no text is given
#![tactic(auto)]

mod append;
mod chain;
mod dimension;
mod fault;
mod kind;
mod left;
mod parts;
mod right;
mod text;
mod trimmed;
mod typed;
mod visits;

pub use fault::TypeError;
pub use text::type_text;
