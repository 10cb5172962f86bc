//! Debugging information entries (sections 2.3 and 7.5.2): their trees, kept flat.
//!
//! What its modules have:
//!
//! - `row`: the rows of a tree, the unfinished entry, and a partial value: a text or block of which some bytes are
//!   there
//! - `draft`: `TreeDraft`: a tree under construction, its values kept by their heads; `begin`, `begin_with`,
//!   `next_pair`, `next_pairs`, `value`, in pieces `start`, `bytes`, `end_value`; `undo`, `close`, `finish`; `counts`
//! - `tree`: `EntryTree`: a whole tree; `table`, `row_count`, `heads`, `content`
//! - `entry`: `EntryRef`: an entry borrowed from a tree
//! - `attrs`: `Attrs`, `AttrRef`: the attributes of an entry; `NumberRef`: one whose value is a number, as
//!   `Attrs::next_number` gives it; `Attrs::next_bare`: one whose value has no bytes
//! - `children`, `preorder`: `Children`, `Entries`: the iterators over a chain and over all entries
//! - `find`: `EntryTree::entry_at`: the entry that begins at an offset
//! - `put`: `EntryTree::put_number`: another number in the place of that of an attribute
//! - `gather`: the bytes of rows, gathered to be written together: of most at once, of those with texts and blocks one
//!   value after the other
//! - `write`: `EntryTree::write`, values in runs; `write_null`
//! - `laws`: one spelling, one outcome, stable outcomes, entries by their paths, distinct offsets, for trees
#![tactic(auto)]

mod attrs;
mod children;
mod draft;
mod entry;
mod find;
mod gather;
pub mod laws;
mod preorder;
mod put;
mod row;
mod tree;
mod write;

pub use attrs::{AttrRef, Attrs, NumberRef};
pub use children::Children;
pub use draft::TreeDraft;
pub use entry::EntryRef;
pub use preorder::Entries;
pub use tree::EntryTree;
pub use write::write_null;
