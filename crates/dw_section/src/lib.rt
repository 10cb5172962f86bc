//! Whole sections `.debug_info` (section 7.5), and references between entries (sections 2.2 and 7.5.5).
//!
//! What its modules have:
//!
//! - `id`: `EntryId`; `RefFault`: why a reference names no entry
//! - `item`: `Item`: a unit, or the bytes of one that isn't read
//! - `kind`: of which kind an item is, by the bytes behind its length
//! - `section`: `Section`: `new`, `new_as`, `push`, `order`, `versions`, `items`, `size`, `unit`, `start`,
//!   `str_offsets_base`, `entry`
//! - `base`: where the entries of a unit's strings begin, looked up when the unit is added
//! - `refusal`: `SectionRefusal`: why a unit isn't added
//! - `lists`: room for one more item in the lists of a section, and what is added in that room
//! - `set`, `set_refusal`: `Section::set_number`: one number becomes another; `SetRefusal`: why it doesn't
//! - `sibling`: `is_right_sibling`: the one right value of a DW_AT_sibling
//! - `find`: `find`: the entry that begins at an offset of the section
//! - `resolve`: `resolve`: the entry that a reference names; `resolve_among`: the same, where entries of the unit are
//!   known
//! - `entry_offsets`: `EntryOffsets`: offsets of a unit at which entries begin, a bit for each, for many references in
//!   one unit
//! - `reader`: `read_section`, `read_section_as`; the next item of a reader, of a known kind by the feeds, or as its
//!   bytes
//! - `writer`: `write_section`
//! - `laws`: one outcome, stable outcomes, that no version and no unit type is refused, the round trip, what references
//!   name
#![tactic(auto)]

mod base;
mod entry_offsets;
mod find;
mod id;
mod item;
mod kind;
pub mod laws;
mod lists;
mod reader;
mod refusal;
mod resolve;
mod section;
mod set;
mod set_refusal;
mod sibling;
mod writer;

pub use entry_offsets::EntryOffsets;
pub use id::{EntryId, RefFault};
pub use item::Item;
pub use reader::{read_section, read_section_as};
pub use refusal::SectionRefusal;
pub use section::Section;
pub use set_refusal::SetRefusal;
pub use sibling::is_right_sibling;
pub use writer::write_section;
