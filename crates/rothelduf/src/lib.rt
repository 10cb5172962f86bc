//! DWARF 5 debugging entries, and units of DWARF 4 where a caller asks for them: read, inspected, built
//! and written, by code that is proved. A user of the library needs only this crate; its items are
//! declared in the crates below.
//!
//! A whole program reads the files, and then a section over its abbreviations and texts:
//!
//! ```
//! let mut reader = Watched::new(info.as_slice());
//! let section = read_section(rt.alloc(), Order::Little, abbrev.as_slice(), &mut reader)?;
//! let strings = Strings { str: str.as_slice(), line_str: line_str.as_slice(), str_offsets: str_offsets.as_slice() };
//! for item in 0..section.items().len() {
//!     let Some(unit) = section.unit(item) else { continue };
//!     for entry in unit.entries() {
//!         let Some(name) = entry.attr(DW_AT_NAME) else { continue };
//!         let id = EntryId { item, offset: entry.offset() };
//!         match strings.text(&section, id, &name) {
//!             Ok(text) => type_text(rt.alloc(), &section, &strings, id, text, &mut declared)?,
//!             Err(fault) => println!(rt; "{:#x} {fault}", entry.offset())?,
//!         }
//!     }
//! }
//! ```
//!
//! `crates/walk` and `crates/pieces` are programs that the gate proves and runs.
//!
//! A unit is read from the bytes of `.debug_info`, over the table at its header's offset in
//! `.debug_abbrev`:
//!
//! - `Tables` holds the abbreviation section, and reads each table when it is first asked for;
//! - `read_unit` returns the unit at the front of bytes, or the first fault; `read_unit_from` does
//!   so from any reader; `read_unit_as` and `read_unit_from_as` also read units of version 4, where
//!   `Versions` says so;
//! - `HeadFeed` and `BodyFeed` take a header, and the rest of its unit, that their caller pushes in pieces of
//!   any size, and answer by `Progress` at the first byte that shows the header, the unit or its fault; `Held`
//!   counts what a `BodyFeed` holds;
//! - `Unit` hands out its entries (`EntryRef`) and their attributes (`AttrRef`), borrowed;
//! - `UnitBuilder` makes a unit entry by entry, over a table of `TableBuilder`;
//! - `read_section` returns the whole section that a reader has left, item by item, or its first fault;
//!   `read_section_as` also reads units of version 4;
//! - `Section` holds the units of a whole section: looked up by item, `EntryId` and offset; `Section::resolve` names
//!   the entry that a reference means, or says by `RefFault` why there is none; so does `Section::resolve_among`,
//!   faster for many references of one unit, with the offsets of its entries in an `EntryOffsets`;
//!   `Section::set_number` puts a number in the place of that of an attribute, or says by `SetRefusal` why it doesn't;
//! - `Strings` holds the sections of texts: `Strings::text` lends the text that an attribute names, or says by
//!   `StrFault` why there is none;
//! - `type_text` appends the type of an entry in C notation, or says by `TypeError` why it doesn't;
//! - `check` lists what is wrong in a section that was read, as `Finding`s, each with its place and its `FindingKind`;
//! - `write_unit` and `write_section` write what was read or built, each number in its own width.
//!
//! `constants` has the numbers of the standard by name; `tag_name`, `attribute_name` and `attribute_named` have the
//! names as text.
#![tactic(auto)]

pub use dw_abbrev::{Decl, FixedPrefix, Pair, Table, TableBuilder, TableRefusal, Tables};
pub use dw_check::{Finding, FindingKind, check};
pub use dw_ctype::{TypeError, type_text};
pub use dw_feed::{
    BodyFeed, HeadFeed, Held, Progress, read_unit, read_unit_as, read_unit_from, read_unit_from_as,
};
pub use dw_form::{AttrValue, Ctx, Shape, Value};
pub use dw_leb::{
    Fault, Format, Order, ReadError, Reason, SectionId, Sleb, Uleb, Watched, WriteError, constants,
};
pub use dw_section::{
    EntryId, EntryOffsets, Item, RefFault, Section, SectionRefusal, SetRefusal, read_section,
    read_section_as, write_section,
};
pub use dw_strings::{StrFault, Strings, TextPlace};
pub use dw_tool::names::{attribute_name, attribute_named, tag_name};
pub use dw_tree::EntryTree;
pub use dw_unit::{
    AttrRef, Attrs, Children, Draft, Entries, EntryRef, Header, Kind, Refusal, Unit, UnitBuilder,
    Versions, most_levels, read_header, read_header_as, write_unit,
};
