//! Abbreviation tables of DWARF 5 (section 7.5.3), with every width in which they are written.
//!
//! What its modules have:
//!
//! - `fields`: one field of a table, read at its offset; written
//! - `pair`, `decl`: `Pair`, `Decl`: attribute specifications, declarations; `Decl::new`, `Decl::pair`, `Decl::prefix`
//! - `prefix`: `FixedPrefix`: the values at the front of an entry whose sizes their forms tell, counted with their
//!   bytes
//! - `parts`: what a value adds to the size of its entry, by its form: bytes, an address or an offset
//! - `decls`: `Decls`: declarations in their order, found by their codes: by the code itself as long as they are
//!   numbered 1, 2 and so on, else by a map
//! - `table`: `Table`: `read`, `get`, `write`; that no declaration has more than 1,024 pairs
//! - `builder`, `refusal`: `TableBuilder`: a table declaration by declaration; `TableRefusal`
//! - `tables`: `Tables`: the tables of a section, each read when it is first asked for, kept and shared
//! - `known`: `KnownOffsets`: where declarations begin that were read, a bit for each offset
//! - `run`: `Run`, `JoinedRun`: declarations that are read up to a table that is kept, with what that one shares
//! - `shared`: `SharedRun`: the declarations of a run from one on; looked up, shared once more and written, run by run
//! - `laws`: one spelling, one outcome, one answer at a place, for tables; that a table is where it is written
#![tactic(auto)]

mod builder;
mod decl;
mod decls;
mod fields;
mod known;
pub mod laws;
mod pair;
mod parts;
mod prefix;
mod refusal;
mod run;
mod shared;
mod table;
mod tables;

pub use builder::TableBuilder;
pub use decl::Decl;
pub use pair::Pair;
pub use prefix::FixedPrefix;
pub use refusal::TableRefusal;
pub use table::Table;
pub use tables::Tables;
