//! The command line of the program over debugging entries.
//!
//! What its modules have:
//!
//! - `outcome`: `Line`, `LineError`; `Line::whole_files`, the files that are read whole, in their order;
//!   `LineError::ended`, how the program ends with words that aren't taken
//! - `line`: `line`, which reads a command line; `unreadable`, the error of words that aren't UTF-8
//! - `run`: `run_line`, which runs what a line says over the bytes of its files
//! - `word`: `offset_of`, `value_of`, `attribute_of`: the numbers and attributes that words spell and name; `BadWord`,
//!   a word that is none of them
#![tactic(auto)]

pub mod line;
pub mod outcome;
pub mod run;
pub mod word;
