//! Tests of the crates of the library and of the program, beside what is data: that stands in `library_cases`, and what
//! the program writes in `cases/`. Here is what is shared, borrowed or handed back, drafts, devices that fail, memory that
//! is refused, values of gigabytes, and the laws. They are a crate of their own, since a crate with tests is proved twice,
//! and one crate, since each loads the libraries that it tests.
#![tactic(auto)]

#[cfg(test)]
mod builders;
#[cfg(test)]
mod checks;
#[cfg(test)]
mod common;
#[cfg(test)]
mod drafts;
#[cfg(test)]
mod edits;
#[cfg(test)]
mod failures;
#[cfg(test)]
mod feeds;
#[cfg(test)]
mod large;
#[cfg(test)]
mod laws;
#[cfg(test)]
mod lines;
#[cfg(test)]
mod numbers;
#[cfg(test)]
mod outputs;
#[cfg(test)]
mod readers;
#[cfg(test)]
mod references;
#[cfg(test)]
mod runs;
#[cfg(test)]
mod sections;
#[cfg(test)]
mod table_builders;
#[cfg(test)]
mod tables;
#[cfg(test)]
mod texts;
#[cfg(test)]
mod tree_drafts;
#[cfg(test)]
mod types;
#[cfg(test)]
mod units;
#[cfg(test)]
mod values;
#[cfg(test)]
mod watched;
