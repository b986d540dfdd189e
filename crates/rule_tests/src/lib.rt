//! Tests of the crates that read, write and match rules and lines of filter lists: each public call once, with ample
//! memory, and what no clause says. A crate with tests is proved twice, so they stand here and not beside what they
//! call.
#![tactic(auto)]

#[cfg(test)]
mod filter_lists;
#[cfg(test)]
mod lines;
#[cfg(test)]
mod matching;
#[cfg(test)]
mod objects;
#[cfg(test)]
mod reading;
#[cfg(test)]
mod rule_files;
