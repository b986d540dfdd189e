//! Tests of the command that keeps rules in a file, over files in memory, and of a real file as a disk.
#![tactic(auto)]

#[cfg(test)]
mod crashes;
#[cfg(test)]
mod files;
#[cfg(test)]
mod fixtures;
#[cfg(test)]
mod real_files;
