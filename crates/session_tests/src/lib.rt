//! Tests of the crates that read words and files and write lines, and of `run` over files in memory: each public call
//! once, with ample memory, and a fault at each place. A crate with tests is proved twice, so they stand here and not
//! beside what they call.
#![tactic(auto)]

#[cfg(test)]
mod ends;
#[cfg(test)]
mod gates;
#[cfg(test)]
mod loading;
#[cfg(test)]
mod output;
#[cfg(test)]
mod runs;
#[cfg(test)]
mod shelves;
#[cfg(test)]
mod tables;
