//! Tests of how many places of rules an index finds for a request: they are counted beside what a plain program counts
//! over all live rules and all keys. A crate with tests is proved twice, so they stand here and not beside what they
//! call.
#![tactic(auto)]

#[cfg(test)]
mod counts;
#[cfg(test)]
mod draws;
#[cfg(test)]
mod indexes;
#[cfg(test)]
mod plain;
#[cfg(test)]
mod stores;
#[cfg(test)]
mod tables;
#[cfg(test)]
mod walks;
