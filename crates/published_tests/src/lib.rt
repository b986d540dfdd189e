//! Tests of `published` and of `generation` over their public calls: what passes answer as a writer swaps, on one thread
//! and on several, and what updates of many rules leave. A crate with tests is proved twice, so they stand here and not
//! beside what they call.
#![tactic(auto)]

#[cfg(test)]
mod answers;
#[cfg(test)]
mod fixtures;
#[cfg(test)]
mod generations;
#[cfg(test)]
mod histories;
#[cfg(test)]
mod passes;
#[cfg(test)]
mod rounds;
#[cfg(test)]
mod swaps;
#[cfg(test)]
mod threads;
