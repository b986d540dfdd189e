//! The rules that updates leave, one update after another, found by their ids alone. So many updates are made without an
//! index for each, where only the rules that the last leaves are to be found by keys.
#![tactic(auto)]

mod laws;
mod live;
mod slot;

pub use dnr_base::NoMemory;
pub use laws::made_updates_are_accepted;
pub use live::LiveRules;
