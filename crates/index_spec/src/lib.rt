//! By what rules are found: keys that a rule has, keys that a request has, and how many they share. A rule that holds
//! on a request shares a key with it, so no other rule need be tested.
//!
//! The definitions stand in `specs/`, apart from any table, in the order in which `specs/Lib.antt` names them.
#![tactic(auto)]

mod examples;
mod key;

pub use examples::{
    addresses_have_no_rests, common_words_are_no_tokens, each_number_is_a_key,
    hosts_are_asked_by_their_rests, numbers_share_the_last_label, words_beside_stars_are_no_tokens,
};
pub use key::Key;
