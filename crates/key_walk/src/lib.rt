//! The places of a table that share a key with a text: a word of it, or a domain that a host lies in. No walk takes
//! memory.
#![tactic(auto)]

mod domain_walk;
mod domains;
mod listed_words;
mod tagged_walk;
mod tagged_word;
mod word_walk;
mod words;

pub use domain_walk::DomainWalk;
pub use domains::Domains;
pub use listed_words::ListedWords;
pub use tagged_walk::TaggedWalk;
pub use tagged_word::TaggedWord;
pub use word_walk::WordWalk;
pub use words::Words;
