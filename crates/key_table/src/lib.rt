//! A table from keys to places: who has a key is found by one look-up, and no one else is touched.
//!
//! The entries stand in one vector, sorted by a hash of their key, the tag, and where tags agree by the key itself. A
//! second vector says where each bucket of tags begins, and the texts of the keys stand in a third. A look-up walks one
//! bucket and compares a key where the tag agrees. In a long bucket it searches by halves first, so a list that was
//! made to fill one bucket makes no look-up slow. A byte for each bucket marks the tags that fall into it, by their low bits:
//! most keys that are in no entry are passed over by it alone. A look-up takes no memory.
#![tactic(auto)]

mod asked;
mod bucket;
mod cuts;
mod draft;
mod entry;
mod hashes;
mod marks;
mod order;
mod places;
mod table;

pub use asked::Asked;
pub use draft::Draft;
pub use hashes::{KeyHash, bucket_of};
pub use places::Places;
pub use table::Table;
