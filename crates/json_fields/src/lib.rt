//! The fields of a JSON object (RFC 8259) without its tree.
//!
//! A text is read by its tokens. The value at a key that is asked for is kept, and any other value is passed over
//! without memory; so an object of many members costs no more than the fields that are read in it. What is read is
//! exactly what `serde_json` reads in the whole text: where it gives no tree, as for a number out of range behind the
//! last field, nothing is read here either, and of a repeated key the last value counts.
#![tactic(auto)]

mod field;
mod fields;
mod held;
mod last;
mod list;
mod number;
mod object;
mod passed;
mod shape;
mod tree;

pub use field::Field;
pub use fields::{Form, read_fields, text_fields};
pub use held::Held;
pub use last::{count_members, pass_others, seek_last};
pub use list::open_list;
pub use number::read_number;
pub use object::open_object;
pub use passed::{pass_items, pass_value};
pub use shape::{Shape, Wanted, next_shaped};
pub use tree::{Fault, next_value};
