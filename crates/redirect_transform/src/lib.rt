//! Where a redirect or an upgrade leads a request.
//!
//! What a redirect means stands in `dnr_spec`, `specs/Target.antt` and `specs/Transform.antt`, in the terms
//! of Chrome's reference of declarativeNetRequest and of the URL Standard.
#![tactic(auto)]

mod counter;
mod counts;
mod kept;
mod pairs;
mod parts;
mod piece;
mod query;
mod targets;

pub use dnr_base::{
    NoMemory, QueryPair, QueryTransform, Redirect, Scheme, Span, Text, Transform, View,
};
pub use targets::{MAX_TARGET, target, upgraded};
