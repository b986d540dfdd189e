//! Whether a rule's condition holds on a part of a request, and how a rule reaches a request: by the request
//! itself, or by a frame in which it is made.
//!
//! When a rule holds, and how it reaches, stands in `rule_spec`, `specs/Holds.antt` and `specs/Reaches.antt`. Who
//! tests many rules on one request makes a `PreparedRequest` of it first: what depends on the request alone is then
//! found once, and no test takes memory but that of a pattern.
#![tactic(auto)]

mod conditions;
mod prepared_part;
mod prepared_request;
mod refusal;
mod single;

pub use prepared_part::PreparedPart;
pub use prepared_request::PreparedRequest;
pub use refusal::MatchRefusal;
pub use rule_spec::Reach;
pub use single::{matches, plain_matches, plain_reaches, reaches};
