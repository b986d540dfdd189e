//! Lists of domains: read once, then asked whether they cover a host.
//!
//! Which texts are domains, and which hosts one covers, stands in `dnr_spec`, `specs/Domains.antt`.
#![tactic(auto)]

mod domain;
mod set;
mod table;

pub use dnr_spec::DomainRefusal;
pub use domain::is_domain;
pub use set::DomainSet;
