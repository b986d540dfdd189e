//! Compiles a filter list into rules: filters of Adblock Plus, "How to write filters", as rules of Chrome's
//! reference of declarativeNetRequest.
//!
//! Which rules a list gives, and which of its lines are reported, stands in `compile_spec`.
#![tactic(auto)]

mod alike;
mod domains;
mod effects;
mod groups;
mod initiators;
mod lines;
mod report;
mod rule;
mod work;

pub use compile_spec::Reported;
pub use dnr_base::{Items, Text};
pub use dnr_rules::Rule;
pub use lines::compile;
pub use list_spec::Reason;
pub use regex_host::RegexHost;
pub use report::{CompileRefusal, Report};
