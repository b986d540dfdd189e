//! The lines that a session prints: verdicts and explanations, replies to updates, lines that can't be read, files and
//! installations that are refused, and reports of what was read. A line is appended whole or not at all.
//!
//! What each is, byte for byte, stands in `session_spec`: `specs/Output.antt` for the answers to a script,
//! `specs/Refusals.antt` for the others. Texts are written as JSON by `serde_json`.
#![tactic(auto)]

mod bad;
mod explanation;
mod files;
mod names;
mod reply;
mod report;
mod rules;
mod summary;
mod text;
mod tools;
mod trace;
mod updates;
mod verdict;
mod written;

pub use bad::write_bad;
pub use dnr_verdict::{Explanation, NamedOp, Verdict, Why, WhyRule};
pub use explanation::write_explain;
pub use files::{
    write_bad_json, write_bad_manifest, write_list_fault, write_refused_rule, write_suffix_refusal,
    write_too_many_rules,
};
pub use reply::write_reply;
pub use report::{write_count, write_unsupported};
pub use session_spec::{Reply, Tally};
pub use summary::write_summary;
pub use text::quoted_text;
pub use tools::{write_removed, write_selectors, write_unhidden};
pub use trace::{write_hop_fault, write_trace};
pub use updates::write_install_refusal;
pub use verdict::{write_fault, write_verdict};
