//! What the engine's parts promise, in the terms of the public standards: URLs and their views, patterns,
//! domains, lines.
//!
//! The definitions stand in `specs/`, one file a subject. They speak of plain data and never of the
//! program. The enumerations here are the words in which both speak.
#![tactic(auto)]

mod domain_refusal;
mod examples;
mod header_refusal;
mod host;
mod pattern_refusal;
mod piece;
mod status;
mod substitution_refusal;
mod suffix_refusal;
mod value_refusal;
mod view_refusal;

pub use dnr_base::{Kind, NoMemory, Scheme, Span};
pub use domain_refusal::DomainRefusal;
pub use examples::{
    anchors_alone, domain_anchor_stays_in_the_host, each_refusal_of_a_url, host_is_in_ascii,
    host_stands_in_the_authority, path_is_no_host, separator_fits_the_end,
};
pub use header_refusal::HeaderRefusal;
pub use host::{is_ip_host, split_first_label, split_last_label};
pub use pattern_refusal::PatternRefusal;
pub use piece::Piece;
pub use status::Status;
pub use substitution_refusal::SubstitutionRefusal;
pub use suffix_refusal::SuffixRefusal;
pub use value_refusal::ValueRefusal;
pub use view_refusal::ViewRefusal;
