//! What is loaded before the first line of a script: what files hold, which rulesets a manifest names, and when an
//! extension is read from its folder.
//!
//! The definitions stand in `specs/`, one file a subject, in the order in which `specs/Lib.antt` names them.
#![tactic(auto)]

mod examples;
mod manifest_path;

pub use examples::{
    access_comes_last, fields_come_in_order, no_resources_are_none, outermost_fault_is_named,
    paths_stay_inside, resources_keep_their_order,
};
pub use manifest_path::ManifestPath;
