//! Extensions from their folders: the manifest, and the rules of the files that it names.
//!
//! What a folder holds stands in `load_spec`, `specs/Manifest.antt` and `specs/Extensions.antt`: Chrome's reference of
//! declarativeNetRequest, `declarative_net_request.rule_resources`.
#![tactic(auto)]

mod extension;
mod fault;
mod manifest;
mod path;
mod refusal;
mod resource;

pub use extension::read_extension;
pub use load_spec::ManifestPath;
pub use refusal::ManifestRefusal;
pub use ruleset_store::Extension;
