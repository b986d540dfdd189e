use dnr_base::{Items, Request};
use ruleset_store::Update;

/// What a line of a script asks for.
#[derive(Debug, Drop)]
pub enum Command {
    /// Nothing: the line is blank.
    Blank,
    /// To wait for the updates before it.
    Sync,
    /// What becomes of this request.
    Request(Request),
    /// What becomes of this request, and why.
    Explain(Request),
    /// This update.
    Update(Update),
    /// These updates, which are applied together.
    Batch(Items<Update>),
}
