use dnr_base::RuleName;
use line_spec::LineFault;
use rule_spec::PlacedRefusal;
use update_spec::Refusal;

/// What a line of a script is answered that asks for no verdict, or gets none.
#[derive(Debug, Drop)]
pub enum Reply {
    /// The update is applied. The count of updates after it.
    Accepted(u32),
    /// All updates before it are applied. Their count.
    Sync(u32),
    /// The update is refused.
    Refused(Refusal),
    /// A rule of the update can't be read.
    RuleRefused(PlacedRefusal),
    /// The update at this place of the batch, from 0, is refused.
    BatchRefused(u32, Refusal),
    /// A rule of the update at this place of the batch, from 0, can't be read.
    BatchRule(u32, PlacedRefusal),
    /// The line can't be read.
    Bad(LineFault),
    /// The pattern host failed at this rule, with this count of updates.
    Fault(u32, RuleName),
}
