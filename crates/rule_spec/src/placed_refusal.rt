use crate::RuleRefusal;
use dnr_base::Text;

/// Why a list of rules is refused: its first rule that is.
#[derive(Debug, Drop)]
pub struct PlacedRefusal {
    /// The rule's place in the list, from 0. It stands still at 4,294,967,295.
    pub place: u32,
    /// The rule's id, where it has a valid one.
    pub id: Option<u32>,
    /// Why the rule is refused.
    pub cause: RuleRefusal,
    /// The ruleset that the list belongs to, where several are read at once.
    pub set: Option<Text>,
}
