// Laws of an extension that is installed alone. Each is stated in `specs/Laws.antt`; the function does nothing.
ghost use Rattle.live_rules.specs.Laws.{MadeUpdatesAreAccepted, UpdatesReplaceRules};

/// An update that was made is accepted, and leaves the rules that it was made to.
#[tactic(auto, using(crate::proofs::Accepted::made_updates_are_accepted, crate::proofs::Accepted::updates_replace_rules))]
pub fn made_updates_are_accepted()
    ensures accepted { MadeUpdatesAreAccepted }
    ensures left { UpdatesReplaceRules }
{}
