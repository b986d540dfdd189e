use dnr_base::{NoMemory, RuleName};

/// Why a request is not followed to its end.
#[derive(Debug, Drop)]
pub enum FollowRefusal {
    /// At this hop, counted from 0, the host of patterns failed on the `regexFilter` of this rule, and its count of
    /// faults rose.
    HostFault(u32, RuleName),
    /// Memory ran out.
    NoMemory,
}

impl From<NoMemory> for FollowRefusal {
    ghost use Rattle.std.specs.Prelude.{◌≡◌};
    ghost use Rattle.follow_chain.specs.declared.refusal.FollowRefusal.TheVariants.{NoMemory};

    ghost from_gives = { λ _ r. r ≡ NoMemory };

    fn from(_: NoMemory) -> FollowRefusal {
        FollowRefusal::NoMemory
    }
}
