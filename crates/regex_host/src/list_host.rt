ghost use Rattle.std.specs.Prelude.{◌≡◌, [], IsErrOf};
ghost use Rattle.dnr_base.specs.Faults.{HasCauseOf};
ghost use Rattle.regex_host.specs.Answers.{IsCalm};
ghost use Rattle.regex_host.specs.ListHost.{both_counts, KeepsCall, KeepsOrNot};

use crate::{HostRefusal, RegexHost};
use dnr_base::{Plan, Span, Text};
use std::alloc::Global;
use std::marker::Model;

/// A host for tests: it hands each call to a host below it, fails at listed calls, and keeps the patterns
/// that it was asked for. Its count of faults is that of the host below and its own failed calls together.
#[derive(Drop)]
pub struct ListHost<H> {
    alloc: Global,
    below: H,
    plan: Plan,
    /// The patterns of all calls that there was memory to keep, in their order.
    pub asked: Vec<Text>,
}

impl<H> Model for ListHost<H> {
    ghost use Rattle.regex_host.specs.ListHost.{Listed};

    ghost Value = { Listed H };

    ghost view = { λ h. record { below = h.below; plan = h.plan; asked = h.asked.items } };
}

impl<H: RegexHost> ListHost<H> {
    /// A host over the one below. The calls of the numbers in `failing` fail, where those of `check` and
    /// `find` are counted together from 1.
    pub fn new(alloc: Global, below: H, failing: Vec<u64>) -> ListHost<H>
        ensures faults { ⟦<ListHost<H> as RegexHost>⟧.faults result ≡ both_counts (H.faults below) 0 }
        ensures value { result ≡ record {
          below = below;
          plan = record { failing = failing.items; calls = 0; faults = 0 };
          asked = [];
        } }
    {
        ListHost {
            alloc,
            below,
            plan: Plan::new(failing),
            asked: Vec::new(alloc),
        }
    }

    // Keeps the pattern of a call, and fails it where it is listed.
    fn ask(&mut self, pattern: &str) -> Result<(), HostRefusal>
        ensures below { self.new.below ≡ self.old.below }
        ensures kept { KeepsCall self.old pattern.now self.new result }
        ensures pattern { IsErrOf result HostRefusal.NoPattern → ⊥ }
        ensures cause { HasCauseOf HostRefusal.HostFault self.old.plan.faults self.new.plan.faults result }
        ensures calm { IsCalm self.old.plan.faults self.new.plan.faults result }
    {
        let Ok(pattern) = String::from_str(self.alloc, pattern) else {
            return Err(HostRefusal::NoMemory);
        };
        if self.asked.push(Text::build(pattern)).is_err() {
            return Err(HostRefusal::NoMemory);
        }
        if self.plan.fails() {
            return Err(HostRefusal::HostFault);
        }
        Ok(())
    }
}

impl<H: RegexHost> RegexHost for ListHost<H> {
    ghost faults = { λ host. both_counts (H.faults host.below) host.plan.faults };

    ghost asks = { KeepsOrNot H.asks };

    fn faults(&self) -> u64 {
        self.below.faults().saturating_add(self.plan.faults())
    }

    fn check(&mut self, pattern: &str, fold: bool) -> Result<u32, HostRefusal> {
        self.ask(pattern)?;
        self.below.check(pattern, fold)
    }

    fn find(
        &mut self,
        pattern: &str,
        fold: bool,
        text: &str,
        spans: &mut [Option<Span>; 10],
    ) -> Result<bool, HostRefusal> {
        self.ask(pattern)?;
        self.below.find(pattern, fold, text, spans)
    }
}
