ghost use Rattle.std.specs.Prelude.{◌≡◌, ◌↔◌, ◌<◌, ◌≤◌, ◌+◌, ◌*◌, ◌^◌, length, true, None, Ok, IsTrue, IfOk, IfErr, OnOk};
ghost use Rattle.dnr_base.specs.Request.{max_frames};
ghost use Rattle.explain_spec.specs.Explanation.{explanation_of};
ghost use Rattle.generation.specs.First.{IsFirstRefusal};
ghost use Rattle.generation.specs.Kept.{kept_from};
ghost use Rattle.generation.specs.Plain.{is_plain};
ghost use Rattle.generation.specs.Refused.{Ends};
ghost use Rattle.generation.specs.Segments.{AreMost, added_lists};
ghost use Rattle.index_spec.specs.Pairs.{pairs_of, rules_in};
ghost use Rattle.ruleset_store.specs.Seen.{IsBatchRefusal, IsRefusalOf, update_seen, updates_seen};
ghost use Rattle.update_spec.specs.Entries as entries;
ghost use Rattle.update_spec.specs.Entries.{opening};
ghost use Rattle.update_spec.specs.Judge.{judge_update};
ghost use Rattle.rule_spec.specs.PatternRule.{NamesPattern};
ghost use Rattle.rule_spec.specs.Scan.{scan};

use crate::conclusion::conclude;
use crate::explanation::newest_first;
use crate::first::first_store;
use crate::kept::Kept;
use crate::plain::PlainScan;
use crate::plain_rules::all_are_plain;
use crate::scan::Scan;
use crate::segments::most_segments;
use crate::uncounted::{explanation_over, verdict_over};
use crate::{BatchRefusal, DecideRefusal, FirstRefusal, Refusal, Update};
use dnr_base::{Items, Request, Steps};
use dnr_verdict::{Explanation, Verdict};
use regex_host::RegexHost;
use rule_spec::Outcome;
use ruleset_store::{Extension, InstalledExtension, Store};
use std::alloc::Global;
use std::marker::{Brand, Model};
use std::sync::Arc;
use std::sync::ledger::{Blank, Ledger};
use suffix_list::SuffixList;

/// The extensions that are installed, oldest first, after a number of updates, and the suffix list by which parties
/// are told. A clause sees the suffix rules, and the state of `rule_spec`.
#[derive(Drop)]
pub struct Generation {
    list: Arc<SuffixList>,
    store: Store,
}

impl Model for Generation {
    ghost use Rattle.std.specs.Arc.{arc_value};
    ghost use Rattle.generation.specs.Basis.{Basis};

    ghost Value = { Basis };

    ghost view = { λ g. record { suffixes = arc_value g.list; state = g.store } };
}

impl Generation {
    /// The generation before any update: a suffix list, and the extensions, installed in their order.
    ///
    /// # Errors
    ///
    /// - `Refused`: the first extension that is not installed, and why. The limits are this engine's own.
    /// - `NoMemory`: memory ran out.
    pub fn first(
        alloc: Global,
        list: SuffixList,
        extensions: Vec<Extension>,
    ) -> Result<Generation, FirstRefusal>
        ensures suffixes { IfOk result (λ generation. generation.suffixes ≡ list) }
        ensures installed { IfOk result (λ generation. opening extensions.items ≡ Ok generation.state) }
        ensures refused { IfErr result (IsFirstRefusal (opening extensions.items)) }
    {
        let store = first_store(alloc, extensions)?;
        match Arc::new(alloc, list) {
            Ok(list) => Ok(Generation { list, store }),
            Err(_) => Err(FirstRefusal::NoMemory),
        }
    }

    /// The generation after an update. It shares with this one all that the update leaves, and the suffix list.
    ///
    /// # Errors
    ///
    /// The first refusal, in the order in which they stand in `Refusal`; `NoMemory`, if memory ran out. The limits are
    /// this engine's own.
    pub fn next(&self, alloc: Global, update: &Update) -> Result<Generation, Refusal>
        ensures suffixes { IfOk result (λ next. next.suffixes ≡ self.now.suffixes) }
        ensures judged { OnOk result (judge_update self.now.state (update_seen update.now) ≡ None) }
        ensures applied { IfOk result (λ next. next.state ≡ entries.after self.now.state
            (entries.one (update_seen update.now))) }
        ensures refused { IfErr result (IsRefusalOf (judge_update self.now.state (update_seen update.now))) }
    {
        let store = self.store.apply(alloc, update)?;
        match Arc::try_clone(&self.list) {
            Ok(list) => Ok(Generation { list, store }),
            Err(_) => Err(Refusal::NoMemory),
        }
    }

    /// The generation after these updates, of which there is one at least and 256 at most: they are made together, and
    /// count once.
    ///
    /// # Errors
    ///
    /// The first update that is refused on what the earlier ones leave, and why; `NoMemory`, if memory ran out.
    pub fn next_batch(&self, alloc: Global, updates: &[Update]) -> Result<Generation, BatchRefusal>
        requires some { 0 < length updates.now }
        requires few { length updates.now ≤ 256 }
        ensures suffixes { IfOk result (λ next. next.suffixes ≡ self.now.suffixes) }
        ensures judged { OnOk result (entries.judge self.now.state (entries.batch (updates_seen updates.now)) ≡ None) }
        ensures applied { IfOk result (λ next. next.state ≡ entries.after self.now.state
            (entries.batch (updates_seen updates.now))) }
        ensures refused { IfErr result (IsBatchRefusal (entries.judge self.now.state
            (entries.batch (updates_seen updates.now)))) }
    {
        let store = self.store.apply_batch(alloc, updates)?;
        match Arc::try_clone(&self.list) {
            Ok(list) => Ok(Generation { list, store }),
            Err(_) => Err(BatchRefusal {
                place: 0,
                cause: Refusal::NoMemory,
            }),
        }
    }

    /// The count of the updates that were accepted.
    pub fn number(&self) -> u32
        ensures { result ≡ self.now.state.count }
    {
        self.store.count()
    }

    /// The extensions, in the order of their installation.
    pub fn extensions(&self) -> &[InstalledExtension]
        ensures { result.now ≡ self.now.state.extensions }
    {
        self.store.extensions()
    }

    /// What becomes of a request, which has at most 64 frames: the verdict of the scan of all rules in force. Rules are
    /// found by the keys that they share with the request or, where they reach through frames, with a frame of it: at most
    /// so many tests are made as there are pairs of a rule in force and a key that is shared. Of each extension the one
    /// that decides is kept and those that change headers.
    ///
    /// Source: Chrome's reference of declarativeNetRequest, "Rule prioritization" and "Header modification".
    ///
    /// # Errors
    ///
    /// - `HostFault`: the host failed on the `regexFilter` of the rule that is named, which is in force. Its count of
    ///   faults rose in this call; without such an answer it stays.
    /// - `NoMemory`: memory ran out.
    pub fn decide<H: RegexHost, L: Ledger>(
        &self,
        alloc: Global,
        request: &Request,
        host: &mut H,
        steps: &mut Steps<L>,
    ) -> Result<Verdict, DecideRefusal>
        requires { length request.now.frames ≤ max_frames }
        ensures verdict { IfOk result (λ verdict. verdict ≡ scan self.now.suffixes self.now.state request.now) }
        ensures bound { steps.new ≤ steps.old + pairs_of self.now.state request.now }
        ensures ends { Ends (NamesPattern self.now.state) (H.faults host.old) (H.faults host.new) result }
    {
        let Ok(scan) = Scan::new(alloc, request, self.list()) else {
            return Err(DecideRefusal::NoMemory);
        };
        match scan.take_all(self.extensions(), host, steps) {
            Ok(kepts) => self.concluded(alloc, request, kepts.as_slice(), host),
            Err(refusal) => Err(refusal),
        }
    }

    /// What becomes of a request, which has at most 64 frames, and why: the verdict as `decide` gives it, and for each
    /// extension, the newest first, the rule that decides inside it.
    ///
    /// # Errors
    ///
    /// Those of `decide`.
    pub fn explain<H: RegexHost, L: Ledger>(
        &self,
        alloc: Global,
        request: &Request,
        host: &mut H,
        steps: &mut Steps<L>,
    ) -> Result<Explanation, DecideRefusal>
        requires { length request.now.frames ≤ max_frames }
        ensures explanation { IfOk result (λ explanation. explanation
            ≡ explanation_of self.now.suffixes self.now.state request.now) }
        ensures bound { steps.new ≤ steps.old + pairs_of self.now.state request.now }
        ensures ends { Ends (NamesPattern self.now.state) (H.faults host.old) (H.faults host.new) result }
    {
        let Ok(scan) = Scan::new(alloc, request, self.list()) else {
            return Err(DecideRefusal::NoMemory);
        };
        match scan.take_all(self.extensions(), host, steps) {
            Ok(kepts) => self.explained(alloc, request, kepts.as_slice(), host),
            Err(refusal) => Err(refusal),
        }
    }

    /// What becomes of a request, as `decide` says it. No steps are counted.
    ///
    /// # Errors
    ///
    /// Those of `decide`.
    pub fn decide_uncounted<H: RegexHost>(
        &self,
        alloc: Global,
        request: &Request,
        host: &mut H,
    ) -> Result<Verdict, DecideRefusal>
        requires { length request.now.frames ≤ max_frames }
        ensures verdict { IfOk result (λ verdict. verdict ≡ scan self.now.suffixes self.now.state request.now) }
        ensures ends { Ends (NamesPattern self.now.state) (H.faults host.old) (H.faults host.new) result }
    {
        verdict_over::<H, Brand>(alloc, self, request, host, Blank::new(1))
    }

    /// What becomes of a request and why, as `explain` says it. No steps are counted.
    ///
    /// # Errors
    ///
    /// Those of `decide`.
    pub fn explain_uncounted<H: RegexHost>(
        &self,
        alloc: Global,
        request: &Request,
        host: &mut H,
    ) -> Result<Explanation, DecideRefusal>
        requires { length request.now.frames ≤ max_frames }
        ensures explanation { IfOk result (λ explanation. explanation
            ≡ explanation_of self.now.suffixes self.now.state request.now) }
        ensures ends { Ends (NamesPattern self.now.state) (H.faults host.old) (H.faults host.new) result }
    {
        explanation_over::<H, Brand>(alloc, self, request, host, Blank::new(1))
    }

    /// Whether no rule in force has a `regexFilter` or is a redirect. It walks the rules that are installed, and takes no
    /// memory.
    #[tactic(auto, using(crate::proofs::PlainRules::state_told))]
    pub fn is_plain(&self) -> bool
        ensures { result ≡ is_plain self.now.state }
    {
        all_are_plain(self.extensions())
    }

    /// Whether a request, which has at most 64 frames, is blocked: whether the verdict of `decide` is a block, with the
    /// same bound on tests. It asks no host and takes no memory, so there is no refusal.
    #[tactic(auto, using(crate::proofs::PlainRules::all_in_force, crate::proofs::PlainScanned::blocked))]
    pub fn plain_block<L: Ledger>(&self, request: &Request, steps: &mut Steps<L>) -> bool
        requires frames { length request.now.frames ≤ max_frames }
        requires plain { is_plain self.now.state ≡ true }
        ensures value { IsTrue result
            ↔ ((scan self.now.suffixes self.now.state request.now).outcome ≡ Outcome.Block) }
        ensures bound { steps.new ≤ steps.old + pairs_of self.now.state request.now }
    {
        PlainScan::new(request, self.list()).some_blocks(self.extensions(), steps)
    }

    /// In how many segments rules stand that were added to an extension as dynamic or as session rules: the most of any
    /// such list. There are few for so many rules in force. It takes no memory.
    #[tactic(auto, using(crate::proofs::PlainRules::all_in_force))]
    pub fn segments(&self) -> usize
        ensures most { AreMost (added_lists self.now.state.extensions) result }
        ensures few { 2 ^ result ≤ 2 * length (rules_in self.now.state) + 1 }
    {
        most_segments(self.extensions())
    }

    fn list(&self) -> &SuffixList
        ensures { result.now ≡ self.now.suffixes }
    {
        &self.list
    }

    // What becomes of the request, by what is kept of each extension.
    fn concluded<H: RegexHost>(
        &self,
        alloc: Global,
        request: &Request,
        kepts: &[Kept<'_>],
        host: &mut H,
    ) -> Result<Verdict, DecideRefusal>
        requires { kepts.now ≡ kept_from self.now.suffixes request.now 0 self.now.state.extensions }
        ensures verdict { IfOk result (λ verdict. verdict ≡ scan self.now.suffixes self.now.state request.now) }
        ensures ends { Ends (NamesPattern self.now.state) (H.faults host.old) (H.faults host.new) result }
    {
        conclude(alloc, request, kepts, host)
    }

    // What becomes of the request and why, by what is kept of each extension.
    fn explained<H: RegexHost>(
        &self,
        alloc: Global,
        request: &Request,
        kepts: &[Kept<'_>],
        host: &mut H,
    ) -> Result<Explanation, DecideRefusal>
        requires { kepts.now ≡ kept_from self.now.suffixes request.now 0 self.now.state.extensions }
        ensures explanation { IfOk result (λ explanation. explanation
            ≡ explanation_of self.now.suffixes self.now.state request.now) }
        ensures ends { Ends (NamesPattern self.now.state) (H.faults host.old) (H.faults host.new) result }
    {
        let verdict = match self.concluded(alloc, request, kepts, host) {
            Ok(verdict) => verdict,
            Err(refusal) => return Err(refusal),
        };
        match newest_first(alloc, kepts) {
            Ok(why) => Ok(Explanation {
                verdict,
                why: Items::build(why),
            }),
            Err(_) => Err(DecideRefusal::NoMemory),
        }
    }
}
