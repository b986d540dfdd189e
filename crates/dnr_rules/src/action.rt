ghost use Rattle.std.specs.Prelude.{◌≡◌, IfOk};

use dnr_base::{Copied, Items, NoMemory, Redirect};
use header_actions::HeaderOp;
use std::alloc::Global;

/// What a rule does to the requests that it decides: Chrome's reference of declarativeNetRequest, `RuleAction`.
/// What is large stands behind a box, so that an action of another type is small.
#[derive(Debug, Drop)]
pub enum Action {
    /// Cancels the request.
    Block,
    /// Sends it to another URL.
    Redirect(Box<Redirect>),
    /// Lets it go on, whatever weaker rules say.
    Allow,
    /// Sends it to the same URL under `https`.
    UpgradeScheme,
    /// Changes headers. `Action::modify_headers` makes one.
    ModifyHeaders(Box<HeaderOps>),
    /// Lets it go on, and what is asked for in the frame that it loads.
    AllowAllRequests,
}

/// The operations of an action that changes headers.
#[derive(Debug, Drop)]
pub struct HeaderOps {
    /// Those on the headers of the request.
    pub request: Items<HeaderOp>,
    /// Those on the headers of its response.
    pub response: Items<HeaderOp>,
}

impl HeaderOps {
    // Equal operations.
    fn copy(&self, alloc: Global) -> Result<HeaderOps, NoMemory>
        ensures { IfOk result (λ copy. copy ≡ self.now) }
    {
        let request = self.request.copy(alloc)?;
        let response = self.response.copy(alloc)?;
        Ok(HeaderOps { request, response })
    }
}

impl Action {
    ghost use Rattle.rule_spec.specs.Rule.{is_unsafe, modify_headers as changed_headers};
    ghost use Rattle.dnr_rules.specs.Seen.{action_seen};

    /// The action of these operations on the headers of requests, and of responses.
    ///
    /// `NoMemory`: no memory is left for the box.
    pub fn modify_headers(
        alloc: Global,
        request: Items<HeaderOp>,
        response: Items<HeaderOp>,
    ) -> Result<Action, NoMemory>
        ensures { IfOk result (λ action. action_seen action ≡ changed_headers request response) }
    {
        let ops = HeaderOps { request, response };
        Ok(Action::ModifyHeaders(Box::new(alloc, ops)?))
    }

    /// Whether the action is none of `Block`, `Allow`, `AllowAllRequests` and `UpgradeScheme`, which Chrome's
    /// reference calls safe. It takes no memory.
    pub fn is_unsafe(&self) -> bool
        ensures { result ≡ is_unsafe (action_seen self.now) }
    {
        matches!(self, Action::Redirect(_) | Action::ModifyHeaders(_))
    }

    /// An equal action.
    ///
    /// `NoMemory`: no memory is left for its parts.
    pub fn copy(&self, alloc: Global) -> Result<Action, NoMemory>
        ensures { IfOk result (λ copy. action_seen copy ≡ action_seen self.now) }
    {
        match self {
            Action::Block => Ok(Action::Block),
            Action::Redirect(redirect) => {
                let copy = redirect.copy(alloc)?;
                Ok(Action::Redirect(Box::new(alloc, copy)?))
            }
            Action::Allow => Ok(Action::Allow),
            Action::UpgradeScheme => Ok(Action::UpgradeScheme),
            Action::ModifyHeaders(ops) => {
                let copy = ops.copy(alloc)?;
                Ok(Action::ModifyHeaders(Box::new(alloc, copy)?))
            }
            Action::AllowAllRequests => Ok(Action::AllowAllRequests),
        }
    }
}
