ghost use Rattle.std.specs.Prelude.{◌≡◌};
ghost use Rattle.line_spec.specs.CommandName as spec;

/// Which of the updates is asked for.
#[derive(Clone, Copy, Debug, PartialEq, Eq)]
pub enum UpdateName {
    /// Dynamic rules are removed and added.
    Dynamic,
    /// Session rules are removed and added.
    Session,
    /// Static rulesets are disabled and enabled.
    Rulesets,
    /// Rules of a static ruleset are disabled and enabled.
    Static,
    /// An extension is installed.
    Install,
    /// An extension is uninstalled.
    Uninstall,
}

/// What a line of a script asks for.
#[derive(Clone, Copy, Debug, PartialEq, Eq)]
pub enum CommandName {
    /// What becomes of a request.
    Request,
    /// What becomes of a request, and why.
    Explain,
    /// To wait for the updates before it.
    Sync,
    /// An update.
    Update(UpdateName),
    /// Several updates, which are applied together.
    Batch,
}

impl UpdateName {
    /// The update of this name. `None`: no update has it.
    pub fn named(name: &str) -> Option<UpdateName>
        ensures { result ≡ spec.update_named name.now }
    {
        match name {
            "dynamic" => Some(UpdateName::Dynamic),
            "session" => Some(UpdateName::Session),
            "rulesets" => Some(UpdateName::Rulesets),
            "static" => Some(UpdateName::Static),
            "install" => Some(UpdateName::Install),
            "uninstall" => Some(UpdateName::Uninstall),
            _ => None,
        }
    }
}

impl CommandName {
    /// The command of this name. `None`: no command has it.
    pub fn named(name: &str) -> Option<CommandName>
        ensures { result ≡ spec.command_named name.now }
    {
        match name {
            "request" => Some(CommandName::Request),
            "explain" => Some(CommandName::Explain),
            "sync" => Some(CommandName::Sync),
            "batch" => Some(CommandName::Batch),
            _ => match UpdateName::named(name) {
                Some(update) => Some(CommandName::Update(update)),
                None => None,
            },
        }
    }
}
