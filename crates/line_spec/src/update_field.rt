ghost use Rattle.std.specs.Prelude.{◌≡◌, ◌++◌, codes};
ghost use Rattle.line_spec.specs.CommandPath.{field_name};

/// The field of an update that a fault of it names.
#[derive(Clone, Copy, Debug, PartialEq, Eq)]
pub enum UpdateField {
    /// The name of the extension.
    Extension,
    /// The ids of the rules to remove.
    RemoveRuleIds,
    /// The rules to add.
    AddRules,
    /// The ids of the rulesets to disable.
    DisableRulesetIds,
    /// The ids of the rulesets to enable.
    EnableRulesetIds,
    /// The id of the ruleset of which rules are switched.
    RulesetId,
    /// The ids of the rules to disable.
    DisableRuleIds,
    /// The ids of the rules to enable.
    EnableRuleIds,
    /// The static rulesets of an extension.
    Rulesets,
    /// What an extension may touch.
    HostPermissions,
}

impl UpdateField {
    /// The key under which the field stands in the update.
    pub fn name(self) -> &'static str
        ensures { result.now ≡ field_name self }
    {
        match self {
            UpdateField::Extension => "extension",
            UpdateField::RemoveRuleIds => "removeRuleIds",
            UpdateField::AddRules => "addRules",
            UpdateField::DisableRulesetIds => "disableRulesetIds",
            UpdateField::EnableRulesetIds => "enableRulesetIds",
            UpdateField::RulesetId => "rulesetId",
            UpdateField::DisableRuleIds => "disableRuleIds",
            UpdateField::EnableRuleIds => "enableRuleIds",
            UpdateField::Rulesets => "rulesets",
            UpdateField::HostPermissions => "hostPermissions",
        }
    }

    /// Its name in a batch, where it stands in one of the updates.
    pub fn name_in_batch(self) -> &'static str
        ensures { result.now ≡ codes "updates." ++ field_name self }
    {
        match self {
            UpdateField::Extension => "updates.extension",
            UpdateField::RemoveRuleIds => "updates.removeRuleIds",
            UpdateField::AddRules => "updates.addRules",
            UpdateField::DisableRulesetIds => "updates.disableRulesetIds",
            UpdateField::EnableRulesetIds => "updates.enableRulesetIds",
            UpdateField::RulesetId => "updates.rulesetId",
            UpdateField::DisableRuleIds => "updates.disableRuleIds",
            UpdateField::EnableRuleIds => "updates.enableRuleIds",
            UpdateField::Rulesets => "updates.rulesets",
            UpdateField::HostPermissions => "updates.hostPermissions",
        }
    }
}
