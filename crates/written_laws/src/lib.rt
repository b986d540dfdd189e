//! What the text of rules reads as: laws over the definitions of `json_spec`.
//!
//! The text of rules stands in `json_spec`, `specs/Written.antt`, and how it is read in `specs/RulesFile.antt`. What
//! a rule's normal form is stands in `specs/Normal.antt`.
#![tactic(auto)]

ghost use Rattle.written_laws.specs.Alike.{NormalRulesAreRules, NormalRulesAreWrittenAlike};
ghost use Rattle.written_laws.specs.Alike.{NormalRulesHoldAlike, NormalRulesStay};
ghost use Rattle.written_laws.specs.Alike.{NormalStatesDecideAlike};
ghost use Rattle.written_laws.specs.Read.{TablessRulesAreRead, TextsTellRulesApart};
ghost use Rattle.written_laws.specs.Read.{WrittenRulesAreRead, WrittenTextsAreTrees};
ghost use Rattle.written_laws.specs.Read.{WrittenTextsAreUtf8, WrittenTreesAreRead};

use header_actions::changes_read_again;
use rule_laws::rules_keep_their_form;

/// Rules that are written as JSON text and read again as session rules are the same rules, with what they list as
/// sets in one order; where no rule names tabs, they are so as rules of any kind. The text is UTF-8 where the texts
/// of the rules are, and rules of one text are the same rules.
pub fn written_rules_are_read()
    ensures text { WrittenTextsAreTrees }
    ensures tree { WrittenTreesAreRead }
    ensures session { WrittenRulesAreRead }
    ensures any_kind { TablessRulesAreRead }
    ensures utf8 { WrittenTextsAreUtf8 }
    ensures apart { TextsTellRulesApart }
{
    changes_read_again();
}

/// A rule whose sets stand in one order is a rule that holds on the same parts, has the same text, and stays as it
/// is when it is put in order again. With all its rules in order a state gives each request the same verdict.
pub fn normal_rules_are_the_same()
    ensures holds { NormalRulesHoldAlike }
    ensures rules { NormalRulesAreRules }
    ensures text { NormalRulesAreWrittenAlike }
    ensures stays { NormalRulesStay }
    ensures decides { NormalStatesDecideAlike }
{
    changes_read_again();
    rules_keep_their_form();
}
