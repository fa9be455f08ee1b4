//! What holds of every text of rules.
//!
//! These functions do nothing when they run. In a proof, a call of one makes its contract available
//! to the caller.

ghost use Rattle.std.specs.Prelude.{◌≡◌, ℕ, List};
ghost use Rattle.virtiofs_map.specs.Rule.{MappingRule};
ghost use Rattle.virtiofs_map.specs.RuleText.{RuleAsWritten, RuleText, SaysRules};
ghost use Rattle.virtiofs_map.specs.RulesFault.{RulesFault, HasRulesFault};

/// A text can be parsed into at most one list of rules as written (before a `map` rule is
/// expanded).
pub fn one_reading()
    ensures { (text : List ℕ) (written other : List RuleAsWritten)
        → RuleText text written → RuleText text other → written ≡ other }
{}

/// A text means at most one list of rules.
pub fn one_value()
    ensures { (text : List ℕ) (rules other : List MappingRule)
        → SaysRules text rules → SaysRules text other → rules ≡ other }
{}

/// A text that means a list of rules has no fault.
pub fn no_fault()
    ensures { (text : List ℕ) (rules : List MappingRule) (fault : RulesFault)
        → SaysRules text rules → ¬ HasRulesFault text fault }
{}

/// A text has at most one fault.
#[tactic(auto, using(crate::proofs::RuleTextLemmas::one_fault))]
pub fn one_fault()
    ensures { (text : List ℕ) (fault other : RulesFault)
        → HasRulesFault text fault → HasRulesFault text other → fault ≡ other }
{}
