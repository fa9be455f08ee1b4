//! Reading texts of rules, and the lines that refuse them.
ghost use Rattle.std.specs.Prelude.{◌≡◌, ◌++◌, Some, OnOk, IfOk, MatchResult, string_bytes};
ghost use Rattle.std.specs.Str.{chars};
ghost use Rattle.virtiofs_map.specs.RuleText.{SaysRules};
ghost use Rattle.virtiofs_map.specs.RulesFault.{RuleFault, rule_fault_of, RulesFault, NoRules, InRule, rules_fault_of};
ghost use Rattle.virtiofs_mapcheck.specs.RulesAnswer.{pattern_word, rule_fault_text, rules_fault_text, RefusesRules};
ghost use Rattle.virtiofs_mapcheck.specs.Outcome.{refusal};

use std::alloc::{AllocError, Allocator};
use virtiofs_map::xattrmap::{Error, ErrorKind, PatternField, XattrMap};
use virtiofs_output::written::push_quoted;

/// The word for a pattern of a rule.
fn pattern_name(pattern: PatternField) -> &'static str
    ensures { result.now ≡ pattern_word pattern }
{
    match pattern {
        PatternField::Key => "key",
        PatternField::Prepend => "prepend",
    }
}

/// Writes what is wrong with a rule at the end of a text. The reader of rules answers only faults
/// and out of memory, so each cause that is no fault of a rule is answered as out of memory.
fn push_fault<A: Allocator>(text: &mut String<A>, cause: &ErrorKind<A>) -> Result<(), AllocError>
    ensures { OnOk result ((fault : RuleFault)
        × (rule_fault_of cause.now ≡ Some fault)
        × (string_bytes text.new ≡ string_bytes text.old ++ rule_fault_text fault)) }
{
    match cause {
        ErrorKind::InvalidScope { got, .. } => {
            text.push_str("InvalidScope ")?;
            push_quoted(text, got.as_bytes())
        }
        ErrorKind::InvalidType { got, .. } => {
            text.push_str("InvalidType ")?;
            push_quoted(text, got.as_bytes())
        }
        ErrorKind::IncompleteRule => text.push_str("IncompleteRule"),
        ErrorKind::MapRuleViolation => text.push_str("MapRuleViolation"),
        ErrorKind::NulInPattern { pattern } => {
            text.push_str("NulInPattern ")?;
            text.push_str(pattern_name(*pattern))
        }
        ErrorKind::InvalidDelimiter
        | ErrorKind::NoRulesProvided
        | ErrorKind::UnterminatedMapping
        | ErrorKind::OutOfMemory => Err(AllocError),
    }
}

/// The line for a text whose rule of that number is at fault.
fn rule_refusal<A: Allocator>(
    alloc: A,
    which: &str,
    number: usize,
    cause: &ErrorKind<A>,
) -> Result<String<A>, AllocError>
    ensures { IfOk result (λ text. (fault : RuleFault)
        × (rule_fault_of cause.now ≡ Some fault)
        × (string_bytes text ≡ refusal (which.now ++ rules_fault_text (InRule number fault)))) }
{
    let mut text = format!(in alloc; "refused: {which}rule {number}: ")?;
    push_fault(&mut text, cause)?;
    text.push('\n')?;
    Ok(text)
}

/// The line for a text that has no rules at all.
fn no_rules_line<A: Allocator>(alloc: A, which: &str) -> Result<String<A>, AllocError>
    ensures { IfOk result (λ text.
        string_bytes text ≡ refusal (which.now ++ rules_fault_text NoRules)) }
{
    let mut text = format!(in alloc; "refused: {which}")?;
    text.push_str("NoRulesProvided")?;
    text.push('\n')?;
    Ok(text)
}

/// The line for a text that is no text of rules.
fn rules_refusal<A: Allocator>(
    alloc: A,
    which: &str,
    error: &Error<A>,
) -> Result<String<A>, AllocError>
    ensures { IfOk result (λ text. (fault : RulesFault)
        × (rules_fault_of error.now ≡ Some fault)
        × (string_bytes text ≡ refusal (which.now ++ rules_fault_text fault))) }
{
    if let Some(number) = error.rule {
        return rule_refusal(alloc, which, number, &error.cause);
    }
    match error.cause {
        ErrorKind::NoRulesProvided => no_rules_line(alloc, which),
        _ => Err(AllocError),
    }
}

/// Reads the map that a text of rules says, or makes the line that refuses the text. Where there is
/// more than one text, `which` tells which one is meant; it stands before the fault.
pub(crate) fn read_rules<A: Allocator + Copy>(
    alloc: A,
    which: &str,
    rules: &str,
) -> Result<Result<XattrMap<A>, String<A>>, AllocError>
    ensures { IfOk result (λ read. MatchResult read
        (SaysRules (chars rules.now))
        (λ text. RefusesRules which.now rules.now (string_bytes text))) }
{
    match XattrMap::try_from(alloc, rules) {
        Ok(map) => Ok(Ok(map)),
        Err(error) => Ok(Err(rules_refusal(alloc, which, &error)?)),
    }
}
