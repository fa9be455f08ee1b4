//! Reads rules from text.

ghost use Rattle.std.specs.Prelude.{◌≡◌, ◌≢◌, ◌∷◌, [], ◌++◌, IfSome, IfNone, IfOk, IfErr, IsSomeAnd};
ghost use Rattle.std.specs.Str.{chars, IsUtf8};
ghost use Rattle.virtiofs_map.specs.Refusal.{OutOfMemoryOr};
ghost use Rattle.virtiofs_map.specs.Rule.{RuleType};
ghost use Rattle.virtiofs_map.specs.RuleParts.{type_of, scope_of, head_of, as_written, rules_for, IsOpened, BeginsWithFault};
ghost use Rattle.virtiofs_map.specs.RuleParts.{HasPatternFault, TellsFault};
ghost use Rattle.virtiofs_map.specs.RuleText.{ScopeName, type_word, scope_word, head_fields, rule_fields, Fields};
ghost use Rattle.virtiofs_map.specs.RuleText.{HasNoNul, RuleThen, SaysRules, CountsRules};
ghost use Rattle.virtiofs_map.specs.RulesFault.{HasRuleFault, HasRulesFault, rule_fault_of, rules_fault_of};
ghost use Rattle.virtiofs_map.specs.Separator.{Lacks};

use crate::text::cut_at;
use crate::xattrmap::errors::{Error, ErrorKind, PatternField};
use crate::xattrmap::rules::{RuleKind, Rules};
use crate::xattrmap::scopes::{Scope, ScopeWord};
use std::alloc::{AllocError, Allocator};

/// What comes before the key of a rule: its type and scope, or the word `map`.
#[derive(Clone, Copy, PartialEq, Eq)]
pub(crate) enum Head {
    Typed(RuleKind, ScopeWord),
    Map,
}

/// A rule as it is written.
#[derive(Clone, Copy)]
pub(crate) struct WrittenRule<'a> {
    head: Head,
    key: &'a str,
    prepend: &'a str,
}

/// The type that a word names.
fn kind_of(word: &str) -> Option<RuleKind>
    ensures found { IfSome result (λ kind. chars word.now ≡ type_word (type_of kind)) }
    ensures none { IfNone result ((kind : RuleType) → chars word.now ≢ type_word kind) }
{
    match word {
        "prefix" => Some(RuleKind::Prefix),
        "ok" => Some(RuleKind::Okay),
        "bad" => Some(RuleKind::Bad),
        "unsupported" => Some(RuleKind::Unsupported),
        _ => None,
    }
}

/// The scope that a word names.
fn scope_word_of(word: &str) -> Option<ScopeWord>
    ensures found { IfSome result (λ scope. chars word.now ≡ scope_word (scope_of scope)) }
    ensures none { IfNone result ((scope : ScopeName) → chars word.now ≢ scope_word scope) }
{
    match word {
        "all" => Some(ScopeWord::All),
        "client" => Some(ScopeWord::Client),
        "server" => Some(ScopeWord::Server),
        _ => None,
    }
}

/// The first character of the text, and the text after it.
fn first_char(text: &str) -> Option<(char, &str)>
    ensures found { IfSome result (λ found. chars text.now ≡ found.0 ∷ chars found.1.now) }
    ensures text { IfSome result (λ found. IsUtf8 found.1.now) }
    ensures none { IfNone result (text.now ≡ []) }
{
    let mut rest = text.chars();
    let first = rest.next()?;
    Some((first, rest.as_str()))
}

/// The type and scope that the text begins with, or the word `map`, and the text after them.
fn read_head<A: Allocator + Copy>(
    alloc: A,
    text: &str,
    delimiter: char,
) -> Result<(Head, &str), ErrorKind<A>>
    ensures ok { IfOk result (λ found.
        Fields delimiter (chars text.now) (head_fields (head_of found.0)) (chars found.1.now)) }
    ensures text { IfOk result (λ found. IsUtf8 found.1.now) }
    ensures err { IfErr result (TellsFault (HasRuleFault delimiter (chars text.now))) }
{
    let Some((word, rest)) = cut_at(text, delimiter) else {
        return Err(ErrorKind::IncompleteRule);
    };
    if word == "map" {
        return Ok((Head::Map, rest));
    }
    let Some(kind) = kind_of(word) else {
        let got = String::from_str(alloc, word)?;
        let expected = "prefix, ok, bad, map";
        return Err(ErrorKind::InvalidType { got, expected });
    };
    let Some((word, rest)) = cut_at(rest, delimiter) else {
        return Err(ErrorKind::IncompleteRule);
    };
    let Some(scope) = scope_word_of(word) else {
        let got = String::from_str(alloc, word)?;
        let expected = "all, client, server";
        return Err(ErrorKind::InvalidScope { got, expected });
    };
    Ok((Head::Typed(kind, scope), rest))
}

/// The key or the prepend that the text begins with, and the text after its delimiter.
fn pattern<A: Allocator>(
    text: &str,
    delimiter: char,
    which: PatternField,
) -> Result<(&str, &str), ErrorKind<A>>
    ensures ok { IfOk result (λ parts.
        Fields delimiter (chars text.now) (chars parts.0.now ∷ []) (chars parts.1.now)) }
    ensures no_nul { IfOk result (λ parts. Lacks 0 (chars parts.0.now)) }
    ensures text { IfOk result (λ parts. IsUtf8 parts.0.now × IsUtf8 parts.1.now) }
    ensures err { IfErr result (λ cause.
        IsSomeAnd (rule_fault_of cause) (HasPatternFault delimiter (chars text.now) which)) }
{
    let Some((field, rest)) = cut_at(text, delimiter) else {
        return Err(ErrorKind::IncompleteRule);
    };
    if field.contains('\0') {
        return Err(ErrorKind::NulInPattern { pattern: which });
    }
    Ok((field, rest))
}

/// The rule whose fields the text begins with, and the text after them.
fn fields<A: Allocator + Copy>(
    alloc: A,
    text: &str,
    delimiter: char,
) -> Result<(WrittenRule<'_>, &str), ErrorKind<A>>
    ensures ok { IfOk result (λ found.
        Fields delimiter (chars text.now) (rule_fields (as_written found.0)) (chars found.1.now)) }
    ensures no_nul { IfOk result (λ found. HasNoNul (as_written found.0)) }
    ensures text { IfOk result (λ found.
        IsUtf8 found.0.key.now × IsUtf8 found.0.prepend.now × IsUtf8 found.1.now) }
    ensures err { IfErr result (TellsFault (HasRuleFault delimiter (chars text.now))) }
{
    let (head, rest) = read_head(alloc, text, delimiter)?;
    let (key, rest) = pattern(rest, delimiter, PatternField::Key)?;
    let (prepend, rest) = pattern(rest, delimiter, PatternField::Prepend)?;
    Ok((WrittenRule { head, key, prepend }, rest))
}

/// The rule that the text begins with, and the text after it, which is empty after a `map` rule.
fn next_rule<A: Allocator + Copy>(
    alloc: A,
    text: &str,
) -> Result<(WrittenRule<'_>, &str), ErrorKind<A>>
    requires { IsOpened (chars text.now) }
    ensures ok { IfOk result (λ found.
        RuleThen (chars text.now) (as_written found.0) (chars found.1.now)) }
    ensures last { IfOk result (λ found. found.0.head ≡ Head.Map → found.1.now ≡ []) }
    ensures text { IfOk result (λ found.
        IsUtf8 found.0.key.now × IsUtf8 found.0.prepend.now × IsUtf8 found.1.now) }
    ensures err { IfErr result (TellsFault (BeginsWithFault (chars text.now))) }
{
    let Some((delimiter, body)) = first_char(text) else {
        return Err(ErrorKind::IncompleteRule);
    };
    let (rule, after) = fields(alloc, body, delimiter)?;
    if rule.head == Head::Map && !after.is_empty() {
        return Err(ErrorKind::MapRuleViolation);
    }
    Ok((rule, after))
}

/// The rules, and behind them those that a written one stands for.
fn push_rules<A: Allocator>(
    rules: Rules<A>,
    written: WrittenRule<'_>,
) -> Result<Rules<A>, AllocError>
    requires { IsUtf8 written.key.now × IsUtf8 written.prepend.now }
    ensures { IfOk result (λ more. more.list ≡ rules.list ++ rules_for written.entry) }
{
    let (key, prepend) = (written.key.as_bytes(), written.prepend.as_bytes());
    let all = Scope::from(ScopeWord::All);
    match written.head {
        Head::Typed(kind, scope) => rules.extended(kind, Scope::from(scope), key, prepend),
        Head::Map if key.is_empty() => rules
            .extended(RuleKind::Prefix, all, key, prepend)?
            .extended(RuleKind::Bad, all, &[], &[]),
        Head::Map => rules
            .extended(RuleKind::Prefix, all, key, prepend)?
            .extended(RuleKind::Bad, all, prepend, key)?
            .extended(RuleKind::Okay, all, &[], &[]),
    }
}

/// The rules that the text stands for, and how many are written in it. A written `map` rule is one.
pub(crate) fn read_rules<A: Allocator + Copy>(
    alloc: A,
    text: &str,
) -> Result<(Rules<A>, usize), Error<A>>
    ensures read { IfOk result (λ found. SaysRules (chars text.now) found.0.list) }
    ensures counted { IfOk result (λ found. CountsRules (chars text.now) found.1) }
    ensures refused { IfErr result (λ e.
        OutOfMemoryOr (rules_fault_of e) (HasRulesFault (chars text.now))) }
{
    let mut rules = Rules::new(alloc, text.len())?;
    let mut rest = text.trim();
    let mut number = 0;
    while !rest.is_empty() {
        number = rules.len() + 1;
        let (rule, after) = match next_rule(alloc, rest) {
            Ok(found) => found,
            Err(cause) => return Err(cause.in_rule(number)),
        };
        rules = push_rules(rules, rule)?;
        rest = after.trim_ascii_start();
    }
    if number == 0 {
        return Err(Error::from(ErrorKind::NoRulesProvided));
    }
    Ok((rules, number))
}
