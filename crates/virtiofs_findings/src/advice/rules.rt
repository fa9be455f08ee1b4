//! Rules that are tried in place of those of a guest: without those that decide no name, and with one
//! at the end that denies what no rule decides. Whether they only take away is decided where they are
//! tried.

use crate::names::audits::decides_written;
use crate::setup::NamesSetUp;
use std::alloc::{AllocError, Allocator};
use virtiofs_map::xattrmap::{RuleKind, RuleRef, Side};

/// The characters that may stand after each field of a rule: the first one that the fields do not
/// contain does.
const MARKS: [char; 16] = [
    ':', '/', ',', ';', '|', '!', '#', '%', '+', '=', '@', '~', '^', '&', '*', '_',
];

/// The rule that denies what no rule decides.
const DENY_REST: &str = ":bad:all:::";

/// A character that no field contains; `:` where each is contained, with which the text is refused or
/// says other rules.
fn mark_for(key: &str, prepend: &str) -> char {
    for mark in MARKS {
        if !key.contains(mark) && !prepend.contains(mark) {
            return mark;
        }
    }
    ':'
}

/// The word of a type.
fn type_word(kind: RuleKind) -> &'static str {
    match kind {
        RuleKind::Prefix => "prefix",
        RuleKind::Okay => "ok",
        RuleKind::Bad => "bad",
        RuleKind::Unsupported => "unsupported",
    }
}

/// The word of the sides on which a rule acts.
fn scope_word(rule: RuleRef<'_>) -> &'static str {
    match (rule.acts_on(Side::Client), rule.acts_on(Side::Server)) {
        (true, false) => "client",
        (false, true) => "server",
        _ => "all",
    }
}

/// Writes a rule at the end of a text; the first rule that a `map` rule is short for stands for it.
fn push_rule<A: Allocator>(
    text: &mut String<A>,
    rule: RuleRef<'_>,
    is_map: bool,
) -> Result<(), AllocError> {
    let (Ok(key), Ok(prepend)) = (str::from_utf8(rule.key), str::from_utf8(rule.prepend)) else {
        return Ok(());
    };
    let mark = mark_for(key, prepend);
    if !text.is_empty() {
        text.push(' ')?;
    }
    if is_map {
        return write!(text, "{mark}map{mark}{key}{mark}{prepend}{mark}");
    }
    let (word, scope) = (type_word(rule.kind), scope_word(rule));
    write!(
        text,
        "{mark}{word}{mark}{scope}{mark}{key}{mark}{prepend}{mark}"
    )
}

/// The rules, without those that decide no name, and with the rest denied.
pub(super) fn narrowed_rules<A: Allocator + Copy>(
    alloc: A,
    names: &NamesSetUp<A>,
    drops_idle: bool,
    denies_rest: bool,
) -> Result<String<A>, AllocError> {
    let (map, written) = (&names.map, names.written);
    let mut text = String::new(alloc);
    for place in 0..written {
        if drops_idle && !decides_written(map, written, place) {
            continue;
        }
        if let Some(rule) = map.rule(place) {
            let is_map = place + 1 == written && map.rule_count() > written;
            push_rule(&mut text, rule, is_map)?;
        }
    }
    if denies_rest && !map.is_terminated() {
        if !text.is_empty() {
            text.push(' ')?;
        }
        text.push_str(DENY_REST)?;
    }
    Ok(text)
}
