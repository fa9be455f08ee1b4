//! What holds of all names under a text of rules, or under two.
ghost use Rattle.std.specs.Prelude.{◌≡◌, IfOk, codes, string_bytes};
ghost use Rattle.virtiofs_map.specs.Audit.{IsLost, IsSeen};
ghost use Rattle.virtiofs_mapcheck.specs.AuditsAnswer.{SaysLeast, SaysTerminated, AnswersTerminated, AnswersAudit, AnswersApart};
ghost use Rattle.virtiofs_mapcheck.specs.AuditsParts.{audit_text};
ghost use Rattle.virtiofs_mapcheck.specs.RulesAnswer.{WithRules};
ghost use Rattle.virtiofs_output.specs.Written.{line};

use crate::rules::read_rules;
use std::alloc::{AllocError, Allocator};
use virtiofs_map::audit::{Audit, audit, keeps_apart};
use virtiofs_map::xattrmap::XattrMap;
use virtiofs_output::outcome::Answered;
use virtiofs_output::written::push_written;

/// The line of an audit: `yes`, or `no` and the name that shows it.
fn audit_line<A: Allocator>(alloc: A, audit: &Audit<A>) -> Result<String<A>, AllocError>
    ensures { IfOk result (λ text. string_bytes text ≡ line (audit_text audit.now)) }
{
    match audit {
        Audit::Yes => String::from_str(alloc, "yes\n"),
        Audit::No(name) => {
            let mut text = String::from_str(alloc, "no ")?;
            push_written(&mut text, name.as_name().as_bytes())?;
            text.push('\n')?;
            Ok(text)
        }
    }
}

// A map is dropped in one place of a function, and what is asked of it stands in a function of its
// own: each exit past a map is long to prove.

/// Whether some rule of a map decides every name.
fn say_terminated<A: Allocator>(
    alloc: A,
    map: &XattrMap<A>,
) -> Result<(Answered, String<A>), AllocError>
    ensures { IfOk result (λ p. SaysTerminated map.now p.0 (string_bytes p.1)) }
{
    if map.is_terminated() {
        return Ok((Answered::Given, String::from_str(alloc, "yes\n")?));
    }
    Ok((Answered::Given, String::from_str(alloc, "no\n")?))
}

/// Whether some rule of a text decides every name, or how the text is refused.
pub(crate) fn answer_terminated<A: Allocator + Copy>(
    alloc: A,
    rules: &str,
) -> Result<(Answered, String<A>), AllocError>
    ensures { IfOk result (λ p. AnswersTerminated rules.now p.0 (string_bytes p.1)) }
{
    match read_rules(alloc, "", rules)? {
        Ok(map) => say_terminated(alloc, &map),
        Err(refused) => Ok((Answered::Refused, refused)),
    }
}

/// Whether every name that passes under a map is listed back.
fn say_audit<A: Allocator + Copy>(
    alloc: A,
    map: &XattrMap<A>,
) -> Result<(Answered, String<A>), AllocError>
    ensures { IfOk result (λ p. SaysLeast (IsLost map.now) p.0 (string_bytes p.1)) }
{
    let audited = audit(alloc, map)?;
    Ok((Answered::Given, audit_line(alloc, &audited)?))
}

/// Whether every name that passes under the rules of a text is listed back, or how the text is
/// refused.
pub(crate) fn answer_audit<A: Allocator + Copy>(
    alloc: A,
    rules: &str,
) -> Result<(Answered, String<A>), AllocError>
    ensures { IfOk result (λ p. AnswersAudit rules.now p.0 (string_bytes p.1)) }
{
    match read_rules(alloc, "", rules)? {
        Ok(map) => say_audit(alloc, &map),
        Err(refused) => Ok((Answered::Refused, refused)),
    }
}

/// Whether what passes under a map is hidden under another one.
fn say_apart<A: Allocator + Copy>(
    alloc: A,
    reaching: &XattrMap<A>,
    hiding: &XattrMap<A>,
) -> Result<(Answered, String<A>), AllocError>
    ensures { IfOk result (λ p.
        SaysLeast (IsSeen reaching.now hiding.now) p.0 (string_bytes p.1)) }
{
    let audited = keeps_apart(alloc, reaching, hiding)?;
    Ok((Answered::Given, audit_line(alloc, &audited)?))
}

/// Whether what passes under a map is hidden under the rules of the second text, or how that text is
/// refused.
fn answer_hidden<A: Allocator + Copy>(
    alloc: A,
    reaching: &XattrMap<A>,
    second: &str,
) -> Result<(Answered, String<A>), AllocError>
    ensures { IfOk result (λ p. WithRules (codes "second: ") second.now
        (λ hiding. SaysLeast (IsSeen reaching.now hiding)) p.0 (string_bytes p.1)) }
{
    match read_rules(alloc, "second: ", second)? {
        Ok(hiding) => say_apart(alloc, reaching, &hiding),
        Err(refused) => Ok((Answered::Refused, refused)),
    }
}

/// Whether what passes under the rules of the first text is hidden under those of the second, or
/// how the first text that is at fault is refused.
#[tactic(auto, using(crate::proofs::AuditsAnswerLemmas::says_apart))]
pub(crate) fn answer_apart<A: Allocator + Copy>(
    alloc: A,
    first: &str,
    second: &str,
) -> Result<(Answered, String<A>), AllocError>
    ensures { IfOk result (λ p.
        AnswersApart first.now second.now p.0 (string_bytes p.1)) }
{
    match read_rules(alloc, "first: ", first)? {
        Ok(reaching) => answer_hidden(alloc, &reaching, second),
        Err(refused) => Ok((Answered::Refused, refused)),
    }
}
