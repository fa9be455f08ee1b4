//! What is answered to what was asked of guests: a text, and how the program ends.
ghost use Rattle.std.specs.Prelude.{◌≡◌, ◌≢◌, [], IfOk, IfSome, IsTrue, None, length, string_bytes};
ghost use Rattle.virtiofs_findings.specs.Advice.{IsAdvice};
ghost use Rattle.virtiofs_findings.specs.Audited.{Audits};
ghost use Rattle.virtiofs_mapaudit.specs.Answers.{EndsAs, Reports, counting};

use crate::json::as_json;
use crate::losses::loss_lines;
use crate::picture::as_svg;
use crate::summary::{Known, refusal_line};
use crate::text::{as_text, options_as_text};
use crate::words::{Found, Guest, Made};
use std::alloc::Global;
use virtiofs_findings::advice::options::Options;
use virtiofs_findings::advice::{Advised, advise, tries_of};
use virtiofs_findings::audit::{Audited, audit_all, has_found};
use virtiofs_findings::explain::asking::Question;
use virtiofs_findings::finding::Kind;
use virtiofs_findings::refusal::Refusal;
use virtiofs_options::front::Asked as Front;
use virtiofs_output::outcome::Answered;

/// What was asked of guests.
#[derive(Clone, Copy)]
pub(crate) struct Request<'a> {
    /// What is to be shown, and how.
    pub(crate) front: Front,
    /// The kinds of findings that are accepted.
    pub(crate) accepted: &'a [Kind],
    /// The names that ids of the host have.
    pub(crate) known: &'a Known,
    /// What is to be explained; then nothing is looked for.
    pub(crate) questions: &'a [Question<'a>],
    /// The lines on what is not known of command lines.
    pub(crate) unknown: &'a [String],
}

/// What is answered.
#[derive(Drop)]
pub(crate) struct Answer {
    /// What is to be written to standard output.
    pub(crate) text: String,
    /// The lines that are to be written to standard error: guest by guest, the first fault of each
    /// option that is refused.
    pub(crate) refusals: Vec<String>,
    /// Further such lines: where options alone are written, what guests lose by them; and then what is
    /// not known of command lines.
    pub(crate) further: Vec<String>,
    /// How the program ends where all of it is written.
    pub(crate) outcome: Answered,
}

/// What is reported of guests.
#[derive(Drop)]
pub(crate) struct Reported<'a> {
    /// The guests.
    pub(crate) guests: &'a [Guest<'a>],
    /// What their options set up, what is found, and what is refused.
    pub(crate) all: Audited<Global>,
    /// What is advised.
    pub(crate) advised: Option<Advised<'a, Global>>,
}

/// The lines on texts that are refused.
pub(crate) fn refusal_lines(alloc: Global, refusals: &[Refusal<Global>]) -> Made<Vec<String>>
    ensures { IfOk result (λ lines. length lines.items ≡ length refusals.now) }
{
    let mut lines = Vec::new(alloc);
    for refusal in refusals {
        lines.push(refusal_line(alloc, refusal)?)?;
    }
    Ok(lines)
}

/// What counts: where options alone are asked for, what is found with those that are written.
fn counting<'r>(mend: bool, report: &'r Reported<'_>) -> &'r [Found]
    ensures { result.now ≡ counting mend report.now.all report.now.advised }
{
    match &report.advised {
        Some(advised) if mend => advised.findings.as_slice(),
        _ => report.all.findings.as_slice(),
    }
}

/// How the program ends, where that is refused, and that counts.
pub(crate) fn outcome_of(
    accepted: &[Kind],
    refusals: &[Refusal<Global>],
    found: &[Found],
) -> Answered
    ensures { EndsAs accepted.now refusals.now found.now result }
{
    if !refusals.is_empty() {
        return Answered::Refused;
    }
    if has_found(accepted, found) {
        return Answered::Found;
    }
    Answered::Given
}

/// What is advised of these tries, where that was found: nothing where a text is refused.
fn advice<'r>(
    alloc: Global,
    request: Request<'_>,
    guests: &'r [Guest<'r>],
    all: &Audited<Global>,
    tries: &'r [Vec<Options<Global>>],
) -> Made<Option<Advised<'r, Global>>>
    requires { Audits guests.now all.now }
    ensures advice { IfOk result (λ advised. IfSome advised (IsAdvice
        request.entry.accepted.now guests.now
        all.now.findings.items)) }
    ensures untried { (all.now.refusals.items ≢ []) → IfOk result (λ advised. advised ≡ None) }
{
    if !all.refusals.as_slice().is_empty() {
        return Ok(None);
    }
    advise(alloc, request.accepted, guests, all, tries)
}

/// The text of a report, in the form that was asked for; nothing where nothing is to be said.
fn text_of(alloc: Global, request: Request<'_>, report: &Reported<'_>) -> Made<String>
    ensures { IsTrue request.entry.front.quiet → IfOk result (λ text. string_bytes text ≡ []) }
{
    let front = request.front;
    if front.quiet {
        return Ok(String::new(alloc));
    }
    if front.mend {
        return match &report.advised {
            _ if !report.all.refusals.is_empty() => Ok(String::new(alloc)),
            Some(advised) => options_as_text(alloc, advised.guests.as_slice()),
            None => options_as_text(alloc, report.guests),
        };
    }
    if front.svg {
        return as_svg(alloc, request.accepted, report);
    }
    if front.json {
        return as_json(alloc, request, report);
    }
    as_text(alloc, request, report)
}

/// What is answered where that is what an audit found, and these are to be tried.
fn answer_with<'r>(
    alloc: Global,
    request: Request<'_>,
    guests: &'r [Guest<'r>],
    all: Audited<Global>,
    tries: &'r [Vec<Options<Global>>],
) -> Made<Answer>
    requires { Audits guests.now all }
    ensures { IfOk result (Reports request.entry guests.now) }
{
    let advised = advice(alloc, request, guests, &all, tries)?;
    let report = Reported {
        guests,
        all,
        advised,
    };
    let found = counting(request.front.mend, &report);
    let outcome = outcome_of(request.accepted, report.all.refusals.as_slice(), found);
    let text = text_of(alloc, request, &report)?;
    let refusals = refusal_lines(alloc, report.all.refusals.as_slice())?;
    let further = match &report.advised {
        Some(advised) if request.front.mend => {
            loss_lines(alloc, report.all.sets.as_slice(), advised.sets.as_slice())?
        }
        _ => Vec::new(alloc),
    };
    Ok(Answer {
        text,
        refusals,
        further,
        outcome,
    })
}

/// What is answered where guests are audited.
pub(crate) fn answer_audit(
    alloc: Global,
    request: Request<'_>,
    guests: &[Guest<'_>],
) -> Made<Answer>
    ensures { IfOk result (Reports request.entry guests.now) }
{
    let all = audit_all(alloc, guests)?;
    // (nothing is tried where a text is refused, or what is advised is not to be written)
    let tries = match !all.refusals.is_empty() || request.front.quiet || request.front.svg {
        true => Vec::new(alloc),
        false => tries_of(alloc, request.accepted, guests, &all)?,
    };
    answer_with(alloc, request, guests, all, tries.as_slice())
}
