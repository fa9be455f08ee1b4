//! Options in place of those of guests, under which less is found and the guests can do no more.
//!
//! The options are made of those that the guests have, and tried: they are read as any others are,
//! held against the given ones, and audited. They are advised if no text of them is refused, if they
//! only take away, if nothing is found with them that was not found, and something no more.
ghost use Rattle.std.specs.Prelude.{◌≡◌, All, IfOk, IfSome, None};
ghost use Rattle.std.specs.List.{AllZip};
ghost use Rattle.virtiofs_findings.specs.Advice.{ComesOut, IsAdvice, IsPassedOver};
ghost use Rattle.virtiofs_findings.specs.Audited.{Audits};
ghost use Rattle.virtiofs_findings.specs.Narrower.{SameRest};

mod better;
mod mended;
mod narrower;
pub mod options;
mod rules;

use crate::audit::{Audited, audit};
use crate::finding::{Finding, Kind};
use crate::guest::Guest;
use crate::setup::{SetUp, set_up_all};
use better::finds_less;
use mended::{PARTS, mended_options, unwanted_ids};
use narrower::are_narrower;
use options::{Options, guests_of};
use std::alloc::{AllocError, Allocator};

/// Options of guests that are advised, and what is found with them.
#[derive(Drop)]
pub struct Advised<'a, A: Allocator> {
    /// The guests, with these options.
    pub guests: Vec<Guest<'a, A>, A>,
    /// What the options of each set up.
    pub sets: Vec<SetUp<A>, A>,
    /// What is found.
    pub findings: Vec<Finding<A>, A>,
}

/// What came out where other options were tried.
#[derive(Drop)]
pub enum Trial<'a, A: Allocator> {
    /// They are advised.
    Better(Advised<'a, A>),
    /// A text of them is refused.
    Refused,
    /// No less is found with them.
    NoLess,
    /// They do not only take away, as far as is seen.
    NotNarrower,
}

/// The options of all guests where some parts of them are mended.
fn options_of<A: Allocator + Copy>(
    alloc: A,
    parts: (bool, bool),
    accepted: &[Kind],
    guests: &[Guest<'_, A>],
    all: &Audited<A>,
) -> Result<Vec<Options<A>, A>, AllocError> {
    let mut options = Vec::new(alloc);
    let found = all.findings.as_slice();
    for (place, guest) in guests.iter().enumerate() {
        let Some(set) = all.sets.as_slice().get(place) else {
            break;
        };
        let number = place.saturating_add(1);
        options.push(mended_options(alloc, parts, accepted, number, guest, set, found)?)?;
    }
    Ok(options)
}

/// What is to be tried in place of the options of guests, of which that was found: all that is mended
/// of them, and then each part by itself.
pub fn tries_of<A: Allocator + Copy>(
    alloc: A,
    accepted: &[Kind],
    guests: &[Guest<'_, A>],
    all: &Audited<A>,
) -> Result<Vec<Vec<Options<A>, A>, A>, AllocError> {
    let mut tries = Vec::new(alloc);
    for parts in PARTS {
        tries.push(options_of(alloc, parts, accepted, guests, all)?)?;
    }
    Ok(tries)
}

/// Tries guests with other options, in place of the given ones, of which that was found.
pub fn try_others<'a, A: Allocator + Copy>(
    alloc: A,
    accepted: &[Kind],
    given: &[Guest<'_, A>],
    all: &Audited<A>,
    guests: Vec<Guest<'a, A>, A>,
) -> Result<Trial<'a, A>, AllocError>
    requires audits { Audits given.now all.now }
    requires rest { AllZip SameRest given.now guests.items }
    ensures { IfOk result (ComesOut accepted.now given.now
        all.now.findings.items guests.entry.items) }
{
    let mut refusals = Vec::new(alloc);
    let sets = set_up_all(alloc, &mut refusals, guests.as_slice())?;
    if !refusals.as_slice().is_empty() {
        return Ok(Trial::Refused);
    }
    let unwanted = unwanted_ids(accepted);
    if !are_narrower(alloc, unwanted, all.sets.as_slice(), sets.as_slice())? {
        return Ok(Trial::NotNarrower);
    }
    let findings = audit(alloc, sets.as_slice())?;
    if !finds_less(accepted, findings.as_slice(), all.findings.as_slice()) {
        return Ok(Trial::NoLess);
    }
    Ok(Trial::Better(Advised {
        guests,
        sets,
        findings,
    }))
}

/// The first of these tries that is advised in place of the options of guests, of which that was found;
/// `None` if each came to nothing.
pub fn advise<'a, A: Allocator + Copy>(
    alloc: A,
    accepted: &[Kind],
    given: &'a [Guest<'a, A>],
    all: &Audited<A>,
    tries: &'a [Vec<Options<A>, A>],
) -> Result<Option<Advised<'a, A>>, AllocError>
    requires { Audits given.now all.now }
    ensures advice { IfOk result (λ advised. IfSome advised
        (IsAdvice accepted.now given.now all.now.findings.items)) }
    ensures none { IfOk result (λ advised. advised ≡ None → All
        (IsPassedOver accepted.now given.now all.now.findings.items) tries.now) }
{
    for options in tries {
        let options = options.as_slice();
        if options.len() != given.len() {
            continue;
        }
        let guests = guests_of(alloc, given, options)?;
        match try_others(alloc, accepted, given, all, guests)? {
            Trial::Better(advised) => return Ok(Some(advised)),
            Trial::Refused | Trial::NoLess | Trial::NotNarrower => {}
        }
    }
    Ok(None)
}
