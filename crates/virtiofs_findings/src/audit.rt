//! The audit of all guests: what their options set up, and what is found.
ghost use Rattle.std.specs.Prelude.{◌↔◌, Contains, IfOk, IsTrue, OnOk};
ghost use Rattle.virtiofs_findings.specs.Audited.{Audits};
ghost use Rattle.virtiofs_findings.specs.Findings.{Each, IsFound, HasAccepted};
ghost use Rattle.virtiofs_findings.specs.Lists.{Adds};
ghost use Rattle.virtiofs_findings.specs.PairFindings.{IsPassing};
ghost use Rattle.virtiofs_findings.specs.Report.{FindsGuest, FindsWithEarlier, Finds};

use crate::finding::{Finding, Kind};
use crate::guest::Guest;
use crate::pairs::{Passing, passing_rules, push_pair};
use crate::refusal::Refusal;
use crate::report::push_guest;
use crate::setup::{SetUp, set_up_all};
use std::alloc::{AllocError, Allocator};

/// What the options of all guests set up, what is found, and what is refused.
#[derive(Drop)]
pub struct Audited<A: Allocator> {
    /// What the options of each guest set up.
    pub sets: Vec<SetUp<A>, A>,
    /// What is found: of each guest by itself, and then between each two.
    pub findings: Vec<Finding<A>, A>,
    /// Guest by guest, the first fault of each option that is refused.
    pub refusals: Vec<Refusal<A>, A>,
}

/// Adds what is found of each guest by itself.
fn push_guests<A: Allocator + Copy>(
    alloc: A,
    found: &mut Vec<Finding<A>, A>,
    sets: &[SetUp<A>],
) -> Result<(), AllocError>
    ensures { OnOk result
        (Adds (Each FindsGuest 1 sets.now) found.old.items found.new.items) }
{
    for place in 0..sets.len() {
        push_guest(alloc, found, place + 1, &sets[place])?;
    }
    Ok(())
}

/// Adds what is found between each guest and each of those before it.
fn push_each_two<A: Allocator + Copy>(
    alloc: A,
    found: &mut Vec<Finding<A>, A>,
    sets: &[SetUp<A>],
    passing: &Passing<A>,
) -> Result<(), AllocError>
    requires { IsPassing passing.now }
    ensures { OnOk result
        (Adds (Each (FindsWithEarlier sets.now) 1 sets.now) found.old.items found.new.items) }
{
    for place in 0..sets.len() {
        let set = &sets[place];
        for before in 0..place {
            let (first, second) = (before + 1, place + 1);
            push_pair(alloc, found, first, second, &sets[before], set, passing)?;
        }
    }
    Ok(())
}

/// What is found of guests: of each by itself, and then between each two.
pub fn audit<A: Allocator + Copy>(
    alloc: A,
    sets: &[SetUp<A>],
) -> Result<Vec<Finding<A>, A>, AllocError>
    ensures { IfOk result (λ found. Finds sets.now found.items) }
{
    let mut found = Vec::new(alloc);
    push_guests(alloc, &mut found, sets)?;
    let passing = passing_rules(alloc)?;
    push_each_two(alloc, &mut found, sets, &passing)?;
    Ok(found)
}

/// Sets up and audits all guests.
pub fn audit_all<A: Allocator + Copy>(
    alloc: A,
    guests: &[Guest<'_, A>],
) -> Result<Audited<A>, AllocError>
    ensures { IfOk result (Audits guests.now) }
{
    let mut refusals = Vec::new(alloc);
    let sets = set_up_all(alloc, &mut refusals, guests)?;
    let findings = audit(alloc, sets.as_slice())?;
    Ok(Audited {
        sets,
        findings,
        refusals,
    })
}

/// Whether findings of a kind are accepted.
pub fn is_accepted(accepted: &[Kind], kind: Kind) -> bool
    ensures { IsTrue result ↔ Contains accepted.now kind }
{
    accepted.contains(&kind)
}

/// Whether something is found of a kind that is not accepted.
pub fn has_found<A: Allocator>(accepted: &[Kind], found: &[Finding<A>]) -> bool
    ensures { IsTrue result ↔ IsFound accepted.now found.now }
{
    for finding in found {
        if !is_accepted(accepted, finding.kind) {
            return true;
        }
    }
    false
}

/// Whether something is found of a kind that is accepted.
pub fn has_accepted<A: Allocator>(accepted: &[Kind], found: &[Finding<A>]) -> bool
    ensures { IsTrue result ↔ HasAccepted accepted.now found.now }
{
    for finding in found {
        if is_accepted(accepted, finding.kind) {
            return true;
        }
    }
    false
}
