//! What is decided of all names of a guest.
ghost use Rattle.std.specs.Prelude.{◌≡◌, ◌<◌, ◌↔◌, IfOk, OnOk, IsTrue};
ghost use Rattle.virtiofs_map.specs.Audit.{AnswersLeast, HasFault, Within};
ghost use Rattle.virtiofs_findings.specs.Lists.{Adds};
ghost use Rattle.virtiofs_findings.specs.Report.{FindsIf, FindsNamesOf};
ghost use Rattle.virtiofs_findings.specs.NameFindings.{FindsName, FindsLeast, DecidesWritten, FindsIdle, FindsIdleAt, FindsUnruled};
ghost use Rattle.virtiofs_findings.specs.FindingParts.{DecidesFrom};

use super::found::LeastName;
use crate::finding::{About, Evidence, Finding, Kind};
use crate::report::push_found;
use crate::setup::NamesSetUp;
use std::alloc::{AllocError, Allocator};
use virtiofs_map::audit::{Audit, NameFault, ask};
use virtiofs_map::xattrmap::{XattrMap, XattrName};

/// The least name with a fault.
fn least<A: Allocator + Copy>(
    alloc: A,
    fault: NameFault,
    map: &XattrMap<A>,
    other: &XattrMap<A>,
) -> Result<Audit<A>, AllocError>
    ensures { IfOk result (AnswersLeast (HasFault fault map.now other.now)) }
{
    let all = XattrName { bytes: &[] };
    ask(alloc, fault, map.as_ref(), other.as_ref(), all)
}

/// The least name with a fault of those that begin with these bytes.
fn least_within<A: Allocator + Copy>(
    alloc: A,
    fault: NameFault,
    map: &XattrMap<A>,
    other: &XattrMap<A>,
    beginning: XattrName<'_>,
) -> Result<Audit<A>, AllocError>
    ensures { IfOk result (AnswersLeast
        (Within beginning.entry.bytes.now (HasFault fault map.now other.now))) }
{
    ask(alloc, fault, map.as_ref(), other.as_ref(), beginning)
}

/// The least names with a fault, if there is any.
fn least_name<A: Allocator + Copy>(
    alloc: A,
    fault: NameFault,
    map: &XattrMap<A>,
    other: &XattrMap<A>,
) -> Result<Option<LeastName<A>>, AllocError>
    ensures { IfOk result (FindsName (HasFault fault map.now other.now)) }
{
    let Audit::No(name) = least(alloc, fault, map, other)? else {
        return Ok(None);
    };
    let user = XattrName { bytes: b"user." };
    let trusted = XattrName { bytes: b"trusted." };
    let security = XattrName {
        bytes: b"security.",
    };
    let system = XattrName { bytes: b"system." };
    Ok(Some(LeastName {
        name,
        user: least_within(alloc, fault, map, other, user)?,
        trusted: least_within(alloc, fault, map, other, trusted)?,
        security: least_within(alloc, fault, map, other, security)?,
        system: least_within(alloc, fault, map, other, system)?,
    }))
}

/// Whether some rule from that place on decides a name.
fn decides_from<A: Allocator>(map: &XattrMap<A>, place: usize) -> bool
    ensures { IsTrue result ↔ DecidesFrom map.now place }
{
    for part in place..map.rule_count() {
        if map.decides(part) {
            return true;
        }
    }
    false
}

/// Whether some rule that the written rule at a place stands for decides a name. The last one stands
/// for all rules of the map from its place on.
pub(crate) fn decides_written<A: Allocator>(map: &XattrMap<A>, written: usize, place: usize) -> bool
    requires { place < written }
    ensures { IsTrue result ↔ DecidesWritten map.now written place }
{
    if place + 1 == written {
        return decides_from(map, place);
    }
    map.decides(place)
}

/// Adds that a written rule decides no name, if it decides none.
fn push_idle<A: Allocator>(
    found: &mut Vec<Finding<A>, A>,
    number: usize,
    map: &XattrMap<A>,
    written: usize,
    place: usize,
) -> Result<(), AllocError>
    requires { place < written }
    ensures { OnOk result
        (Adds (FindsIdleAt number map.now written 0 place) found.old.items found.new.items) }
{
    let idle = !decides_written(map, written, place);
    let evidence = idle.then_some(Evidence::Rule(place));
    push_found(found, About::Guest(number), Kind::IdleRule, evidence)
}

/// Adds the written rules that decide no name.
fn push_all_idle<A: Allocator>(
    found: &mut Vec<Finding<A>, A>,
    number: usize,
    map: &XattrMap<A>,
    written: usize,
) -> Result<(), AllocError>
    ensures { OnOk result
        (Adds (FindsIdle number map.now written) found.old.items found.new.items) }
{
    for place in 0..written {
        push_idle(found, number, map, written, place)?;
    }
    Ok(())
}

/// Adds that some names have no rule, unless each has one.
#[tactic(auto, using(crate::proofs::NameLemmas::found_unless))]
fn push_unruled<A: Allocator>(
    found: &mut Vec<Finding<A>, A>,
    number: usize,
    map: &XattrMap<A>,
) -> Result<(), AllocError>
    ensures { OnOk result (Adds (FindsUnruled number map.now) found.old.items found.new.items) }
{
    let unruled = !map.is_terminated();
    let evidence = unruled.then_some(Evidence::Plain);
    push_found(found, About::Guest(number), Kind::NoRule, evidence)
}

/// Adds the least name that has this fault, if there is one. The second map is that of the other guest;
/// for faults of one guest it makes no difference.
pub(crate) fn push_name<A: Allocator + Copy>(
    alloc: A,
    found: &mut Vec<Finding<A>, A>,
    about: About,
    kind: Kind,
    fault: NameFault,
    map: &XattrMap<A>,
    other: &XattrMap<A>,
) -> Result<(), AllocError>
    ensures { OnOk result (Adds (FindsLeast about kind (HasFault fault map.now other.now))
        found.old.items found.new.items) }
{
    let least = least_name(alloc, fault, map, other)?;
    push_found(found, about, kind, least.map(|least| Evidence::Name(least)))
}

/// Adds what is wrong with the names of the guest of that number, where there are rules and they are not
/// refused.
pub(crate) fn push_names<A: Allocator + Copy>(
    alloc: A,
    found: &mut Vec<Finding<A>, A>,
    number: usize,
    set: &Option<NamesSetUp<A>>,
) -> Result<(), AllocError>
    ensures { OnOk result
        (Adds (FindsIf (FindsNamesOf number) set.now) found.old.items found.new.items) }
{
    let Some(set) = set else {
        return Ok(());
    };
    let (about, map) = (About::Guest(number), &set.map);
    let (lost, stray) = (NameFault::Lost, NameFault::Stray);
    push_unruled(found, number, map)?;
    push_name(alloc, found, about, Kind::NotListed, lost, map, map)?;
    push_name(alloc, found, about, Kind::ListedElsewhere, stray, map, map)?;
    push_all_idle(found, number, map, set.written)?;
    Ok(())
}
