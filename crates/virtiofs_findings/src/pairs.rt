//! What is found between two guests of one directory.
ghost use Rattle.std.specs.Prelude.{◌≡◌, IfOk, OnOk, option_map};
ghost use Rattle.virtiofs_findings.specs.Lists.{Adds};
ghost use Rattle.virtiofs_findings.specs.PairFindings.{FindsPair, FindsBoth, FindsIdsOfBoth, FindsNamesBetween, IsPassing, rules_met};

use crate::finding::{About, Finding, Kind};
use crate::ids::kind::IdKind;
use crate::ids::meeting::meeting_of;
use crate::names::audits::push_name;
use crate::report::{push_found, told_ids};
use crate::setup::{IdSetUp, SetUp};
use std::alloc::{AllocError, Allocator};
use virtiofs_map::audit::NameFault;
use virtiofs_map::xattrmap::XattrMap;

/// Adds the ids of the first guest that are ids of the host which the second reaches too. Guests of
/// which a text is refused are not compared.
fn push_meeting<A: Allocator + Copy>(
    alloc: A,
    found: &mut Vec<Finding<A>, A>,
    first: usize,
    second: usize,
    kind: IdKind,
    one: &Option<IdSetUp<A>>,
    other: &Option<IdSetUp<A>>,
) -> Result<(), AllocError>
    ensures { OnOk result (Adds
        (FindsBoth (FindsIdsOfBoth first second kind) one.now other.now)
        found.old.items found.new.items) }
{
    let (Some(one), Some(other)) = (one, other) else {
        return Ok(());
    };
    let ids = told_ids(kind, false, meeting_of(alloc, one, other)?);
    push_found(found, About::Pair(first, second), Kind::IdOfBoth, ids)
}

/// Adds what is found of the names of two guests that meet these rules.
#[tactic(auto, using(std::proofs::Common::append_assoc))]
fn push_between<A: Allocator + Copy>(
    alloc: A,
    found: &mut Vec<Finding<A>, A>,
    first: usize,
    second: usize,
    one: &XattrMap<A>,
    other: &XattrMap<A>,
) -> Result<(), AllocError>
    ensures { OnOk result (Adds (FindsNamesBetween first second one.now other.now)
        found.old.items found.new.items) }
{
    let (there, back) = (About::Pair(first, second), About::Pair(second, first));
    let (shown, shared) = (Kind::ShownToOther, Kind::NameOfBoth);
    let (seen, both) = (NameFault::Seen, NameFault::Shared);
    push_name(alloc, found, there, shown, seen, one, other)?;
    push_name(alloc, found, back, shown, seen, other, one)?;
    push_name(alloc, found, there, shared, both, one, other)
}

/// The rules by which guests are compared that have none.
#[derive(Drop)]
pub(crate) struct Passing<A: Allocator> {
    /// Each name passes as it is.
    all: XattrMap<A>,
    /// Each but those of access control lists does, as where these are off.
    others: XattrMap<A>,
}

/// The rule that passes each name as it is.
const ALL: &str = ":ok:all:::";

/// The same, behind those that refuse the names of access control lists.
const OTHERS: &str = ":bad:all:system.posix_acl_access:system.posix_acl_access:\
    :bad:all:system.posix_acl_default:system.posix_acl_default::ok:all:::";

/// Makes these rules.
pub(crate) fn passing_rules<A: Allocator + Copy>(alloc: A) -> Result<Passing<A>, AllocError>
    ensures { IfOk result IsPassing }
{
    match (
        XattrMap::try_from(alloc, ALL),
        XattrMap::try_from(alloc, OTHERS),
    ) {
        (Ok(all), Ok(others)) => Ok(Passing { all, others }),
        _ => Err(AllocError),
    }
}

/// The rules that the names of a guest meet: its own, or else those by which it is compared, where
/// names pass.
fn rules_met<'s, A: Allocator>(
    passing: &'s Passing<A>,
    set: &'s SetUp<A>,
) -> Option<&'s XattrMap<A>>
    requires { IsPassing passing.now }
    ensures { option_map (λ it. it.now) result ≡ rules_met set.now }
{
    match &set.names {
        Some(names) => Some(&names.map),
        None if !set.passes => None,
        None if set.posix_acl => Some(&passing.all),
        None => Some(&passing.others),
    }
}

/// Adds what is found of the names of two guests, where both have names.
fn push_names<A: Allocator + Copy>(
    alloc: A,
    found: &mut Vec<Finding<A>, A>,
    first: usize,
    second: usize,
    one: &SetUp<A>,
    other: &SetUp<A>,
    passing: &Passing<A>,
) -> Result<(), AllocError>
    requires { IsPassing passing.now }
    ensures { OnOk result (Adds (FindsBoth (FindsNamesBetween first second)
        (rules_met one.now) (rules_met other.now)) found.old.items found.new.items) }
{
    let (Some(one), Some(other)) = (rules_met(passing, one), rules_met(passing, other)) else {
        return Ok(());
    };
    push_between(alloc, found, first, second, one, other)
}

/// Adds what is found between the two guests of these numbers, in order.
pub(crate) fn push_pair<A: Allocator + Copy>(
    alloc: A,
    found: &mut Vec<Finding<A>, A>,
    first: usize,
    second: usize,
    one: &SetUp<A>,
    other: &SetUp<A>,
    passing: &Passing<A>,
) -> Result<(), AllocError>
    requires { IsPassing passing.now }
    ensures { OnOk result
        (Adds (FindsPair first second one.now other.now) found.old.items found.new.items) }
{
    let (users, groups) = (IdKind::Users, IdKind::Groups);
    push_meeting(alloc, found, first, second, users, &one.users, &other.users)?;
    push_meeting(
        alloc,
        found,
        first,
        second,
        groups,
        &one.groups,
        &other.groups,
    )?;
    push_names(alloc, found, first, second, one, other, passing)
}
