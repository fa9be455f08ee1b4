//! What is found of one guest by itself.
ghost use Rattle.std.specs.Prelude.{◌≡◌, ◌++◌, OnOk, IfOk, option_map};
ghost use Rattle.virtiofs_findings.specs.Findings.{told_by};
ghost use Rattle.virtiofs_findings.specs.Lists.{Adds};
ghost use Rattle.virtiofs_findings.specs.Report.{renumbers, FindsKind, FindsRootOf, FindsRoot, FindsIf, FindsGuest, start_found};

use crate::finding::{About, Evidence, Finding, Kind};
use crate::ids::audits::{acting_as_root, audit_ids};
use crate::ids::found::{IdFindings, IdsFound};
use crate::ids::kept::kept_ids;
use crate::ids::kind::IdKind;
use crate::ids::ranges::RangeFound;
use crate::names::acl::push_acl;
use crate::names::audits::push_names;
use crate::setup::{IdSetUp, SetUp};
use std::alloc::{AllocError, Allocator};
use virtiofs_map::idmap::UidMap;

/// Adds the finding of that kind about whom it is, if it is told by something.
pub(crate) fn push_found<A: Allocator>(
    found: &mut Vec<Finding<A>, A>,
    about: About,
    kind: Kind,
    evidence: Option<Evidence<A>>,
) -> Result<(), AllocError>
    ensures { OnOk result (found.new.items ≡ found.old.items ++ told_by about kind evidence) }
{
    if let Some(evidence) = evidence {
        found.push(Finding {
            about,
            kind,
            evidence,
        })?;
    }
    Ok(())
}

/// What ids are told by, if there are any.
pub(crate) fn told_ids<A: Allocator>(
    ids: IdKind,
    in_namespace: bool,
    found: Option<IdsFound<A>>,
) -> Option<Evidence<A>>
    ensures { result ≡ option_map (λ it. Evidence.Ids ids in_namespace it) found }
{
    match found {
        Some(found) => Some(Evidence::Ids {
            ids,
            in_namespace,
            found,
        }),
        None => None,
    }
}

/// What a range at fault is told by, if one is.
fn told_range<A: Allocator>(kind: IdKind, fault: Option<RangeFound>) -> Option<Evidence<A>>
    ensures { result ≡ option_map (λ it. Evidence.Range kind it) fault }
{
    match fault {
        Some(range) => Some(Evidence::Range(kind, range)),
        None => None,
    }
}

/// Adds what is found of ids of one kind, where no text for them is refused.
fn push_kind<A: Allocator + Copy>(
    alloc: A,
    found: &mut Vec<Finding<A>, A>,
    number: usize,
    kind: IdKind,
    set: &Option<IdSetUp<A>>,
) -> Result<(), AllocError>
    ensures { OnOk result
        (Adds (FindsIf (FindsKind number kind) set.now) found.old.items found.new.items) }
{
    let Some(set) = set else {
        return Ok(());
    };
    let (about, ranges) = (About::Guest(number), set.ranges.as_slice());
    let IdFindings { astray, lacking } = audit_ids(alloc, &set.map, ranges)?;
    let kept = kept_ids(alloc, set)?;
    let inside = renumbers(ranges);
    push_found(found, about, Kind::Range, told_range(kind, set.fault))?;
    let differs = set.differs.then_some(Evidence::OfIds(kind));
    push_found(found, about, Kind::OtherRanges, differs)?;
    push_found(found, about, Kind::NotBack, told_ids(kind, inside, astray))?;
    push_found(found, about, Kind::Lacking, told_ids(kind, inside, lacking))?;
    push_found(found, about, Kind::Kept, told_ids(kind, inside, kept))?;
    Ok(())
}

/// Whether some id has another number inside the namespace of these ranges than outside.
fn renumbers(ranges: &[UidMap]) -> bool
    ensures { result ≡ renumbers ranges.now }
{
    ranges
        .iter()
        .any(|range| range.inside_uid != range.outside_uid)
}

/// The ids of one kind that act as root of the host.
fn root_of<A: Allocator + Copy>(
    alloc: A,
    set: &Option<IdSetUp<A>>,
) -> Result<Option<IdsFound<A>>, AllocError>
    ensures { IfOk result (FindsRootOf set.now) }
{
    match set {
        Some(set) => acting_as_root(alloc, &set.map, set.ranges.as_slice()),
        None => Ok(None),
    }
}

/// Adds whether users or groups act as root of the host.
fn push_root<A: Allocator + Copy>(
    alloc: A,
    found: &mut Vec<Finding<A>, A>,
    number: usize,
    set: &SetUp<A>,
) -> Result<(), AllocError>
    ensures { OnOk result (Adds (FindsRoot number set.now) found.old.items found.new.items) }
{
    let users = root_of(alloc, &set.users)?;
    let groups = root_of(alloc, &set.groups)?;
    let some = users.is_some() || groups.is_some();
    let both = some.then_some(Evidence::BothIds(users, groups));
    push_found(found, About::Guest(number), Kind::Root, both)
}

/// Adds that the daemon does not start, and why; or that it leaves the ids in access control lists as
/// they are.
fn push_start<A: Allocator>(
    found: &mut Vec<Finding<A>, A>,
    number: usize,
    set: &SetUp<A>,
) -> Result<(), AllocError>
    ensures { OnOk result (found.new.items ≡ found.old.items ++ start_found number set.now) }
{
    let about = About::Guest(number);
    let why = set.no_start.map(|why| Evidence::NoStart(why));
    push_found(found, about, Kind::NoStart, why)?;
    let refused = set.acl_refused.then_some(Evidence::Plain);
    push_found(found, about, Kind::PosixAcl, refused)?;
    let untranslated = set.acl_untranslated.then_some(Evidence::Plain);
    push_found(found, about, Kind::AclUntranslated, untranslated)
}

/// Adds what is found of the guest of that number, in order.
pub(crate) fn push_guest<A: Allocator + Copy>(
    alloc: A,
    found: &mut Vec<Finding<A>, A>,
    number: usize,
    set: &SetUp<A>,
) -> Result<(), AllocError>
    ensures { OnOk result
        (Adds (FindsGuest number set.now) found.old.items found.new.items) }
{
    push_start(found, number, set)?;
    push_kind(alloc, found, number, IdKind::Users, &set.users)?;
    push_kind(alloc, found, number, IdKind::Groups, &set.groups)?;
    push_root(alloc, found, number, set)?;
    push_names(alloc, found, number, &set.names)?;
    push_acl(alloc, found, number, set.posix_acl, &set.names)?;
    Ok(())
}
