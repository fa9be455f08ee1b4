//! Options that are tried in place of those of a guest.
ghost use Rattle.std.specs.Prelude.{IfOk};
ghost use Rattle.virtiofs_findings.specs.Narrower.{NarrowerIds};

use crate::advice::better::ids_of;
use crate::advice::options::Options;
use crate::advice::rules::narrowed_rules;
use crate::audit::is_accepted;
use crate::finding::{About, Finding, Kind};
use crate::guest::Guest;
use crate::ids::kept::{are_mapped, same_among, uncovered};
use crate::ids::kind::IdKind;
use crate::ids::meeting::but_no_id;
use crate::setup::{IdSetUp, SetUp};
use std::alloc::{AllocError, Allocator};
use virtiofs_id_audit::namespace::lacking_ids;
use virtiofs_id_audit::{Span, ids_astray, mended};
use virtiofs_map::cmdline;
use virtiofs_map::idmap::UidMap;
use virtiofs_map::soft_idmap::{Direction, Entry, entry_of};

/// What is tried: ids mended and names too, and then each by itself.
pub(super) const PARTS: [(bool, bool); 3] = [(true, true), (true, false), (false, true)];

/// Which ids are forbidden.
#[derive(Clone, Copy)]
pub(super) struct Unwanted {
    /// Those that do not round-trip.
    astray: bool,
    /// Those that become one which the namespace lacks.
    lacking: bool,
    /// Those that keep their number.
    kept: bool,
}

/// Which ids are forbidden of guests, where findings of these kinds are accepted.
pub(super) fn unwanted_ids(accepted: &[Kind]) -> Unwanted {
    Unwanted {
        astray: !is_accepted(accepted, Kind::NotBack),
        lacking: !is_accepted(accepted, Kind::Lacking),
        kept: !is_accepted(accepted, Kind::Kept),
    }
}

/// Specifications, and after them those that forbid ids.
fn with_forbidden<A: Allocator + Copy>(
    alloc: A,
    specs: &[cmdline::IdMap],
    ids: &[Span],
) -> Result<Vec<cmdline::IdMap, A>, AllocError>
    ensures { IfOk result (λ more. NarrowerIds specs.now more.items) }
{
    let mut more = Vec::from_slice(alloc, specs)?;
    for span in ids {
        more.push(cmdline::IdMap::ForbidGuest {
            from_guest: span.first,
            count: span.last.saturating_sub(span.first).saturating_add(1),
        })?;
    }
    Ok(more)
}

/// Whether a specification maps ids of the guest.
fn maps_some(spec: &cmdline::IdMap) -> bool {
    match entry_of(*spec, Direction::GuestToHost) {
        Some(Entry::Map { count, .. } | Entry::Squash { count, .. }) => count > 0,
        _ => false,
    }
}

/// The ids that keep their number under specifications, where ids are mapped. (4294967295 is no id.)
fn kept_of<A: Allocator + Copy>(
    alloc: A,
    ranges: &[UidMap],
    specs: &[cmdline::IdMap],
) -> Result<Vec<Span, A>, AllocError> {
    if !are_mapped(specs, ranges) {
        return Ok(Vec::new(alloc));
    }
    let uncovered = uncovered(alloc, specs)?;
    let same = same_among(alloc, ranges, uncovered.as_slice())?;
    but_no_id(alloc, same.as_slice())
}

/// Those of them that are forbidden, where they are unwanted; none where no specification maps ids of
/// the guest, which would be left none.
fn closed_of<A: Allocator + Copy>(
    alloc: A,
    are_unwanted: bool,
    ranges: &[UidMap],
    specs: &[cmdline::IdMap],
) -> Result<Vec<Span, A>, AllocError> {
    if are_unwanted && specs.iter().any(|spec| maps_some(spec)) {
        kept_of(alloc, ranges, specs)
    } else {
        Ok(Vec::new(alloc))
    }
}

/// The ids that a namespace lacks, where they are unwanted.
fn lacking_of<A: Allocator + Copy>(
    alloc: A,
    are_unwanted: bool,
    ranges: &[UidMap],
) -> Result<Vec<Span, A>, AllocError> {
    if are_unwanted {
        lacking_ids(alloc, ranges)
    } else {
        Ok(Vec::new(alloc))
    }
}

/// The specifications of a set-up, with unwanted ids forbidden. Where some ids do not round-trip and
/// may, none that a specification covers is forbidden. Where no specification is given, none is added
/// beside which ids would keep their number.
pub(super) fn mended_ids<A: Allocator + Copy>(
    alloc: A,
    unwanted: Unwanted,
    set: &IdSetUp<A>,
) -> Result<Vec<cmdline::IdMap, A>, AllocError>
    ensures { IfOk result (λ specs. NarrowerIds set.now.map specs.items) }
{
    let (given, ranges) = (set.map.specs(), set.ranges.as_slice());
    let mut bad = lacking_of(alloc, unwanted.lacking, ranges)?;
    if !unwanted.astray && !ids_astray(alloc, &set.map, bad.as_slice())?.is_empty() {
        let closed = closed_of(alloc, unwanted.kept, ranges, given)?;
        return with_forbidden(alloc, given, closed.as_slice());
    }
    let specs = mended(alloc, &set.map, bad.as_slice())?;
    if given.is_empty() && !kept_of(alloc, ranges, specs.as_slice())?.is_empty() {
        return with_forbidden(alloc, given, &[]);
    }
    let closed = closed_of(alloc, unwanted.kept, ranges, specs.as_slice())?;
    bad.extend_from_slice(closed.as_slice())?;
    mended(alloc, &set.map, bad.as_slice())
}

/// Whether something counts that is found of the guest of a number, of one of these kinds and of such
/// ids.
fn counts<A: Allocator>(
    accepted: &[Kind],
    number: usize,
    found: &[Finding<A>],
    kinds: &[Kind],
    ids: Option<IdKind>,
) -> bool {
    found.iter().any(|it| {
        it.about == About::Guest(number)
            && kinds.contains(&it.kind)
            && !is_accepted(accepted, it.kind)
            && ids_of(&it.evidence) == ids
    })
}

/// What specifications mend.
const OF_IDS: [Kind; 3] = [Kind::NotBack, Kind::Lacking, Kind::Kept];

/// The texts of specifications in which ids of a guest are forbidden; `None` where the given ones stay.
/// They do where a range is at fault, or the kernel shows other ranges than the options: ids that the
/// namespace lacks now may be there when the daemon is started again.
fn mended_texts<A: Allocator + Copy>(
    alloc: A,
    unwanted: Unwanted,
    accepted: &[Kind],
    number: usize,
    kind: IdKind,
    set: &Option<IdSetUp<A>>,
    found: &[Finding<A>],
) -> Result<Option<Vec<String<A>, A>>, AllocError> {
    let Some(set) = set else {
        return Ok(None);
    };
    let has_bad_ranges = set.fault.is_some() || set.differs;
    if has_bad_ranges || !counts(accepted, number, found, &OF_IDS, Some(kind)) {
        return Ok(None);
    }
    let mut texts = Vec::new(alloc);
    for spec in mended_ids(alloc, unwanted, set)?.as_slice() {
        texts.push(format!(in alloc; "{spec}")?)?;
    }
    Ok(Some(texts))
}

/// Whether access control lists are turned off: they stand beside a translation of ids, which they do
/// not go with, and that is not accepted.
fn drops_acl<A: Allocator>(accepted: &[Kind], set: &SetUp<A>) -> bool {
    set.acl_refused && !is_accepted(accepted, Kind::PosixAcl)
        || set.acl_untranslated && !is_accepted(accepted, Kind::AclUntranslated)
}

/// What is tried in place of the options of the guest of a number, of whom that was found. No ids are forbidden where access control lists stay on and no ids are translated yet.
pub(super) fn mended_options<A: Allocator + Copy>(
    alloc: A,
    (mends_ids, mends_names): (bool, bool),
    accepted: &[Kind],
    number: usize,
    guest: &Guest<'_, A>,
    set: &SetUp<A>,
    found: &[Finding<A>],
) -> Result<Options<A>, AllocError> {
    let keeps_acl = guest.options.posix_acl && !drops_acl(accepted, set);
    let unwanted = unwanted_ids(accepted);
    let mut options = Options {
        translate_uid: None,
        translate_gid: None,
        rules: None,
        keeps_acl,
    };
    if mends_ids && (!keeps_acl || set.acl_refused || set.acl_untranslated) {
        let (users, groups) = (IdKind::Users, IdKind::Groups);
        options.translate_uid = mended_texts(
            alloc, unwanted, accepted, number, users, &set.users, found,
        )?;
        options.translate_gid = mended_texts(
            alloc,
            unwanted,
            accepted,
            number,
            groups,
            &set.groups,
            found,
        )?;
    }
    if let Some(names) = &set.names
        && mends_names
    {
        let has = |kind: Kind| counts(accepted, number, found, &[kind], None);
        let (idle, no_rule) = (has(Kind::IdleRule), has(Kind::NoRule));
        if idle || no_rule {
            options.rules = Some(narrowed_rules(alloc, names, idle, no_rule)?);
        }
    }
    Ok(options)
}
