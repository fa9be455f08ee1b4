//! What the texts of guests set up, and which of them are refused.
ghost use Rattle.std.specs.Prelude.{◌≡◌, ◌≢◌, ◌++◌, ◌∷◌, ◌↔◌, [], IfOk, IfErr, IfSome, IfNone, IsTrue, IsFalse, OnOk, option_map, Some, None, string_bytes};
ghost use Rattle.std.specs.List.{AllZip};
ghost use Rattle.std.specs.Str.{chars};
ghost use Rattle.virtiofs_map.specs.Refusal.{OutOfMemoryOr};
ghost use Rattle.virtiofs_map.specs.RulesFault.{RulesFault, HasRulesFault, rules_fault_of};
ghost use Rattle.std.specs.Option.{option_map};
ghost use Rattle.virtiofs_findings.specs.Guests.{ReadsSpecs, SayRanges, ReadsRanges, ReadsIds, RunsIn, is_by_another, bounds_of, specs_of, written_of, process_of, has_ranges, acts_as_own, no_start, no_start_of, RefusesRules, ReadsText, ReadsNames, SetsUp, Translates, passes};
ghost use Rattle.virtiofs_map.specs.Printed.{build_error_text, rules_error_text};
ghost use Rattle.virtiofs_findings.specs.Lists.{Adds};
ghost use Rattle.virtiofs_findings.specs.Refusals.{refusal_of, place_of, TellsSpecsFault, TellsSpecs, TellsNoRange, TellsRanges, TellsIds, TellsNames, TellsGuest, TellsGuests};
ghost use Rattle.virtiofs_map.specs.Specifications.{SpecsFault, specs_fault_of, texts_of};

use crate::guest::Guest;
use crate::ids::Ids;
use crate::ids::kind::IdKind;
use crate::ids::namespace::{differ, ranges_of, said_own, taken};
use crate::ids::ranges::{RangeFound, first_fault};
use crate::refusal::{Refusal, Refused};
use std::alloc::{AllocError, Allocator};
use virtiofs_host::runner::Bounds;
use virtiofs_map::cmdline;
use virtiofs_map::idmap::UidMap;
use virtiofs_map::soft_idmap::{IdMap, IdMapBuildError, SpecsError};
use virtiofs_map::xattrmap::{Error, ErrorKind, XattrMap};
use virtiofs_options::guest::Sandbox;
use virtiofs_options::starter::By;

/// What the options of a daemon set up for ids of one kind.
#[derive(Drop)]
pub struct IdSetUp<A: Allocator> {
    /// The map of the specifications.
    pub map: Ids<A>,
    /// The ranges of the options.
    pub written: Vec<UidMap, A>,
    /// The first of these that is at fault.
    pub fault: Option<RangeFound>,
    /// Whether the kernel shows other ranges than these.
    pub differs: bool,
    /// The ranges by which the daemon acts as ids: those of its namespace, without 65534 where it is none
    /// of their ids (one may then be two); without a namespace, the own id of who can act as no other.
    /// Empty where it acts as each id of the host. Places here are not those of `written`.
    pub ranges: Vec<UidMap, A>,
}

/// What the rules of a daemon set up for names.
#[derive(Drop)]
pub struct NamesSetUp<A: Allocator> {
    /// The map of the rules.
    pub map: XattrMap<A>,
    /// How many rules are written in the text. A `map` rule is one of them.
    pub written: usize,
}

/// Why a daemon does not start as the user who runs it, or in its sandbox.
#[derive(Clone, Copy)]
pub enum NoStart {
    /// It is root, and has a range of a namespace.
    MapsAsRoot,
    /// It has a range of a namespace, and another sandbox than namespaces.
    MapsOutside,
    /// It is not root, and its sandbox is another root folder.
    ChrootByUser,
}

/// What the options of the daemon of a guest set up.
#[derive(Drop)]
pub struct SetUp<A: Allocator> {
    /// For users; `None` where a text for them is refused, or it is not known as which user it acts.
    pub users: Option<IdSetUp<A>>,
    /// For groups; the same.
    pub groups: Option<IdSetUp<A>>,
    /// The rules for names; `None` where there are none, or where they are refused.
    pub names: Option<NamesSetUp<A>>,
    /// Whether all names pass as they are: extended attributes are on, and there are no rules.
    pub passes: bool,
    /// Whether access control lists are on.
    pub posix_acl: bool,
    /// Whether `--posix-acl` stands beside a translation of ids, with which the daemon does not start.
    pub acl_refused: bool,
    /// Whether access control lists are on beside a translation all the same, by `-o posix_acl`. The ids in
    /// them are then not translated.
    pub acl_untranslated: bool,
    /// Why the daemon does not start as the user who runs it, or in its sandbox.
    pub no_start: Option<NoStart>,
    /// The process of the daemon, if it runs already.
    pub process: Option<u32>,
}

/// Tells that a text of the options of a guest is refused, and why.
fn tell<A: Allocator>(
    refusals: &mut Vec<Refusal<A>, A>,
    guest: usize,
    what: Refused,
    why: String<A>,
) -> Result<(), AllocError>
    ensures { OnOk result
        (refusals.new.items ≡ refusals.old.items ++ refusal_of guest what why ∷ []) }
{
    refusals.push(Refusal { guest, what, why })?;
    Ok(())
}

/// The place of the specification at fault; `None` where memory ran out.
fn place_of<A: Allocator>(error: &SpecsError<A>) -> Option<usize>
    ensures { result ≡ option_map place_of (specs_fault_of error.now) }
{
    match error {
        SpecsError::Spec {
            cause: cmdline::IdMapError::OutOfMemory,
            ..
        } => None,
        SpecsError::Build(IdMapBuildError::OutOfMemory) => None,
        SpecsError::Spec { index, .. } => Some(*index),
        SpecsError::Build(IdMapBuildError::RangeOverflow { index, .. }) => Some(*index),
        SpecsError::Build(IdMapBuildError::Intersects { index, .. }) => Some(*index),
    }
}

/// What the library says of texts of specifications of which no map is made.
fn specs_sentence<A: Allocator + Copy>(
    alloc: A,
    error: &SpecsError<A>,
) -> Result<String<A>, AllocError>
    ensures { IfOk result (λ why. (build : IdMapBuildError) → error.now ≡ SpecsError.Build build
        → string_bytes why ≡ build_error_text build) }
{
    match error {
        SpecsError::Spec { cause, .. } => format!(in alloc; "{cause}"),
        SpecsError::Build(build) => {
            let mut why = String::new(alloc);
            write!(why, "{build}")?;
            Ok(why)
        }
    }
}

/// Tells why no map is made of the texts of specifications of a guest.
fn refuse_specs<A: Allocator + Copy>(
    alloc: A,
    refusals: &mut Vec<Refusal<A>, A>,
    number: usize,
    kind: IdKind,
    error: &SpecsError<A>,
) -> Result<(), AllocError>
    ensures { OnOk result ((fault : SpecsFault) × (specs_fault_of error.now ≡ Some fault)
        × Adds (TellsSpecsFault number kind fault)
        refusals.old.items refusals.new.items) }
{
    let Some(place) = place_of(error) else {
        return Err(AllocError);
    };
    let why = specs_sentence(alloc, error)?;
    tell(refusals, number, Refused::Spec(kind, place), why)
}

/// The map of the specifications of a guest, or none where a text is refused.
fn read_specs<A: Allocator + Copy>(
    alloc: A,
    refusals: &mut Vec<Refusal<A>, A>,
    number: usize,
    kind: IdKind,
    texts: &[&str],
) -> Result<Option<Ids<A>>, AllocError>
    ensures read { IfOk result (ReadsSpecs (texts_of texts.now)) }
    ensures says { OnOk result (Adds (TellsSpecs number kind (texts_of texts.now))
        refusals.old.items refusals.new.items) }
{
    match IdMap::from_specs(alloc, texts) {
        Ok(map) => Ok(Some(map)),
        Err(error) => {
            refuse_specs(alloc, refusals, number, kind, &error)?;
            Ok(None)
        }
    }
}

/// The ranges of a guest, or none where a text says no range.
fn say_ranges<A: Allocator + Copy>(
    alloc: A,
    refusals: &mut Vec<Refusal<A>, A>,
    number: usize,
    kind: IdKind,
    texts: &[&str],
) -> Result<Option<Vec<UidMap, A>>, AllocError>
    ensures read { IfOk result (λ ranges. SayRanges (texts_of texts.now)
        (option_map (λ all. all.items) ranges)) }
    ensures says { OnOk result (Adds (TellsNoRange number kind (texts_of texts.now))
        refusals.old.items refusals.new.items) }
{
    let mut ranges = Vec::new(alloc);
    for place in 0..texts.len() {
        match UidMap::from_str(texts[place]) {
            Ok(range) => ranges.push(range)?,
            Err(error) => {
                let why = format!(in alloc; "{error}")?;
                tell(refusals, number, Refused::Range(kind, place), why)?;
                return Ok(None);
            }
        }
    }
    Ok(Some(ranges))
}

/// The ranges of a guest, or none where a text says no range, or it has none and it is not known as which
/// id the daemon acts.
fn read_ranges<A: Allocator + Copy>(
    alloc: A,
    refusals: &mut Vec<Refusal<A>, A>,
    number: usize,
    kind: IdKind,
    by_another: bool,
    texts: &[&str],
) -> Result<Option<Vec<UidMap, A>>, AllocError>
    ensures read { IfOk result (λ ranges. ReadsRanges by_another (texts_of texts.now)
        (option_map (λ all. all.items) ranges)) }
    ensures says { OnOk result (Adds (TellsRanges number kind by_another (texts_of texts.now))
        refusals.old.items refusals.new.items) }
{
    if by_another && texts.is_empty() {
        tell(refusals, number, Refused::Own(kind), String::new(alloc))?;
        return Ok(None);
    }
    say_ranges(alloc, refusals, number, kind, texts)
}

/// The set-up of specifications, and of ranges that are read.
fn in_namespace<A: Allocator + Copy>(
    alloc: A,
    bounds: Option<&Bounds<A>>,
    own_alone: bool,
    map: Ids<A>,
    written: Vec<UidMap, A>,
) -> Result<IdSetUp<A>, AllocError>
    ensures map { IfOk result (λ set. set.map ≡ map) }
    ensures written { IfOk result (λ set. set.written.items ≡ written.items) }
    ensures runs { IfOk result (RunsIn (option_map (λ it. it.now) bounds.entry) own_alone) }
{
    let taken = taken(alloc, said_own(bounds), written.as_slice())?;
    let fault = first_fault(alloc, bounds, taken.as_slice())?;
    let differs = differ(bounds, taken.as_slice());
    let ranges = ranges_of(alloc, bounds, own_alone, taken.as_slice())?;
    Ok(IdSetUp {
        map,
        written,
        fault,
        differs,
        ranges,
    })
}

/// The specifications of a guest for ids of a kind.
fn specs_of<'g, A: Allocator>(guest: &'g Guest<'g, A>, kind: IdKind) -> &'g [&'g str]
    ensures { texts_of result.now ≡ specs_of kind guest.now }
{
    match kind {
        IdKind::Users => guest.options.translate_uid.as_slice(),
        IdKind::Groups => guest.options.translate_gid.as_slice(),
    }
}

/// The ranges of its options.
fn written_of<'g, A: Allocator>(guest: &'g Guest<'g, A>, kind: IdKind) -> &'g [&'g str]
    ensures { texts_of result.now ≡ written_of kind guest.now }
{
    match kind {
        IdKind::Users => guest.options.uid_map.as_slice(),
        IdKind::Groups => guest.options.gid_map.as_slice(),
    }
}

/// What the texts of a guest set up for ids of a kind, or nothing where one is refused.
fn read_ids<A: Allocator + Copy>(
    alloc: A,
    refusals: &mut Vec<Refusal<A>, A>,
    number: usize,
    kind: IdKind,
    guest: &Guest<'_, A>,
) -> Result<Option<IdSetUp<A>>, AllocError>
    ensures read { IfOk result (ReadsIds kind guest.now) }
    ensures says { OnOk result (Adds (TellsIds number kind guest.now)
        refusals.old.items refusals.new.items) }
{
    let map = read_specs(alloc, refusals, number, kind, specs_of(guest, kind))?;
    let (texts, another) = (written_of(guest, kind), is_by_another(guest));
    let ranges = read_ranges(alloc, refusals, number, kind, another, texts)?;
    let Some(map) = map else {
        return Ok(None);
    };
    let Some(written) = ranges else {
        return Ok(None);
    };
    let (bounds, own_alone) = (bounds_of(guest, kind), acts_as_own(guest));
    Ok(Some(in_namespace(alloc, bounds, own_alone, map, written)?))
}

/// What a text of rules sets up, or the first thing that is wrong with it.
fn read_text<A: Allocator + Copy>(alloc: A, text: &str) -> Result<NamesSetUp<A>, Error<A>>
    ensures read { IfOk result (ReadsText (chars text.now)) }
    ensures refused { IfErr result (λ e.
        OutOfMemoryOr (rules_fault_of e) (HasRulesFault (chars text.now))) }
{
    let map = XattrMap::try_from(alloc, text)?;
    let written = XattrMap::written_rules(alloc, text)?;
    Ok(NamesSetUp { map, written })
}

/// Whether an error tells what is wrong with a text of rules. Otherwise it says that memory ran out.
fn tells_fault<A: Allocator>(error: &Error<A>) -> bool
    ensures { IsTrue result ↔ ((fault : RulesFault) × (rules_fault_of error.now ≡ Some fault)) }
{
    match error.rule {
        Some(_) => true,
        None => match error.cause {
            ErrorKind::OutOfMemory => false,
            _ => true,
        },
    }
}

/// What the library says of a text of rules.
fn rules_sentence<A: Allocator + Copy>(alloc: A, error: &Error<A>) -> Result<String<A>, AllocError>
    ensures { IfOk result (λ why. string_bytes why ≡ rules_error_text error.now) }
{
    let mut why = String::new(alloc);
    write!(why, "{error}")?;
    Ok(why)
}

/// What the rules of a guest set up, or nothing where there are no rules or they are refused.
fn read_names<A: Allocator + Copy>(
    alloc: A,
    refusals: &mut Vec<Refusal<A>, A>,
    number: usize,
    rules: Option<&str>,
) -> Result<Option<NamesSetUp<A>>, AllocError>
    ensures read { IfOk result (ReadsNames rules.entry) }
    ensures says { OnOk result (Adds (TellsNames number rules.entry)
        refusals.old.items refusals.new.items) }
{
    let Some(text) = rules else {
        return Ok(None);
    };
    match read_text(alloc, text) {
        Ok(set) => Ok(Some(set)),
        Err(error) => {
            if !tells_fault(&error) {
                return Err(AllocError);
            }
            let why = rules_sentence(alloc, &error)?;
            tell(refusals, number, Refused::Rules, why)?;
            Ok(None)
        }
    }
}

/// Whether all names of a guest pass as they are.
fn passes<A: Allocator>(guest: &Guest<'_, A>) -> bool
    ensures { result ≡ passes guest.now }
{
    guest.options.xattrmap.is_none() && guest.options.has_xattrs()
}

/// Whether the daemon of a guest translates users or groups.
fn translates<A: Allocator>(guest: &Guest<'_, A>) -> bool
    ensures { IsTrue result ↔ Translates guest.now }
{
    !guest.options.translate_uid.is_empty() || !guest.options.translate_gid.is_empty()
}

/// Whether `--posix-acl` stands beside a translation of ids.
fn acl_refused<A: Allocator>(guest: &Guest<'_, A>) -> bool
    ensures { IsTrue result ↔ (IsTrue guest.now.options.acl_flag × Translates guest.now) }
{
    guest.options.acl_flag && translates(guest)
}

/// Whether access control lists are on beside a translation of ids, and not by `--posix-acl`.
fn acl_untranslated<A: Allocator>(guest: &Guest<'_, A>) -> bool
    ensures { IsTrue result ↔ (IsTrue guest.now.options.posix_acl
        × IsFalse guest.now.options.acl_flag × Translates guest.now) }
{
    guest.options.posix_acl && !guest.options.acl_flag && translates(guest)
}

/// What bounds the ids of a kind of the daemon of a guest, if it is said who runs it.
fn bounds_of<'g, A: Allocator>(guest: &'g Guest<'g, A>, kind: IdKind) -> Option<&'g Bounds<A>>
    ensures { option_map (λ it. it.now) result ≡ bounds_of kind guest.now }
{
    match (guest.runner, kind) {
        (Some(runner), IdKind::Users) => Some(&runner.users),
        (Some(runner), IdKind::Groups) => Some(&runner.groups),
        (None, _) => None,
    }
}

/// The process of the daemon of a guest, if it runs already.
fn process_of<A: Allocator>(guest: &Guest<'_, A>) -> Option<u32>
    ensures { result ≡ process_of guest.now }
{
    match guest.runner {
        Some(runner) => runner.process,
        None => None,
    }
}

/// Whether the daemon of a guest has a range of a namespace.
fn has_ranges<A: Allocator>(guest: &Guest<'_, A>) -> bool
    ensures { result ≡ has_ranges guest.now }
{
    !guest.options.uid_map.is_empty() || !guest.options.gid_map.is_empty()
}

/// Whether the daemon of a guest acts, for a kind without ranges, as its own id alone: it has ranges of the
/// other kind in a sandbox of namespaces, or it is not root who starts it.
fn acts_as_own<A: Allocator + Copy>(guest: &Guest<'_, A>) -> bool
    ensures { result ≡ acts_as_own guest.now }
{
    matches!(guest.options.kept_apart(), Sandbox::Namespace) && has_ranges(guest)
        || said_own(bounds_of(guest, IdKind::Users)).unwrap_or(0) > 0
}

/// Whether another user than root starts the daemon of a guest, of whom it is not said who it is: words say
/// so, or it has ranges of a namespace, with which root does not start.
fn is_by_another<A: Allocator>(guest: &Guest<'_, A>) -> bool
    ensures { result ≡ is_by_another guest.now }
{
    guest.runner.is_none() && (matches!(guest.options.starter.by, By::Another) || has_ranges(guest))
}

/// Why the daemon of a guest does not start, if it does not run already.
fn no_start_of<A: Allocator + Copy>(guest: &Guest<'_, A>) -> Option<NoStart>
    ensures { result ≡ no_start_of guest.now }
{
    if process_of(guest).is_some() {
        return None;
    }
    no_start(
        has_ranges(guest),
        guest.options.kept_apart(),
        said_own(bounds_of(guest, IdKind::Users)),
    )
}

/// Why a daemon with ranges of a namespace or without, in that sandbox, does not start as that user.
fn no_start(has_ranges: bool, sandbox: Sandbox, starter: Option<u32>) -> Option<NoStart>
    ensures { result ≡ no_start has_ranges sandbox starter }
{
    match (has_ranges, sandbox, starter) {
        (true, Sandbox::Namespace, Some(0)) => Some(NoStart::MapsAsRoot),
        (true, Sandbox::Namespace, _) => None,
        (true, _, _) => Some(NoStart::MapsOutside),
        (false, Sandbox::Chroot, Some(uid)) if uid > 0 => Some(NoStart::ChrootByUser),
        _ => None,
    }
}

/// What the texts of the guest of that number set up.
fn set_up<A: Allocator + Copy>(
    alloc: A,
    refusals: &mut Vec<Refusal<A>, A>,
    number: usize,
    guest: &Guest<'_, A>,
) -> Result<SetUp<A>, AllocError>
    ensures sets_up { IfOk result (SetsUp guest.now) }
    ensures says { OnOk result (Adds (TellsGuest number guest.now)
        refusals.old.items refusals.new.items) }
{
    let users = read_ids(alloc, refusals, number, IdKind::Users, guest)?;
    let groups = read_ids(alloc, refusals, number, IdKind::Groups, guest)?;
    let names = read_names(alloc, refusals, number, guest.options.xattrmap)?;
    Ok(SetUp {
        users,
        groups,
        names,
        passes: passes(guest),
        posix_acl: guest.options.posix_acl,
        acl_refused: acl_refused(guest),
        acl_untranslated: acl_untranslated(guest),
        no_start: no_start_of(guest),
        process: process_of(guest),
    })
}

/// What the options of each guest set up. Guest by guest, the first fault of each option that is
/// refused goes to `refusals`.
pub fn set_up_all<A: Allocator + Copy>(
    alloc: A,
    refusals: &mut Vec<Refusal<A>, A>,
    guests: &[Guest<'_, A>],
) -> Result<Vec<SetUp<A>, A>, AllocError>
    ensures sets_up { IfOk result (λ sets. AllZip SetsUp guests.now sets.items) }
    ensures says { OnOk result (Adds (TellsGuests 1 guests.now)
        refusals.old.items refusals.new.items) }
{
    let mut sets = Vec::new(alloc);
    for place in 0..guests.len() {
        sets.push(set_up(alloc, refusals, place + 1, &guests[place])?)?;
    }
    Ok(sets)
}
