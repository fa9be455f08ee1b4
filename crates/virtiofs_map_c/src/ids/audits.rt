//! Decisions about all ids that arrays of specifications map.
ghost use Rattle.std.specs.Prelude.{◌≡◌, ◌↔◌, List, length, IsTrue, IfOk, IfErr, true, false};
ghost use Rattle.virtiofs_id_audit.specs.IdAudit.{IsAstray, ComesBack, IsShared, IsAlone, GoesInto, Between, ReachedBy, AreIdsApart};
ghost use Rattle.virtiofs_map.specs.Build.{Accepted};
ghost use Rattle.virtiofs_map.specs.declared.cmdline.IdMap.{IdMap as Specification};
ghost use Rattle.virtiofs_map_c.specs.Arrays.{AreSaid, ArrayFault, HasArrayFault, IsAccepted};
ghost use Rattle.virtiofs_map_c.specs.Faults.{ok, TellsFault, MakesOrTells, TellsThis, IsArrayTold, code_of, no_fault};
ghost use Rattle.virtiofs_map_c.specs.Ids.{TellsAudit, TellsReach, IsAstrayTold, IsSharedTold, IsReachTold, IsMeetingTold, HasPairFault, HasFaultAfter};

use crate::arrays::{Spec, read_all};
use crate::codes::{NO_PART, OK};
use crate::fault::Fault;
use std::alloc::Global;
use virtiofs_id_audit::{IdAudit, comes_back, ids_apart, is_alone, reaches};
use virtiofs_map::id_types::{GuestUid, HostUid, Id};
use virtiofs_map::soft_idmap::IdMap;

/// C's `struct virtiofs_ids_found`: the least id that shows an answer.
#[repr(C)]
#[derive(Clone, Copy)]
pub struct IdsFound {
    pub guest: u32,
    pub host: u32,
    pub other: u32,
}

/// A map of ids. (Users and groups are alike here.)
type Ids = IdMap<GuestUid, HostUid>;

/// The map of an array.
fn map_of(alloc: Global, specs: &[Spec]) -> Result<Ids, Fault>
    ensures map { IfOk result (λ map. AreSaid specs.now map × Accepted map) }
    ensures refused { IfErr result (λ told.
        TellsFault (HasArrayFault specs.now) (IsArrayTold (code_of told) told)) }
{
    let list = read_all(alloc, specs)?;
    let map = IdMap::try_from(alloc, list)?;
    Ok(map)
}

/// The map of a second array, whose faults are told behind those of the first.
fn map_behind(alloc: Global, specs: &[Spec], others: &[Spec]) -> Result<Ids, Fault>
    ensures map { IfOk result (λ map. AreSaid others.now map × Accepted map) }
    ensures refused { IfErr result (λ told.
        TellsFault (HasFaultAfter (length specs.now) others.now) (IsArrayTold (code_of told) told)) }
{
    match map_of(alloc, others) {
        Ok(map) => Ok(map),
        Err(told) if told.part == NO_PART => Err(told),
        Err(told) => Err(Fault {
            place: specs.len() + told.place,
            ..told
        }),
    }
}

/// What an id of the guest becomes, and the least id of the other guest that becomes that too.
fn meeting_at(map: &Ids, other: &Ids, guest: GuestUid) -> IdsFound
    requires { GoesInto map.now (ReachedBy other.now) guest }
    ensures guest { result.guest ≡ guest }
    ensures told { IsMeetingTold map.now other.now result }
{
    let Ok(host) = map.map_guest(guest) else {
        unreachable!();
    };
    let Some(second) = reaches(other, host, host) else {
        unreachable!();
    };
    IdsFound {
        guest: guest.into_inner(),
        host: host.into_inner(),
        other: second.into_inner(),
    }
}

#[tactic(auto, using(crate::proofs::ArraysLemmas::array_no_fault))]
#[unsafe(no_mangle)]
pub extern "C" fn virtiofs_map_ids_comes_back(
    alloc: Global,
    specs: &[Spec],
    yes: &mut bool,
    found: &mut IdsFound,
    fault: &mut Fault,
) -> u32
    ensures accepted { result ≡ ok → IsAccepted specs.now }
    ensures answer { (list : List Specification) → AreSaid specs.now list → result ≡ ok
        → TellsAudit (IsAstray list) (IsAstrayTold list) yes.new found.old found.new }
    ensures comes_back { (list : List Specification) → AreSaid specs.now list → result ≡ ok
        → IsTrue yes.new ↔ ComesBack list }
    ensures no_fault { result ≡ ok → fault.new ≡ no_fault }
    ensures keeps { (¬ result ≡ ok) → (yes.new ≡ false) × (found.new ≡ found.old) }
    ensures refused { (¬ result ≡ ok) →
        TellsFault (HasArrayFault specs.now) (IsArrayTold result fault.new) }
    ensures complete { IsAccepted specs.now
        → MakesOrTells (result ≡ ok) (IsArrayTold result fault.new) }
    ensures faulty { (wrong : ArrayFault) → HasArrayFault specs.now wrong
        → TellsThis (IsArrayTold result fault.new) wrong }
{
    *yes = false;
    let map = match map_of(alloc, specs) {
        Ok(map) => map,
        Err(told) => return fault.tell(told),
    };
    match comes_back(&map) {
        IdAudit::Yes => {
            *yes = true;
            fault.none(OK)
        }
        IdAudit::No(no) => {
            *found = IdsFound {
                guest: no.guest.into_inner(),
                host: no.host.into_inner(),
                other: no.back.into_inner(),
            };
            fault.none(OK)
        }
    }
}

#[tactic(auto, using(crate::proofs::ArraysLemmas::array_no_fault))]
#[unsafe(no_mangle)]
pub extern "C" fn virtiofs_map_ids_is_alone(
    alloc: Global,
    specs: &[Spec],
    yes: &mut bool,
    found: &mut IdsFound,
    fault: &mut Fault,
) -> u32
    ensures accepted { result ≡ ok → IsAccepted specs.now }
    ensures answer { (list : List Specification) → AreSaid specs.now list → result ≡ ok
        → TellsAudit (IsShared list) (IsSharedTold list) yes.new found.old found.new }
    ensures alone { (list : List Specification) → AreSaid specs.now list → result ≡ ok
        → IsTrue yes.new ↔ IsAlone list }
    ensures no_fault { result ≡ ok → fault.new ≡ no_fault }
    ensures keeps { (¬ result ≡ ok) → (yes.new ≡ false) × (found.new ≡ found.old) }
    ensures refused { (¬ result ≡ ok) →
        TellsFault (HasArrayFault specs.now) (IsArrayTold result fault.new) }
    ensures complete { IsAccepted specs.now
        → MakesOrTells (result ≡ ok) (IsArrayTold result fault.new) }
    ensures faulty { (wrong : ArrayFault) → HasArrayFault specs.now wrong
        → TellsThis (IsArrayTold result fault.new) wrong }
{
    *yes = false;
    let map = match map_of(alloc, specs) {
        Ok(map) => map,
        Err(told) => return fault.tell(told),
    };
    match is_alone(alloc, &map) {
        Ok(IdAudit::Yes) => {
            *yes = true;
            fault.none(OK)
        }
        Ok(IdAudit::No(no)) => {
            *found = IdsFound {
                guest: no.guest.into_inner(),
                host: no.host.into_inner(),
                other: no.other.into_inner(),
            };
            fault.none(OK)
        }
        Err(_) => fault.tell(Fault::of_kind(1)),
    }
}

#[tactic(auto, using(crate::proofs::ArraysLemmas::array_no_fault))]
#[unsafe(no_mangle)]
pub extern "C" fn virtiofs_map_ids_reaches(
    alloc: Global,
    specs: &[Spec],
    first: u32,
    last: u32,
    yes: &mut bool,
    found: &mut IdsFound,
    fault: &mut Fault,
) -> u32
    ensures accepted { result ≡ ok → IsAccepted specs.now }
    ensures answer { (list : List Specification) → AreSaid specs.now list → result ≡ ok
        → TellsReach (GoesInto list (Between first last)) (IsReachTold list)
        yes.new found.old found.new }
    ensures no_fault { result ≡ ok → fault.new ≡ no_fault }
    ensures keeps { (¬ result ≡ ok) → (yes.new ≡ true) × (found.new ≡ found.old) }
    ensures refused { (¬ result ≡ ok) →
        TellsFault (HasArrayFault specs.now) (IsArrayTold result fault.new) }
    ensures complete { IsAccepted specs.now
        → MakesOrTells (result ≡ ok) (IsArrayTold result fault.new) }
    ensures faulty { (wrong : ArrayFault) → HasArrayFault specs.now wrong
        → TellsThis (IsArrayTold result fault.new) wrong }
{
    *yes = true;
    let map = match map_of(alloc, specs) {
        Ok(map) => map,
        Err(told) => return fault.tell(told),
    };
    let Some(guest) = reaches(&map, HostUid::from(first), HostUid::from(last)) else {
        *yes = false;
        return fault.none(OK);
    };
    let Ok(host) = map.map_guest(guest) else {
        unreachable!();
    };
    *found = IdsFound {
        guest: guest.into_inner(),
        host: host.into_inner(),
        other: 0,
    };
    fault.none(OK)
}

#[unsafe(no_mangle)]
pub extern "C" fn virtiofs_map_ids_apart(
    alloc: Global,
    specs: &[Spec],
    others: &[Spec],
    yes: &mut bool,
    found: &mut IdsFound,
    fault: &mut Fault,
) -> u32
    ensures accepted { result ≡ ok → IsAccepted specs.now × IsAccepted others.now }
    ensures answer { (list other : List Specification) → AreSaid specs.now list
        → AreSaid others.now other → result ≡ ok
        → TellsAudit (GoesInto list (ReachedBy other)) (IsMeetingTold list other)
        yes.new found.old found.new }
    ensures apart { (list other : List Specification) → AreSaid specs.now list
        → AreSaid others.now other → result ≡ ok → IsTrue yes.new ↔ AreIdsApart list other }
    ensures no_fault { result ≡ ok → fault.new ≡ no_fault }
    ensures keeps { (¬ result ≡ ok) → (yes.new ≡ false) × (found.new ≡ found.old) }
    ensures refused { (¬ result ≡ ok) →
        TellsFault (HasPairFault specs.now others.now) (IsArrayTold result fault.new) }
    ensures complete { IsAccepted specs.now → IsAccepted others.now
        → MakesOrTells (result ≡ ok) (IsArrayTold result fault.new) }
    ensures faulty { (wrong : ArrayFault) → HasPairFault specs.now others.now wrong
        → TellsThis (IsArrayTold result fault.new) wrong }
{
    *yes = false;
    let map = match map_of(alloc, specs) {
        Ok(map) => map,
        Err(told) => return fault.tell(told),
    };
    let other = match map_behind(alloc, specs, others) {
        Ok(other) => other,
        Err(told) => return fault.tell(told),
    };
    match ids_apart(alloc, &map, &other) {
        Ok(IdAudit::Yes) => {
            *yes = true;
            fault.none(OK)
        }
        Ok(IdAudit::No(guest)) => {
            *found = meeting_at(&map, &other, guest);
            fault.none(OK)
        }
        Err(_) => fault.tell(Fault::of_kind(1)),
    }
}
