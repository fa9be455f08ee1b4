//! Maps of ids between a guest and its host.
//!
//! An [`IdMap`] is made from specifications ([`crate::cmdline`]). In each direction, from guest to
//! host and from host to guest, at most one of them covers a number, and says what it becomes. A
//! number that none covers stays itself.
ghost use Rattle.std.specs.Prelude.{◌≡◌, List, [], IsOk, IfOk, IfErr, OnOk, MatchResult};
ghost use Rattle.virtiofs_map.specs.Build.{Accepted, BuildFault, HasFirstFault, build_fault_of};
ghost use Rattle.virtiofs_map.specs.Image.{IsImage};
ghost use Rattle.virtiofs_map.specs.Lookup.{LooksUp};
ghost use Rattle.virtiofs_map.specs.Mapping.{Becomes};
ghost use Rattle.virtiofs_map.specs.MappingLaws.{IsOrderFree, KeepsGreatest, IsMappedBothWays, LeadsBack};
ghost use Rattle.virtiofs_map.specs.LookupSteps.{acting, least_steps, most_steps};
ghost use Rattle.virtiofs_map.specs.Refusal.{IsOutOfMemory, OutOfMemoryOr};
ghost use Rattle.virtiofs_map.specs.Specifications.{texts_of, AllSay, SpecsFault, HasSpecsFault, specs_fault_of};
ghost use Rattle.virtiofs_map.specs.Specifications.{NamesReached};
ghost use Rattle.virtiofs_map.specs.Steps.{CountsBetween};
ghost use Rattle.virtiofs_map.specs.WordParts.{HasRanges};
ghost use Rattle.virtiofs_map.specs.declared.cmdline.IdMap.{IdMap as Specification};
ghost use Rattle.virtiofs_map.specs.declared.soft_idmap.entry.Direction.TheVariants.{GuestToHost, HostToGuest};

use crate::id_types::{GuestId, HostId, Id, IdNumber};
use crate::{Steps, cmdline};
use row::Answer;
use std::alloc::{Allocator, Global};
use std::marker::{Model, PhantomData};

mod build;
mod entry;
mod errors;
pub mod image;
mod joins;
pub mod laws;
mod lookup;
mod piece;
mod pieces;
mod row;
mod sorted;
mod stretches;
mod texts;
mod words;
mod write;

pub use entry::{Direction, Entry, entry_of};
pub use errors::{FaultKind, IdMapBuildError, MapError, RangeEnd, SpecsError};
use lookup::look_up;
pub use piece::{Outcome, Piece};
pub use pieces::Pieces;
pub use words::IdMapRef;
use words::Ranges;

/// A map of ids between a guest and its host.
///
/// In contracts a map is the list of its specifications. That list is *accepted*: no range of
/// source ids goes past 4294967294, no range of target ids goes past 4294967295, and no two
/// specifications cover the same number in the same direction.
#[derive(Drop)]
pub struct IdMap<
    Guest: GuestId<HostType = Host>,
    Host: HostId<GuestType = Guest>,
    A: Allocator = Global,
> {
    specs: Vec<cmdline::IdMap, A>,
    words: Vec<u32, A>,
    guest: PhantomData<Guest>,
    host: PhantomData<Host>,
}

impl<Guest: GuestId<HostType = Host>, Host: HostId<GuestType = Guest>, A: Allocator> Model
    for IdMap<Guest, Host, A> {
    ghost use Rattle.std.specs.Prelude.{List};
    ghost use Rattle.virtiofs_map.specs.declared.cmdline.IdMap.{IdMap as Specification};
    ghost use Rattle.virtiofs_map.specs.Image.{IsImage};
    ghost use Rattle.virtiofs_map.specs.WordParts.{words_lent};

    ghost Value = { List Specification };

    ghost view = { λ map. map.specs.items };

    ghost invariant = { λ map. IsImage map.specs.items (words_lent map.words.items) };
}

impl<Guest: GuestId<HostType = Host>, Host: HostId<GuestType = Guest>, A: Allocator + Copy> IdMap<
    Guest,
    Host,
    A,
> {
    /// The map of no specification, which maps every number to itself.
    ///
    /// It does not allocate.
    #[tactic(auto, using(crate::proofs::WordLemmas::what_is_lent))]
    pub fn empty(alloc: A) -> Self
        ensures { result ≡ [] }
    {
        IdMap {
            specs: Vec::new(alloc),
            words: Vec::new(alloc),
            guest: PhantomData,
            host: PhantomData,
        }
    }

    /// Makes a map from a list of specifications.
    ///
    /// For each specification in order, and for each direction (first from guest to host, then from
    /// host to guest), these three tests are made in this order. The first test that fails
    /// determines the error, and the list is dropped:
    ///
    /// 1. The range of source numbers does not go past 4294967294; else
    ///    [`IdMapBuildError::RangeOverflow`] with [`RangeEnd::Source`].
    /// 2. No earlier specification covers one of these numbers; else
    ///    [`IdMapBuildError::Intersects`].
    /// 3. The range of target numbers does not go past 4294967295; else
    ///    [`IdMapBuildError::RangeOverflow`] with [`RangeEnd::Target`].
    ///
    /// A specification with a count of 0 passes each test. If an allocation fails, the error is
    /// [`IdMapBuildError::OutOfMemory`].
    #[tactic(auto, using(crate::proofs::MappingLawLemmas::what_is_built))]
    pub fn try_from(alloc: A, specs: Vec<cmdline::IdMap, A>) -> Result<Self, IdMapBuildError>
        ensures read { IfOk result (λ map. map ≡ specs.items) }
        ensures accepted { OnOk result (Accepted specs.items) }
        ensures complete { Accepted specs.items
            → MatchResult result (λ map. map ≡ specs.items)
            (λ e. IsOutOfMemory (build_fault_of e)) }
        ensures refused { IfErr result (λ e.
            OutOfMemoryOr (build_fault_of e) (HasFirstFault specs.items)) }
        ensures faulty { (fault : BuildFault) → HasFirstFault specs.items fault
            → MatchResult result (λ _. ⊥)
            (λ e. OutOfMemoryOr (build_fault_of e) (λ told. told ≡ fault)) }
        ensures order { OnOk result (IsOrderFree specs.items) }
        ensures greatest { OnOk result (KeepsGreatest specs.items) }
    {
        let words = build::words_of(alloc, &specs)?;
        Ok(IdMap {
            specs,
            words,
            guest: PhantomData,
            host: PhantomData,
        })
    }

    /// Makes a map from a list of texts, each of which [`cmdline::IdMap::from_str`] reads.
    ///
    /// All texts are read first. The first text that is no specification gives the error
    /// [`SpecsError::Spec`], even if no map could be made from the texts before it. If all texts
    /// can be read, the error is that of [`IdMap::try_from`], in [`SpecsError::Build`].
    ///
    /// If an allocation fails, the error is either [`SpecsError::Spec`] with
    /// [`cmdline::IdMapError::OutOfMemory`] and the index of some text, where all texts before that
    /// one are specifications; or [`SpecsError::Build`] with [`IdMapBuildError::OutOfMemory`].
    #[tactic(auto, using(crate::proofs::SpecificationsLemmas::what_is_read))]
    pub fn from_specs(alloc: A, texts: &[&str]) -> Result<Self, SpecsError<A>>
        ensures read { IfOk result (AllSay (texts_of texts.now)) }
        ensures accepted { IfOk result Accepted }
        ensures complete { (specs : List Specification)
            → AllSay (texts_of texts.now) specs → Accepted specs
            → MatchResult result (λ map. map ≡ specs) (λ e. IsOutOfMemory (specs_fault_of e)) }
        ensures refused { IfErr result (λ e.
            OutOfMemoryOr (specs_fault_of e) (HasSpecsFault (texts_of texts.now))) }
        ensures reached { IfErr result (NamesReached (texts_of texts.now)) }
        ensures faulty { (fault : SpecsFault) → HasSpecsFault (texts_of texts.now) fault
            → MatchResult result (λ _. ⊥)
            (λ e. OutOfMemoryOr (specs_fault_of e) (λ told. told ≡ fault)) }
        ensures order { IfOk result IsOrderFree }
        ensures greatest { IfOk result KeepsGreatest }
    {
        let specs = texts::read_all(alloc, texts)?;
        let map = IdMap::try_from(alloc, specs)?;
        Ok(map)
    }
}

impl<Guest: GuestId<HostType = Host>, Host: HostId<GuestType = Guest>, A: Allocator> IdMap<
    Guest,
    Host,
    A,
> {
    /// Maps an id of the guest to the id of the host. It does not allocate.
    ///
    /// A specification that covers the number of the id says what it becomes. An id that none
    /// covers keeps its number, as 4294967295 always does. Where a specification forbids the id,
    /// the error is [`MapError::ExplicitFailMapping`] with the id.
    ///
    /// **A host id of 4294967295 must not reach `chown`, `setresuid` or the like: Linux reads it as
    /// "leave unchanged", so a file of the guest then belongs to the daemon's own user, often
    /// root.** A guest may ask for any number, and a specification may lead to this one. So test the
    /// result, and answer EINVAL.
    pub fn map_guest(&self, id: Guest) -> Result<Host, MapError<Guest>>
        ensures accepted { Accepted self.now }
        ensures looks_up { LooksUp self.now GuestToHost (Guest.number id) Host.number
            (MapError.ExplicitFailMapping id) result }
        ensures mapped { IsMappedBothWays self.now GuestToHost (Guest.number id)
            → IsOk result }
        ensures leads_back { IsMappedBothWays self.now GuestToHost (Guest.number id)
            → IfOk result (λ host.
            LeadsBack self.now GuestToHost (Guest.number id) (Host.number host)) }
    {
        self.look_up(Direction::GuestToHost, id, &mut Steps::new())
    }

    /// Maps an id of the guest as [`IdMap::map_guest`] does, and counts steps.
    ///
    /// A step is a reading of a range by the search, each time that it reads one. Let n be the number
    /// of specifications that cover one guest id or more. If n is 0, the lookup takes no step.
    /// Else it takes at least one, and at most as many as n has binary digits.
    pub fn map_guest_counted(&self, id: Guest, steps: &mut Steps) -> Result<Host, MapError<Guest>>
        ensures accepted { Accepted self.now }
        ensures looks_up { LooksUp self.now GuestToHost (Guest.number id) Host.number
            (MapError.ExplicitFailMapping id) result }
        ensures mapped { IsMappedBothWays self.now GuestToHost (Guest.number id)
            → IsOk result }
        ensures leads_back { IsMappedBothWays self.now GuestToHost (Guest.number id)
            → IfOk result (λ host.
            LeadsBack self.now GuestToHost (Guest.number id) (Host.number host)) }
        ensures steps { CountsBetween
            (least_steps self.now GuestToHost) (most_steps self.now GuestToHost)
            steps.old steps.new }
    {
        self.look_up(Direction::GuestToHost, id, steps)
    }

    /// Maps an id of the host to the id of the guest. It does not allocate.
    ///
    /// A specification that covers the number of the id says what it becomes. An id that none
    /// covers keeps its number, as 4294967295 always does. Where a specification forbids the id,
    /// the error is [`MapError::ExplicitFailMapping`] with the id. Today no specification can
    /// forbid a host id.
    pub fn map_host(&self, id: Host) -> Result<Guest, MapError<Host>>
        ensures accepted { Accepted self.now }
        ensures looks_up { LooksUp self.now HostToGuest (Host.number id) Guest.number
            (MapError.ExplicitFailMapping id) result }
        ensures mapped { IsMappedBothWays self.now HostToGuest (Host.number id)
            → IsOk result }
        ensures leads_back { IsMappedBothWays self.now HostToGuest (Host.number id)
            → IfOk result (λ guest.
            LeadsBack self.now HostToGuest (Host.number id) (Guest.number guest)) }
    {
        self.look_up(Direction::HostToGuest, id, &mut Steps::new())
    }

    /// Maps an id of the host as [`IdMap::map_host`] does, and counts steps.
    ///
    /// A step is a reading of a range by the search, each time that it reads one. Let n be the number
    /// of specifications that cover one host id or more. If n is 0, the lookup takes no step.
    /// Else it takes at least one, and at most as many as n has binary digits.
    pub fn map_host_counted(&self, id: Host, steps: &mut Steps) -> Result<Guest, MapError<Host>>
        ensures accepted { Accepted self.now }
        ensures looks_up { LooksUp self.now HostToGuest (Host.number id) Guest.number
            (MapError.ExplicitFailMapping id) result }
        ensures mapped { IsMappedBothWays self.now HostToGuest (Host.number id)
            → IsOk result }
        ensures leads_back { IsMappedBothWays self.now HostToGuest (Host.number id)
            → IfOk result (λ guest.
            LeadsBack self.now HostToGuest (Host.number id) (Guest.number guest)) }
        ensures steps { CountsBetween
            (least_steps self.now HostToGuest) (most_steps self.now HostToGuest)
            steps.old steps.new }
    {
        self.look_up(Direction::HostToGuest, id, steps)
    }

    /// The specifications that the map was made from, in their order.
    pub fn specs(&self) -> &[cmdline::IdMap]
        ensures accepted { Accepted self.now }
        ensures specs { result.now ≡ self.now }
    {
        &self.specs
    }

    /// The map as words that are lent. It takes no memory.
    pub fn lent(&self) -> IdMapRef<'_>
        ensures { IsImage self.now result }
    {
        IdMapRef::lent(&self.words)
    }

    /// The ranges of a direction.
    #[tactic(auto, using(crate::proofs::WordLemmas::what_is_lent))]
    fn ranges(&self, direction: Direction) -> Ranges<'_>
        ensures accepted { Accepted self.now }
        ensures ranges { HasRanges self.now direction result }
        ensures counted { result.count ≡ acting self.now direction }
    {
        self.lent().ranges(direction)
    }

    /// What a number becomes in a direction; `None` where its use fails.
    fn becomes(&self, direction: Direction, n: u32, steps: &mut Steps) -> Option<u32>
        ensures accepted { Accepted self.now }
        ensures becomes { Becomes self.now direction n result }
        ensures steps { CountsBetween
            (least_steps self.now direction) (most_steps self.now direction)
            steps.old steps.new }
    {
        match look_up(&self.ranges(direction), n, steps) {
            Answer::Becomes(value) => Some(value),
            Answer::Fails => None,
            Answer::NoImage => unreachable!(),
        }
    }

    /// The id of the other side. Each reading of a range counts as a step.
    fn look_up<Source: Id, Target: Id>(
        &self,
        direction: Direction,
        id: Source,
        steps: &mut Steps,
    ) -> Result<Target, MapError<Source>>
        ensures accepted { Accepted self.now }
        ensures looks_up { LooksUp self.now direction (Source.number id) Target.number
            (MapError.ExplicitFailMapping id) result }
        ensures mapped { IsMappedBothWays self.now direction (Source.number id)
            → IsOk result }
        ensures leads_back { IsMappedBothWays self.now direction (Source.number id)
            → IfOk result (λ target.
            LeadsBack self.now direction (Source.number id) (Target.number target)) }
        ensures steps { CountsBetween
            (least_steps self.now direction) (most_steps self.now direction)
            steps.old steps.new }
    {
        let n = number_of(id);
        match self.becomes(direction, n, steps) {
            Some(target) => Ok(id_of(target)),
            None => Err(MapError::ExplicitFailMapping { id }),
        }
    }
}

/// The number of an id.
pub fn number_of<I: Id>(id: I) -> u32
    ensures { result ≡ I.number id }
{
    id.into_inner().to_u32()
}

/// The id of a number.
pub fn id_of<I: Id>(n: u32) -> I
    ensures { I.number result ≡ n }
{
    let inner = I::Inner::from_u32(n);
    let id = I::from(inner);
    I::keeps(inner, id);
    id
}
