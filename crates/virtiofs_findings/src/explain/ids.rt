//! What becomes of one id, layer by layer: by the specifications, and by the ranges of the daemon's
//! namespace.
ghost use Rattle.std.specs.Prelude.{◌≡◌, ◌↔◌, IsTrue, MatchBool};
ghost use Rattle.virtiofs_map.specs.Mapping.{Covers, Becomes};
ghost use Rattle.virtiofs_findings.specs.ExplainIds.{CoversAt, IsBySpecs, MovesAt, IsByRanges, inside_of, Meets, end_of, back_from, MeetsBack, LeadsTo, ExplainsId};

use crate::ids::Ids;
use crate::setup::IdSetUp;
use std::alloc::Global;
use virtiofs_id_audit::outside::{Way, id_moved};
use virtiofs_map::cmdline::IdMap as Spec;
use virtiofs_map::idmap::UidMap;
use virtiofs_map::soft_idmap::{Direction, entry_of};

/// What Linux shows in place of an id that the namespace does not have.
pub const OVERFLOW_ID: u32 = 65534;

/// What the specifications or the ranges make of an id.
#[derive(Clone, Copy)]
pub struct Layer {
    /// The place, counted from 0, of the one that decides, among the specifications of the map or in the
    /// `ranges` of the set-up; `None` if none has the id.
    pub place: Option<usize>,
    /// What the id becomes; `None` if it becomes nothing.
    pub becomes: Option<u32>,
}

/// The layers that an id meets on its way in a direction. An id of the guest meets the
/// specifications first, and an id of the host the ranges.
#[derive(Clone, Copy)]
pub struct Layers {
    /// The specifications.
    pub specs: Layer,
    /// The ranges; `None` if there are none, or if the id does not come to them.
    pub ranges: Option<Layer>,
}

/// The ways of an id, there and back.
#[derive(Clone, Copy)]
pub struct IdWays {
    /// The way there.
    pub there: Layers,
    /// The way back; `None` if calls fail on the way there.
    pub back: Option<Layers>,
    /// Whether the way back ends where the way there began.
    pub is_round: bool,
}

/// Whether a specification covers an id in a direction.
fn covers(spec: Spec, direction: Direction, id: u32) -> bool
    ensures { MatchBool result (Covers spec direction id) (¬ Covers spec direction id) }
{
    let Some(entry) = entry_of(spec, direction) else {
        return false;
    };
    if id < entry.first() {
        return false;
    }
    u64::from(id) < entry.end()
}

/// The place, counted from 0, of the specification that covers an id.
#[tactic(auto, using(crate::proofs::ListLemmas::at_a_place))]
fn covering(specs: &[Spec], direction: Direction, id: u32) -> Option<usize>
    ensures { CoversAt specs.now direction id result }
{
    for place in 0..specs.len() {
        if covers(specs[place], direction, id) {
            return Some(place);
        }
    }
    None
}

/// What the specifications of a map make of an id.
fn by_specs(map: &Ids<Global>, direction: Direction, id: u32) -> Layer
    ensures { IsBySpecs map.now direction id result }
{
    let place = covering(map.specs(), direction, id);
    let becomes = map.lent().becomes(direction, id);
    Layer { place, becomes }
}

/// What the ranges, of which there are some, make of an id.
#[tactic(auto, using(crate::proofs::ListLemmas::at_a_place))]
fn by_some_ranges(ranges: &[UidMap], way: Way, id: u32) -> Layer
    ensures { MovesAt ranges.now way id result.place result.becomes }
{
    for place in 0..ranges.len() {
        if let Some(moved) = id_moved(way, &ranges[place], id) {
            return Layer {
                place: Some(place),
                becomes: Some(moved),
            };
        }
    }
    Layer {
        place: None,
        becomes: None,
    }
}

/// What the ranges make of the id that comes to them; `None` if none does, or there are none.
fn by_ranges(ranges: &[UidMap], way: Way, id: Option<u32>) -> Option<Layer>
    ensures { IsByRanges ranges.now way id result }
{
    if ranges.is_empty() {
        return None;
    }
    Some(by_some_ranges(ranges, way, id?))
}

/// What an id of the host is inside the namespace.
fn inside_of(id: u32, ranges: Option<Layer>) -> u32
    ensures { result ≡ inside_of id ranges }
{
    match ranges {
        Some(layer) => layer.becomes.unwrap_or(OVERFLOW_ID),
        None => id,
    }
}

/// The layers that an id meets in a direction.
fn layers_of(set: &IdSetUp<Global>, direction: Direction, id: u32) -> Layers
    ensures { Meets direction set.now.map set.now.ranges.items id result }
{
    let all = set.ranges.as_slice();
    match direction {
        Direction::GuestToHost => {
            let specs = by_specs(&set.map, direction, id);
            let ranges = by_ranges(all, Way::Outwards, specs.becomes);
            Layers { specs, ranges }
        }
        Direction::HostToGuest => {
            let ranges = by_ranges(all, Way::Inwards, Some(id));
            let specs = by_specs(&set.map, direction, inside_of(id, ranges));
            Layers { specs, ranges }
        }
    }
}

/// The id at the end of a way in a direction; `None` if calls fail.
fn end_of(direction: Direction, layers: Layers) -> Option<u32>
    ensures { result ≡ end_of direction layers }
{
    match (direction, layers.ranges) {
        (Direction::GuestToHost, Some(ranges)) => ranges.becomes,
        _ => layers.specs.becomes,
    }
}

/// The direction of the way back.
pub fn back_from(direction: Direction) -> Direction
    ensures { result ≡ back_from direction }
{
    match direction {
        Direction::GuestToHost => Direction::HostToGuest,
        Direction::HostToGuest => Direction::GuestToHost,
    }
}

/// The layers on the way of an id in a direction, if there is one.
fn layers_back(set: &IdSetUp<Global>, direction: Direction, id: Option<u32>) -> Option<Layers>
    ensures { MeetsBack direction set.now.map set.now.ranges.items id result }
{
    Some(layers_of(set, direction, id?))
}

/// Whether a way in a direction, if there is one, leads to an id.
fn leads_to(direction: Direction, layers: Option<Layers>, id: u32) -> bool
    ensures { IsTrue result ↔ LeadsTo direction layers id }
{
    let Some(layers) = layers else {
        return false;
    };
    match end_of(direction, layers) {
        Some(end) => end == id,
        None => false,
    }
}

/// What becomes of an id on its way in a direction, and back.
pub(super) fn explain_id(set: &IdSetUp<Global>, direction: Direction, id: u32) -> IdWays
    ensures { ExplainsId set.now.map set.now.ranges.items direction id result }
{
    let there = layers_of(set, direction, id);
    let back = layers_back(set, back_from(direction), end_of(direction, there));
    let is_round = leads_to(back_from(direction), back, id);
    IdWays {
        there,
        back,
        is_round,
    }
}
