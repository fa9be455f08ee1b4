//! Why a map is not made, as C is told.
ghost use Rattle.std.specs.Option.{option_map_or};
ghost use Rattle.std.specs.Prelude.{◌≡◌};
ghost use Rattle.virtiofs_map.specs.Build.{build_fault_of};
ghost use Rattle.virtiofs_map_c.specs.Arrays.{spec_as_c};
ghost use Rattle.virtiofs_map_c.specs.Faults.{specification, build_told, direction_number, memory_fault, told_at};

use crate::arrays::{Spec, spec_of};
use crate::buffer::write;
use crate::codes::{
    FORBIDDEN, MERGES, NO_ID, NO_MEMORY, NO_PART, NO_ROOM, OK, REFUSED, ROOT_MOVES, SPECIFICATION,
};
use std::alloc::AllocFailed;
use virtiofs_map::cmdline;
use virtiofs_map::soft_idmap::{Direction, IdMapBuildError, RangeEnd};

/// C's `struct virtiofs_fault`: the first fault. What a kind does not use is 0. The header says of
/// each member what it holds.
#[repr(C)]
#[derive(Clone, Copy)]
pub struct Fault {
    pub kind: u32,
    pub part: u32,
    pub direction: u32,
    pub end: u32,
    pub number: u32,
    pub place: usize,
    pub expected: usize,
    pub seen: usize,
    pub quoted: usize,
    pub wanted: usize,
    pub spec: Spec,
}

impl Fault {
    ghost use Rattle.std.specs.Prelude.{◌≡◌, length, encode_utf8_all};
    ghost use Rattle.std.specs.Str.{chars};
    ghost use Rattle.virtiofs_map_c.specs.Faults.{code_of, fault_of_kind, no_fault, quoting, told_at};
    ghost use Rattle.virtiofs_map_c.specs.Replies.{IsQuoted};

    /// A fault that has nothing but its kind.
    pub fn of_kind(kind: u32) -> Fault
        ensures { result ≡ fault_of_kind kind }
    {
        Fault::at(kind, NO_PART, 0)
    }

    /// A fault of a part: its kind, the part and its place.
    pub fn at(kind: u32, part: u32, place: usize) -> Fault
        ensures { result ≡ told_at kind part place }
    {
        Fault {
            kind,
            part,
            direction: 0,
            end: 0,
            number: 0,
            place,
            expected: 0,
            seen: 0,
            quoted: 0,
            wanted: 0,
            spec: Spec {
                kind: 0,
                first: 0,
                to: 0,
                count: 0,
            },
        }
    }

    /// This fault of a text, which is quoted whole where there is room for it.
    pub fn quoting(self, text: &str, quoted: &mut [u8]) -> Fault
        ensures told { result
            ≡ quoting self (length quoted.old) (encode_utf8_all (chars text.now)) }
        ensures quoted { IsQuoted (encode_utf8_all (chars text.now)) quoted.old quoted.new }
    {
        let room = quoted.len();
        let mut wanted = 0;
        write(text.as_bytes(), OK, quoted, &mut wanted);
        Fault {
            quoted: if room < wanted { 0 } else { wanted },
            wanted,
            ..self
        }
    }

    /// Tells that nothing is wrong, and answers the code.
    pub fn none(&mut self, code: u32) -> u32
        ensures code { result ≡ code }
        ensures none { self.new ≡ no_fault }
    {
        *self = Fault::of_kind(0);
        code
    }

    /// Tells this fault, and answers its code.
    pub fn tell(&mut self, told: Fault) -> u32
        ensures code { result ≡ code_of told }
        ensures told { self.new ≡ told }
    {
        *self = told;
        match told.kind {
            1 => NO_MEMORY,
            22 => NO_ROOM,
            25 => NO_ID,
            26 => FORBIDDEN,
            27 => MERGES,
            28 => ROOT_MOVES,
            _ => REFUSED,
        }
    }
}

/// A fault of a specification in a direction.
fn of_spec(kind: u32, spec: cmdline::IdMap, place: usize, direction: Direction) -> Fault
    ensures { result ≡ record (told_at kind specification place) {
      direction = direction_number direction;
      spec = spec_as_c spec;
    } }
{
    Fault {
        direction: match direction {
            Direction::GuestToHost => 0,
            Direction::HostToGuest => 1,
        },
        spec: spec_of(spec),
        ..Fault::at(kind, SPECIFICATION, place)
    }
}

impl From<IdMapBuildError> for Fault {
    ghost from_gives = { λ error told. told ≡ option_map_or build_told (build_fault_of error) memory_fault };

    fn from(error: IdMapBuildError) -> Fault {
        match error {
            IdMapBuildError::OutOfMemory => Fault::of_kind(1),
            IdMapBuildError::RangeOverflow {
                spec,
                index,
                direction,
                range_end,
            } => Fault {
                end: match range_end {
                    RangeEnd::Source => 0,
                    RangeEnd::Target => 1,
                },
                ..of_spec(4, spec, index, direction)
            },
            IdMapBuildError::Intersects {
                spec,
                index,
                direction,
            } => of_spec(5, spec, index, direction),
        }
    }
}

impl<T: Drop> From<AllocFailed<T>> for Fault {
    ghost from_gives = { λ _ told. told ≡ memory_fault };

    fn from(_error: AllocFailed<T>) -> Fault {
        Fault::of_kind(1)
    }
}
