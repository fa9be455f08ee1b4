//! Why a map is not made, and why an id is not mapped.
ghost use Rattle.std.specs.Prelude.{◌≡◌};
ghost use Rattle.virtiofs_map.specs.Build.{kind_of};
ghost use Rattle.virtiofs_map.specs.Printed.{direction_text};

use crate::cmdline;
use crate::id_types::{Id, IdNumber};
use crate::soft_idmap::Direction;
use crate::soft_idmap::entry::entry_of;
use std::alloc::{AllocError, AllocFailed, Allocator, Global};
use std::error::Error;
use std::fmt;

/// Which range of a specification goes too far.
#[derive(Clone, Copy, Debug, PartialEq, Eq)]
pub enum RangeEnd {
    /// The range of source numbers: its last number must be at most 4294967294.
    Source,
    /// The range of target numbers: its last number must be at most 4294967295.
    Target,
}

/// The kind of an error, in the terms of the operating system.
#[derive(Clone, Copy, Debug, PartialEq, Eq)]
pub enum FaultKind {
    /// The use of an id is forbidden.
    PermissionDenied,
    /// A range of a specification goes too far.
    InvalidInput,
    /// Anything else, such as two specifications that cover the same number.
    Other,
    /// An allocation failed.
    OutOfMemory,
}

/// Why an id is not mapped.
#[derive(Clone, Debug, Drop)]
pub enum MapError<Source: Id> {
    /// A specification forbids the use of this id.
    ExplicitFailMapping {
        /// The id that was asked for.
        id: Source,
    },
}

/// The text has the number of the id, whatever the id's own printed form is.
impl<Source: Id> fmt::Display for MapError<Source> {
    ghost use Rattle.std.specs.Prelude.{Some};
    ghost use Rattle.virtiofs_map.specs.Printed.{map_error_text};

    ghost output = { λ error. Some (map_error_text Source.number error) };

    fn fmt<W: fmt::Write>(&self, f: &mut fmt::Formatter<W>) -> fmt::Result {
        let MapError::ExplicitFailMapping { id } = self;
        let number = id.into_inner().to_u32();
        write!(f, "Use of ID {number} has been configured to fail")
    }
}

impl<Source: Id> Error for MapError<Source> {}

impl<Source: Id> From<MapError<Source>> for FaultKind {
    ghost use Rattle.virtiofs_map.specs.declared.soft_idmap.errors.FaultKind.TheVariants.{PermissionDenied};

    ghost from_gives = { λ _ kind. kind ≡ PermissionDenied };

    fn from(_error: MapError<Source>) -> FaultKind {
        FaultKind::PermissionDenied
    }
}

/// Why no map can be made from a list of specifications: the first fault, in the order of the list.
#[derive(Debug, Drop, PartialEq, Eq)]
pub enum IdMapBuildError {
    /// The range of source numbers goes past 4294967294, or the range of target numbers goes past
    /// 4294967295.
    RangeOverflow {
        /// The specification at fault.
        spec: cmdline::IdMap,
        /// The place of that specification in the list, from 0.
        index: usize,
        /// The direction in which its range goes too far.
        direction: Direction,
        /// Which of its two ranges goes too far.
        range_end: RangeEnd,
    },

    /// An earlier specification covers a number that this one covers too.
    Intersects {
        /// The specification at fault.
        spec: cmdline::IdMap,
        /// The place of that specification in the list, from 0.
        index: usize,
        /// The direction in which both cover the number.
        direction: Direction,
    },

    /// An allocation failed.
    OutOfMemory,
}

impl IdMapBuildError {
    /// The kind of the error.
    pub fn kind(&self) -> FaultKind
        ensures { result ≡ kind_of self.now }
    {
        match self {
            IdMapBuildError::RangeOverflow { .. } => FaultKind::InvalidInput,
            IdMapBuildError::Intersects { .. } => FaultKind::Other,
            IdMapBuildError::OutOfMemory => FaultKind::OutOfMemory,
        }
    }
}

/// The direction, as it begins a sentence.
fn name_of(direction: Direction) -> &'static str
    ensures { result.now ≡ direction_text direction }
{
    match direction {
        Direction::GuestToHost => "Guest-to-host",
        Direction::HostToGuest => "Host-to-guest",
    }
}

impl fmt::Display for IdMapBuildError {
    ghost use Rattle.std.specs.Prelude.{Some};
    ghost use Rattle.virtiofs_map.specs.Printed.{build_error_text};

    ghost output = { λ error. Some (build_error_text error) };

    fn fmt<W: fmt::Write>(&self, f: &mut fmt::Formatter<W>) -> fmt::Result {
        match *self {
            IdMapBuildError::RangeOverflow { spec, .. } => {
                write!(f, "Parameter {spec}: Range overflow")
            }
            IdMapBuildError::Intersects {
                spec,
                direction,
                ..
            } => {
                let name = name_of(direction);
                write!(f, "{name} mapping '")?;
                if let Some(entry) = entry_of(spec, direction) {
                    write!(f, "{entry}")?;
                }
                write!(f, "' intersects previously added entry")
            }
            IdMapBuildError::OutOfMemory => write!(f, "Out of memory"),
        }
    }
}

impl Error for IdMapBuildError {}

impl From<AllocError> for IdMapBuildError {
    ghost use Rattle.virtiofs_map.specs.declared.soft_idmap.errors.IdMapBuildError.TheVariants.{OutOfMemory};

    ghost from_gives = { λ _ r. r ≡ OutOfMemory };

    fn from(_error: AllocError) -> IdMapBuildError {
        IdMapBuildError::OutOfMemory
    }
}

/// Why no map can be made from a list of texts.
#[derive(Debug, Drop)]
pub enum SpecsError<A: Allocator = Global> {
    /// The first text, in the order of the list, that cannot be read.
    Spec {
        /// The place of that text in the list, from 0.
        index: usize,
        /// Why it cannot be read.
        cause: cmdline::IdMapError<A>,
    },

    /// All texts could be read, but no map can be made from the specifications; or an allocation
    /// failed outside the reading of a text.
    Build(IdMapBuildError),
}

impl<A: Allocator> From<IdMapBuildError> for SpecsError<A> {
    ghost use Rattle.virtiofs_map.specs.declared.soft_idmap.errors.SpecsError.TheVariants.{Build};

    ghost from_gives = { λ e r. r ≡ Build e };

    fn from(error: IdMapBuildError) -> SpecsError<A> {
        SpecsError::Build(error)
    }
}

impl<T: Drop, A: Allocator> From<AllocFailed<T>> for SpecsError<A> {
    ghost use Rattle.virtiofs_map.specs.declared.soft_idmap.errors.IdMapBuildError.TheVariants.{OutOfMemory};
    ghost use Rattle.virtiofs_map.specs.declared.soft_idmap.errors.SpecsError.TheVariants.{Build};

    ghost from_gives = { λ _ r. r ≡ Build OutOfMemory };

    fn from(_error: AllocFailed<T>) -> SpecsError<A> {
        SpecsError::Build(IdMapBuildError::OutOfMemory)
    }
}
