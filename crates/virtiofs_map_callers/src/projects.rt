//! Ids of projects: a pair of id types that the library does not have, with the laws of its traits
//! proved.
//!
//! A project id is made of a [`ProjectNumber`] and not of a `u32`, has an offset of its own, and is
//! printed as `project 7`. So code that works with it rests on the traits alone.
ghost use Rattle.std.specs.Prelude.{◌≡◌, ◌+◌, ◌-◌, ◌≤◌};

use std::fmt;
use std::ops::{Add, Sub};
use virtiofs_map::id_types::{GuestId, HostId, Id, IdNumber, IdOffset};

/// What a project id is made of.
#[derive(Clone, Copy, Debug, PartialEq, Eq, PartialOrd, Ord)]
pub struct ProjectNumber(pub u32);

impl IdNumber for ProjectNumber {
    ghost number = { λ n. n.0 };

    fn to_u32(self) -> u32 {
        self.0
    }

    fn from_u32(n: u32) -> Self {
        ProjectNumber(n)
    }

    fn bounded(self) {}

    fn identified(self, _other: Self) {}

    fn ordered(self, _other: Self) {}
}

/// The distance between two project ids of one side.
#[derive(Clone, Copy)]
pub struct ProjectOffset(pub u32);

impl IdOffset for ProjectOffset {
    ghost number = { λ offset. offset.0 };

    fn to_u32(self) -> u32 {
        self.0
    }

    fn bounded(self) {}
}

/// The id of a project in the guest.
pub type GuestProject = Project<true>;

/// The id of a project on the host.
pub type HostProject = Project<false>;

/// The id of a project on one side.
#[derive(Clone, Copy, Debug, PartialEq, Eq, PartialOrd, Ord)]
pub struct Project<const IS_GUEST: bool>(pub ProjectNumber);

impl<const IS_GUEST: bool> From<ProjectNumber> for Project<IS_GUEST> {
    ghost from_gives = { λ n id. id.0 ≡ n };

    fn from(n: ProjectNumber) -> Self {
        Project(n)
    }
}

impl<const IS_GUEST: bool> Sub for Project<IS_GUEST> {
    type Output = ProjectOffset;

    ghost can_sub = { λ id other. other.0.0 ≤ id.0.0 };

    ghost sub_gives = { λ id other offset. offset.0 ≡ id.0.0 - other.0.0 };

    fn sub(self, other: Self) -> ProjectOffset {
        ProjectOffset(self.0.0 - other.0.0)
    }
}

impl<const IS_GUEST: bool> Add<ProjectOffset> for Project<IS_GUEST> {
    type Output = Self;

    ghost can_add = { λ id offset. id.0.0 + offset.0 ≤ 4294967295 };

    ghost add_gives = { λ id offset total. total.0.0 ≡ id.0.0 + offset.0 };

    fn add(self, offset: ProjectOffset) -> Self {
        Project(ProjectNumber(self.0.0 + offset.0))
    }
}

impl<const IS_GUEST: bool> fmt::Display for Project<IS_GUEST> {
    fn fmt<W: fmt::Write>(&self, f: &mut fmt::Formatter<W>) -> fmt::Result {
        write!(f, "project {}", self.0.0)
    }
}

impl<const IS_GUEST: bool> Id for Project<IS_GUEST> {
    type Inner = ProjectNumber;

    type Offset = ProjectOffset;

    ghost number = { λ id. id.0.0 };

    fn is_root(&self) -> bool {
        self.0.0 == 0
    }

    fn into_inner(self) -> ProjectNumber {
        self.0
    }

    fn bounded(self) {}

    fn keeps(_inner: ProjectNumber, _made: Self) {}

    fn identified(self, _other: Self) {}

    fn ordered(self, _other: Self) {}

    fn subtracts(self, _other: Self) {}
}

impl GuestId for GuestProject {
    type HostType = HostProject;

    fn id_mapped(self) -> HostProject {
        Project(self.0)
    }

    fn difference(self, _other: Self, _offset: ProjectOffset) {}

    fn adds(self, _offset: ProjectOffset) {}

    fn sum(self, _offset: ProjectOffset, _total: Self) {}
}

impl HostId for HostProject {
    type GuestType = GuestProject;

    fn id_mapped(self) -> GuestProject {
        Project(self.0)
    }

    fn difference(self, _other: Self, _offset: ProjectOffset) {}

    fn adds(self, _offset: ProjectOffset) {}

    fn sum(self, _offset: ProjectOffset, _total: Self) {}
}
