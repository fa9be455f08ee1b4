//! Ids of users and of groups: the namespace of a daemon, and what is wrong with ids.

pub(crate) mod audits;
pub mod found;
pub mod kept;
pub mod kind;
pub(crate) mod meeting;
pub(crate) mod namespace;
pub mod ranges;

use virtiofs_map::id_types::{GuestUid, HostUid};
use virtiofs_map::soft_idmap::IdMap;

/// A map of ids. Users and groups have the same texts and the same numbers, so both are read as
/// users.
pub type Ids<A> = IdMap<GuestUid, HostUid, A>;
