//! Who runs a daemon, and what of the host bounds the namespace that it runs in.
ghost use Rattle.std.specs.Prelude.{◌≡◌, ◌⊎◌, ℕ, IfSome, IfNone, IfOk, IfErr};
ghost use Rattle.virtiofs_host.specs.declared.runner.NotShown.TheVariants.{OutOfMemory};
ghost use Rattle.virtiofs_host.specs.Runners.{IsId, SaysUser, name_of, is_own_group, GivesTo, group_of, Starts, is_alone, BoundsShown, SaysNoRanges, IsShown, IsNotShown};

use crate::cut::cut;
use crate::decimal::decimal;
use crate::error::ReadError;
use crate::id_map::read_id_map;
use crate::status::{effective_gid, effective_uid, may_set_gids, may_set_uids};
use crate::subordinate::{SubIds, read_subordinate};
use crate::users::User;
use std::alloc::{AllocError, Allocator};
use virtiofs_map::idmap::UidMap;

/// What bounds the ids of one kind, users or groups.
#[derive(Drop)]
pub struct Bounds<A: Allocator> {
    /// The user, or the group, that the daemon runs as.
    pub own: u32,
    /// Whether it can act as that one alone, where no namespace has others: that is not root, and the
    /// process may not change such ids.
    pub is_alone: bool,
    /// The other ids that `newuidmap` (`newgidmap`) gives to its namespace; `None` where it is not
    /// asked, since the daemon runs already.
    pub given: Option<Vec<SubIds, A>>,
    /// The ranges of the namespace that the daemon runs in, where the kernel shows them.
    pub shown: Option<Vec<UidMap, A>>,
}

/// Who runs a daemon.
#[derive(Drop)]
pub struct Runner<A: Allocator> {
    /// Of users.
    pub users: Bounds<A>,
    /// Of groups.
    pub groups: Bounds<A>,
    /// The process, if it runs already.
    pub process: Option<u32>,
    /// The place of this runner among those that the words name: two guests have the same one where
    /// this is the same.
    pub place: usize,
}

/// A user, and a group if one is said.
#[derive(Clone, Copy, Debug, PartialEq, Eq)]
pub struct RunAs {
    /// The user.
    pub uid: u32,
    /// The group.
    pub gid: Option<u32>,
}

/// Reads an id in decimal. 4294967295 is none.
fn id_of(text: &[u8]) -> Option<u32>
    ensures says { IfSome result (IsId text.now) }
    ensures none { IfNone result ((id : ℕ) → ¬ IsId text.now id) }
{
    let id = decimal(text)?;
    if id == u32::MAX {
        return None;
    }
    Some(id)
}

/// Reads `UID` or `UID:GID`, both in decimal.
#[tactic(auto, using(crate::proofs::CutLemmas::some_parts))]
pub fn read_run_as(text: &str) -> Option<RunAs>
    ensures says { IfSome result (SaysUser text.now) }
    ensures none { IfNone result ((user : RunAs) → ¬ SaysUser text.now user) }
{
    let (user, rest) = cut(text.as_bytes(), b':');
    let uid = id_of(user)?;
    let Some(rest) = rest else {
        return Some(RunAs { uid, gid: None });
    };
    let (group, more) = cut(rest, b':');
    if more.is_some() {
        return None;
    }
    let gid = Some(id_of(group)?);
    Some(RunAs { uid, gid })
}

/// The name that the files of subordinate ids may have of a user: none where the host knows no such
/// user, which is a name that no line can have.
fn name_of<'a>(user: Option<User<'a>>) -> &'a [u8]
    ensures { result.now ≡ name_of user.entry }
{
    match user {
        Some(user) => user.name,
        None => b":",
    }
}

/// Whether a group is that of a user. One who is not known here is of another host, and in that group
/// there.
fn is_own_group(gid: u32, user: Option<User<'_>>) -> bool
    ensures { result ≡ is_own_group gid user.entry }
{
    match user {
        Some(user) => gid == user.gid,
        None => true,
    }
}

/// The other ids that a file gives to a user's namespace: none where `newuidmap` and `newgidmap` refuse
/// the user, as they refuse each whose group is not that of `/etc/passwd`. Root has to have lines too.
fn given_to<A: Allocator + Copy>(
    alloc: A,
    is_own_group: bool,
    text: &[u8],
    name: &[u8],
    uid: u32,
) -> Result<Vec<SubIds, A>, AllocError>
    ensures { IfOk result (λ given.
        GivesTo is_own_group name.now uid text.now given.items) }
{
    if !is_own_group {
        return Ok(Vec::new(alloc));
    }
    read_subordinate(alloc, text, name, uid)
}

/// The group that a daemon runs as which a user starts: the one that is said, or that of the user.
pub fn group_of(run_as: RunAs, user: Option<User<'_>>) -> Option<u32>
    ensures { result ≡ group_of run_as user.entry }
{
    match (run_as.gid, user) {
        (None, Some(user)) => Some(user.gid),
        (gid, _) => gid,
    }
}

/// The runner, of that place, of a daemon that a user of that group starts, where `user` is what
/// `/etc/passwd` says of the user, and these are the contents of `/etc/subuid` and `/etc/subgid`.
///
/// # Errors
///
/// `AllocError`: a request for memory was refused.
pub fn starting<A: Allocator + Copy>(
    alloc: A,
    uid: u32,
    gid: u32,
    user: Option<User<'_>>,
    subuid: &[u8],
    subgid: &[u8],
    place: usize,
) -> Result<Runner<A>, AllocError>
    ensures { IfOk result (Starts uid gid user.entry subuid.now subgid.now place) }
{
    let (name, is_own) = (name_of(user), is_own_group(gid, user));
    Ok(Runner {
        users: Bounds {
            own: uid,
            is_alone: uid > 0,
            given: Some(given_to(alloc, is_own, subuid, name, uid)?),
            shown: None,
        },
        groups: Bounds {
            own: gid,
            is_alone: gid > 0,
            given: Some(given_to(alloc, is_own, subgid, name, uid)?),
            shown: None,
        },
        process: None,
        place,
    })
}

/// What Linux shows of a process: the content of files under `/proc/PID`, by their names there.
#[derive(Clone, Copy)]
pub struct Shown<'a> {
    /// Who runs it.
    pub status: &'a [u8],
    /// The ranges of users of its namespace.
    pub uid_map: &'a [u8],
    /// The ranges of groups.
    pub gid_map: &'a [u8],
}

/// Why it is not said who runs a process.
#[derive(Clone, Copy, Debug, PartialEq, Eq)]
pub enum NotShown {
    /// `status` does not say as which user and which group it runs.
    Status,
    /// `uid_map` is not as Linux writes it.
    UidMap,
    /// `gid_map` is not as Linux writes it.
    GidMap,
    /// A request for memory was refused.
    OutOfMemory,
}

/// Whether a process that runs as that id can act as that one alone, where it may change it or not.
fn is_alone(own: u32, may_change: bool) -> bool
    ensures { result ≡ is_alone own may_change }
{
    own > 0 && !may_change
}

/// The bounds of a process that runs as that id, alone or not.
fn bounds_shown<A: Allocator>(
    alloc: A,
    own: u32,
    is_alone: bool,
    text: &[u8],
    wrong: NotShown,
) -> Result<Bounds<A>, NotShown>
    ensures shown { IfOk result (BoundsShown own is_alone text.now) }
    ensures wrong { IfErr result (λ e. (e ≡ OutOfMemory) ⊎ ((e ≡ wrong) × SaysNoRanges text.now)) }
{
    match read_id_map(alloc, text) {
        Ok(ranges) => Ok(Bounds {
            own,
            is_alone,
            given: None,
            shown: Some(ranges),
        }),
        Err(ReadError::Wrong(_)) => Err(wrong),
        Err(ReadError::OutOfMemory) => Err(NotShown::OutOfMemory),
    }
}

/// The runner, of that place, of a process of that number.
///
/// # Errors
///
/// The first of the files, as [`NotShown`] has them, that does not say what it has to; or a request for
/// memory was refused.
pub fn running<A: Allocator + Copy>(
    alloc: A,
    process: u32,
    shown: Shown<'_>,
    place: usize,
) -> Result<Runner<A>, NotShown>
    ensures shown { IfOk result (IsShown process shown.entry place) }
    ensures refused { IfErr result (IsNotShown shown.entry) }
{
    let ids = (effective_uid(shown.status), effective_gid(shown.status));
    let (Some(uid), Some(gid)) = ids else {
        return Err(NotShown::Status);
    };
    let as_one = is_alone(uid, may_set_uids(shown.status));
    let in_one = is_alone(gid, may_set_gids(shown.status));
    Ok(Runner {
        users: bounds_shown(alloc, uid, as_one, shown.uid_map, NotShown::UidMap)?,
        groups: bounds_shown(alloc, gid, in_one, shown.gid_map, NotShown::GidMap)?,
        process: Some(process),
        place,
    })
}
