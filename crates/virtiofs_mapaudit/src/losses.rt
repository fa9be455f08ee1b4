//! What guests lose by options that are advised, and that is not to be missed.

use crate::summary::{images_of, is_no_id, pieces_of};
use crate::words::{Ids, Made, Set};
use std::alloc::Global;
use virtiofs_findings::setup::IdSetUp;
use virtiofs_map::id_types::{GuestUid, Id};
use virtiofs_map::soft_idmap::Direction;

/// What a guest loses: the word that JSON has for it, and what it means to the guest.
pub(crate) type Loss = (&'static str, &'static str);

/// All users that worked, or else the guest's root.
const USERS: [Loss; 2] = [
    (
        "users",
        "no user is left that works: nobody in the guest creates anything",
    ),
    (
        "user_0",
        "user 0 is forbidden: the guest's root creates nothing and is given nothing; what is there it still opens",
    ),
];

/// All groups that worked, or else the group of the guest's root.
const GROUPS: [Loss; 2] = [
    (
        "groups",
        "no group is left that works: no process of the guest creates anything",
    ),
    (
        "group_0",
        "group 0 is forbidden: processes of that group create nothing",
    ),
];

/// Access control lists.
const ACLS: Loss = (
    "acls",
    "ACLs: off, and those that files have no longer apply in the guest",
);

/// Whether the daemon can act for one of these ids: it is there in the namespace, or it is 0 or
/// 4294967295, for which the daemon switches nothing.
fn has_one(ids: Ids, set: &IdSetUp<Global>) -> bool {
    let is_there = set.ranges.iter().any(|it| {
        let first = u64::from(it.inside_uid);
        ids.first < first + u64::from(it.count) && first <= ids.last
    });
    ids.first == 0 || is_no_id(ids) || set.ranges.is_empty() || is_there
}

/// Whether what specifications make of id 0 of a guest is there.
fn has_root(set: &IdSetUp<Global>) -> bool {
    match set.map.map_guest(GuestUid::from(0)) {
        Ok(id) => has_one(Ids::new(id.into_inner(), id.into_inner()), set),
        Err(_) => false,
    }
}

/// Whether what they make of some id of a guest is there.
fn has_some(alloc: Global, set: &IdSetUp<Global>) -> Made<bool> {
    for piece in pieces_of(alloc, &set.map, Direction::GuestToHost)? {
        if let Some(ids) = images_of(piece)
            && has_one(ids, set)
        {
            return Ok(true);
        }
    }
    Ok(false)
}

/// What the guest of these options loses by the other ones.
pub(crate) fn losses_of(alloc: Global, before: &Set, after: &Set) -> Made<Vec<Loss>> {
    let mut losses = Vec::new(alloc);
    let users = (&before.users, &after.users, USERS);
    for (before, after, [all, root]) in [users, (&before.groups, &after.groups, GROUPS)] {
        let (Some(before), Some(after)) = (before, after) else {
            continue;
        };
        if has_some(alloc, before)? && !has_some(alloc, after)? {
            losses.push(all)?;
        } else if has_root(before) && !has_root(after) {
            losses.push(root)?;
        }
    }
    if before.posix_acl && !after.posix_acl {
        losses.push(ACLS)?;
    }
    Ok(losses)
}

/// The lines on what each guest loses by other options.
pub(crate) fn loss_lines(alloc: Global, before: &[Set], after: &[Set]) -> Made<Vec<String>> {
    let mut lines = Vec::new(alloc);
    for (place, (set, other)) in before.iter().zip(after.iter()).enumerate() {
        for (_, line) in losses_of(alloc, set, other)? {
            let guest = place.saturating_add(1);
            lines.push(format!(in alloc; "guest {guest}: {line}")?)?;
        }
    }
    Ok(lines)
}
