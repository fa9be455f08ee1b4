//! Which ranges `newuidmap` and `newgidmap` set up for a user.
ghost use Rattle.std.specs.Prelude.{◌↔◌, ◌<◌, ◌≤◌, ℕ, IsTrue, MatchOption};
ghost use Rattle.virtiofs_host.specs.Allowed.{IsGiven, AreGiven, IsAllowed};

use crate::subordinate::SubIds;
use virtiofs_map::idmap::UidMap;

/// Where those subordinate ids end, the first of the list, that have the id.
fn end_of(given: &[SubIds], id: u64) -> Option<u64>
    ensures { MatchOption result (¬ IsGiven given.now id) (λ end. (id < end)
        × ((other : ℕ) → id ≤ other → other < end → IsGiven given.now other)) }
{
    for ids in given {
        let first = u64::from(ids.first);
        let end = first + u64::from(ids.count);
        if first <= id && id < end {
            return Some(end);
        }
    }
    None
}

/// Whether each id of a range is a subordinate one.
fn are_given(given: &[SubIds], first: u32, count: u32) -> bool
    ensures { IsTrue result ↔ AreGiven given.now first count }
{
    let end = u64::from(first) + u64::from(count);
    let mut id = u64::from(first);
    while id < end {
        let Some(next) = end_of(given, id) else {
            return false;
        };
        id = next;
    }
    true
}

/// Whether `newuidmap` (or `newgidmap`, for groups) sets up a range for a user with that own id (or
/// group) and those subordinate ids.
///
/// It sets up a range that is the user's own id alone, or that has subordinate ids alone, of one
/// line of `/etc/subuid` or of several, and root is no exception. A range without ids is refused, and so
/// is one with an id above 4294967294. virtiofsd asks for none if the own id alone is the only range.
pub fn is_allowed(own: u32, given: &[SubIds], range: &UidMap) -> bool
    ensures { IsTrue result ↔ IsAllowed own given.now range.now }
{
    let UidMap {
        inside_uid: inside,
        outside_uid: outside,
        count,
    } = *range;
    let greatest = u64::from(u32::MAX);
    if count == 0
        || u64::from(inside) + u64::from(count) > greatest
        || u64::from(outside) + u64::from(count) > greatest
    {
        return false;
    }
    (count == 1 && outside == own) || are_given(given, outside, count)
}
