//! Guests with the same options. What is said of one of them is true of all, and is said once.
ghost use Rattle.std.specs.Prelude.{◌≡◌, ◌<◌, ◌≤◌, length, position, IfOk, IfSome};
ghost use Rattle.virtiofs_findings.specs.AlikeGuests.{are_both, is_same_by, is_same_runner, is_same_starter, have_same_options, have_same_texts, next_alike, count_alike, alike_to, likes_of, is_first, is_told};

use crate::guest::Guest;
use std::alloc::{AllocError, Allocator};
use virtiofs_host::runner::Runner;
use virtiofs_options::starter::{By, Starter};

/// The guests that have the same options as one of them.
#[derive(Clone, Copy)]
pub struct Alike {
    /// The number of the first of them, counted from 1.
    pub first: usize,
    /// The number of the second; that of the first where there is no other.
    pub second: usize,
    /// How many there are.
    pub count: usize,
}

/// Whether both are so, or neither is.
fn are_both(one: bool, other: bool) -> bool
    ensures { result ≡ are_both one other }
{
    if one { other } else { !other }
}

/// Whether the words before the daemon's say the same of both daemons.
fn is_same_by(one: By, other: By) -> bool
    ensures { result ≡ is_same_by one other }
{
    match (one, other) {
        (By::Root, By::Root) => true,
        (By::Another, By::Another) => true,
        (By::InNamespace, By::InNamespace) => true,
        _ => false,
    }
}

/// The same, also by which name.
fn is_same_starter(one: Starter<'_>, other: Starter<'_>) -> bool
    ensures { result ≡ is_same_starter one.entry other.entry }
{
    is_same_by(one.by, other.by) && one.user == other.user
}

/// Whether two guests have one runner, or none is said of both.
fn is_same_runner<A: Allocator>(runner: Option<&Runner<A>>, other: Option<&Runner<A>>) -> bool
    ensures { result ≡ is_same_runner runner.entry other.entry }
{
    match (runner, other) {
        (None, None) => true,
        (Some(runner), Some(other)) => runner.place == other.place,
        _ => false,
    }
}

/// Whether two guests have the same specifications, ranges and rules.
fn have_same_texts<A: Allocator>(guest: &Guest<'_, A>, other: &Guest<'_, A>) -> bool
    ensures { result ≡ have_same_texts guest.now other.now }
{
    let users = guest.options.translate_uid.as_slice() == other.options.translate_uid.as_slice();
    let groups = guest.options.translate_gid.as_slice() == other.options.translate_gid.as_slice();
    let of_users = guest.options.uid_map.as_slice() == other.options.uid_map.as_slice();
    let of_groups = guest.options.gid_map.as_slice() == other.options.gid_map.as_slice();
    let rules = guest.options.xattrmap == other.options.xattrmap;
    users && groups && of_users && of_groups && rules
}

/// Whether two guests have the same options, and one runner.
fn have_same_options<A: Allocator>(guest: &Guest<'_, A>, other: &Guest<'_, A>) -> bool
    ensures { result ≡ have_same_options guest.now other.now }
{
    let texts = have_same_texts(guest, other);
    let lists = are_both(guest.options.posix_acl, other.options.posix_acl);
    let flags = are_both(guest.options.acl_flag, other.options.acl_flag);
    let xattrs = are_both(guest.options.has_xattrs(), other.options.has_xattrs());
    let sandboxes = guest.options.sandbox == other.options.sandbox;
    let starters = is_same_starter(guest.options.starter, other.options.starter);
    let runner = is_same_runner(guest.runner, other.runner);
    texts && lists && flags && xattrs && sandboxes && starters && runner
}

/// The place of the first guest that has the same options as one.
fn place_alike<A: Allocator>(guests: &[Guest<'_, A>], guest: &Guest<'_, A>) -> Option<usize>
    ensures first { result
        ≡ position (λ other. have_same_options other guest.now) guests.now }
    ensures within { IfSome result (λ place. place < length guests.now) }
{
    guests
        .iter()
        .position(|other| have_same_options(other, guest))
}

/// The number of the first guest behind so many that has the same options as one; if there is none, that of
/// the last of these.
fn next_alike<A: Allocator>(guests: &[Guest<'_, A>], guest: &Guest<'_, A>, number: usize) -> usize
    requires { number ≤ length guests.now }
    ensures next { result ≡ next_alike guests.now guest.now number }
    ensures within { result ≤ length guests.now }
{
    match place_alike(&guests[number..], guest) {
        Some(between) => number + between + 1,
        None => number,
    }
}

/// How many guests have the same options as one.
fn count_alike<A: Allocator>(guests: &[Guest<'_, A>], guest: &Guest<'_, A>) -> usize
    ensures { result ≡ count_alike guests.now guest.now }
{
    guests
        .iter()
        .filter(|other| have_same_options(other, guest))
        .count()
}

/// The guests that have the same options as one of them.
pub fn alike_to<A: Allocator>(guests: &[Guest<'_, A>], guest: &Guest<'_, A>) -> Alike
    ensures { result ≡ alike_to guests.now guest.now }
{
    let first = next_alike(guests, guest, 0);
    Alike {
        first,
        second: next_alike(guests, guest, first),
        count: count_alike(guests, guest),
    }
}

/// For each guest, those that have the same options.
pub fn likes_of<A: Allocator + Copy>(
    alloc: A,
    guests: &[Guest<'_, A>],
) -> Result<Vec<Alike, A>, AllocError>
    ensures { IfOk result (λ likes. likes.items ≡ likes_of guests.now) }
{
    guests
        .iter()
        .map(|guest| alike_to(guests, guest))
        .collect(alloc)
}

/// Whether the guest of a number is the first.
pub fn is_first(alike: Alike, number: usize) -> bool
    ensures { result ≡ is_first alike number }
{
    alike.first == number
}

/// Whether what is found of a guest, which has both numbers, or between two, is told: of guests with
/// the same options, that of the first is, and that between the first two.
pub fn is_told(likes: &[Alike], first: usize, second: usize) -> bool
    ensures { result ≡ is_told likes.now first second }
{
    let (Some(one), Some(other)) = (
        likes.get(first.saturating_sub(1)),
        likes.get(second.saturating_sub(1)),
    ) else {
        return true;
    };
    let is_second = other.first == first && other.second == second;
    is_first(*one, first) && (is_first(*other, second) || is_second)
}
