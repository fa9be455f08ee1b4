//! Audits: questions about all names at once. The answers are proved to be right.
//!
//! A map answers for one name at a time ([`xattrmap`](crate::xattrmap)). An administrator asks
//! about all names at once, before a share goes live: does the guest see each name that it sets,
//! does a name that it sees in a list open the attribute that was listed, do two guests on one host
//! see or open the other's attributes, is any name left without a rule? An audit answers for every
//! name there is. If the answer is no, it gives the least name that shows it, in byte order.
//!
//! A name of the guest *passes as* a name of the host if the first rule that fits it lets it
//! through and makes it that name; so it *opens* the attribute of that name. A guest *reaches* a
//! name of the host if some name, perhaps the empty one, passes as it. A name of the host is
//! *hidden* if the first rule that fits it says that it is not listed.
//!
//! - [`audit`]: does each name that passes to the host come back in the list that the guest gets?
//!   `:prefix:client:trusted.:user.: :ok:all:::` is a map that loses a name: the guest sets
//!   `trusted.`, the host stores `user.trusted.`, and the guest's list shows `user.trusted.`.
//! - [`audit_listed`]: does each name in the guest's list open the attribute of the host that was
//!   listed?
//! - [`keeps_apart`]: is each name of the host that the first guest reaches hidden by the other
//!   guest's map? If so, and only then, these names make no difference to the lists of the other.
//! - [`shares_no_name`]: is no name of the host reached by both guests? Two guests with
//!   `:ok:client::: :bad:server:::` are kept apart, since no list shows a name, and share every name.
//! - [`ask`] asks one of these four, of maps that are lent, about the names that begin with given
//!   bytes.
//! - [`XattrMap::is_terminated`]: does each name of either side have a rule?
//! - [`XattrMap::decides`]: does a rule decide any name? In `:ok:all::: :bad:client:a::` the second
//!   rule decides none, since the first takes all names.
//! - [`XattrMap::most_added`]: by how many bytes does a name become longer on the host at most?
//!
//! There is no end of names, but few need to be tried: two names that start with the same patterns
//! are treated alike. The names to try are found from the patterns, and are tried one after the
//! other.
ghost use Rattle.std.specs.Prelude.{◌≡◌, ◌↔◌, IfOk, OnOk, OnErr};
ghost use Rattle.virtiofs_map.specs.Audit.{AnswersLeast, Sound, IsLost, most_tried, OpensListed, IsStray};
ghost use Rattle.virtiofs_map.specs.Audit.{Apart, Isolated, IsSeen, SharesNoName, IsShared};
ghost use Rattle.virtiofs_map.specs.Steps.{CountsBetween};
ghost use Rattle.virtiofs_map.specs.declared.audit.answer.Audit.TheVariants.{Yes};

mod added;
mod answer;
mod asking;
mod candidates;
mod deciding;
mod gathered;
mod least;
mod passing;
mod question;
mod terminated;

use crate::steps::Steps;
use crate::xattrmap::{XattrMap, XattrName};
pub use answer::Audit;
pub use asking::{NameFault, ask};
use candidates::least_bad_name;
use question::Question;
use std::alloc::{AllocError, Allocator};

/// Whether each non-empty name that passes is listed back: if the host's list has only the host
/// name of that name, the guest's list has only that name. `No` has the least non-empty name that
/// passes and is not listed back.
///
/// Memory: space for the keys and the prepends of the rules, for the longest name of the host that is
/// looked up, and for a few names that are not listed back.
///
/// # Errors
///
/// `AllocError`: an allocation failed.
pub fn audit<A: Allocator + Copy>(alloc: A, map: &XattrMap<A>) -> Result<Audit<A>, AllocError>
    ensures answer { IfOk result (AnswersLeast (IsLost map.now)) }
    ensures sound { IfOk result (λ audit. (audit ≡ Yes) ↔ Sound map.now) }
{
    audit_counted(alloc, map, &mut Steps::new())
}

/// Answers as [`audit`] does, and counts the names that were tried. The count is at least 1 and at
/// most 255 + k + k * s, where k rules act on the client's side and s on the server's. (The counter
/// saturates at 18446744073709551615.) If an allocation fails, nothing is counted.
///
/// # Errors
///
/// `AllocError`: an allocation failed.
pub fn audit_counted<A: Allocator + Copy>(
    alloc: A,
    map: &XattrMap<A>,
    steps: &mut Steps,
) -> Result<Audit<A>, AllocError>
    ensures answer { IfOk result (AnswersLeast (IsLost map.now)) }
    ensures sound { IfOk result (λ audit. (audit ≡ Yes) ↔ Sound map.now) }
    ensures counted { OnOk result (CountsBetween 1 (most_tried map.now) steps.old steps.new) }
    ensures uncounted { OnErr result (steps.new ≡ steps.old) }
{
    let (map, beginning) = (map.as_ref(), XattrName { bytes: &[] });
    let question = Question {
        fault: NameFault::Lost,
        map,
        other: map,
        beginning,
    };
    least_bad_name(alloc, &question, steps)
}

/// Whether the second map (`q`) hides every non-empty host name that a guest with the first map
/// (`r`) reaches. A host name that the second map has no rule for is not hidden, nor is one that it
/// lists as the empty name. `No` has the least name of the first guest that passes as a non-empty
/// host name which the second map does not hide.
///
/// The answer is `Yes` if and only if this holds for all pairs of lists from the host: if they
/// differ only in names that the first guest reaches, the second map makes the same of both.
///
/// The answer for (first, second) says nothing about the answer for (second, first): call this
/// again with the maps exchanged.
///
/// Memory: space for the keys and the prepends of the rules, for the longest name of the host that is
/// looked up, and for a few names of the first guest that the second map does not hide.
///
/// # Errors
///
/// `AllocError`: an allocation failed.
pub fn keeps_apart<A: Allocator + Copy>(
    alloc: A,
    r: &XattrMap<A>,
    q: &XattrMap<A>,
) -> Result<Audit<A>, AllocError>
    ensures answer { IfOk result (AnswersLeast (IsSeen r.now q.now)) }
    ensures apart { IfOk result (λ audit. (audit ≡ Yes) ↔ Apart r.now q.now) }
    // The answer is Yes if and only if the guests are isolated.
    ensures isolated { IfOk result (λ audit. (audit ≡ Yes) ↔ Isolated r.now q.now) }
{
    let all = XattrName { bytes: &[] };
    ask(alloc, NameFault::Seen, r.as_ref(), q.as_ref(), all)
}

/// `Yes` if there is no non-empty host name that both guests reach, the one with the first map
/// (`r`) and the one with the second (`q`). Then neither guest opens by name what the other one
/// opens. `No` has the least name of the first guest that passes as a non-empty host name which the
/// second guest reaches too.
///
/// The answer is `Yes` for (first, second) if and only if it is `Yes` for (second, first). It says
/// nothing about lists, which may show a guest names that it does not reach: see [`keeps_apart`].
///
/// Memory: space for the keys and the prepends of the rules, and for the prepends of the second map,
/// for the longest name of the host that is looked up, and for a few names of the first guest that
/// pass as what both guests reach.
///
/// # Errors
///
/// `AllocError`: an allocation failed.
pub fn shares_no_name<A: Allocator + Copy>(
    alloc: A,
    r: &XattrMap<A>,
    q: &XattrMap<A>,
) -> Result<Audit<A>, AllocError>
    ensures answer { IfOk result (AnswersLeast (IsShared r.now q.now)) }
    ensures disjoint { IfOk result (λ audit. (audit ≡ Yes) ↔ SharesNoName r.now q.now) }
    // The other way round it is the same.
    ensures both_ways { IfOk result (λ audit. (audit ≡ Yes) ↔ SharesNoName q.now r.now) }
{
    let all = XattrName { bytes: &[] };
    ask(alloc, NameFault::Shared, r.as_ref(), q.as_ref(), all)
}

/// For each non-empty host name H that is listed to the guest under a name N: does N pass as H?
/// `No` has the least non-empty host name for which it does not.
///
/// Memory: space for the keys and the prepends of the rules, for the longest name of the host that is
/// tried, and for a few names for which the answer is no.
///
/// # Errors
///
/// `AllocError`: an allocation failed.
pub fn audit_listed<A: Allocator + Copy>(
    alloc: A,
    map: &XattrMap<A>,
) -> Result<Audit<A>, AllocError>
    ensures answer { IfOk result (AnswersLeast (IsStray map.now)) }
    ensures opens { IfOk result (λ audit. (audit ≡ Yes) ↔ OpensListed map.now) }
{
    let (map, all) = (map.as_ref(), XattrName { bytes: &[] });
    ask(alloc, NameFault::Stray, map, map, all)
}
