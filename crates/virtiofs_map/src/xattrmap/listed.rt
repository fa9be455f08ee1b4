//! What becomes of a list of the host's names: the names that the guest sees, one at a time and
//! without copying, and the list that the guest gets.

ghost use Rattle.std.specs.List.{before_first, after_first};
ghost use Rattle.std.specs.Prelude.{◌≡◌, ◌≢◌, ◌==◌, ◌⊎◌, ◌+◌, ◌<◌, ◌≤◌, ℕ, List, [], ◌∷◌, ◌++◌, None, Some, length};
ghost use Rattle.std.specs.Prelude.{take, position, vec_len, All, IfOk, IfErr, IsErr, OnOk, MatchResult};
ghost use Rattle.virtiofs_map.specs.Listing.{listing, list_of};
ghost use Rattle.virtiofs_map.specs.LookupAnswers.{of_no_rule};
ghost use Rattle.virtiofs_map.specs.MapRule.{KeepsGuestsApart};
ghost use Rattle.virtiofs_map.specs.Names.{host_answer, server_answer};
ghost use Rattle.virtiofs_map.specs.NamesImage.{IsMapOf, Says};
ghost use Rattle.virtiofs_map.specs.NamesImageParts.{IsFirstSeen, IsSeenAs, seen_length};
ghost use Rattle.virtiofs_map.specs.Rule.{MappingRule};
ghost use Rattle.virtiofs_map.specs.declared.xattrmap.scopes.Side.TheVariants.{Server};

use crate::xattrmap::errors::{Error, ErrorKind};
use crate::xattrmap::image::Decision;
use crate::xattrmap::scopes::Side;
use crate::xattrmap::{XattrMap, XattrMapRef};
use std::alloc::{Allocator, Global};
use std::iter::FusedIterator;
use std::marker::Model;

/// Where the first zero stands.
fn first_zero(list: &[u8]) -> Option<usize>
    ensures { result ≡ position (λ byte. byte == 0) list.now }
{
    list.iter().position(|byte| *byte == 0)
}

/// The first name of a list, up to a zero or to the end, and the rest of the list after that zero.
/// The zero is looked for behind the bytes of the name that were passed, which hold none.
pub fn cut_name(list: &[u8], passed: usize) -> (&[u8], &[u8])
    requires { passed ≤ length list.now }
    ensures name { All (λ byte. byte ≢ 0) (take passed list.now)
        → result.0.now ≡ before_first (λ byte. byte == 0) list.now }
    ensures rest { All (λ byte. byte ≢ 0) (take passed list.now)
        → result.1.now ≡ after_first (λ byte. byte == 0) list.now }
    ensures shorter { 0 < length list.now → length result.1.now < length list.now }
    ensures within { length result.0.now + length result.1.now ≤ length list.now }
    ensures zero { 0 < length result.1.now
        → length result.0.now + length result.1.now < length list.now }
{
    match first_zero(&list[passed..]) {
        Some(further) => {
            let end = passed + further;
            (&list[..end], &list[end + 1..])
        }
        None => (list, &[]),
    }
}

/// What the guest sees of a name of the host.
#[derive(Clone, Copy)]
pub(crate) enum Seen<'n> {
    Undecided,
    Hidden,
    Listed(&'n [u8]),
}

/// What the guest sees of a name of the host, by what decides it. What is listed is no longer than
/// the name.
#[inline(always)]
fn seen_as<'n>(decision: Decision<'_>, name: &'n [u8]) -> Seen<'n>
    ensures seen { (rules : List MappingRule) → Says Server rules name.now decision.entry
        → IsSeenAs (host_answer rules name.now) result }
    ensures short { seen_length result ≤ length name.now }
{
    match decision {
        Decision::Undecided | Decision::NoMap => Seen::Undecided,
        Decision::Okay => Seen::Listed(name),
        Decision::Prefix(prepend) => {
            if prepend.len() <= name.len() {
                Seen::Listed(&name[prepend.len()..])
            } else {
                Seen::Undecided
            }
        }
        Decision::Bad => Seen::Hidden,
        Decision::Unsupported => Seen::Hidden,
    }
}

impl XattrMapRef<'_> {
    /// What the guest sees of the first name of a list, and the rest of the list. An empty name is
    /// no name, and hidden.
    #[inline(always)]
    pub(crate) fn first_seen<'n>(self, list: &'n [u8]) -> (Seen<'n>, &'n [u8])
        ensures first { (rules : List MappingRule) → IsMapOf rules self.entry
            → IsFirstSeen rules list.now result.0 result.1.now }
        ensures shorter { 0 < length list.now → length result.1.now < length list.now }
        ensures within { seen_length result.0 + length result.1.now ≤ length list.now }
        ensures zero { 0 < length result.1.now
            → seen_length result.0 + length result.1.now < length list.now }
    {
        let (decision, passed) = self.decide(Side::Server, list);
        let (name, rest) = cut_name(list, passed);
        if name.is_empty() {
            return (Seen::Hidden, rest);
        }
        (seen_as(decision, name), rest)
    }
}

impl<A: Allocator> XattrMap<A> {
    /// Iterates over the names of the host's list that the guest may see, in order. Each item is
    /// the name as the guest sees it, without a terminating zero. In the list, a zero follows each
    /// name; the last name needs none, and empty names are ignored.
    ///
    /// Each item is a part of the list that was passed in, so nothing is copied or allocated. It
    /// borrows that list, and may outlive the iterator and the map.
    ///
    /// A name that is exactly the prepend of its rule is listed as the empty name. With a zero
    /// after each, the items are the list of [`XattrMap::map_server_xattrlist`], which is one zero
    /// if there are none.
    ///
    /// # Errors
    ///
    /// The first name that no rule decides ends the iterator: it gives one `Err` with
    /// `UnterminatedMapping`, which blames no rule, and then only `None`. There is no other error.
    pub fn listed_names<'m, 'a>(&'m self, list: &'a [u8]) -> ListedNames<'m, 'a, A>
        // The names kept before the first that no rule decides, and then the error, if there is one.
        ensures items { result ≡ listing self.now list.now }
        // The names, if no error comes, are those of the whole list.
        ensures whole_list { list_of result ≡ server_answer self.now list.now }
    {
        ListedNames {
            map: self,
            rest: list,
        }
    }
}

/// The names of a list that the guest sees, as [`XattrMap::listed_names`] gives them. In contracts
/// it is the list of the items that are left.
///
/// It ends after its first error at the latest. After its end each call gives `None`.
#[derive(Drop)]
#[derive_where(Debug)]
pub struct ListedNames<'m, 'a, A: Allocator = Global> {
    map: &'m XattrMap<A>,
    rest: &'a [u8],
}

impl<'m, 'a, A: Allocator> Model for ListedNames<'m, 'a, A> {
    ghost use Rattle.std.specs.Prelude.{ℕ, List, Result};
    ghost use Rattle.virtiofs_map.specs.Listing.{listing};
    ghost use Rattle.virtiofs_map.specs.declared.xattrmap.errors.Error.{Error};

    ghost Value = { List (Result (List ℕ) (Error A)) };

    ghost view = { λ names. listing names.map.now names.rest.now };
}

impl<'m, 'a, A: Allocator> Iterator for ListedNames<'m, 'a, A> {
    ghost use Rattle.std.specs.Iterator.{YieldsFirstBy, item_count};
    ghost use Rattle.virtiofs_map.specs.Listing.{item_bytes};

    type Item = Result<&'a [u8], Error<A>>;

    // A call gives the first item that is left, and leaves the others. Where nothing is left, it
    // gives nothing, and nothing is left again.
    ghost next_gives = { YieldsFirstBy (λ item. item_bytes item) (λ left. left) };

    ghost remaining = { item_count (λ left. left) };

    fn next(&mut self) -> Option<Result<&'a [u8], Error<A>>> {
        'names: while !self.rest.is_empty() {
            let (seen, rest) = self.map.as_ref().first_seen(self.rest);
            self.rest = rest;
            match seen {
                Seen::Listed(listed) => return Some(Ok(listed)),
                Seen::Hidden => {}
                Seen::Undecided => {
                    self.rest = &[];
                    return Some(Err(Error::from(ErrorKind::UnterminatedMapping)));
                }
            }
        }
        None
    }
}

impl<'m, 'a, A: Allocator> FusedIterator for ListedNames<'m, 'a, A> {}

/// Appends a name and a zero.
fn push_name<A: Allocator>(list: &mut Vec<u8, A>, name: &[u8]) -> Result<(), Error<A>>
    ensures pushed { OnOk result (list.new.items ≡ list.old.items ++ name.now ++ 0 ∷ []) }
    ensures error { IfErr result (λ error. error ≡ of_no_rule ErrorKind.OutOfMemory) }
{
    list.extend_from_slice(name)?;
    list.push(0)?;
    Ok(())
}

impl<A: Allocator + Copy> XattrMap<A> {
    /// Makes the list that the guest gets for the host's list of names. In a list a zero follows
    /// each name; the last name needs none, and empty names are ignored. For each name the first
    /// rule decides that acts on the server's side and whose prepend the name starts with: the name
    /// is listed unchanged, listed without the prepend, or hidden.
    ///
    /// If no name is left, the list is one zero. So the resulting list is never empty, and it is at
    /// most one byte longer than the one that was passed in.
    ///
    /// If the map is a single `map` rule with an empty key, names that start with another guest's
    /// prepend make no difference to the list, provided that neither of the two prepends is the
    /// beginning of the other.
    ///
    /// # Errors
    ///
    /// No error blames a rule.
    ///
    /// - `OutOfMemory`: an allocation failed.
    /// - `UnterminatedMapping`: no rule decides one of the names. The whole list is then rejected.
    ///   This error is not returned in any other case.
    #[tactic(auto, using(crate::proofs::MapRuleLemmas::guests_apart))]
    pub fn map_server_xattrlist(&self, alloc: A, names: Vec<u8, A>) -> Result<Vec<u8, A>, Error<A>>
        ensures answer { IfOk result (λ list.
            server_answer self.now names.items ≡ Some list.items) }
        // Where each name is decided, the list is answered, or memory runs out.
        ensures complete { (list : List ℕ) → server_answer self.now names.items ≡ Some list
            → MatchResult result
            (λ listed. listed.items ≡ list)
            (λ error. error ≡ of_no_rule ErrorKind.OutOfMemory) }
        ensures undecided { server_answer self.now names.items ≡ None → IsErr result }
        ensures unterminated { result ≡ Err (of_no_rule ErrorKind.UnterminatedMapping)
            → server_answer self.now names.items ≡ None }
        ensures errors { IfErr result (λ error.
            (error ≡ of_no_rule ErrorKind.UnterminatedMapping)
            ⊎ (error ≡ of_no_rule ErrorKind.OutOfMemory)) }
        ensures not_empty { IfOk result (λ list. 0 < vec_len list) }
        ensures size { IfOk result (λ list. vec_len list ≤ vec_len names + 1) }
        ensures guests_apart { KeepsGuestsApart self.now names.items }
    {
        let mut listed = Vec::with_capacity(alloc, names.len() + 1)?;
        'names: for name in self.listed_names(names.as_slice()) {
            let Ok(name) = name else {
                return Err(Error::from(ErrorKind::UnterminatedMapping));
            };
            push_name(&mut listed, name)?;
        }
        if listed.is_empty() {
            listed.push(0)?;
        }
        Ok(listed)
    }
}
