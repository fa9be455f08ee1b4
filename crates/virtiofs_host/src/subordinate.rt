//! The ids that users may give to namespaces, as `/etc/subuid` and `/etc/subgid` list them.
ghost use Rattle.std.specs.Prelude.{◌↔◌, Contains, IsTrue, IfOk};
ghost use Rattle.virtiofs_host.specs.Lines.{lines, AllSaid};
ghost use Rattle.virtiofs_host.specs.SubordinateIds.{GivesIds};

use crate::cut::cut;
use crate::decimal::decimal;
use crate::lines::{LineReader, all_said};
use std::alloc::{AllocError, Allocator};

/// Subordinate ids: the first, and how many.
#[derive(Clone, Copy, Debug, PartialEq, Eq)]
pub struct SubIds {
    /// The first id.
    pub first: u32,
    /// How many ids there are.
    pub count: u32,
}

/// Lines that give ids to the user with a name and a number.
#[derive(Clone, Copy)]
struct IdsReader<'n> {
    name: &'n [u8],
    uid: u32,
}

impl<'a> LineReader<'a> for IdsReader<'_> {
    type Value = SubIds;

    ghost says = { λ reader. GivesIds reader.name.now reader.uid };

    #[tactic(auto, using(crate::proofs::CutLemmas::some_parts))]
    fn of_line(&self, line: &'a [u8]) -> Option<SubIds> {
        let (owner, rest) = cut(line, b':');
        let (first, rest) = cut(rest?, b':');
        let (count, rest) = cut(rest?, b':');
        if rest.is_some() {
            return None;
        }
        if owner != self.name && decimal(owner) != Some(self.uid) {
            return None;
        }
        Some(SubIds {
            first: decimal(first)?,
            count: decimal(count)?,
        })
    }
}

/// Whether the content of `/etc/subuid` or `/etc/subgid` has a carriage return, as before each line feed
/// of a file from another system: `newuidmap` passes over a line that ends in one, and so does
/// [`read_subordinate`].
pub fn has_carriage_return(text: &[u8]) -> bool
    ensures { IsTrue result ↔ Contains text.now 13 }
{
    text.contains(&b'\r')
}

/// Reads which ids the content of `/etc/subuid` or `/etc/subgid` gives to the user with that name
/// and number, in the order of the lines. A line is `OWNER:FIRST:COUNT`, and its owner is a name or
/// a number. All other lines are passed over, comments among them, as `newuidmap` does.
///
/// Some lines are passed over here that `newuidmap` reads: those with a number in hexadecimal or
/// octal or above 4294967295, with a sign or a space before a number, with more than three fields
/// (some versions), and with another name of the same user.
///
/// # Errors
///
/// `AllocError`: a request for memory was refused.
pub fn read_subordinate<A: Allocator>(
    alloc: A,
    text: &[u8],
    name: &[u8],
    uid: u32,
) -> Result<Vec<SubIds, A>, AllocError>
    ensures { IfOk result (λ given.
        AllSaid (GivesIds name.now uid) (lines text.now) given.items) }
{
    all_said(alloc, &IdsReader { name, uid }, text)
}
