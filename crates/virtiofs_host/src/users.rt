//! The users of a host, as `/etc/passwd` lists them, and the names of users and of groups.
ghost use Rattle.std.specs.Prelude.{◌↔◌, IsTrue, IfOk};
ghost use Rattle.virtiofs_host.specs.Lines.{lines, AllSaid, FirstSaid};
ghost use Rattle.virtiofs_host.specs.Users.{IsUserName, SaysUser, SaysName};

use crate::cut::cut;
use crate::decimal::decimal;
use crate::lines::{LineReader, all_said, first_said};
use std::alloc::{AllocError, Allocator};

/// A user.
#[derive(Clone, Copy)]
pub struct User<'a> {
    /// The name.
    pub name: &'a [u8],
    /// The group that the user belongs to.
    pub gid: u32,
}

/// Whether a field is the name of a user or a group.
fn is_user_name(name: &[u8]) -> bool
    ensures { IsTrue result ↔ IsUserName name.now }
{
    match name.first() {
        None => false,
        Some(first) => *first != b'#' && *first != b'+' && *first != b'-',
    }
}

/// Lines that say the user with a number.
#[derive(Clone, Copy)]
struct UserReader {
    uid: u32,
}

impl<'a> LineReader<'a> for UserReader {
    type Value = User<'a>;

    ghost says = { λ reader. SaysUser reader.uid };

    fn of_line(&self, line: &'a [u8]) -> Option<User<'a>> {
        let (name, rest) = cut(line, b':');
        let (_, rest) = cut(rest?, b':');
        let (number, rest) = cut(rest?, b':');
        let (group, _) = cut(rest?, b':');
        if !is_user_name(name) || decimal(number) != Some(self.uid) {
            return None;
        }
        let gid = decimal(group)?;
        Some(User { name, gid })
    }
}

/// Finds the user with that number in the content of `/etc/passwd`: by the first line that is
/// `NAME:PASSWORD:UID:GID`, maybe with further fields, and has the number as its third field.
pub fn find_user(text: &[u8], uid: u32) -> Option<User<'_>>
    ensures { FirstSaid (SaysUser uid) (lines text.now) result }
{
    first_said(&UserReader { uid }, text)
}

/// A user or a group.
#[derive(Clone, Copy)]
pub struct Named<'a> {
    /// The name.
    pub name: &'a [u8],
    /// The number.
    pub id: u32,
}

/// Lines that say a user or a group.
struct NameReader;

impl<'a> LineReader<'a> for NameReader {
    type Value = Named<'a>;

    ghost says = { λ _. SaysName };

    fn of_line(&self, line: &'a [u8]) -> Option<Named<'a>> {
        let (name, rest) = cut(line, b':');
        let (_, rest) = cut(rest?, b':');
        let (number, _) = cut(rest?, b':');
        if !is_user_name(name) {
            return None;
        }
        let id = decimal(number)?;
        Some(Named { name, id })
    }
}

/// Reads the names of the users in the content of `/etc/passwd`, or of the groups in that of
/// `/etc/group`, in the order of the lines. A line begins with `NAME:PASSWORD:NUMBER`; all others are
/// passed over.
///
/// # Errors
///
/// `AllocError`: a request for memory was refused.
pub fn read_names<A: Allocator>(alloc: A, text: &[u8]) -> Result<Vec<Named<'_>, A>, AllocError>
    ensures { IfOk result (λ all. AllSaid SaysName (lines text.now) all.items) }
{
    all_said(alloc, &NameReader, text)
}
