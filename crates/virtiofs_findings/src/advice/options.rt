//! Guests with other options.
ghost use Rattle.std.specs.Prelude.{◌≡◌, length, map, string_bytes, IfOk};
ghost use Rattle.virtiofs_findings.specs.Tries.{AreWith, IsWith, bytes_of, texts_or};

use crate::guest::Guest;
use std::alloc::{AllocError, Allocator};
use virtiofs_options::guest::Guest as GuestOptions;

/// What takes the place of options of a guest; `None` where the given ones stay.
#[derive(Drop)]
pub struct Options<A: Allocator> {
    /// The specifications for users.
    pub translate_uid: Option<Vec<String<A>, A>>,
    /// The specifications for groups.
    pub translate_gid: Option<Vec<String<A>, A>>,
    /// The rules for names of attributes.
    pub rules: Option<String<A>>,
    /// Whether access control lists stay on where they are.
    pub keeps_acl: bool,
}

/// The texts, lent.
fn lent<'a, A: Allocator + Copy>(
    alloc: A,
    texts: &'a [String<A>],
) -> Result<Vec<&'a str, A>, AllocError>
    ensures { IfOk result (λ all. bytes_of all.items ≡ map string_bytes texts.now) }
{
    let mut all = Vec::new(alloc);
    for text in texts {
        all.push(text.as_str())?;
    }
    Ok(all)
}

/// The other texts, or the given ones where there are none.
fn other_or_given<'a, A: Allocator + Copy>(
    alloc: A,
    other: &'a Option<Vec<String<A>, A>>,
    given: &[&'a str],
) -> Result<Vec<&'a str, A>, AllocError>
    ensures { IfOk result (λ all. bytes_of all.items ≡ texts_or other.now given.now) }
{
    match other {
        Some(texts) => lent(alloc, texts.as_slice()),
        None => Vec::from_slice(alloc, given),
    }
}

/// A guest with other options.
fn guest_of<'a, A: Allocator + Copy>(
    alloc: A,
    given: &'a Guest<'a, A>,
    other: &'a Options<A>,
) -> Result<Guest<'a, A>, AllocError>
    ensures { IfOk result (IsWith given.now other.now) }
{
    let options = &given.options;
    let xattrmap = match (&other.rules, options.xattrmap) {
        (Some(rules), Some(_)) => Some(rules.as_str()),
        (_, given) => given,
    };
    let (users, groups) = (
        options.translate_uid.as_slice(),
        options.translate_gid.as_slice(),
    );
    Ok(Guest {
        options: GuestOptions {
            translate_uid: other_or_given(alloc, &other.translate_uid, users)?,
            translate_gid: other_or_given(alloc, &other.translate_gid, groups)?,
            uid_map: Vec::from_slice(alloc, options.uid_map.as_slice())?,
            gid_map: Vec::from_slice(alloc, options.gid_map.as_slice())?,
            xattrmap,
            posix_acl: options.posix_acl && other.keeps_acl,
            acl_flag: options.acl_flag && other.keeps_acl,
            xattr: options.has_xattrs(),
            security_label: options.security_label,
            sandbox: options.sandbox,
            starter: options.starter,
        },
        runner: given.runner,
    })
}

/// Guests with other options, one for each.
pub(super) fn guests_of<'a, A: Allocator + Copy>(
    alloc: A,
    given: &'a [Guest<'a, A>],
    others: &'a [Options<A>],
) -> Result<Vec<Guest<'a, A>, A>, AllocError>
    requires same { length others.now ≡ length given.now }
    ensures { IfOk result (λ guests. AreWith given.now others.now guests.items) }
{
    let mut guests = Vec::new(alloc);
    for place in 0..given.len() {
        guests.push(guest_of(alloc, &given[place], &others[place])?)?;
    }
    Ok(guests)
}
