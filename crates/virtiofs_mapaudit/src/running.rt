//! Which processes serve guests, and which of these share a directory.
ghost use Rattle.std.specs.Prelude.{◌≡◌, map, IfOk};
ghost use Rattle.virtiofs_mapaudit.specs.Running.{is_child, has_child, is_beside, serving, group, has_beside, items, groups_of};

use std::alloc::{AllocError, Global};

/// A process of a daemon.
#[derive(Clone, Copy)]
pub(crate) struct Running<'a> {
    /// Its number.
    pub(crate) pid: u32,
    /// The number of the process that started it.
    pub(crate) parent: u32,
    /// What the kernel shows as its command line.
    pub(crate) cmdline: &'a [u8],
    /// The directory that it shares; empty where its words say none.
    pub(crate) directory: &'a str,
}

/// Whether a process is a child of the other, with the same command line.
fn is_child(it: Running<'_>, parent: Running<'_>) -> bool
    ensures { result ≡ is_child it.entry parent.entry }
{
    it.parent == parent.pid && it.cmdline == parent.cmdline
}

/// Whether a process has such a child. If it has none, it serves a guest.
fn has_child(all: &[Running<'_>], it: Running<'_>) -> bool
    ensures { result ≡ has_child all.now it.entry }
{
    all.iter().any(|other| is_child(*other, it))
}

/// Whether two processes share one directory.
fn is_beside(it: Running<'_>, other: Running<'_>) -> bool
    ensures { result ≡ is_beside it.entry other.entry }
{
    it.directory == other.directory
}

/// The processes that serve guests.
fn serving<'a>(alloc: Global, all: &[Running<'a>]) -> Result<Vec<Running<'a>>, AllocError>
    ensures { IfOk result (λ it. it.items ≡ serving all.now) }
{
    all.iter()
        .filter(|it| !has_child(all, **it))
        .copied()
        .collect(alloc)
}

/// Those of them that share the directory of one.
fn group<'a>(
    alloc: Global,
    serving: &[Running<'a>],
    it: Running<'a>,
) -> Result<Vec<Running<'a>>, AllocError>
    ensures { IfOk result (λ those. those.items ≡ group serving.now it.entry) }
{
    serving
        .iter()
        .filter(|other| is_beside(**other, it))
        .copied()
        .collect(alloc)
}

/// Whether one of the processes shares the directory of another.
fn has_beside(all: &[Running<'_>], it: Running<'_>) -> bool
    ensures { result ≡ has_beside all.now it.entry }
{
    all.iter().any(|other| is_beside(*other, it))
}

/// The processes that serve guests, those of one directory together, in the order of the first of each.
pub(crate) fn groups<'a>(
    alloc: Global,
    all: &[Running<'a>],
) -> Result<Vec<Vec<Running<'a>>>, AllocError>
    ensures { IfOk result (λ it. map items it.items ≡ groups_of (serving all.now)) }
{
    let serving = serving(alloc, all)?;
    let mut groups = Vec::new(alloc);
    for place in 0..serving.len() {
        let it = serving[place];
        if !has_beside(&serving[..place], it) {
            groups.push(group(alloc, serving.as_slice(), it)?)?;
        }
    }
    Ok(groups)
}
