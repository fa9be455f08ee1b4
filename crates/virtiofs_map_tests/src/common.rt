//! Specifications and maps of users, from texts with a bar between each two; and names looked up.

use std::alloc::Allocator;
use std::test::Fail;
use virtiofs_map::id_types::{GuestId, GuestUid, HostId, HostUid};
use virtiofs_map::soft_idmap::IdMap;
use virtiofs_map::xattrmap::{Side, XattrMap, XattrName};
use virtiofs_map::{Steps, cmdline};

/// The specifications; `None` where one is not read. The empty text stands for none.
pub(crate) fn specs_of<A: Allocator + Copy>(
    alloc: A,
    texts: &str,
) -> Option<Vec<cmdline::IdMap, A>> {
    let mut specs = Vec::new(alloc);
    for text in texts.split('|') {
        if !text.is_empty() {
            let spec = cmdline::IdMap::from_str(alloc, text).ok()?;
            specs.push(spec).ok()?;
        }
    }
    Some(specs)
}

/// The map of users; `None` where there is none.
pub(crate) fn users_of<A: Allocator + Copy>(
    alloc: A,
    texts: &str,
) -> Option<IdMap<GuestUid, HostUid, A>> {
    map_of(alloc, texts)
}

/// The map of other ids.
pub(crate) fn map_of<Guest, Host, A>(alloc: A, texts: &str) -> Option<IdMap<Guest, Host, A>>
where
    Guest: GuestId<HostType = Host>,
    Host: HostId<GuestType = Guest>,
    A: Allocator + Copy,
{
    IdMap::try_from(alloc, specs_of(alloc, texts)?).ok()
}

/// The first rule of a name, and the steps that it took to find it.
pub(crate) fn first(map: &XattrMap, side: Side, name: &str) -> Result<(Option<usize>, u64), Fail> {
    let name = XattrName::new(name.as_bytes()).ok_or("a name holds a zero")?;
    let mut steps = Steps::new();
    let found = map.first_rule(side, name, &mut steps);
    Ok((found, steps.count()))
}
