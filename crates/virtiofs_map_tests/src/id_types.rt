//! The calls on ids, and code that is generic over a pair of id types, run at three pairs.

use std::alloc::Global;
use std::process::Abort;
use std::test::Fail;
use virtiofs_map::id_types::{GuestGid, GuestId, GuestUid, HostGid, HostId, HostUid, Id, IdOffset};
use virtiofs_map_callers::pairs::{is_mapped_back, is_within, made, moved, moved_back, number_of};
use virtiofs_map_callers::projects::{GuestProject, HostProject, ProjectNumber};

#[test]
fn moves_ends_of_ranges(rt: HostRuntime) {
    let guest = GuestUid::from(5) + (HostUid::from(13) - HostUid::from(8));
    assert_eq!(rt; guest.into_inner(), 10);
    let host = HostGid::from(21) + (GuestGid::from(66) - GuestGid::from(55));
    assert_eq!(rt; host.into_inner(), 32);
    assert_eq!(rt; (GuestUid::from(9) - GuestUid::from(2)).to_u32(), 7);
}

#[test]
fn prints_numbers(rt: HostRuntime) -> Result<(), Fail> {
    check_printed(&rt, rt.alloc(), GuestUid::default(), "0")?;
    check_printed(&rt, rt.alloc(), HostGid::from(4294967295), "4294967295")?;
    let project = GuestProject::from(ProjectNumber(7));
    check_printed(&rt, rt.alloc(), project, "project 7")
}

fn check_printed<I: Id>(rt: &impl Abort, alloc: Global, id: I, text: &str) -> Result<(), Fail> {
    assert_eq!(rt; id.to_string(alloc)?.as_str(), text);
    Ok(())
}

#[test]
fn serves_every_pair(rt: HostRuntime) {
    check_pair::<GuestUid, HostUid>(&rt);
    check_pair::<GuestGid, HostGid>(&rt);
    check_pair::<GuestProject, HostProject>(&rt);
}

/// Each call at one pair of types.
fn check_pair<G, H>(rt: &impl Abort)
where
    G: GuestId<HostType = H>,
    H: HostId<GuestType = G>,
{
    assert!(rt; keeps::<G>(0) && keeps::<H>(4294967295));
    assert!(rt; is_paired::<G, H>(1000));
    assert!(rt; is_within::<G>(made(7), made(7), made(8)));
    assert!(rt; moved::<G, H>(made(7), made(7), made(4294967295)) == made(4294967295));
    assert!(rt; moved_back::<G, H>(made(4294967295), made(4294967290), made(10)) == made(15));
}

/// Whether an id has its number, and is compared by it.
fn keeps<I: Id>(n: u32) -> bool {
    let id: I = made(n);
    number_of(id) == n && (id < made(1000)) == (n < 1000) && id.is_root() == (n == 0)
}

fn is_paired<G, H>(n: u32) -> bool
where
    G: GuestId<HostType = H>,
    H: HostId<GuestType = G>,
{
    let (guest, host): (G, H) = (made(n), made(n));
    guest.id_mapped() == host && host.id_mapped() == guest && is_mapped_back(guest)
}
