//! Known lists of specifications: what ids become, and in how many steps.

mod errors;

use crate::common::users_of;
use std::process::Abort;
use std::test::Fail;
use virtiofs_map::id_types::{GuestUid, HostUid};
use virtiofs_map::soft_idmap::IdMap;
use virtiofs_map::{Steps, cmdline};
use virtiofs_map_callers::users::{owner, users, users_again};

type Users = IdMap<GuestUid, HostUid>;

/// Texts of specifications, what guest's numbers become under them, and host's: a number, `=`, and
/// what it becomes, or `-` where its use fails.
static KNOWN: [(&str, &str, &str); 11] = [
    ("map:0:1000:10", TEN, TEN_BACK),
    ("host:1000:0:10|guest:0:1000:10", TEN, TEN_BACK),
    ("FORBID-GUEST:7:3", "8=- 10=10", ""),
    (
        "squash-guest:0:1001:4294967295|host:1001:1000:1",
        "0=1001 4294967294=1001 4294967295=4294967295",
        "1001=1000 1000=1000",
    ),
    ("", SAME, SAME),
    ("guest:4294967295:0:0", SAME, SAME),
    ("guest:0:4294967290:6", "5=4294967295", ""),
    ("guest:0:100:10|guest:5:200:0", "5=105", ""),
    (
        "host:4294967294:4294967295:1|map:4294967295:4294967295:0",
        "",
        "4294967294=4294967295 4294967295=4294967295",
    ),
    // One list in two orders.
    (
        "squash-guest:20:7:5|map:0:1000:10|host:5000:1:2",
        ORDERED,
        ORDERED_BACK,
    ),
    (
        "host:5000:1:2|map:0:1000:10|squash-guest:20:7:5",
        ORDERED,
        ORDERED_BACK,
    ),
];

const TEN: &str = "5=1005 10=10 1005=1005";

const TEN_BACK: &str = "1005=5";

const SAME: &str = "0=0 5=5 4294967295=4294967295";

const ORDERED: &str = "22=7 9=1009";

const ORDERED_BACK: &str = "1009=9 5001=2 5002=5002";

#[test]
fn maps_known_ids(rt: HostRuntime) -> Result<(), Fail> {
    for &(texts, guests, hosts) in &KNOWN {
        let map = users_of(rt.alloc(), texts).ok_or("no map")?;
        for asked in guests.split_whitespace() {
            let (guest, host) = known(asked)?;
            let found = map.map_guest(GuestUid::from(guest)).ok();
            assert!(rt; found == host.map(HostUid::from), "guest {asked}");
        }
        for asked in hosts.split_whitespace() {
            let (host, guest) = known(asked)?;
            let found = map.map_host(HostUid::from(host)).ok();
            assert!(rt; found == guest.map(GuestUid::from), "host {asked}");
        }
    }
    Ok(())
}

/// A number, and what it becomes.
fn known(text: &str) -> Result<(u32, Option<u32>), Fail> {
    let (number, becomes) = text.split_once('=').ok_or("no answer")?;
    let number = number.parse::<u32>()?;
    if becomes == "-" {
        return Ok((number, None));
    }
    Ok((number, Some(becomes.parse::<u32>()?)))
}

/// A number, what it becomes, and the least and the most steps that this may take.
type Counted = (u32, u32, u64, u64);

/// Texts of specifications, and guest's numbers.
static COUNTED: [(&str, &[Counted]); 3] = [
    (
        "guest:0:10:1|guest:2:20:1|guest:4:30:1",
        &[(4, 30, 1, 2), (5, 5, 1, 2)],
    ),
    (
        "guest:5:300:5|guest:0:100:5",
        &[
            (4, 104, 1, 2),
            (5, 300, 1, 2),
            (9, 304, 1, 2),
            (10, 10, 1, 2),
        ],
    ),
    ("host:0:1:9|guest:0:1:0", &[(0, 0, 0, 0)]),
];

#[test]
fn asks_few_ranges_in_few_steps(rt: HostRuntime) -> Result<(), Fail> {
    for &(texts, guests) in &COUNTED {
        let map = users_of(rt.alloc(), texts).ok_or("no map")?;
        check_counted(&rt, &map, guests);
    }
    Ok(())
}

#[test]
fn asks_no_range_in_no_step(rt: HostRuntime) {
    let same = [(0, 0, 0, 0), (4294967295, 4294967295, 0, 0)];
    check_counted(&rt, &IdMap::empty(rt.alloc()), &same);
}

#[test]
fn asks_a_thousand_ranges_in_ten_steps(rt: HostRuntime) -> Result<(), Fail> {
    let mut specs = Vec::new(rt.alloc());
    for at in 0..1000_u32 {
        specs.push(cmdline::IdMap::Guest {
            from_guest: at.wrapping_mul(10),
            to_host: at.wrapping_add(5000000),
            count: 1,
        })?;
    }
    let map = Users::try_from(rt.alloc(), specs)?;
    check_counted(&rt, &map, &[(9990, 5000999, 1, 10), (9991, 9991, 1, 10)]);
    Ok(())
}

#[test]
fn a_forbidden_user_owns_nothing(rt: HostRuntime) -> Result<(), Fail> {
    let texts = ["map:0:1000:10", "forbid-guest:10:1"];
    let map = users(rt.alloc(), &texts)?;
    let map = users_again(rt.alloc(), &texts, &map)?;
    assert_eq!(rt; owner(&map, GuestUid::from(5)), Some(HostUid::from(1005)));
    assert_eq!(rt; owner(&map, GuestUid::from(10)), None);
    Ok(())
}

fn check_counted(rt: &impl Abort, map: &Users, guests: &[Counted]) {
    for &(n, wanted, least, most) in guests {
        let mut steps = Steps::new();
        let host = map.map_guest_counted(GuestUid::from(n), &mut steps).ok();
        assert!(rt; host == Some(HostUid::from(wanted)), "guest {n}");
        assert!(rt;
            least <= steps.count() && steps.count() <= most,
            "guest {n}"
        );
    }
}
