//! Namespaces: what Linux shows of them, and which of them `newuidmap` sets up.

use std::alloc::{AllocError, Global};
use std::test::Fail;
use virtiofs_host::allowed::is_allowed;
use virtiofs_host::error::ReadError;
use virtiofs_host::id_map::read_id_map;
use virtiofs_host::subordinate::read_subordinate;
use virtiofs_map::idmap::UidMap;

/// Numbers that are read: the first id inside, the first one outside, and how many there are.
type Numbers = (u32, u32, u32);

fn ranges_of(alloc: Global, numbers: &[Numbers]) -> Result<Vec<UidMap>, AllocError> {
    let mut ranges = Vec::new(alloc);
    for &(inside_uid, outside_uid, count) in numbers {
        ranges.push(UidMap {
            inside_uid,
            outside_uid,
            count,
        })?;
    }
    Ok(ranges)
}

// As Linux writes them: without a namespace, under rootless podman, under LXD, in a namespace of one
// id, and before anything is set up. The rest are texts of the same grammar.
static READ: [(&str, &[Numbers]); 9] = [
    (
        "         0          0 4294967295\n",
        &[(0, 0, 4_294_967_295)],
    ),
    (
        "         0       1000          1\n         1     100000      65536\n",
        &[(0, 1000, 1), (1, 100_000, 65536)],
    ),
    (
        "         0    1000000 1000000000\n",
        &[(0, 1_000_000, 1_000_000_000)],
    ),
    ("      1000       1000          1\n", &[(1000, 1000, 1)]),
    ("", &[]),
    (
        "4294967294 4294967294          1\n",
        &[(4_294_967_294, 4_294_967_294, 1)],
    ),
    ("0 0 0\n", &[(0, 0, 0)]),
    ("1 2 3\n4 5 6\n7 8 9\n", &[(1, 2, 3), (4, 5, 6), (7, 8, 9)]),
    (" 1  2   3 \n", &[(1, 2, 3)]),
];

#[test]
fn ranges_are_read(rt: HostRuntime) -> Result<(), Fail> {
    for &(text, numbers) in &READ {
        let wanted = ranges_of(rt.alloc(), numbers)?;
        let ranges = read_id_map(rt.alloc(), text.as_bytes())?;
        assert!(rt; ranges == wanted, "{text}");
    }
    Ok(())
}

// The place of the first wrong line.
static WRONG: [(&[u8], usize); 18] = [
    (b"0 0 1", 0),
    (b"0 0\n", 0),
    (b"0 0 1 1\n", 0),
    (b"\n", 0),
    (b"0 0 1\n\n", 1),
    (b"0 0 1\n1 1 1", 1),
    (b"0 0 1\n1 1 x\n2 2\n", 1),
    (b"0\t0\t1\n", 0),
    (b"0 0 1\r\n", 0),
    (b"-1 0 1\n", 0),
    (b"+1 0 1\n", 0),
    (b"01 0 1\n", 0),
    (b"0 0x1 1\n", 0),
    (b"0 0 4294967296\n", 0),
    (b"0 0 99999999999999999999999999\n", 0),
    (b"0 0 1\n0 \xff 1\n", 1),
    (b"0 0 1\0", 0),
    (b"0 0 1\n1 1 1\n2 2 1\n3 3 \xd9\xa1\n", 3),
];

#[test]
fn the_first_wrong_line_is_named(rt: HostRuntime) {
    for &(text, place) in &WRONG {
        let told = read_id_map(rt.alloc(), text).err();
        assert_eq!(rt; told, Some(ReadError::Wrong(place)), "{text:?}");
    }
}

/// One's own id, the lines of `x` in /etc/subuid, the ranges, and the place of the first that is
/// refused.
type Asked = (u32, &'static str, &'static str, Option<usize>);

// What newuidmap of shadow 4.13 did for a user with these lines in /etc/subuid.
static ALLOWED: [Asked; 17] = [
    (0, "x:100000:10\nx:100010:10", "0 100000 20\n", None),
    (0, "x:100010:10\nx:100000:10", "0 100000 20\n", None),
    (0, "x:100000:10\nx:100010:10", "0 100000 21\n", Some(0)),
    (0, "x:100000:10\nx:100011:10", "0 100000 20\n", Some(0)),
    (0, "x:100000:10\nx:100005:10", "0 100000 15\n", None),
    (0, "x:100000:10", "0 0 1\n", None),
    (0, "x:100000:10", "0 5 1\n", Some(0)),
    (0, "x:100000:10", "0 100000 0\n", Some(0)),
    (0, "", "0 0 2\n", Some(0)),
    (1000, "x:100000:65536", "0 1000 1\n1 100000 65535\n", None),
    (1000, "x:100000:65536", "0 1000 1\n1 100000 65536\n", None),
    (
        1000,
        "x:100000:65536",
        "0 1000 1\n1 100000 65537\n",
        Some(1),
    ),
    (1000, "x:100000:65536", "0 99999 2\n", Some(0)),
    (1000, "x:4294967290:100", "0 4294967290 5\n", None),
    (1000, "x:4294967290:100", "0 4294967290 6\n", Some(0)),
    (1000, "x:0:4294967295", "4294967294 1000 2\n", Some(0)),
    (1000, "x:5:0\nx:4294967295:4294967295", "0 5 1\n", Some(0)),
];

fn refused_of(alloc: Global, asked: &Asked) -> Result<Option<usize>, Fail> {
    let &(own, lines, text, _) = asked;
    let given = read_subordinate(alloc, lines.as_bytes(), b"x", own)?;
    let ranges = read_id_map(alloc, text.as_bytes())?;
    Ok(
        ranges
            .iter()
            .position(|range| !is_allowed(own, given.as_slice(), range)),
    )
}

#[test]
fn ranges_are_refused_as_newuidmap_does(rt: HostRuntime) -> Result<(), Fail> {
    for asked in &ALLOWED {
        let told = refused_of(rt.alloc(), asked)?;
        assert_eq!(rt; told, asked.3, "{asked:?}");
    }
    Ok(())
}
