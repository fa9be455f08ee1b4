//! Command lines, users, their subordinate ids, and the ids of processes.

use std::test::Fail;
use virtiofs_host::command_line::read_command_line;
use virtiofs_host::error::ReadError;
use virtiofs_host::status::{effective_gid, effective_uid, may_set_gids, may_set_uids, parent};
use virtiofs_host::subordinate::read_subordinate;
use virtiofs_host::users::{find_user, read_names};

static WORDS: [(&str, &[&str]); 7] = [
    (
        "/usr/libexec/virtiofsd\0--shared-dir\0/srv\0",
        &["/usr/libexec/virtiofsd", "--shared-dir", "/srv"],
    ),
    (
        "virtiofsd\0-o\0source=/a b\0",
        &["virtiofsd", "-o", "source=/a b"],
    ),
    ("", &[]),
    ("a\0b", &["a", "b"]),
    ("a\0\0b\0", &["a", "", "b"]),
    ("\0\0", &["", ""]),
    ("/srv/\u{e9}\n\0", &["/srv/\u{e9}\n"]),
];

#[test]
fn words_are_read(rt: HostRuntime) -> Result<(), Fail> {
    for &(text, wanted) in &WORDS {
        let words = read_command_line(rt.alloc(), text.as_bytes())?;
        assert!(rt; words.as_slice() == wanted, "{text:?}");
    }
    Ok(())
}

static NOT_WORDS: [(&[u8], usize); 4] = [
    (b"\xff", 0),
    (b"a\0\xff\0", 1),
    (b"a\0\0b\xc3", 2),
    (b"a\0\xed\xa0\x80\0\xff\0", 1),
];

#[test]
fn the_first_word_that_is_no_text_is_named(rt: HostRuntime) {
    for &(text, place) in &NOT_WORDS {
        let told = read_command_line(rt.alloc(), text).err();
        assert_eq!(rt; told, Some(ReadError::Wrong(place)), "{text:?}");
    }
}

static PASSWD: &str = "root:x:0:0:root:/root:/bin/bash\n\
    # bob:x:1000:1:a comment:/:\n\
    #eve:x:1000:2::/:/bin/sh\n\
    +nis:x:1000:3:::\n\
    -nis:x:1000:4:::\n\
    :x:1000:5:no name:/:\n\
    short:x:1000\n\
    wrong:x:1000:none::/:\n\
    sign:x:+1000:6::/:\n\
    bob:x:1000:100:Bob, room 5:/home/bob:/bin/bash\n\
    alias:x:1000:101::/:/bin/sh\n\
    +::::::\n\
    last:x:65534:65534";

static USERS: [(u32, Option<(&str, u32)>); 6] = [
    (0, Some(("root", 0))),
    (1000, Some(("bob", 100))),
    (65534, Some(("last", 65534))),
    (100, None),
    (1, None),
    (4_294_967_295, None),
];

#[test]
fn users_are_found(rt: HostRuntime) {
    for &(uid, wanted) in &USERS {
        let user = find_user(PASSWD.as_bytes(), uid);
        let told = user.map(|user| (user.name, user.gid));
        let wanted = wanted.map(|(name, gid)| (name.as_bytes(), gid));
        assert_eq!(rt; told, wanted, "{uid}");
    }
}

static NAMES: [(&[u8], u32); 6] = [
    (b"root", 0),
    (b"short", 1000),
    (b"wrong", 1000),
    (b"bob", 1000),
    (b"alias", 1000),
    (b"last", 65534),
];

#[test]
fn names_are_read(rt: HostRuntime) -> Result<(), Fail> {
    let names = read_names(rt.alloc(), PASSWD.as_bytes())?;
    let mut told = Vec::new(rt.alloc());
    for named in &names {
        told.push((named.name, named.id))?;
    }
    assert!(rt; told.as_slice() == NAMES.as_slice(), "{told:?}");
    Ok(())
}

// newuidmap of shadow 4.13 also reads the lines with a fourth field, with a hexadecimal, an octal
// or a great number, and with a space before a number. Of the others it reads the same.
static SUBUID: &str = "bob:100000:65536\n\
    # bob:1:1\n\
    \n\
    alice:200000:65536\n\
    1000:300000:10\n\
    bob:400000\n\
    bob:1:2:3\n\
    bob:0x10:5\n\
    bob:010:5\n\
    bob:5:4294967296\n\
    bob:5: 5\n\
    bob :5:5\n\
    Bob:5:5\n\
    bob::5\n\
    bob:5:5\r\n\
    01000:5:5\n\
    bob:500000:0\n\
    bob:600000:4294967295";

static GIVEN: [(&str, u32, &[(u32, u32)]); 4] = [
    (
        "bob",
        1000,
        &[
            (100_000, 65536),
            (300_000, 10),
            (500_000, 0),
            (600_000, 4_294_967_295),
        ],
    ),
    ("alice", 1001, &[(200_000, 65536)]),
    ("carol", 1000, &[(300_000, 10)]),
    ("carol", 1002, &[]),
];

#[test]
fn subordinate_ids_are_read(rt: HostRuntime) -> Result<(), Fail> {
    for &(name, uid, wanted) in &GIVEN {
        let given = read_subordinate(rt.alloc(), SUBUID.as_bytes(), name.as_bytes(), uid)?;
        let mut told = Vec::new(rt.alloc());
        for ids in &given {
            told.push((ids.first, ids.count))?;
        }
        assert!(rt; told.as_slice() == wanted, "{name} {uid}: {told:?}");
    }
    Ok(())
}

const STATUS: &str = "Name:\tvirtiofsd\n\
    Umask:\t0022\n\
    State:\tS (sleeping)\n\
    Tgid:\t4242\n\
    Uid:\t1000\t1001\t1002\t1003\n\
    Gid:\t100\t4294967295\t102\t103\n\
    FDSize:\t64\n\
    Groups:\t27 100 \n\
    Uid:\t5\t6\t7\t8\n";

static EFFECTIVE: [(&str, Option<u32>, Option<u32>); 5] = [
    (STATUS, Some(1001), Some(4_294_967_295)),
    ("Uid:\t1\t2", Some(2), None),
    ("uid:\t1\t2\t3\t4\nGid: 1 2 3 4\n", None, None),
    ("Uid:\t1\t-2\t3\t4\nUid:\t1\t3\t3\t4\n", Some(3), None),
    ("Name:\tUid:\t1\t2\t3\nGid:\t1\t02\n", None, None),
];

#[test]
fn effective_ids_are_read(rt: HostRuntime) {
    for &(text, uid, gid) in &EFFECTIVE {
        assert_eq!(rt; effective_uid(text.as_bytes()), uid, "{text}");
        assert_eq!(rt; effective_gid(text.as_bytes()), gid, "{text}");
    }
}

static PARENTS: [(&str, Option<u32>); 4] = [
    ("PPid:\t4194304\nUid:\t0\t0\t0\t0\n", Some(4194304)),
    ("PPid: 7\nPPid:\t8", Some(8)),
    ("TracerPid:\t5\nPid:\t6\n", None),
    ("PPid:\t\n", None),
];

#[test]
fn parents_are_read(rt: HostRuntime) {
    for &(text, pid) in &PARENTS {
        assert_eq!(rt; parent(text.as_bytes()), pid, "{text}");
    }
}

static CAPABILITIES: [(&str, bool, bool); 7] = [
    (
        "CapPrm:\t0000000000000000\nCapEff:\t000001ffffffffff\n",
        true,
        true,
    ),
    (
        "CapPrm:\t000001ffffffffff\nCapEff:\t0000000000000000\n",
        false,
        false,
    ),
    (
        "CapEff:\t0000000000000080\nCapEff:\t0000000000000040\n",
        true,
        false,
    ),
    ("CapEff:\t00000000000000c0", true, true),
    (
        "CapEff:\t8\nCapEff: c0\nCapEff:\tg0\nCapEff:\tB1\n",
        true,
        false,
    ),
    ("capeff:\tc0\n", false, false),
    ("", false, false),
];

#[test]
fn capabilities_are_read(rt: HostRuntime) {
    for &(text, uids, gids) in &CAPABILITIES {
        assert_eq!(rt; may_set_uids(text.as_bytes()), uids, "{text}");
        assert_eq!(rt; may_set_gids(text.as_bytes()), gids, "{text}");
    }
}
