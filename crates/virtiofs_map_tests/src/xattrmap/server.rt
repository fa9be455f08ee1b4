//! Lists of the host's names, with the lists that the guest gets.

use std::alloc::{AllocError, Global};
use std::test::Fail;
use virtiofs_map::xattrmap::{Error, ErrorKind, XattrMap};

const BOTH: &str = ":map:trusted.:user.virtiofs.:";

/// Rules, a list of the host, and the list of the guest.
static LISTED: [(&str, &[u8], &[u8]); 9] = [
    (":ok:all:::", b"a\0b\0", b"a\0b\0"),
    (":map:ab:a:", b"aabx\0", b"abx\0"),
    (":map:a::", b"b\0", b"b\0"),
    (":map:::", b"x\0", b"x\0"),
    (":map:a:b:", b"\0", b"\0"),
    (":ok:all:::", b"\xff\xc3\0", b"\xff\xc3\0"),
    // What another guest has in the list makes no difference.
    (":map::a.:", b"a.x\0b.y\0a.z\0", b"x\0z\0"),
    (":map::a.:", b"a.x\0a.z\0", b"x\0z\0"),
    // The rest of a list of which one name has no rule.
    (":ok:server::a:", b"a1\0a2\0", b"a1\0a2\0"),
];

#[test]
fn lists_by_the_first_rule(rt: HostRuntime) -> Result<(), Fail> {
    for &(text, names, wanted) in &LISTED {
        let list = listed(rt.alloc(), text, names)?;
        assert!(rt; list.as_slice() == wanted, "{names:?} under {text:?}");
    }
    Ok(())
}

fn listed(alloc: Global, text: &str, names: &[u8]) -> Result<Vec<u8>, Fail> {
    let map = XattrMap::try_from(alloc, text)?;
    Ok(map.map_server_xattrlist(alloc, names.to_vec(alloc)?)?)
}

#[test]
fn one_name_without_a_rule_refuses_the_list(rt: HostRuntime) -> Result<(), Fail> {
    let map = XattrMap::try_from(rt.alloc(), ":ok:server::a:")?;
    let names = b"a1\0b\0a2\0".to_vec(rt.alloc())?;
    let error = map.map_server_xattrlist(rt.alloc(), names).err();
    assert!(rt; error == Some(Error::from(ErrorKind::UnterminatedMapping)));
    Ok(())
}

/// Rules, a list of the host, and the names that are given, one after the other.
static GIVEN: [(&str, &[u8], &str); 4] = [
    (
        BOTH,
        b"user.virtiofs.a\0trusted.b\0c\0user.virtiofs.",
        "Some(Ok([97])) Some(Ok([99])) Some(Ok([])) None None None ",
    ),
    (":ok:client:::", b"", "None None None None None None "),
    (":ok:server::a:", b"b\0a", UNDECIDED),
    (":ok:server::a:", b"a1\0b\0a2\0", ONE),
];

const UNDECIDED: &str =
    "Some(Err(Error { cause: UnterminatedMapping, rule: None })) None None None None None ";

const ONE: &str = "Some(Ok([97, 49])) Some(Err(Error { cause: UnterminatedMapping, rule: None })) \
                   None None None None ";

#[test]
fn names_are_given_in_order_up_to_the_end(rt: HostRuntime) -> Result<(), Fail> {
    for &(text, list, wanted) in &GIVEN {
        let map = XattrMap::try_from(rt.alloc(), text)?;
        assert_eq!(rt;
            given(rt.alloc(), &map, list)?.as_str(),
            wanted,
            "of {text:?}"
        );
    }
    Ok(())
}

fn given(alloc: Global, map: &XattrMap, list: &[u8]) -> Result<String, AllocError> {
    let mut names = map.listed_names(list);
    let mut text = String::new(alloc);
    for _ in 0..6 {
        write!(text, "{:?} ", names.next())?;
    }
    Ok(text)
}

#[test]
fn names_outlive_the_iterator_and_the_map(rt: HostRuntime) -> Result<(), Fail> {
    let map = XattrMap::try_from(rt.alloc(), BOTH)?;
    let mut names = map.listed_names(b"user.virtiofs.a\0trusted.b\0c\0user.virtiofs.");
    let given = [names.next(), names.next(), names.next()];
    drop(names);
    drop(map);
    let wanted: [&[u8]; 3] = [b"a", b"c", b""];
    for (item, name) in given.iter().zip(wanted) {
        assert!(rt; *item == Some(Ok(name)));
    }
    Ok(())
}
