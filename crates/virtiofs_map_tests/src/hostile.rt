//! Texts and names as nobody writes them but to do harm: texts of 1 MiB, and names of 64 KiB. Each
//! is answered, or refused with its own fault.
//!
//! They are made when a test runs. A proof says that every text is answered rightly; these tests
//! see that it is done in time, with the memory of an ordinary machine and without deep recursion,
//! in a build that is not optimized. `tests/embedding/large.c` reads such texts of 16 MiB, and
//! 200,000 rules and specifications, in an optimized one.

use crate::common::first;
use std::alloc::{AllocError, Global};
use std::process::Abort;
use std::test::Fail;
use virtiofs_map::cmdline;
use virtiofs_map::xattrmap::{AppliedRule, Side, XattrMap, XattrName};

/// A text's front, a character that comes after it over and over, its back, and how the text of the
/// fault begins: one word, one field, nothing but separators.
type Row = (&'static str, &'static str, &'static str, &'static str);

static SPECIFICATIONS: [Row; 4] = [
    ("", "a", "", "Invalid ID map length"),
    ("", "a", ":0", "Invalid ID map prefix aaa"),
    ("map:", "9", ":0:1", "Invalid value 999"),
    ("", ":", "", "Invalid value  in"),
];

static RULES: [Row; 6] = [
    ("", "a", "", "rule 1: invalid type ''"),
    (":ok:", "a", "", "rule 1: the rule is incomplete"),
    (":ok:all:", "\0", "::", "rule 1: Key holds NUL"),
    ("", ":", "", "rule 1: invalid type ''"),
    (":ok:", "a", ":::", "rule 1: invalid scope 'aaa"),
    ("", " ", "", "there are no rules"),
];

#[test]
fn large_specifications_are_refused(rt: HostRuntime) -> Result<(), Fail> {
    for &(front, c, back, wanted) in &SPECIFICATIONS {
        let text = large(rt.alloc(), front, c, back)?;
        let read = cmdline::IdMap::from_str(rt.alloc(), text.as_str());
        let said = read.err().ok_or("read")?.to_string(rt.alloc())?;
        assert!(rt; said.starts_with(wanted), "{wanted}");
    }
    Ok(())
}

#[test]
fn large_rules_are_refused(rt: HostRuntime) -> Result<(), Fail> {
    for &(front, c, back, wanted) in &RULES {
        let text = large(rt.alloc(), front, c, back)?;
        let read = XattrMap::try_from(rt.alloc(), text.as_str());
        let said = read.err().ok_or("read")?.to_string(rt.alloc())?;
        assert!(rt; said.starts_with(wanted), "{wanted}");
    }
    Ok(())
}

/// A walk along a large name counts one step for each byte, and one for the root.
#[test]
fn a_large_pattern_is_read(rt: HostRuntime) -> Result<(), Fail> {
    let text = large(rt.alloc(), ":bad:client:", "a", ":: :ok:all:::")?;
    let map = XattrMap::try_from(rt.alloc(), text.as_str())?;
    assert_eq!(rt; first_of_large(rt.alloc(), &map)?, (Some(0), 1_048_577));
    assert_eq!(rt; first(&map, Side::Client, "ab")?, (Some(1), 2));
    Ok(())
}

fn first_of_large(alloc: Global, map: &XattrMap) -> Result<(Option<usize>, u64), Fail> {
    let name = large(alloc, "", "a", "")?;
    first(map, Side::Client, name.as_str())
}

/// Names of one byte over and over, and of every byte.
#[test]
fn names_of_64_kib_come_back(rt: HostRuntime) -> Result<(), Fail> {
    let alike = vec![in rt.alloc(); 255; 65536]?;
    assert_passes(&rt, rt.alloc(), &alike)?;
    let mut name = Vec::new(rt.alloc());
    for at in 0..65536_usize {
        name.push((at % 255 + 1) as u8)?;
    }
    assert_passes(&rt, rt.alloc(), &name)
}

fn assert_passes(rt: &impl Abort, alloc: Global, name: &[u8]) -> Result<(), Fail> {
    let map = XattrMap::try_from(alloc, ":ok:all:::")?;
    assert_back(rt, alloc, &map, name)?;
    let map = XattrMap::try_from(alloc, ":map::user.virtiofs.:")?;
    assert_back(rt, alloc, &map, name)
}

/// A text that has a character of one byte 1,048,576 times between two texts.
fn large(alloc: Global, front: &str, c: &str, back: &str) -> Result<String, AllocError> {
    let piece = c.repeat(alloc, 1024)?;
    let all = piece.repeat(alloc, 1024)?;
    format!(in alloc; "{front}{all}{back}")
}

/// Sees that a name passes, with or without a prepend, and that it is listed back.
fn assert_back(rt: &impl Abort, alloc: Global, map: &XattrMap, bytes: &[u8]) -> Result<(), Fail> {
    let name = XattrName::new(bytes).ok_or("a name holds a zero")?;
    let AppliedRule::Pass(passed) = map.map_client_xattr(alloc, name)? else {
        return Err(Fail::from("the name does not pass"));
    };
    assert!(rt; passed.as_bytes().ends_with(bytes));
    let listed = map.map_server_xattrlist(alloc, passed.as_bytes().to_vec(alloc)?)?;
    assert!(rt; listed.as_slice().split_last() == Some((&0, bytes)));
    Ok(())
}
