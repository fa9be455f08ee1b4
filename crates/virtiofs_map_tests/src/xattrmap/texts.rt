//! Texts of rules: which mean the same, what is wrong with others, and which rule is the first.

use crate::common::first;
use std::alloc::{AllocError, Global};
use std::process::Abort;
use std::test::Fail;
use virtiofs_map::xattrmap::Side::{self, Client, Server};
use virtiofs_map::xattrmap::{Error, ErrorKind, XattrMap};

/// Texts that mean the same, and not the same as those of other rows.
static ALIKE: [&[&str]; 7] = [
    &[":ok:all:::", "xokxallxxx", "\0ok\0all\0\0\0"],
    &[
        ":ok:all::::ok:all::::ok:all:::",
        ":ok:all:::\u{a0}ok\u{a0}all\u{a0}\u{a0}\u{a0}:ok:all:::",
        ":ok:all:::\u{b}ok\u{b}all\u{b}\u{b}\u{b}:ok:all:::",
    ],
    &[":prefix:all::P::bad:all:::", ":map::P:   "],
    &[":prefix:client:trusted.:user.virtiofs.:"],
    &[":prefix:all:trusted.:user.virtiofs.:"],
    &[
        ":prefix:all:trusted.:user.virtiofs.::bad:server::trusted.:\
         :bad:client:user.virtiofs.:::ok:all:::",
        "\n        /prefix/all/trusted./user.virtiofs./\n        /bad/server//trusted./\n        \
         /bad/client/user.virtiofs.//\n        /ok/all///\n        ",
    ],
    &[
        ":prefix:all:trusted.:user.virtiofs.: :bad:all:user.virtiofs.:trusted.: :ok:all:::",
        ":map:trusted.:user.virtiofs.:",
    ],
];

#[test]
fn compares_by_what_rules_mean(rt: HostRuntime) -> Result<(), Fail> {
    for (row, texts) in ALIKE.iter().enumerate() {
        for text in *texts {
            let map = XattrMap::try_from(rt.alloc(), text)?;
            assert!(rt; map.clone(rt.alloc())? == map, "the clone of {text:?}");
            assert_alike(&rt, rt.alloc(), &map, row)?;
        }
    }
    Ok(())
}

/// A text that says no rules, and what is printed of its first fault. Rows of `tests/program.jsonl`
/// have more, but none with a zero.
static FAULTS: [(&str, &str); 12] = [
    (" ", "there are no rules"),
    (":", "rule 1: the rule is incomplete"),
    (":ok:all:a\0:", "rule 1: Key holds NUL"),
    (":ok:all:a\0", "rule 1: the rule is incomplete"),
    (":map:a\0:b\0:", "rule 1: Key holds NUL"),
    (":map:a:b\0:", "rule 1: Prepend holds NUL"),
    (":prefix:all:a:b\0", "rule 1: the rule is incomplete"),
    (":map::P: x", "rule 1: a map rule has to stand last"),
    (
        ":bad:all:x:y: :map::P: :ok:all:::",
        "rule 2: a map rule has to stand last",
    ),
    (
        ":\u{170}refix:all:::",
        "rule 1: invalid type '\u{170}refix', expected one of: prefix, ok, bad, map",
    ),
    (
        "ookoallooo",
        "rule 1: invalid type '', expected one of: prefix, ok, bad, map",
    ),
    (
        ":ok:all::: :bad:nope\0:::",
        "rule 2: invalid scope 'nope\0', expected one of: all, client, server",
    ),
];

#[test]
fn tells_the_first_fault(rt: HostRuntime) -> Result<(), Fail> {
    for &(text, printed) in &FAULTS {
        let (error, uncounted) = errors_of(rt.alloc(), text)?;
        assert!(rt;
            error == uncounted && error.as_str() == printed,
            "of {text:?}"
        );
    }
    Ok(())
}

#[test]
fn prints_other_errors(rt: HostRuntime) -> Result<(), Fail> {
    let unterminated = Error::from(ErrorKind::<Global>::UnterminatedMapping);
    let memory = Error::<Global>::from(AllocError);
    let delimiter = ErrorKind::<Global>::InvalidDelimiter;
    let text = format!(in rt.alloc(); "{unterminated}; {memory}; {delimiter}")?;
    let wanted = "no rule fits the name; Out of memory; the delimiter is not the rule's first";
    assert_eq!(rt; text.as_str(), wanted);
    Ok(())
}

#[test]
fn counts_the_rules_as_they_are_written(rt: HostRuntime) -> Result<(), Fail> {
    let written = XattrMap::written_rules(rt.alloc(), ":ok:all::: :map:a:b:")?;
    assert_eq!(rt; written, 2);
    Ok(())
}

const NESTED: &str = ":ok:all:a:a: :bad:all:abc:abc: :bad:all:::";

const TWICE: &str = ":ok:all:a:a: :bad:all:a:a: :ok:all:::";

const SIDES: &str = ":bad:server:zzz:a: :ok:all:b:b:";

const SINGLE: &str = ":prefix:client:trusted.:user.virtiofs.:";

const LABELS: &str = ":map:trusted.:user.virtiofs.:";

/// Rules, the side of a name, the name, the position of its first rule, and how many steps that is.
static ASKED: [(&str, Side, &str, Option<usize>, u64); 16] = [
    (NESTED, Client, "abcd", Some(0), 4),
    (TWICE, Client, "abc", Some(0), 2),
    (TWICE, Client, "", Some(2), 1),
    (SIDES, Client, "zzzz", None, 1),
    (SIDES, Client, "b", Some(1), 2),
    (SIDES, Server, "ab", Some(0), 2),
    (SIDES, Server, "c", None, 1),
    (LABELS, Client, "trusted.a", Some(0), 9),
    (LABELS, Client, "user.virtiofs.a", Some(1), 15),
    (LABELS, Client, "x", Some(2), 1),
    (LABELS, Server, "user.virtiofs.a", Some(0), 15),
    (LABELS, Server, "trusted.a", Some(1), 9),
    (LABELS, Server, "x", Some(2), 1),
    (":ok:server::a:", Client, "abc", None, 1),
    (SINGLE, Client, "trusted.a", Some(0), 9),
    (SINGLE, Server, "user.virtiofs.a", None, 1),
];

#[test]
fn finds_the_first_rule(rt: HostRuntime) -> Result<(), Fail> {
    for &(text, side, name, position, steps) in &ASKED {
        let map = XattrMap::try_from(rt.alloc(), text)?;
        assert_eq!(rt;
            first(&map, side, name)?,
            (position, steps),
            "{name:?} of {text:?}"
        );
    }
    Ok(())
}

#[test]
fn counts_along_a_long_pattern(rt: HostRuntime) -> Result<(), Fail> {
    let map = long(rt.alloc())?;
    assert_eq!(rt; first_along(rt.alloc(), &map, 20001)?, (Some(0), 20001));
    assert_eq!(rt; first_along(rt.alloc(), &map, 19999)?, (Some(1), 20000));
    Ok(())
}

/// A map whose first pattern has one byte 20,000 times.
fn long(alloc: Global) -> Result<XattrMap, Fail> {
    let key = "a".repeat(alloc, 20000)?;
    let text = format!(in alloc; ":bad:all:{key}:{key}: :ok:all:::")?;
    Ok(XattrMap::try_from(alloc, text.as_str())?)
}

/// The first rule of a name that has one byte so many times, and how many steps that is.
fn first_along(alloc: Global, map: &XattrMap, len: usize) -> Result<(Option<usize>, u64), Fail> {
    let name = "a".repeat(alloc, len)?;
    first(map, Client, name.as_str())
}

/// Sees that a map is that of the texts of its row, and of no other row.
fn assert_alike(rt: &impl Abort, alloc: Global, map: &XattrMap, row: usize) -> Result<(), Fail> {
    for (at, texts) in ALIKE.iter().enumerate() {
        for text in *texts {
            let other = XattrMap::try_from(alloc, text)?;
            assert!(rt; (*map == other) == (at == row), "row {row}: {text:?}");
        }
    }
    Ok(())
}

/// What is printed where a text is to be read, and where its rules are to be counted.
fn errors_of(alloc: Global, text: &str) -> Result<(String, String), Fail> {
    let error = XattrMap::try_from(alloc, text).err().ok_or("read")?;
    let uncounted = XattrMap::written_rules(alloc, text).err().ok_or("counted")?;
    Ok((error.to_string(alloc)?, uncounted.to_string(alloc)?))
}
