//! Audits of a map of names, with what they are to answer. Rows of the programs, and the tests of the
//! static library, ask the others.

use std::alloc::Global;
use std::test::Fail;
use virtiofs_map::Steps;
use virtiofs_map::audit::{Audit, audit_counted, audit_listed};
use virtiofs_map::xattrmap::XattrMap;

const LABELS: &str = ":map:trusted.:user.virtiofs.:";

/// A text of rules, the least name that passes and does not come back (empty if there is none), and
/// the most names that an audit may try.
static LOST: [(&str, &str, u64); 4] = [
    (LABELS, "", 267),
    (":bad:server::u.xy: :prefix:all::u.:", "xy", 258),
    (":ok:client:::", "\x01", 256),
    (":ok:client:a:: :ok:server::a:", "", 257),
];

#[test]
fn finds_the_least_name_that_is_lost(rt: HostRuntime) -> Result<(), Fail> {
    for &(text, wanted, most) in &LOST {
        let (answer, steps) = lost(rt.alloc(), text)?;
        assert_eq!(rt;
            told(&answer).unwrap_or(b""),
            wanted.as_bytes(),
            "of {text:?}"
        );
        assert!(rt; 1 <= steps && steps <= most, "of {text:?}");
    }
    Ok(())
}

/// The answer, and how many names were tried for it.
fn lost(alloc: Global, text: &str) -> Result<(Audit, u64), Fail> {
    let map = XattrMap::try_from(alloc, text)?;
    let mut steps = Steps::new();
    let answer = audit_counted(alloc, &map, &mut steps)?;
    Ok((answer, steps.count()))
}

/// A text of rules, and the least listed name of the host that is not opened.
static STRAY: [(&str, Option<&[u8]>); 4] = [
    (LABELS, Some(b"user.virtiofs.")),
    (":map::a.:", None),
    (":bad:client:xy:: :prefix:all::u.:", Some(b"u.xy")),
    (":ok:server:::", Some(b"\x01")),
];

#[test]
fn finds_the_least_listed_name_that_is_not_opened(rt: HostRuntime) -> Result<(), Fail> {
    for &(text, wanted) in &STRAY {
        let answer = stray(rt.alloc(), text)?;
        assert_eq!(rt; told(&answer), wanted, "of {text:?}");
    }
    Ok(())
}

fn stray(alloc: Global, text: &str) -> Result<Audit, Fail> {
    let map = XattrMap::try_from(alloc, text)?;
    Ok(audit_listed(alloc, &map)?)
}

/// The name of a `No`.
fn told(answer: &Audit) -> Option<&[u8]> {
    match answer {
        Audit::Yes => None,
        Audit::No(name) => Some(name.as_name().as_bytes()),
    }
}
