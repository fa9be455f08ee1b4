//! Audits of ids that answer with spans or specifications. `tests/embedding/ids_audits.c` asks those
//! that answer yes or no, and rows of `tests/audit_program.jsonl` what two guests reach.

use crate::common::users_of;
use std::alloc::Global;
use std::test::Fail;
use virtiofs_id_audit::{Span, ids_astray, ids_into, mended};

/// Specifications under which the guest has 65536 ids of the host, and no other.
const OWN: &str = "map:0:100000:65536|forbid-guest:65536:4294901759";

const OPEN: &str = "map:0:100000:65536";

const SQUASHED: &str = "squash-guest:0:1001:4294967295|host:1001:1000:1";

/// A range of the host in another place, and one of no number.
const ELSEWHERE: &str = "guest:10:50:10|host:55:15:3|map:7:3:0|squash-host:58:2:1";

/// The first and last ids of spans.
type Ends = &'static [(u32, u32)];

/// Specifications, spans of the host, the ids of the guest that become one of them, and those that
/// do not come back and become none of them.
static EXTENTS: [(&str, Ends, Ends, Ends); 7] = [
    // 4294967295 is no id.
    ("", &[(0, 4294967295)], &[(0, 4294967294)], &[]),
    (OPEN, &[], &[], &[(100_000, 165_535)]),
    // Spans in no order, two of which overlap, and one of which has no id.
    (
        OPEN,
        &[
            (100_020, 100_030),
            (7, 5),
            (165_530, 165_540),
            (100_000, 100_025),
        ],
        &[
            (0, 30),
            (65_530, 65_535),
            (100_000, 100_030),
            (165_530, 165_540),
        ],
        &[(100_031, 165_529)],
    ),
    // All become 1001, which comes back as 1000.
    (
        SQUASHED,
        &[(1000, 1000)],
        &[],
        &[(0, 999), (1001, 4294967294)],
    ),
    // Ids that become the same ones, and stand side by side.
    (
        "guest:0:10:5|guest:5:10:5|guest:20:10:1",
        &[(12, 12)],
        &[(2, 2), (7, 7), (12, 12)],
        &[(0, 1), (3, 6), (8, 9), (20, 20)],
    ),
    // Ranges of the host in other places.
    (
        ELSEWHERE,
        &[(57, 59)],
        &[(17, 19), (57, 59)],
        &[(10, 14), (55, 56)],
    ),
    // 4294967293 and 4294967294 become 4294967294, which comes back as 4294967293.
    (
        "map:0:1:4294967294",
        &[(4294967294, 4294967295)],
        &[(4294967293, 4294967294)],
        &[],
    ),
];

#[test]
fn tells_all_ids(rt: HostRuntime) -> Result<(), Fail> {
    for &(texts, hosts, into, astray) in &EXTENTS {
        let (found, other) = extents_of(rt.alloc(), texts, hosts)?;
        assert!(rt; are_ends(&found, into), "into {hosts:?}: {texts:?}");
        assert!(rt; are_ends(&other, astray), "besides {hosts:?}: {texts:?}");
    }
    Ok(())
}

fn extents_of(alloc: Global, texts: &str, hosts: Ends) -> Result<(Vec<Span>, Vec<Span>), Fail> {
    let map = users_of(alloc, texts).ok_or("no map")?;
    let spans = spans_of(alloc, hosts)?;
    let into = ids_into(alloc, &map, &spans)?;
    Ok((into, ids_astray(alloc, &map, &spans)?))
}

/// Whether these are the first and last ids of the spans.
fn are_ends(spans: &[Span], ends: &[(u32, u32)]) -> bool {
    let mut pairs = spans.iter().zip(ends);
    spans.len() == ends.len() && pairs.all(|(span, &end)| (span.first, span.last) == end)
}

fn spans_of(alloc: Global, ends: &[(u32, u32)]) -> Result<Vec<Span>, Fail> {
    let mut spans = Vec::new(alloc);
    for &(first, last) in ends {
        spans.push(Span { first, last })?;
    }
    Ok(spans)
}

/// Specifications, the first and last ids of spans of the host that are bad, and the specifications
/// that are mended, with a bar between each two.
static MENDED: [(&str, Ends, &str); 8] = [
    (OPEN, &[], "map:0:100000:65536|forbid-guest:100000:65536"),
    // Where nobody is to act as an id of the host outside of the range.
    (OPEN, &[(165_536, 4294967295), (0, 99_999)], OWN),
    // All users of the guest are user 1001 of the host, whose files belong to user 1000.
    (
        SQUASHED,
        &[],
        "squash-guest:1000:1001:1|host:1001:1000:1|forbid-guest:0:1000|forbid-guest:1001:4294966294",
    ),
    // Of two users of the guest with one user of the host, the one that comes back stays.
    (
        "guest:5:70:1|map:9:70:1|forbid-guest:70:1",
        &[],
        "map:9:70:1|forbid-guest:70:1|forbid-guest:5:1",
    ),
    // Spans in no order, one in another.
    (
        "map:0:100:20|forbid-guest:100:20",
        &[(110, 112), (200, 300), (104, 118), (7, 5)],
        "guest:0:100:4|guest:19:119:1|host:100:0:20|forbid-guest:100:20|forbid-guest:4:15|forbid-guest:200:101",
    ),
    (
        ELSEWHERE,
        &[],
        "guest:15:55:3|host:55:15:3|map:7:3:0|squash-host:58:2:1|forbid-guest:10:5|forbid-guest:18:2|forbid-guest:55:4",
    ),
    // No user of the guest can be one of the host.
    ("", &[(0, 4294967295)], "forbid-guest:0:4294967295"),
    // 4294967295 becomes itself, and no specification can forbid it.
    (
        "map:0:1:4294967294",
        &[],
        "map:0:1:4294967294|forbid-guest:4294967294:1",
    ),
];

#[test]
fn mends_specifications(rt: HostRuntime) -> Result<(), Fail> {
    for &(texts, bad, wanted) in &MENDED {
        let found = mended_texts(rt.alloc(), texts, bad)?;
        assert_eq!(rt; found.as_str(), wanted, "{texts:?}, {bad:?}");
    }
    Ok(())
}

fn mended_texts(alloc: Global, texts: &str, bad: &[(u32, u32)]) -> Result<String, Fail> {
    let map = users_of(alloc, texts).ok_or("no map")?;
    let spans = spans_of(alloc, bad)?;
    let mut found = String::new(alloc);
    for (index, spec) in mended(alloc, &map, &spans)?.iter().enumerate() {
        let bar = if index == 0 { "" } else { "|" };
        write!(found, "{bar}{spec}")?;
    }
    Ok(found)
}
