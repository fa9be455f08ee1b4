//! Each request for memory of a call, refused in turn. A run ends with out of memory, in the call's
//! own form, or with the answer that it has with ample memory, and gives back all that it was
//! granted. Rows of the programs, and `tests/embedding/refused.c`, do so with the audits.

mod calls;

use Asked::{FromSpecs, FromStr, Of, Rules, TryFrom};
use Names::{Cloned, Server};
use calls::{Asked, Names};
use rationed::{Verdict, refuse_in_turn};
use std::alloc::Global;
use std::process::Abort;

/// Calls that cannot do without memory.
static TAKE: [Asked; 19] = [
    FromStr("foo:x"),
    FromStr(":0:1:2"),
    FromStr("map:0:1000:10"),
    TryFrom(MEETING),
    TryFrom(MIXED),
    FromSpecs(MEETING),
    FromSpecs(MIXED),
    FromSpecs("guest:0:100:10|guest:5:200:1|map:1:2"),
    Rules(THREE),
    Rules(LABELS),
    Rules(":bad:all:x:y: :map::P: :ok:all:::"),
    Rules(":\u{170}refix:all:::"),
    Rules(":ok:nope:::"),
    Of(THREE, Cloned),
    Of(LABELS, Cloned),
    Of(LABELS, Server("user.virtiofs.foo\0")),
    Of(
        LABELS,
        Server("user.virtiofs.a\0trusted.b\0c\0user.virtiofs."),
    ),
    Of(LABELS, Server("")),
    Of(":ok:server::a:", Server("a1\0b\0a2\0")),
];

/// Calls that may take memory or do without.
static MAY_TAKE: [Asked; 8] = [
    FromStr(""),
    TryFrom("guest:0:1:0"),
    Rules(" "),
    Rules(":"),
    Rules(":prefix:all:a:b"),
    Rules(":ok:all:a\0:"),
    Rules(":ok:all:a\0"),
    Rules(":map:trusted.:virtiofs.user.::map:trusted.:virtiofs.user.:"),
];

const MEETING: &str = "guest:0:100:10|guest:5:200:1";

const MIXED: &str = "squash-guest:20:7:5|map:0:1000:10|host:5000:1:2";

const THREE: &str = ":ok:all:::\u{a0}ok\u{a0}all\u{a0}\u{a0}\u{a0}:ok:all:::";

const LABELS: &str = ":map:trusted.:user.virtiofs.:";

#[test]
fn calls_that_take_memory(rt: HostRuntime) {
    for asked in &TAKE {
        let requests = requests_of(&rt, rt.alloc(), asked);
        // A list is made with one request.
        let most = match asked {
            Of(_, Server(_)) => 1,
            _ => u64::MAX,
        };
        assert!(rt; 0 < requests && requests <= most, "{requests}: {asked:?}");
    }
}

#[test]
fn calls_that_may_take_memory(rt: HostRuntime) {
    for asked in &MAY_TAKE {
        let _requests = requests_of(&rt, rt.alloc(), asked);
    }
}

/// Refuses each request of a call in turn, and gives how many it makes.
fn requests_of(rt: &impl Abort, heap: Global, asked: &Asked) -> u64 {
    let verdict = refuse_in_turn(heap, asked);
    let Verdict::Passed { requests } = verdict else {
        panic!(rt; "{asked:?}: {verdict:?}");
    };
    requests
}
