//! Lists that are refused, and ids that are forbidden, with the texts and the kinds of the faults.
//! Rows of `tests/program.jsonl` have more lists.

use crate::common::specs_of;
use std::alloc::Global;
use std::test::Fail;
use virtiofs_map::id_types::{GuestUid, HostUid};
use virtiofs_map::soft_idmap::{FaultKind, IdMap, IdMapBuildError, SpecsError};
use virtiofs_map_callers::pairs::made;
use virtiofs_map_callers::projects::{GuestProject, HostProject};
use virtiofs_map_callers::texts::text_of;

type Users = IdMap<GuestUid, HostUid>;

/// A list, what is printed of its fault, and the kind of that.
static REFUSED: [(&str, &str, FaultKind); 4] = [
    (
        "squash-guest:4294967290:1:5|forbid-guest:4294967293:2",
        "Guest-to-host mapping 'fail [4294967293, 4294967295)' intersects previously added entry",
        FaultKind::Other,
    ),
    (
        "map:0:1000:10|host:1005:0:1",
        "Host-to-guest mapping 'map [1005, 1006) to [0, 1)' intersects previously added entry",
        FaultKind::Other,
    ),
    (
        "guest:0:4294967290:10",
        "Parameter guest:0:4294967290:10: Range overflow",
        FaultKind::InvalidInput,
    ),
    (
        "FORBID-GUEST/4294967295/1",
        "Parameter forbid-guest:4294967295:1: Range overflow",
        FaultKind::InvalidInput,
    ),
];

#[test]
fn prints_why_lists_are_refused(rt: HostRuntime) -> Result<(), Fail> {
    for &(texts, said, kind) in &REFUSED {
        let fault = fault_of(rt.alloc(), texts)?;
        assert_eq!(rt; fault.to_string(rt.alloc())?.as_str(), said);
        assert!(rt; fault.kind() == kind, "{texts}");
    }
    let memory: IdMapBuildError = IdMapBuildError::OutOfMemory;
    assert_eq!(rt; memory.to_string(rt.alloc())?.as_str(), "Out of memory");
    assert!(rt; memory.kind() == FaultKind::OutOfMemory);
    Ok(())
}

fn fault_of(alloc: Global, texts: &str) -> Result<IdMapBuildError, Fail> {
    let specs = specs_of(alloc, texts).ok_or("a text is no specification")?;
    let made: Result<Users, IdMapBuildError> = IdMap::try_from(alloc, specs);
    Ok(made.err().ok_or("accepted")?)
}

/// The text has the number of the id, whatever the printed form of the id.
#[test]
fn prints_forbidden_ids(rt: HostRuntime) -> Result<(), Fail> {
    let wanted = "Use of ID 8 has been configured to fail: PermissionDenied";
    assert_eq!(rt; forbidden(rt.alloc())?.as_str(), wanted);
    Ok(())
}

/// What is printed of the use of a project, and the kind of that fault.
fn forbidden(alloc: Global) -> Result<String, Fail> {
    let map: IdMap<GuestProject, HostProject> = IdMap::from_specs(alloc, &["FORBID-GUEST:7:3"])?;
    let fault = map.map_guest(made(8)).err().ok_or("mapped")?;
    let text = text_of(alloc, &fault)?;
    let kind = FaultKind::from(fault);
    Ok(format!(in alloc; "{text}: {kind:?}")?)
}

/// Texts, and the debug form of why no map can be made of them: all texts are read before one is.
static UNMADE: [(&[&str], &str); 3] = [
    (
        &["guest:0:100:10", "guest:5:200:1", "map:1:2"],
        "Spec { index: 2, cause: InvalidLength { expected: 3, seen: 2 } }",
    ),
    (
        &["guest:0:100:10", "guest:5:200:1"],
        "Build(Intersects { spec: Guest { from_guest: 5, to_host: 200, count: 1 }, index: 1, \
         direction: GuestToHost })",
    ),
    (
        &["guest:0:4294967290:10"],
        "Build(RangeOverflow { spec: Guest { from_guest: 0, to_host: 4294967290, count: 10 }, index: 0, \
         direction: GuestToHost, range_end: Target })",
    ),
];

#[test]
fn tells_the_specification_at_fault(rt: HostRuntime) -> Result<(), Fail> {
    for &(texts, wanted) in &UNMADE {
        assert_eq!(rt; refusal_of(rt.alloc(), texts)?.as_str(), wanted);
    }
    Ok(())
}

/// Why no map can be made of the texts.
fn refusal_of(alloc: Global, texts: &[&str]) -> Result<String, Fail> {
    let made: Result<Users, SpecsError> = IdMap::from_specs(alloc, texts);
    let error = made.err().ok_or("accepted")?;
    Ok(format!(in alloc; "{error:?}")?)
}
