//! Texts of specifications: what each is printed as, and the texts of faults.

use std::alloc::Global;
use std::test::Fail;
use virtiofs_map::cmdline::{IdMap, IdMapError};
use virtiofs_map_callers::texts::forbidding;

/// Each text, and the printed form of the specification that it says.
static PRINTED: [(&str, &str); 7] = [
    ("map:+0:1000:10", "map:0:1000:10"),
    ("map\u{0}00\u{0}1000\u{0}10", "map:0:1000:10"),
    ("FORBID-GUEST/7/3", "forbid-guest:7:3"),
    ("Guest:1:2:3", "guest:1:2:3"),
    ("host,0007,0,0", "host:7:0:0"),
    ("squash-guest:0:65534:10", "squash-guest:0:65534:10"),
    ("squash-HOST:10:20:30", "squash-host:10:20:30"),
];

/// Texts with an unknown word or another count of numbers, and what is printed of the fault behind
/// `Invalid ID map `. Rows of `tests/program.jsonl` have more texts at fault.
static FAULTS: [(&str, &str); 3] = [
    ("FORB\u{130}D-GUEST:1:2", "prefix forb\u{130}d-guest"),
    ("", "length (expected 1 elements, got 0 elements)"),
    (
        "forbid-guest:1:2:3",
        "length (expected 2 elements, got 3 elements)",
    ),
];

/// A text, and the first of its fields that is no number.
static UNREAD: [(&str, &str); 3] = [
    ("map:1:2:3:", ""),
    ("map:4294967296:x:1", "4294967296"),
    ("foo:５:x", "５"),
];

#[test]
fn prints_specifications(rt: HostRuntime) -> Result<(), Fail> {
    for &(text, printed) in &PRINTED {
        let spec = IdMap::from_str(rt.alloc(), text)?;
        assert_eq!(rt; spec.to_string(rt.alloc())?.as_str(), printed);
    }
    let (guest, host, count) = (0, 1000, 10);
    let map = IdMap::Bidirectional { guest, host, count };
    assert!(rt; IdMap::from_str(rt.alloc(), "map:0:1000:10")? == map);
    let text = forbidding(rt.alloc(), 7, 3)?;
    assert_eq!(rt; text.as_str(), "forbid-guest:7:3");
    Ok(())
}

#[test]
fn prints_faults(rt: HostRuntime) -> Result<(), Fail> {
    for &(text, said) in &FAULTS {
        let printed = format!(in rt.alloc(); "Invalid ID map {said}")?;
        assert!(rt; fault_of(rt.alloc(), text)? == printed, "of {text:?}");
    }
    let fault: IdMapError = IdMapError::OutOfMemory;
    assert_eq!(rt; fault.to_string(rt.alloc())?.as_str(), "Out of memory");
    Ok(())
}

#[test]
fn prints_the_first_unread_field(rt: HostRuntime) -> Result<(), Fail> {
    for &(text, field) in &UNREAD {
        let error = field.parse::<u32>().err().ok_or("a number")?;
        let printed = format!(in rt.alloc(); "Invalid value {field} in ID map: {error}")?;
        assert!(rt; fault_of(rt.alloc(), text)? == printed, "of {text:?}");
    }
    Ok(())
}

/// The text of what is wrong with a text.
fn fault_of(alloc: Global, text: &str) -> Result<String, Fail> {
    let fault = IdMap::from_str(alloc, text).err().ok_or("read")?;
    Ok(fault.to_string(alloc)?)
}
