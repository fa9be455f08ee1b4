//! Texts of ranges: which are read and as what, and what is wrong with the others.

use std::alloc::Global;
use std::process::Abort;
use std::test::Fail;
use virtiofs_map::idmap::{GidMap, UidMap};
use virtiofs_map_callers::texts::printed;

/// A text, and what the range that it says is printed as.
static READ: [(&str, &str); 2] = [
    (":0:100000:65536:", ":0:100000:65536:"),
    ("§1§2§3§", ":1:2:3:"),
];

/// A text with another delimiter, and one with another count of fields, and what is printed.
static REFUSED: [(&str, &str); 2] = [
    (
        ":1:2:3",
        "A delimiter has been found that does not match the delimiter the map started with",
    ),
    (
        "::",
        "The map is empty or incorrect number of values are provided",
    ),
];

/// A text, and the first of its fields that is no number.
static UNREAD: [(&str, &str); 3] = [
    ("::::", ""),
    (":x:0:4294967296:", "x"),
    (":4294967296::x:", "4294967296"),
];

#[test]
fn reads_user_ids(rt: HostRuntime) -> Result<(), Fail> {
    for &(text, form) in &READ {
        let range = UidMap::from_str(text)?;
        assert_eq!(rt; printed(rt.alloc(), &range)?.as_str(), form, "of {text}");
    }
    let range = UidMap::from_str(":1:2:3:")?;
    assert!(rt; (range.inside_uid, range.outside_uid, range.count) == (1, 2, 3));
    assert!(rt; range.clone()? == range);
    Ok(())
}

#[test]
fn reads_group_ids(rt: HostRuntime) -> Result<(), Fail> {
    for &(text, form) in &READ {
        let range = GidMap::from_str(text)?;
        assert_eq!(rt; range.to_string(rt.alloc())?.as_str(), form, "of {text}");
    }
    let range = GidMap::from_str(":1:2:3:")?;
    assert!(rt; (range.inside_gid, range.outside_gid, range.count) == (1, 2, 3));
    assert!(rt; range.clone()? == range);
    Ok(())
}

#[test]
fn refuses_other_texts(rt: HostRuntime) -> Result<(), Fail> {
    for &(text, said) in &REFUSED {
        assert_said(&rt, rt.alloc(), text, said)?;
    }
    Ok(())
}

#[test]
fn tells_what_is_wrong_with_the_first_number(rt: HostRuntime) -> Result<(), Fail> {
    for &(text, field) in &UNREAD {
        let error = field.parse::<u32>().err().ok_or("a number")?;
        let said = error.to_string(rt.alloc())?;
        assert_said(&rt, rt.alloc(), text, said.as_str())?;
    }
    Ok(())
}

/// Sees what is printed where a text is read as a range of users, and of groups.
fn assert_said(rt: &impl Abort, alloc: Global, text: &str, said: &str) -> Result<(), Fail> {
    let fault = UidMap::from_str(text).err().ok_or("read")?;
    assert!(rt;
        GidMap::from_str(text).err().is_some_and(|it| it == fault),
        "of {text:?}"
    );
    assert_eq!(rt; fault.to_string(alloc)?.as_str(), said, "of {text:?}");
    Ok(())
}
