//! Names that the guest asks for, with what becomes of them.

use Wanted::{Denied, Other, Owned, Same, Unsupported, Unterminated};
use std::alloc::Global;
use std::test::Fail;
use virtiofs_map::xattrmap::{AppliedRule, Error, ErrorKind, PassedName, XattrMap, XattrName};
use virtiofs_map_callers::names::{host_name, names, say_the_same};

/// What a map of this text is to make of one name.
type Case = (&'static str, &'static [u8], Wanted<'static>);

static RULES: [Case; 10] = [
    (":ok:all:é:é: :bad:all:::", b"\xe9", Denied),
    (":unsupported:client:a:: :ok:all:::", b"ab", Unsupported),
    (":ok:client:a::", b"b", Unterminated),
    (
        ":prefix:all:é:ü.:",
        b"\xc3\xa9",
        Owned(b"\xc3\xbc.\xc3\xa9"),
    ),
    (":ok:all:::", b"\xff\xc3", Same),
    (":map:a:ab:", b"abx", Owned(b"ababx")),
    (":map:ab:a:", b"abx", Owned(b"aabx")),
    (":map:a::", b"ax", Owned(b"ax")),
    (":map:::", b"x", Owned(b"x")),
    (":map:a:b:", b"", Same),
];

#[test]
fn answers_by_the_first_rule(rt: HostRuntime) -> Result<(), Fail> {
    for &(text, bytes, wanted) in &RULES {
        let map = XattrMap::try_from(rt.alloc(), text)?;
        let name = XattrName::new(bytes).ok_or("a name holds a zero")?;
        let answer = map.map_client_xattr(rt.alloc(), name);
        assert_eq!(rt; given(bytes, &answer), wanted, "{bytes:?} under {text:?}");
    }
    Ok(())
}

#[test]
fn passed_names_outlive_the_map(rt: HostRuntime) -> Result<(), Fail> {
    let name = XattrName::new(b"allow.y").ok_or("a name holds a zero")?;
    let rest = XattrName::new(b"y").ok_or("a name holds a zero")?;
    let borrowed = passed(rt.alloc(), ":ok:all:allow.:allow.:", name)?;
    assert!(rt; borrowed == AppliedRule::Pass(PassedName::Borrowed(name)));
    let owned = passed(rt.alloc(), ":prefix:client::allow.:", rest)?;
    assert!(rt; borrowed == owned);
    Ok(())
}

/// What becomes of a name, once the map is gone.
fn passed<'n>(alloc: Global, text: &str, name: XattrName<'n>) -> Result<AppliedRule<'n>, Fail> {
    let map = XattrMap::try_from(alloc, text)?;
    Ok(map.map_client_xattr(alloc, name)?)
}

#[test]
fn a_guest_has_names_of_its_own(rt: HostRuntime) -> Result<(), Fail> {
    let map = names(rt.alloc(), ":map:trusted.:user.virtiofs.:")?;
    let passed = Some(b"user.virtiofs.trusted.a".as_slice());
    assert!(rt; is_host_name(rt.alloc(), &map, b"trusted.a", passed)?);
    assert!(rt; is_host_name(rt.alloc(), &map, b"user.virtiofs.a", None)?);
    assert!(rt; say_the_same(":ok:all:::", ":ok:all:::"));
    Ok(())
}

/// Whether the host has this name for one of the guest.
fn is_host_name(
    alloc: Global,
    map: &XattrMap,
    name: &[u8],
    wanted: Option<&[u8]>,
) -> Result<bool, Fail> {
    let name = XattrName::new(name).ok_or("a name holds a zero")?;
    let Some(passed) = host_name(alloc, map, name)? else {
        return Ok(wanted.is_none());
    };
    Ok(wanted == Some(passed.as_bytes()))
}

/// What is to become of a name.
#[derive(Clone, Copy, PartialEq, Eq, Debug)]
enum Wanted<'n> {
    /// It passes as it is, borrowed.
    Same,
    /// It passes as this one, owned.
    Owned(&'n [u8]),
    Denied,
    Unsupported,
    /// It has no rule.
    Unterminated,
    Other,
}

fn given<'n>(name: &[u8], answer: &'n Result<AppliedRule<'n>, Error>) -> Wanted<'n> {
    match answer {
        Ok(AppliedRule::Pass(PassedName::Borrowed(passed))) if passed.as_bytes() == name => Same,
        Ok(AppliedRule::Pass(PassedName::Owned(passed))) => Owned(passed.as_name().as_bytes()),
        Ok(AppliedRule::Deny) => Denied,
        Ok(AppliedRule::Unsupported) => Unsupported,
        Err(error) if *error == Error::from(ErrorKind::UnterminatedMapping) => Unterminated,
        _ => Other,
    }
}
