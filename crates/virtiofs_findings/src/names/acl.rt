//! Access control lists whose attributes the rules pass under other names.
ghost use Rattle.std.specs.Prelude.{IfOk, OnOk, ◌≡◌};
ghost use Rattle.virtiofs_findings.specs.AclNames.{acl_bytes, FindsRenamed, FindsAclName, FindsAcl};
ghost use Rattle.virtiofs_findings.specs.FindingParts.{IsOther};
ghost use Rattle.virtiofs_findings.specs.Lists.{Adds};

use crate::finding::{About, Evidence, Finding, Kind};
use crate::report::push_found;
use crate::setup::NamesSetUp;
use std::alloc::{AllocError, Allocator};
use virtiofs_map::xattrmap::{AppliedRule, ErrorKind, XattrMap, XattrName};

/// An attribute of an access control list.
#[derive(Clone, Copy)]
pub enum AclName {
    /// Who may use a file.
    Access,
    /// Who may use what is made in a directory.
    Default,
}

/// The name of the attribute.
pub fn acl_name(name: AclName) -> &'static str
    ensures { result.now ≡ acl_bytes name }
{
    match name {
        AclName::Access => "system.posix_acl_access",
        AclName::Default => "system.posix_acl_default",
    }
}

/// The name, as the library takes one.
fn attribute(name: AclName) -> XattrName<'static>
    ensures { result.bytes.now ≡ acl_bytes name }
{
    let bytes = acl_name(name).as_bytes();
    XattrName { bytes }
}

/// The name as which the guest's passes, if that is another one.
fn renamed<A: Allocator + Copy>(
    alloc: A,
    map: &XattrMap<A>,
    name: XattrName<'_>,
) -> Result<Option<Vec<u8, A>>, AllocError>
    ensures { IfOk result (FindsRenamed map.now name.entry.bytes.now) }
{
    match map.map_client_xattr(alloc, name) {
        Ok(AppliedRule::Pass(host)) => other_than(alloc, name, host.as_bytes()),
        Ok(AppliedRule::Deny) => Ok(None),
        Ok(AppliedRule::Unsupported) => Ok(None),
        Err(error) => match error.cause {
            ErrorKind::UnterminatedMapping => Ok(None),
            _ => Err(AllocError),
        },
    }
}

/// A copy of a name, if it is another one.
fn other_than<A: Allocator>(
    alloc: A,
    name: XattrName<'_>,
    host: &[u8],
) -> Result<Option<Vec<u8, A>>, AllocError>
    ensures { IfOk result (IsOther name.entry.bytes.now host.now) }
{
    if host == name.bytes {
        return Ok(None);
    }
    Ok(Some(Vec::from_slice(alloc, host)?))
}

/// Adds that the name of the attribute passes as another one, if it does.
fn push_acl_name<A: Allocator + Copy>(
    alloc: A,
    found: &mut Vec<Finding<A>, A>,
    number: usize,
    map: &XattrMap<A>,
    name: AclName,
) -> Result<(), AllocError>
    ensures { OnOk result
        (Adds (FindsAclName number map.now name) found.old.items found.new.items) }
{
    let host = renamed(alloc, map, attribute(name))?;
    let evidence = host.map(|host| Evidence::Renamed(name, host));
    push_found(found, About::Guest(number), Kind::AclRenamed, evidence)
}

/// Adds which names of access control lists pass as others, if these lists are on and there are rules.
#[tactic(auto, using(std::proofs::Common::append_assoc))]
pub(crate) fn push_acl<A: Allocator + Copy>(
    alloc: A,
    found: &mut Vec<Finding<A>, A>,
    number: usize,
    are_on: bool,
    set: &Option<NamesSetUp<A>>,
) -> Result<(), AllocError>
    ensures { OnOk result (Adds (FindsAcl number are_on set.now) found.old.items found.new.items) }
{
    if !are_on {
        return Ok(());
    }
    let Some(set) = set else {
        return Ok(());
    };
    push_acl_name(alloc, found, number, &set.map, AclName::Access)?;
    push_acl_name(alloc, found, number, &set.map, AclName::Default)
}
