//! What the rules of a map put before a name, or take off it.

ghost use Rattle.std.specs.Prelude.{◌≡◌, ◌++◌, ◌↔◌, ◌≤◌, ℕ, List, Some, None, MatchOption, OnOk, IsTrue};
ghost use Rattle.std.specs.Prelude.{length};
ghost use Rattle.virtiofs_map.specs.Audit.{IsStray};
ghost use Rattle.virtiofs_map.specs.AuditParts.{CutsAt, IsCut, PutsAt, added_prefix, is_hidden, added_prefix_of};
ghost use Rattle.virtiofs_map.specs.MapRule.{IsName};
ghost use Rattle.virtiofs_map.specs.NamesImage.{IsMapOf};
ghost use Rattle.virtiofs_map.specs.Rule.{MappingRule};
ghost use Rattle.virtiofs_map.specs.RuleParts.{rule_meant};

use crate::xattrmap::image::Decision;
use crate::xattrmap::rules::{RuleKind, RuleRef};
use crate::xattrmap::{Side, XattrMapRef};
use std::alloc::{AllocError, Allocator};

impl<'m> RuleRef<'m> {
    /// What a host's name has before the guest's, where the rule lets names through.
    pub(crate) fn added_prefix(self) -> Option<&'m [u8]>
        ensures { MatchOption result (added_prefix_of (rule_meant self.entry) ≡ None)
            (λ found. added_prefix_of (rule_meant self.entry) ≡ Some found.now) }
    {
        match self.kind {
            RuleKind::Okay => Some(&[]),
            RuleKind::Prefix => Some(self.prepend),
            RuleKind::Bad | RuleKind::Unsupported => None,
        }
    }
}

/// What a host's name has before the guest's by the first rule that fits the name on that side;
/// `None` where that rule lets no name through, or no rule fits.
pub(crate) fn added_prefix<'m>(map: XattrMapRef<'m>, side: Side, name: &[u8]) -> Option<&'m [u8]>
    ensures { (rules : List MappingRule) → IsMapOf rules map.entry
        → MatchOption result (added_prefix side rules name.now ≡ None)
        (λ found. added_prefix side rules name.now ≡ Some found.now) }
{
    let (decision, _) = map.decide(side, name);
    match decision {
        Decision::Okay => Some(&[]),
        Decision::Prefix(prepend) => Some(prepend),
        Decision::Bad | Decision::Unsupported | Decision::Undecided | Decision::NoMap => None,
    }
}

/// Makes `room` hold the added prefix and then the name.
pub(crate) fn put_together<A: Allocator>(
    room: &mut Vec<u8, A>,
    added: &[u8],
    name: &[u8],
) -> Result<(), AllocError>
    ensures { OnOk result (room.new.items ≡ added.now ++ name.now) }
{
    room.clear();
    room.extend_from_slice(added)?;
    room.extend_from_slice(name)
}

/// Whether a rule decides the name of the host, and hides it.
pub(crate) fn is_hidden(map: XattrMapRef<'_>, host: &[u8]) -> bool
    ensures { (rules : List MappingRule) → IsMapOf rules map.entry
        → result ≡ is_hidden rules host.now }
{
    let (decision, _) = map.decide(Side::Server, host);
    matches!(decision, Decision::Bad | Decision::Unsupported)
}

/// Whether the server's rules take the first `at` bytes off the name of the host.
pub(crate) fn is_cut_at(map: XattrMapRef<'_>, host: &[u8], at: usize) -> bool
    ensures { (rules : List MappingRule) → IsMapOf rules map.entry
        → IsTrue result ↔ CutsAt rules host.now at }
{
    let Some(cut) = added_prefix(map, Side::Server, host) else {
        return false;
    };
    cut.len() == at
}

/// Whether the server's rules take that off a name of the host, from one that begins with it.
pub(crate) fn is_cut(map: XattrMapRef<'_>, cut: &[u8]) -> bool
    ensures { (rules : List MappingRule) → IsMapOf rules map.entry
        → IsTrue result ↔ IsCut rules cut.now }
{
    cut.is_empty() || is_cut_at(map, cut, cut.len())
}

/// Whether the client's rules put the first `at` bytes of the name of the host before the others.
pub(crate) fn is_put_at(map: XattrMapRef<'_>, host: &[u8], at: usize) -> bool
    requires { at ≤ length host.now }
    ensures { (rules : List MappingRule) → IsMapOf rules map.entry
        → IsTrue result ↔ PutsAt rules host.now at }
{
    let Some(added) = added_prefix(map, Side::Client, &host[at..]) else {
        return false;
    };
    added == &host[..at]
}

/// Whether some name of the guest passes as the name of the host: whether, wherever that is parted,
/// the client's rules put its first part before the second.
pub(crate) fn is_reached(map: XattrMapRef<'_>, host: &[u8]) -> bool
    ensures { (rules : List MappingRule) → IsMapOf rules map.entry
        → IsTrue result ↔ ((at : ℕ) × (at ≤ length host.now) × PutsAt rules host.now at) }
{
    for at in 0..host.len() {
        if is_put_at(map, host, at) {
            return true;
        }
    }
    is_put_at(map, host, host.len())
}

/// Whether the name of the host, not empty, is listed under a name that does not pass as it.
pub(crate) fn is_stray(map: XattrMapRef<'_>, host: &[u8]) -> bool
    ensures { (rules : List MappingRule) → IsMapOf rules map.entry
        → IsName host.now → IsTrue result ↔ IsStray rules host.now }
{
    let Some(cut) = added_prefix(map, Side::Server, host) else {
        return false;
    };
    if host.is_empty() {
        return false;
    }
    if host.len() < cut.len() {
        return false;
    }
    !is_put_at(map, host, cut.len())
}
