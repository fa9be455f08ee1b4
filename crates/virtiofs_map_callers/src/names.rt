//! How a daemon makes a map of attribute names, and asks it.
ghost use Rattle.std.specs.Prelude.{◌≡◌, List, IsTrue, IfOk, IfSome};
ghost use Rattle.std.specs.Str.{chars};
ghost use Rattle.virtiofs_map.specs.LookupAnswers.{passed_bytes};
ghost use Rattle.virtiofs_map.specs.Names.{Passes, client_answer};
ghost use Rattle.virtiofs_map.specs.Rule.{MappingRule};
ghost use Rattle.virtiofs_map.specs.RuleText.{SaysRules};

use std::alloc::Global;
use virtiofs_map::xattrmap::{AppliedRule, Error, PassedName, XattrMap, XattrName, laws};

/// The map that a daemon's settings ask for.
pub fn names(alloc: Global, text: &str) -> Result<XattrMap, Error>
    ensures { IfOk result (SaysRules (chars text.now)) }
{
    XattrMap::try_from(alloc, text)
}

/// The name that the host has for a name of the guest; `None` where the guest may not use it.
pub fn host_name<'a>(
    alloc: Global,
    map: &XattrMap,
    name: XattrName<'a>,
) -> Result<Option<PassedName<'a>>, Error>
    ensures { IfOk result (λ answer. IfSome answer (λ passed.
        client_answer map.now name.entry.bytes.now ≡ Passes (passed_bytes passed))) }
{
    match map.map_client_xattr(alloc, name)? {
        AppliedRule::Pass(passed) => Ok(Some(passed)),
        AppliedRule::Deny | AppliedRule::Unsupported => Ok(None),
    }
}

/// Whether two settings are one text, so that their maps need not be compared.
pub fn say_the_same(one: &str, other: &str) -> bool
    ensures { IsTrue result → (rules more : List MappingRule)
        → SaysRules (chars one.now) rules → SaysRules (chars other.now) more → rules ≡ more }
{
    laws::one_value();
    one == other
}
