//! A question about names.

ghost use Rattle.std.specs.List.Sorted.{IsPermutation};
ghost use Rattle.std.specs.Prelude.{◌≡◌, ◌++◌, ◌↔◌, ◌≢◌, All, ℕ, List, IfOk, IsFalse, IsTrue};
ghost use Rattle.virtiofs_map.specs.AuditParts.{FailsAs, IsAskedOf, IsBad, ends_of, side_of, AreOrdered};
ghost use Rattle.virtiofs_map.specs.MapRule.{IsName};
ghost use Rattle.virtiofs_map.specs.Rule.{MappingRule};

use crate::audit::asking::NameFault;
use crate::audit::gathered::{Part, gathered};
use crate::audit::passing::{
    added_prefix, is_cut_at, is_hidden, is_reached, is_stray, put_together,
};
use crate::xattrmap::{Side, XattrMapRef, XattrName, XattrNameBuf};
use std::alloc::{AllocError, Allocator};

/// What an audit asks: which names that begin with these bytes have the fault.
#[derive(Clone, Copy)]
pub(crate) struct Question<'m> {
    pub(crate) fault: NameFault,
    /// The map under which names may have the fault.
    pub(crate) map: XattrMapRef<'m>,
    /// The map of the other guest. It counts for `Seen` and `Shared`.
    pub(crate) other: XattrMapRef<'m>,
    pub(crate) beginning: XattrName<'m>,
}

impl Question<'_> {
    /// The side whose names may have the fault.
    pub(crate) fn side(&self) -> Side
        ensures { result ≡ side_of self.now.fault }
    {
        match self.fault {
            NameFault::Stray => Side::Server,
            _ => Side::Client,
        }
    }

    /// What names of the other side begin with, in the order of the bytes: two names that begin with
    /// the same of these fare alike there.
    pub(crate) fn ends<A: Allocator + Copy>(
        &self,
        alloc: A,
    ) -> Result<Vec<XattrNameBuf<A>, A>, AllocError>
        ensures parts { IfOk result (λ names. (rules others : List MappingRule)
            → IsAskedOf self.now rules others
            → IsPermutation (ends_of self.now.fault rules others) names.items) }
        ensures ordered { IfOk result (λ names. AreOrdered names.items) }
    {
        match self.fault {
            NameFault::Lost => gathered(alloc, self.map, Part::Pattern(Side::Server)),
            NameFault::Stray => gathered(alloc, self.map, Part::Pattern(Side::Client)),
            NameFault::Seen => gathered(alloc, self.other, Part::Pattern(Side::Server)),
            NameFault::Shared => gathered(alloc, self.other, Part::Passed),
        }
    }

    /// Whether a name of the guest that becomes that name of the host, with so many bytes put before
    /// it, has the fault.
    fn fails_as(&self, host: &[u8], added: usize) -> bool
        ensures { (rules others : List MappingRule) → IsAskedOf self.now rules others
            → IsName host.now
            → IsTrue result ↔ FailsAs self.now.fault rules others host.now added }
    {
        if host.is_empty() {
            return false;
        }
        match self.fault {
            NameFault::Lost => added < host.len() && !is_cut_at(self.map, host, added),
            NameFault::Stray => false,
            NameFault::Seen => !is_hidden(self.other, host),
            NameFault::Shared => is_reached(self.other, host),
        }
    }

    /// Whether the name is one that is asked for. `room` is where a name of the host is put together.
    pub(crate) fn is_bad<A: Allocator>(
        &self,
        room: &mut Vec<u8, A>,
        name: &[u8],
    ) -> Result<bool, AllocError>
        requires { All (λ byte. byte ≢ 0) name.now }
        ensures { IfOk result (λ answer. (rules others : List MappingRule)
            → IsAskedOf self.now rules others
            → IsTrue answer ↔ IsBad self.now rules others name.now) }
    {
        if !name.starts_with(self.beginning.bytes) {
            return Ok(false);
        }
        if let NameFault::Stray = self.fault {
            return Ok(is_stray(self.map, name));
        }
        let Some(added) = added_prefix(self.map, Side::Client, name) else {
            return Ok(false);
        };
        put_together(room, added, name)?;
        Ok(self.fails_as(room.as_slice(), added.len()))
    }

    /// Whether the question may be about a name that begins with these bytes.
    pub(crate) fn may_begin_with(&self, bytes: &[u8]) -> bool
        ensures { IsFalse result → (rules others : List MappingRule) (rest : List ℕ)
            → ¬ IsBad self.now rules others (bytes.now ++ rest) }
    {
        let beginning = self.beginning.bytes;
        if bytes.starts_with(beginning) {
            return true;
        }
        beginning.starts_with(bytes)
    }
}
