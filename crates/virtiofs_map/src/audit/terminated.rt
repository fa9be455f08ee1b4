//! Whether each name has a rule.

ghost use Rattle.std.specs.Prelude.{◌↔◌, List, IsTrue};
ghost use Rattle.virtiofs_map.specs.Audit.{Terminated};
ghost use Rattle.virtiofs_map.specs.NamesImage.{IsMapOf};
ghost use Rattle.virtiofs_map.specs.Rule.{MappingRule};

use crate::xattrmap::{Side, XattrMap, XattrMapRef};
use std::alloc::Allocator;

impl<A: Allocator> XattrMap<A> {
    /// Whether no name is ever left without a rule: neither `map_client_xattr` nor
    /// `map_server_xattrlist` returns `UnterminatedMapping` for any name or list. It does not
    /// allocate.
    ///
    /// A rule that fits a name fits all names that start with it. So it is enough to look up the
    /// empty name for the guest, and the names of one byte for the host, whose names are not empty.
    pub fn is_terminated(&self) -> bool
        ensures { IsTrue result ↔ Terminated self.now }
    {
        self.as_ref().is_terminated()
    }
}

impl XattrMapRef<'_> {
    /// Whether no name is ever left without a rule, as [`XattrMap::is_terminated`] says it.
    pub(crate) fn is_terminated(self) -> bool
        ensures { (rules : List MappingRule) → IsMapOf rules self.entry
            → IsTrue result ↔ Terminated rules }
    {
        if !self.is_decided(Side::Client, b"") {
            return false;
        }
        for byte in 1..=u8::MAX {
            if !self.is_decided(Side::Server, &[byte]) {
                return false;
            }
        }
        true
    }
}
