//! What becomes of an id of either kind in one direction.
ghost use Rattle.virtiofs_acl.specs.Acl.{specs_for};
ghost use Rattle.virtiofs_acl.specs.AclParts.{OfWays};
ghost use Rattle.virtiofs_map.specs.Mapping.{Becomes};

use virtiofs_map::soft_idmap::{Direction, IdMapRef};

/// The maps of users and of groups, and the direction in which ids go.
#[derive(Drop)]
pub(crate) struct Ways<'a> {
    pub(crate) users: &'a IdMapRef<'a>,
    pub(crate) groups: &'a IdMapRef<'a>,
    pub(crate) direction: Direction,
}

impl<'a> Ways<'a> {
    /// What an id becomes, of an entry with that tag; `None` where its use fails.
    #[inline(always)]
    pub(crate) fn becomes(&self, tag: u16, id: u32) -> Option<u32>
        ensures { OfWays self.now (λ users groups direction.
            Becomes (specs_for users groups tag) direction id result) }
    {
        if tag == 2 {
            self.users.becomes(self.direction, id)
        } else {
            self.groups.becomes(self.direction, id)
        }
    }
}
