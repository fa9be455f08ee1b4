//! How much longer names of the guest become on the host.

ghost use Rattle.virtiofs_map.specs.AddedParts.{IsAddedAt};
ghost use Rattle.virtiofs_map.specs.Audit.{IsMostAdded};

use crate::xattrmap::rules::RuleKind;
use crate::xattrmap::{Side, XattrMap};
use std::alloc::Allocator;

impl<A: Allocator> XattrMap<A> {
    /// By how many bytes a name of the guest becomes longer at most, if it passes to the host. This
    /// is the length of the longest prepend among the `prefix` rules that decide a name of the guest,
    /// or 0 if there is no such rule. The empty name counts as any other. It takes no memory.
    ///
    /// Linux takes names of attributes of at most 255 bytes. So if this is N, a name of the guest that
    /// has more than 255 - N bytes can be too long on the host.
    pub fn most_added(&self) -> usize
        ensures { IsMostAdded self.now result }
    {
        let mut most = 0;
        for place in 0..self.rule_count() {
            let added = self.added_at(place);
            if added > most {
                most = added;
            }
        }
        most
    }

    /// By how many bytes the names become longer that the rule at a place decides and lets through.
    /// It is 0 if the rule decides no name of the guest.
    fn added_at(&self, place: usize) -> usize
        ensures { IsAddedAt self.now place result }
    {
        let Some(rule) = self.rule(place) else {
            return 0;
        };
        match rule.kind {
            RuleKind::Prefix if self.decides_on(Side::Client, place) => rule.prepend.len(),
            _ => 0,
        }
    }
}
