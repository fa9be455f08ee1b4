//! What is told of ids that are reported.

use std::alloc::Allocator;
use virtiofs_id_audit::Span;

/// Ids of a guest that are reported, and what is told of the least of them.
#[derive(Drop)]
pub struct IdsFound<A: Allocator> {
    /// All of them, as spans in order; an id lies between each two.
    pub ids: Vec<Span, A>,
    /// The least of them.
    pub guest: u32,
    /// What the least of them becomes: an id of the host, or one inside the daemon's namespace.
    pub host: u32,
    /// A second id: what `host` becomes in the guest, or the id of another guest that becomes it. It
    /// is 0 where none is told.
    pub other: u32,
    /// Whether the second id is one of the same guest, and becomes `host` too.
    pub is_shared: bool,
}

/// What is wrong with the ids of a guest.
#[derive(Drop)]
pub(crate) struct IdFindings<A: Allocator> {
    /// The ids that do not round-trip, but for those that the namespace of the daemon lacks.
    pub(crate) astray: Option<IdsFound<A>>,
    /// The ids that become one which the namespace of the daemon lacks.
    pub(crate) lacking: Option<IdsFound<A>>,
}
