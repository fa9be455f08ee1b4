//! Users and groups.

/// Whether ids are those of users or of groups.
#[derive(Clone, Copy, PartialEq, Eq)]
pub enum IdKind {
    /// Ids of users.
    Users,
    /// Ids of groups.
    Groups,
}
