//! What is told of names that are reported.

use std::alloc::Allocator;
use virtiofs_map::audit::Audit;
use virtiofs_map::xattrmap::XattrNameBuf;

/// The least name that is reported, of all names, and of those that begin as names of attributes
/// do. `Yes` stands where no such name is reported.
#[derive(Drop)]
pub struct LeastName<A: Allocator> {
    /// Of all names.
    pub name: XattrNameBuf<A>,
    /// Of those that begin with `user.`.
    pub user: Audit<A>,
    /// Of those that begin with `trusted.`.
    pub trusted: Audit<A>,
    /// Of those that begin with `security.`.
    pub security: Audit<A>,
    /// Of those that begin with `system.`.
    pub system: Audit<A>,
}
