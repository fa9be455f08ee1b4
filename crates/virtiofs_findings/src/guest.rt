//! A guest that is audited.

use std::alloc::Allocator;
use virtiofs_host::runner::Runner;
use virtiofs_options::guest::Guest as GuestOptions;

/// The options of the daemon of a guest, and who runs it.
#[derive(Drop)]
pub struct Guest<'a, A: Allocator> {
    /// The options.
    pub options: GuestOptions<'a, A>,
    /// Who runs the daemon, if that is known. Without, the words before the daemon's and its ranges say
    /// whether root does.
    pub runner: Option<&'a Runner<A>>,
}
