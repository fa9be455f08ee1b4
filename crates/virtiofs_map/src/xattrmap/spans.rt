//! Where the patterns of rules stand among the bytes of all of them.

/// Where the patterns of a rule stand.
#[derive(Clone, Copy)]
pub(crate) struct Span {
    /// Where the key begins.
    pub(crate) key: usize,
    /// Where the key ends, and the prepend begins.
    pub(crate) prepend: usize,
    /// Where the prepend ends.
    pub(crate) end: usize,
}
