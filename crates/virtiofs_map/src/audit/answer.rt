//! What an audit answers.

use crate::xattrmap::XattrNameBuf;
use std::alloc::{Allocator, Global};

/// The answer of an audit.
#[derive(Drop)]
#[derive_where(PartialEq, Eq, Debug)]
pub enum Audit<A: Allocator = Global> {
    /// What was asked holds of all names.
    Yes,
    /// What was asked fails for this name, and for no name that comes before it in byte order.
    No(XattrNameBuf<A>),
}
