//! Texts of options that are refused, and what is not known of a daemon.

use crate::ids::kind::IdKind;
use std::alloc::Allocator;

/// Which text of the options of a guest is refused, or what is missing. Its place among the values of its
/// option is counted from 0.
#[derive(Clone, Copy)]
pub enum Refused {
    /// A specification, of `--translate-uid` or `--translate-gid`.
    Spec(IdKind, usize),
    /// A range of the namespace, of `--uid-map` or `--gid-map`.
    Range(IdKind, usize),
    /// No text: as which user, or as which group, the daemon acts is not known.
    Own(IdKind),
    /// The rules for names, which are one text.
    Rules,
}

/// The first fault of an option of a guest.
#[derive(Drop)]
pub struct Refusal<A: Allocator> {
    /// The number of the guest, counted from 1.
    pub guest: usize,
    /// What is refused, or not known.
    pub what: Refused,
    /// Why it is refused, as the library says it; empty where no text is.
    pub why: String<A>,
}
