//! An allocator for tests, which grants a number of requests and refuses the rest, and a runner
//! that refuses each request of a call in turn.
//!
//! No program that is shipped uses this crate.
#![tactic(auto)]

use std::alloc::{AllocError, Allocator};
use std::cell::Cell;
use std::fmt;

mod runner;

pub use runner::{Call, Ended, Verdict, refuse_in_turn};

/// What was asked of an allocator so far, and what it did.
#[derive(Clone, Copy)]
struct Book {
    /// How many requests will still be granted.
    left: u64,
    /// How many requests were made.
    asked: u64,
    /// How many of these requests were granted.
    granted: u64,
    /// How many blocks were given back.
    given_back: u64,
}

/// An allocator that grants a number of requests and refuses each one after them. To enlarge or to
/// shrink a block is a request too.
///
/// A `&` to it is an allocator that is copied, and all its copies share one count.
pub struct Rationed<B: Allocator> {
    inner: B,
    book: Cell<Book>,
}

impl<B: Allocator> Rationed<B> {
    /// An allocator that grants so many requests, from `inner`.
    pub fn new(inner: B, grants: u64) -> Rationed<B> {
        Rationed {
            inner,
            book: Cell::new(Book {
                left: grants,
                asked: 0,
                granted: 0,
                given_back: 0,
            }),
        }
    }

    /// Refuses each request from here on.
    pub fn stop(&self) {
        let mut book = self.book.get();
        book.left = 0;
        self.book.set(book);
    }

    /// How many requests were made.
    pub fn asked(&self) -> u64 {
        self.book.get().asked
    }

    /// How many requests were refused.
    pub fn refused(&self) -> u64 {
        let book = self.book.get();
        book.asked.wrapping_sub(book.granted)
    }

    /// How many blocks were granted and not given back.
    pub fn kept(&self) -> u64 {
        let book = self.book.get();
        book.granted.wrapping_sub(book.given_back)
    }
}

impl<B: Allocator> Drop for Rationed<B> {
    fn drop(self) {
        let Self { inner: _, book: _ } = self;
    }
}

impl<B: Allocator> fmt::Debug for Rationed<B> {
    fn fmt<W: fmt::Write>(&self, f: &mut fmt::Formatter<W>) -> fmt::Result {
        f.write_str("Rationed")
    }
}

/// Counts a request, and says whether it is granted.
fn grants(book: &Cell<Book>) -> bool {
    let mut now = book.get();
    let granted = now.left > 0;
    now.asked = now.asked.wrapping_add(1);
    if granted {
        now.left = now.left.wrapping_sub(1);
        now.granted = now.granted.wrapping_add(1);
    }
    book.set(now);
    granted
}

/// Counts a block that is given back.
fn takes_back(book: &Cell<Book>) {
    let mut now = book.get();
    now.given_back = now.given_back.wrapping_add(1);
    book.set(now);
}

unsafe impl<B: Allocator> Allocator for Rationed<B> {
    ghost dealloc_token = { λ heap ty ptr. B.dealloc_token heap.inner ty ptr };

    fn allocate(&self, size: usize, align: usize) -> Result<*mut u8, AllocError> {
        if grants(&self.book) {
            return self.inner.allocate(size, align);
        }
        Err(AllocError)
    }

    unsafe fn deallocate(&self, ptr: *mut u8, size: usize, align: usize) {
        takes_back(&self.book);
        self.inner.deallocate(ptr, size, align);
    }
}
