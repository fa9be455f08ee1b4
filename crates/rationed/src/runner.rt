//! Running a call with its requests for memory refused in turn.

use crate::Rationed;
use std::alloc::Global;

/// How a call ended that was run with little memory.
#[derive(Clone, Copy, PartialEq, Eq, Debug)]
pub enum Ended {
    /// With the answer that the call has where there is memory enough.
    Answered,
    /// With out of memory, in the call's own form.
    OutOfMemory,
    /// With anything else: the call is wrong.
    Wrong,
}

impl Ended {
    /// How a call ended whose answer was compared with that of ample memory.
    pub fn of(is_same: bool) -> Ended {
        if is_same {
            Ended::Answered
        } else {
            Ended::Wrong
        }
    }
}

/// A call that takes memory.
pub trait Call {
    /// Runs the call with the memory of `scarce`, and compares its answer with that of ample
    /// memory. All that it does beside that call has its memory from `ample`. All memory is given
    /// back when it returns.
    fn run<'h>(&self, ample: &'h Rationed<Global>, scarce: &'h Rationed<Global>) -> Ended;
}

/// What came of running a call with its requests refused in turn.
#[derive(Clone, Copy, PartialEq, Eq, Debug)]
pub enum Verdict {
    /// Each run ended with the call's answer or with out of memory, and gave back what it took. The
    /// last run was refused nothing: it was answered, after so many requests.
    Passed {
        /// How many requests the last run made.
        requests: u64,
    },
    /// A run, to which so many requests were granted, ended in another way; or it was refused
    /// nothing and yet ended with out of memory.
    Failed {
        /// How many requests were granted.
        grants: u64,
    },
    /// A run, to which so many requests were granted, kept memory.
    Kept {
        /// How many requests were granted.
        grants: u64,
    },
    /// There was no end of the requests.
    Endless,
}

/// The most requests that the runner grants.
const MOST: u64 = 100_000;

/// One run, to which so many requests are granted: what came of it, or `None` where it was refused
/// one of them and all was well.
fn run_once<C: Call>(heap: Global, call: &C, grants: u64) -> Option<Verdict> {
    let ample = Rationed::new(heap, u64::MAX);
    let scarce = Rationed::new(heap, grants);
    let ended = call.run(&ample, &scarce);
    if ample.kept() != 0 || scarce.kept() != 0 {
        return Some(Verdict::Kept { grants });
    }
    let requests = scarce.asked();
    match ended {
        Ended::Answered if scarce.refused() == 0 => Some(Verdict::Passed { requests }),
        Ended::OutOfMemory if scarce.refused() == 0 => Some(Verdict::Failed { grants }),
        Ended::Wrong => Some(Verdict::Failed { grants }),
        _ => None,
    }
}

/// Runs a call with no request granted, with one, with two and so on, until a run is refused none.
pub fn refuse_in_turn<C: Call>(heap: Global, call: &C) -> Verdict {
    for grants in 0..MOST {
        if let Some(verdict) = run_once(heap, call, grants) {
            return verdict;
        }
    }
    Verdict::Endless
}
