//! Which ids inside a user namespace its ranges have.
ghost use Rattle.std.specs.Prelude.{◌↔◌, ℕ, IfOk};
ghost use Rattle.virtiofs_id_audit.specs.IdAuditParts.{IsRun};
ghost use Rattle.virtiofs_id_audit.specs.IdAudit.{Hold};
ghost use Rattle.virtiofs_id_audit.specs.Namespace.{Has, HasSome, HasNone, IsLacking};

use crate::spans::{Run, Span};
use std::alloc::{AllocError, Allocator};
use virtiofs_map::idmap::UidMap;

/// The ids from one on, as far as the range has none of them, or all.
fn run_without(range: &UidMap, inside: u32) -> Run
    ensures { IsRun (λ n. ¬ Has range.now n) inside 4294967295 result }
{
    let end = u64::from(range.inside_uid) + u64::from(range.count);
    if range.inside_uid <= inside && u64::from(inside) < end {
        return Run {
            last: (end - 1).min(u64::from(u32::MAX)) as u32,
            all: false,
        };
    }
    if range.count > 0 && inside < range.inside_uid {
        return Run {
            last: range.inside_uid - 1,
            all: true,
        };
    }
    Run {
        last: u32::MAX,
        all: true,
    }
}

/// The ids from one on, as far as no range has any of them, or one has all.
fn run_of_none(ranges: &[UidMap], inside: u32) -> Run
    ensures { IsRun (λ n. ¬ HasSome ranges.now n) inside 4294967295 result }
{
    let mut last = u32::MAX;
    for range in ranges {
        let run = run_without(range, inside);
        if !run.all {
            return run;
        }
        last = last.min(run.last);
    }
    Run { last, all: true }
}

/// The ids, of 0 to 4294967295, that no range has.
pub fn ids_of_none<A: Allocator>(alloc: A, ranges: &[UidMap]) -> Result<Vec<Span, A>, AllocError>
    ensures { IfOk result (λ ids. (inside : ℕ)
        → Hold ids.items inside ↔ HasNone ranges.now inside) }
{
    let mut ids = Vec::new(alloc);
    let mut next = 0u64;
    while let Ok(first) = u32::try_from(next) {
        let run = run_of_none(ranges, first);
        if run.all {
            ids.push(Span {
                first,
                last: run.last,
            })?;
        }
        next = u64::from(run.last) + 1;
    }
    Ok(ids)
}

/// 4294967295, which is no id to Linux.
const NO_ID: Span = Span {
    first: u32::MAX,
    last: u32::MAX,
};

/// The ids inside the namespace of these ranges that it lacks: 4294967295, and with ranges those that
/// none of them has.
pub fn lacking_ids<A: Allocator>(alloc: A, ranges: &[UidMap]) -> Result<Vec<Span, A>, AllocError>
    ensures { IfOk result (λ ids. (inside : ℕ)
        → Hold ids.items inside ↔ IsLacking ranges.now inside) }
{
    let mut ids = if ranges.is_empty() {
        Vec::new(alloc)
    } else {
        ids_of_none(alloc, ranges)?
    };
    ids.push(NO_ID)?;
    Ok(ids)
}
