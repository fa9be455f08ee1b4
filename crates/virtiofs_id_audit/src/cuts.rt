//! What is left of a span where ids are cut out of it.
ghost use Rattle.std.specs.Prelude.{◌↔◌, ◌⊎◌, ℕ, ◌+◌, ◌<◌, ◌≤◌, All, IfOk, OnOk};
ghost use Rattle.std.specs.List.Sorted.{IsNonDecreasingBy};
ghost use Rattle.virtiofs_id_audit.specs.IdAudit.{Has, Hold, AreRuns};
ghost use Rattle.virtiofs_id_audit.specs.IdAuditParts.{RunsBelow};

use crate::spans::Span;
use std::alloc::{AllocError, Allocator};

/// Those of the spans that have an id of the whole.
pub(crate) fn meeting(spans: &[Span], whole: Span) -> &[Span]
    requires order { whole.first ≤ whole.last }
    requires runs { AreRuns spans.now }
    ensures runs { AreRuns result.now }
    ensures meet { All (λ span. (whole.first ≤ span.last) × (span.first ≤ whole.last)) result.now }
    ensures hold { (id : ℕ) → Has whole id → Hold result.now id ↔ Hold spans.now id }
{
    let from = spans.partition_point(|span| span.last < whole.first);
    let (_, rest) = spans.split_at(from);
    let count = rest.partition_point(|span| span.first <= whole.last);
    let (met, _) = rest.split_at(count);
    met
}

/// Adds the ids from `first` on, and below `end`, as a span, where there are some.
pub(crate) fn push_between<A: Allocator>(
    spans: &mut Vec<Span, A>,
    first: u64,
    end: u64,
) -> Result<(), AllocError>
    requires { end ≤ 4294967296 }
    ensures runs { RunsBelow first spans.old.items → OnOk result ((next : ℕ) → first ≤ next
        → end < next → RunsBelow next spans.new.items) }
    ensures hold { OnOk result ((id : ℕ) → Hold spans.new.items id
        ↔ (Hold spans.old.items id ⊎ ((first ≤ id) × (id < end)))) }
{
    if end <= first {
        return Ok(());
    }
    spans.push(Span {
        first: first as u32,
        last: (end - 1) as u32,
    })?;
    Ok(())
}

/// The ids of the whole that no cut has, as spans. The cuts may overlap.
pub(crate) fn without<A: Allocator>(
    alloc: A,
    whole: Span,
    cuts: &[Span],
) -> Result<Vec<Span, A>, AllocError>
    requires order { whole.first ≤ whole.last }
    requires some { All (λ cut. cut.first ≤ cut.last) cuts.now }
    requires firsts { IsNonDecreasingBy (λ cut. cut.first) cuts.now }
    ensures runs { IfOk result (λ kept. AreRuns kept.items) }
    ensures hold { IfOk result (λ kept. (id : ℕ)
        → Hold kept.items id ↔ (Has whole id × (¬ Hold cuts.now id))) }
{
    let mut kept = Vec::new(alloc);
    let end = u64::from(whole.last) + 1;
    let mut next = u64::from(whole.first);
    for cut in cuts {
        push_between(&mut kept, next, end.min(u64::from(cut.first)))?;
        next = next.max(u64::from(cut.last) + 1);
    }
    push_between(&mut kept, next, end)?;
    Ok(kept)
}
