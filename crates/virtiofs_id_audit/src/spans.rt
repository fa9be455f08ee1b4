//! Ids that follow one another.
ghost use Rattle.virtiofs_id_audit.specs.IdAuditParts.{IsRun};
ghost use Rattle.virtiofs_id_audit.specs.IdAudit.{Hold, AreRuns};

/// Ids of the host that follow one another, by their numbers. There are none where `last` is below
/// `first`.
#[derive(Clone, Copy, Debug, PartialEq, Eq)]
pub struct Span {
    /// The first.
    pub first: u32,
    /// The last.
    pub last: u32,
}

/// Neighbouring numbers, from some number on, all of which are of some kind, or none.
#[derive(Clone, Copy)]
pub(crate) struct Run {
    /// The last of them.
    pub(crate) last: u32,
    /// Whether all are of the kind; else none is.
    pub(crate) all: bool,
}

/// The ids from one on, as far as the spans have all of them, or none.
pub(crate) fn run_in(spans: &[Span], id: u32) -> Run
    requires { AreRuns spans.now }
    ensures { IsRun (Hold spans.now) id 4294967295 result }
{
    let at = spans.partition_point(|span| span.last < id);
    let Some(span) = spans.get(at) else {
        return Run {
            last: u32::MAX,
            all: false,
        };
    };
    if id < span.first {
        return Run {
            last: span.first - 1,
            all: false,
        };
    }
    Run {
        last: span.last,
        all: true,
    }
}
