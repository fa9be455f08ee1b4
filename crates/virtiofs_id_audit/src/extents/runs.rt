//! Neighbouring ids of the guest that are all sought, or of which none is.
ghost use Rattle.std.specs.Prelude.{◌≡◌, ◌<◌, ◌≤◌};
ghost use Rattle.virtiofs_id_audit.specs.IdAudit.{IsAstray, GoesInto, Hold, AreRuns};
ghost use Rattle.virtiofs_id_audit.specs.IdAuditParts.{BecomesOne, IsMoved, IsSought, of_bad, IsRun, AreStarts};
ghost use Rattle.virtiofs_map.specs.Build.{Accepted};
ghost use Rattle.virtiofs_map.specs.Pieces.{IsNamed};

use crate::round_trips::round_trip;
use crate::spans::{Run, Span, run_in};
use std::alloc::Allocator;
use virtiofs_map::id_types::{GuestId, HostId};
use virtiofs_map::soft_idmap::{Direction, IdMap, Outcome, Piece};

/// Which ids of the guest are sought, where some spans have ids of the host.
#[derive(Clone, Copy)]
pub(crate) enum Sought {
    /// Those that become an id of the spans.
    Into,
    /// Those that do not come back, and become none of the spans.
    OnlyAstray,
    /// Those that do not come back, or become an id of the spans.
    Bad,
}

/// The greatest id of the guest.
pub(crate) const GREATEST: u32 = u32::MAX - 1;

/// The first numbers of a piece, as far as all of them become ids of the spans, or none does.
fn run_becoming(piece: Piece, spans: &[Span]) -> Run
    requires order { piece.first ≤ piece.last }
    requires named { IsNamed piece.becomes piece.first piece.last }
    requires spans { AreRuns spans.now }
    ensures { IsRun (BecomesOne piece (Hold spans.now)) piece.first piece.last result }
{
    let Some(to) = piece.start() else {
        return Run {
            last: piece.last,
            all: false,
        };
    };
    let run = run_in(spans, to);
    if !piece.is_one_to_one() {
        return Run {
            last: piece.last,
            all: run.all,
        };
    }
    let above = (piece.last - piece.first).min(run.last - to);
    Run {
        last: piece.first + above,
        all: run.all,
    }
}

/// The first numbers of a piece, as far as all of them become other ones, or none does.
fn run_moved(piece: Piece) -> Run
    requires order { piece.first ≤ piece.last }
    requires named { IsNamed piece.becomes piece.first piece.last }
    ensures { IsRun (IsMoved piece) piece.first piece.last result }
{
    let (last, all) = match piece.becomes {
        Outcome::Kept | Outcome::Forbidden => (piece.last, false),
        Outcome::OneToOne { .. } => (piece.last, true),
        Outcome::AllToOne { to } if to == piece.first => (to, false),
        Outcome::AllToOne { to } if piece.first < to && to <= piece.last => (to - 1, true),
        Outcome::AllToOne { .. } => (piece.last, true),
    };
    Run { last, all }
}

/// The ids of the guest from `n` on, as far as all of them become ids of the spans, or none does.
pub(crate) fn run_into<
    Guest: GuestId<HostType = Host>,
    Host: HostId<GuestType = Guest>,
    A: Allocator,
>(map: &IdMap<Guest, Host, A>, n: u32, spans: &[Span]) -> Run
    requires is_id { n < 4294967295 }
    requires spans { AreRuns spans.now }
    ensures { IsRun (GoesInto map.now (Hold spans.now)) n 4294967294 result }
{
    let run = run_becoming(map.stretch(Direction::GuestToHost, n), spans);
    Run {
        last: run.last.min(GREATEST),
        all: run.all,
    }
}

/// The ids of the guest from `n` on, as far as one way there and back says that all of them are
/// astray, or none.
pub(crate) fn run_trip<
    Guest: GuestId<HostType = Host>,
    Host: HostId<GuestType = Guest>,
    A: Allocator,
>(map: &IdMap<Guest, Host, A>, n: u32) -> Run
    requires { n < 4294967295 }
    ensures accepted { Accepted map.now }
    ensures run { IsRun (IsAstray map.now) n 4294967294 result }
{
    let run = run_moved(round_trip(map, n));
    Run {
        last: run.last.min(GREATEST),
        all: run.all,
    }
}

/// The ids of the guest from `n` on, as far as they are found to be all astray, or none of them.
///
/// Where `n` becomes an id of the host that does not become `n` again, those after it of the same
/// piece do not come back either, up to one that is a start.
fn run_astray<Guest: GuestId<HostType = Host>, Host: HostId<GuestType = Guest>, A: Allocator>(
    map: &IdMap<Guest, Host, A>,
    n: u32,
    starts: &[Span],
) -> Run
    requires is_id { n < 4294967295 }
    requires runs { AreRuns starts.now }
    requires starts { AreStarts map.now starts.now }
    ensures { IsRun (IsAstray map.now) n 4294967294 result }
{
    let there = map.stretch(Direction::GuestToHost, n);
    let run = run_trip(map, n);
    let next = run_in(starts, n + 1);
    if !run.all || next.all || !there.is_one_to_one() {
        return run;
    }
    Run {
        last: there.last.min(next.last).min(GREATEST),
        all: true,
    }
}

/// The ids of the guest from `n` on, as far as they are found to be all bad, or none of them; or else
/// all astray and to become no id of the spans, or none of them.
///
/// It does not ask what ids become where that is known without it: that they do not come back says
/// that they are bad. So there are few runs, however many ranges of the guest lead to the ids of the
/// spans.
fn run_astray_or<Guest: GuestId<HostType = Host>, Host: HostId<GuestType = Guest>, A: Allocator>(
    map: &IdMap<Guest, Host, A>,
    bad: bool,
    n: u32,
    starts: &[Span],
    hosts: &[Span],
) -> Run
    requires is_id { n < 4294967295 }
    requires runs { AreRuns starts.now }
    requires starts { AreStarts map.now starts.now }
    requires spans { AreRuns hosts.now }
    ensures { IsRun (IsSought (of_bad bad) map.now (Hold hosts.now)) n 4294967294 result }
{
    let astray = run_astray(map, n, starts);
    if astray.all == bad {
        return astray;
    }
    let into = run_into(map, n, hosts);
    Run {
        last: astray.last.min(into.last),
        all: into.all == bad,
    }
}

/// The ids of the guest from `n` on, as far as they are found to be all sought, or none of them.
pub(crate) fn run_of<
    Guest: GuestId<HostType = Host>,
    Host: HostId<GuestType = Guest>,
    A: Allocator,
>(map: &IdMap<Guest, Host, A>, sought: Sought, n: u32, starts: &[Span], hosts: &[Span]) -> Run
    requires is_id { n < 4294967295 }
    requires runs { AreRuns starts.now }
    requires starts { AreStarts map.now starts.now }
    requires spans { AreRuns hosts.now }
    ensures { IsRun (IsSought sought map.now (Hold hosts.now)) n 4294967294 result }
{
    match sought {
        Sought::Into => run_into(map, n, hosts),
        Sought::OnlyAstray => run_astray_or(map, false, n, starts, hosts),
        Sought::Bad => run_astray_or(map, true, n, starts, hosts),
    }
}
