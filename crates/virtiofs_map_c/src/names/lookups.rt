//! What lookups of names and audits tell C.
ghost use Rattle.std.specs.List.{before_first};
ghost use Rattle.std.specs.Prelude.{◌≡◌, ◌==◌, ◌++◌, ℕ, List, Option, false, MatchResult};
ghost use Rattle.virtiofs_map.specs.NamesImage.{WritesList};
ghost use Rattle.virtiofs_map_c.specs.Faults.{no_map, no_memory, ok};
ghost use Rattle.virtiofs_map_c.specs.Names.{TellsDecision, TellsFound, TellsNo, TellsServer};
ghost use Rattle.virtiofs_map_c.specs.Replies.{TellsBytes};

use crate::buffer::{nothing, write, write_joined};
use crate::bytes::before_zero;
use crate::codes::{AS_IT_IS, DENIED, NO_MAP, NO_MEMORY, NO_ROOM, OK, UNSUPPORTED, UNTERMINATED};
use std::alloc::AllocError;
use virtiofs_map::audit::Audit;
use virtiofs_map::xattrmap::image::{Decision, ListWritten};

/// Tells a name with a prepend before it. The name stands before the first zero.
// (a call of its own, so that what other names wait for stays short)
#[inline(never)]
fn tell_prepended(prepend: &[u8], name: &[u8], out: &mut [u8], len: &mut usize) -> u32
    ensures { TellsBytes (prepend.now ++ before_first (λ byte. byte == 0) name.now)
        ok out.old result len.new out.new }
{
    write_joined(prepend, before_zero(name), out, len)
}

/// Tells what becomes of a name that the guest asks for, which stands before the first zero.
#[inline(always)]
pub fn tell_client(decision: Decision<'_>, name: &[u8], out: &mut [u8], len: &mut usize) -> u32
    ensures { TellsDecision decision.entry (before_first (λ byte. byte == 0) name.now)
        out.old result len.new out.new }
{
    match decision {
        Decision::NoMap => nothing(NO_MAP, len),
        Decision::Undecided => nothing(UNTERMINATED, len),
        Decision::Okay => nothing(AS_IT_IS, len),
        Decision::Prefix(prepend) => tell_prepended(prepend, name, out, len),
        Decision::Bad => nothing(DENIED, len),
        Decision::Unsupported => nothing(UNSUPPORTED, len),
    }
}

/// Tells what came of writing a list.
pub fn tell_list(written: ListWritten, len: &mut usize) -> u32
    ensures told { (answer : Option (List ℕ)) (old new : List ℕ) → WritesList answer old new written
        → TellsServer answer old result len.new new }
    ensures no_map { written ≡ ListWritten.NoMap → result ≡ no_map }
{
    match written {
        ListWritten::NoMap => nothing(NO_MAP, len),
        ListWritten::Undecided => nothing(UNTERMINATED, len),
        ListWritten::Written(count) => {
            *len = count;
            OK
        }
        ListWritten::NoRoom(count) => {
            *len = count;
            NO_ROOM
        }
    }
}

/// Tells what an audit found.
pub fn tell(
    found: Result<Audit, AllocError>,
    all: &mut bool,
    out: &mut [u8],
    len: &mut usize,
) -> u32
    ensures { MatchResult found
        (λ audit. TellsFound audit out.old result all.new len.new out.new)
        (λ _. TellsNo no_memory out.old result all.new len.new out.new) }
{
    *all = false;
    match found {
        Ok(Audit::Yes) => {
            *all = true;
            nothing(OK, len)
        }
        Ok(Audit::No(name)) => write(name.as_name().as_bytes(), OK, out, len),
        Err(_) => tell_none(NO_MEMORY, all, len),
    }
}

/// Answers a code that comes with no answer.
pub fn tell_none(code: u32, all: &mut bool, len: &mut usize) -> u32
    ensures told { result ≡ code }
    ensures none { all.new ≡ false }
    ensures len { len.new ≡ 0 }
{
    *all = false;
    nothing(code, len)
}
