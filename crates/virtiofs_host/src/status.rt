//! The ids that a process runs as, whether it may change them, and its parent, from the content of
//! `/proc/PID/status`.
ghost use Rattle.std.specs.Prelude.{codes};
ghost use Rattle.virtiofs_host.specs.Lines.{lines, FirstSaid};
ghost use Rattle.virtiofs_host.specs.Status.{SaysEffective, SaysParent, SaysCapabilities, MaySet, sets_uids, sets_gids};

use crate::cut::cut;
use crate::decimal::decimal;
use crate::lines::{LineReader, first_said};

/// Lines that begin with a key and say the effective id.
#[derive(Clone, Copy)]
struct EffectiveReader {
    key: &'static [u8],
}

impl<'a> LineReader<'a> for EffectiveReader {
    type Value = u32;

    ghost says = { λ reader. SaysEffective reader.key.now };

    fn of_line(&self, line: &'a [u8]) -> Option<u32> {
        let (begin, rest) = cut(line, b'\t');
        let (_, rest) = cut(rest?, b'\t');
        let (effective, _) = cut(rest?, b'\t');
        if begin != self.key {
            return None;
        }
        decimal(effective)
    }
}

/// The effective uid of a process, if the content of its `status` has it.
pub fn effective_uid(text: &[u8]) -> Option<u32>
    ensures { FirstSaid (SaysEffective (codes "Uid:")) (lines text.now) result }
{
    first_said(&EffectiveReader { key: b"Uid:" }, text)
}

/// The effective gid of a process, if the content of its `status` has it.
pub fn effective_gid(text: &[u8]) -> Option<u32>
    ensures { FirstSaid (SaysEffective (codes "Gid:")) (lines text.now) result }
{
    first_said(&EffectiveReader { key: b"Gid:" }, text)
}

/// Lines that say the number of the parent.
struct ParentReader;

impl<'a> LineReader<'a> for ParentReader {
    type Value = u32;

    ghost says = { λ _. SaysParent };

    fn of_line(&self, line: &'a [u8]) -> Option<u32> {
        let (begin, rest) = cut(line, b'\t');
        let (parent, _) = cut(rest?, b'\t');
        if begin != b"PPid:".as_slice() {
            return None;
        }
        decimal(parent)
    }
}

/// The process that started a process, if the content of its `status` has it: 0 where that is outside
/// the namespace of processes.
pub fn parent(text: &[u8]) -> Option<u32>
    ensures { FirstSaid SaysParent (lines text.now) result }
{
    first_said(&ParentReader, text)
}

/// Lines that say the effective capabilities 4 to 7, as a digit.
struct CapabilityReader;

impl<'a> LineReader<'a> for CapabilityReader {
    type Value = u32;

    ghost says = { λ _. SaysCapabilities };

    fn of_line(&self, line: &'a [u8]) -> Option<u32> {
        let (begin, rest) = cut(line, b'\t');
        let (mask, _) = cut(rest?, b'\t');
        if begin != b"CapEff:".as_slice() || mask.len() < 2 {
            return None;
        }
        char::from(mask[mask.len() - 2]).to_digit(16)
    }
}

/// Whether a process may act as any user: its `status` says that `CAP_SETUID` is effective.
pub fn may_set_uids(text: &[u8]) -> bool
    ensures { MaySet sets_uids text.now result }
{
    match first_said(&CapabilityReader, text) {
        Some(digit) => digit / 8 % 2 == 1,
        None => false,
    }
}

/// Whether a process may act as any group: its `status` says that `CAP_SETGID` is effective.
pub fn may_set_gids(text: &[u8]) -> bool
    ensures { MaySet sets_gids text.now result }
{
    match first_said(&CapabilityReader, text) {
        Some(digit) => digit / 4 % 2 == 1,
        None => false,
    }
}
