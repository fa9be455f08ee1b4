//! Answers in bytes, in the caller's buffer.
ghost use Rattle.std.specs.Prelude.{◌≡◌, ◌++◌};
ghost use Rattle.virtiofs_map_c.specs.Faults.{ok};
ghost use Rattle.virtiofs_map_c.specs.Replies.{TellsBytes};

use crate::codes::{NO_ROOM, OK};

/// Writes the bytes and their length, and answers `done`; or tells the length that is needed.
pub fn write(bytes: &[u8], done: u32, out: &mut [u8], len: &mut usize) -> u32
    ensures { TellsBytes bytes.now done out.old result len.new out.new }
{
    *len = bytes.len();
    if out.len() < bytes.len() {
        return NO_ROOM;
    }
    let (front, _) = out.split_at_mut(bytes.len());
    front.copy_from_slice(bytes);
    done
}

/// Writes two rows of bytes, one after the other, and the length of both together; or tells the
/// length that is needed.
pub fn write_joined(front: &[u8], rest: &[u8], out: &mut [u8], len: &mut usize) -> u32
    ensures { TellsBytes (front.now ++ rest.now) ok out.old result len.new out.new }
{
    let count = front.len() + rest.len();
    *len = count;
    if out.len() < count {
        return NO_ROOM;
    }
    let (first, after) = out.split_at_mut(front.len());
    first.copy_from_slice(front);
    let (second, _) = after.split_at_mut(rest.len());
    second.copy_from_slice(rest);
    OK
}

/// Answers a code that comes with no bytes.
pub fn nothing(code: u32, len: &mut usize) -> u32
    ensures told { result ≡ code }
    ensures len { len.new ≡ 0 }
{
    *len = 0;
    code
}
