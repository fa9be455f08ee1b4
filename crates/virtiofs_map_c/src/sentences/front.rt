//! A text that is written piece by piece into the caller's buffer, as far as there is room.
ghost use Rattle.std.specs.Prelude.{◌≡◌};
ghost use Rattle.virtiofs_map_c.specs.Replies.{Goes, cut_text};

use itoa::Buffer;
use std::str::from_utf8;

/// Writes bytes behind the text of that length, as far as there is room, and adds them to the length.
pub fn put(bytes: &[u8], out: &mut [u8], len: &mut usize)
    ensures { Goes len.old out.old len.new out.new }
{
    for byte in bytes {
        let at = *len;
        *len = at.saturating_add(1);
        if at < out.len() {
            out[at] = *byte;
        }
    }
}

/// Writes a number in decimal, as [`put`] does.
pub fn put_number(number: u64, out: &mut [u8], len: &mut usize)
    ensures { Goes len.old out.old len.new out.new }
{
    let mut digits = Buffer::new();
    put(digits.format(number).as_bytes(), out, len);
}

/// Puts spaces in the place of a character at the end that is not whole.
pub fn cut_whole(out: &mut [u8])
    ensures { out.new ≡ cut_text out.old }
{
    match from_utf8(out) {
        Ok(_) => {}
        Err(error) => {
            let (_, rest) = out.split_at_mut(error.valid_up_to());
            rest.fill(b' ');
        }
    }
}
