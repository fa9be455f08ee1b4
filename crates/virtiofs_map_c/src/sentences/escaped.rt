//! What is quoted of a hostile text: nothing of it can colour a terminal, move a cursor or begin a
//! line of a log, and letters of any script stand as they are.
ghost use Rattle.virtiofs_map_c.specs.Replies.{Goes};

use super::front::put;
use unicode::properties::GeneralCategory;

/// Writes bytes as they stand in a sentence: each character as [`put_character`] does, and each byte
/// that is of none as `\x` and two hexadecimal digits.
pub fn put_escaped(bytes: &[u8], out: &mut [u8], len: &mut usize)
    ensures { Goes len.old out.old len.new out.new }
{
    for chunk in bytes.utf8_chunks() {
        for character in chunk.valid().chars() {
            put_character(character, out, len);
        }
        put_bytes(chunk.invalid(), out, len);
    }
}

/// Writes a backslash twice, a character that is not printable byte by byte, and any other as it is.
fn put_character(character: char, out: &mut [u8], len: &mut usize)
    ensures { Goes len.old out.old len.new out.new }
{
    let mut room = [0; 4];
    let text = character.encode_utf8(&mut room);
    if character == '\\' {
        put(b"\\\\", out, len);
    } else if is_unprintable(character) {
        put_bytes(text.as_bytes(), out, len);
    } else {
        put(text.as_bytes(), out, len);
    }
}

/// Whether a character separates lines or paragraphs, or is a control or a format character: one of
/// the general categories Zl, Zp, Cc and Cf.
fn is_unprintable(character: char) -> bool {
    let category = GeneralCategory::for_char(character) as u32;
    category == GeneralCategory::LineSeparator as u32
        || category == GeneralCategory::ParagraphSeparator as u32
        || category == GeneralCategory::Control as u32
        || category == GeneralCategory::Format as u32
}

/// Writes each byte as `\x` and two hexadecimal digits.
fn put_bytes(bytes: &[u8], out: &mut [u8], len: &mut usize)
    ensures { Goes len.old out.old len.new out.new }
{
    for byte in bytes {
        let (high, low) = (hex_digit(*byte / 16), hex_digit(*byte % 16));
        put(&[b'\\', b'x', high, low], out, len);
    }
}

/// The lower case hexadecimal digit of a value below 16.
fn hex_digit(value: u8) -> u8 {
    *b"0123456789abcdef".get(value as usize).unwrap_or(&b'?')
}
