//! How a sentence shows a name or a text.

use std::fmt;
use unicode::properties::GeneralCategory;

/// Whether a character is written with escapes: it controls what shows it, or has no look of its own.
pub fn is_escaped(c: char) -> bool {
    let category = GeneralCategory::for_char(c);
    category == GeneralCategory::Control
        || category == GeneralCategory::Format
        || category == GeneralCategory::LineSeparator
        || category == GeneralCategory::ParagraphSeparator
}

/// Writes bytes as escapes.
fn write_escaped<W: fmt::Write>(f: &mut fmt::Formatter<W>, bytes: &[u8]) -> fmt::Result {
    for byte in bytes {
        write!(f, "\\x{byte:02x}")?;
    }
    Ok(())
}

/// A name or a text that stays on its line: a backslash is written twice, and control and format
/// characters, and bytes that are no UTF-8, as `\x` and two digits for each byte.
#[derive(Clone, Copy)]
pub struct Shown<'a>(pub &'a [u8]);

impl fmt::Display for Shown<'_> {
    fn fmt<W: fmt::Write>(&self, f: &mut fmt::Formatter<W>) -> fmt::Result {
        for chunk in self.0.utf8_chunks() {
            for c in chunk.valid().chars() {
                if c == '\\' {
                    f.write_str("\\\\")?;
                } else if is_escaped(c) {
                    let mut room = [0u8; 4];
                    write_escaped(f, c.encode_utf8(&mut room).as_bytes())?;
                } else {
                    f.write_char(c)?;
                }
            }
            write_escaped(f, chunk.invalid())?;
        }
        Ok(())
    }
}
