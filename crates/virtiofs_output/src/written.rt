//! How the programs write bytes: in printable ASCII, so that no name or text breaks its line.
ghost use Rattle.std.specs.Prelude.{◌≡◌, ◌<◌, ◌++◌, OnOk, Some, string_bytes};
ghost use Rattle.std.specs.Char.{digit_char};
ghost use Rattle.std.specs.Fmt.{DisplaysOnOk};
ghost use Rattle.virtiofs_output.specs.Written.{written, written_byte, quoted};

use std::alloc::{AllocError, Allocator};
use std::fmt;

/// The lower case hexadecimal digit of a value.
fn hex_digit(value: u8) -> char
    requires { value < 16 }
    ensures { result ≡ digit_char value }
{
    if value < 10 {
        char::from(b'0' + value)
    } else {
        char::from(b'a' - 10 + value)
    }
}

/// Bytes that are printed with escapes: a backslash twice, any other printing byte of ASCII as
/// itself, and the rest as `\x` and two lower case hexadecimal digits.
#[derive(Clone, Copy)]
pub struct Written<'a>(pub &'a [u8]);

/// Writes a byte, as [`Written`] prints it.
fn write_byte<W: fmt::Write>(f: &mut fmt::Formatter<W>, byte: u8) -> fmt::Result
    ensures { DisplaysOnOk W.write_str_gives f.old result (Some (written_byte byte)) f.new }
{
    if byte == b'\\' {
        return f.write_str("\\\\");
    }
    if (32..=126).contains(&byte) {
        return f.write_char(char::from(byte));
    }
    let (high, low) = (hex_digit(byte / 16), hex_digit(byte % 16));
    write!(f, "\\x{high}{low}")
}

impl fmt::Display for Written<'_> {
    ghost output = { λ it. Some (written it.0.now) };

    fn fmt<W: fmt::Write>(&self, f: &mut fmt::Formatter<W>) -> fmt::Result {
        for byte in self.0 {
            write_byte(f, *byte)?;
        }
        Ok(())
    }
}

/// Writes bytes at the end of a text, as [`Written`] prints them.
///
/// # Errors
///
/// `AllocError`: a request for memory was refused. A part of the bytes may have been written.
pub fn push_written<A: Allocator>(text: &mut String<A>, bytes: &[u8]) -> Result<(), AllocError>
    ensures { OnOk result (string_bytes text.new ≡ string_bytes text.old ++ written bytes.now) }
{
    let it = Written(bytes);
    write!(text, "{it}")
}

/// Writes bytes at the end of a text, as [`Written`] prints them, between single quotes. A quote
/// among the bytes stands for itself.
///
/// # Errors
///
/// `AllocError`: a request for memory was refused. A part of the bytes may have been written.
pub fn push_quoted<A: Allocator>(text: &mut String<A>, bytes: &[u8]) -> Result<(), AllocError>
    ensures { OnOk result (string_bytes text.new ≡ string_bytes text.old ++ quoted bytes.now) }
{
    let it = Written(bytes);
    write!(text, "'{it}'")
}
