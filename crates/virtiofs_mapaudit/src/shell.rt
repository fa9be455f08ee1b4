//! Options of a guest, as words, and as a shell reads them.

use crate::words::{Done, Made, ranging, translating};
use std::alloc::Global;
use std::fmt;
use virtiofs_findings::ids::kind::IdKind;
use virtiofs_options::guest::Guest as GuestOptions;
use virtiofs_options::shown::is_escaped;

/// Whether a byte means itself to a shell wherever it stands in a word.
fn is_bare(byte: u8) -> bool {
    byte.is_ascii_alphanumeric() || matches!(byte, b'-' | b'.' | b':' | b'_')
}

/// A text that is printed as one word for a shell.
#[derive(Clone, Copy)]
struct ShellWord<'a>(&'a str);

impl fmt::Display for ShellWord<'_> {
    fn fmt<W: fmt::Write>(&self, f: &mut fmt::Formatter<W>) -> fmt::Result {
        if !self.0.is_empty() && self.0.as_bytes().iter().all(|byte| is_bare(*byte)) {
            return f.write_str(self.0);
        }
        f.write_str("'")?;
        for c in self.0.chars() {
            match c {
                '\'' => f.write_str("'\\''")?,
                // (the quotes are left for a character that is written with escapes)
                _ if is_escaped(c) => {
                    let mut room = [0u8; 4];
                    for byte in c.encode_utf8(&mut room).as_bytes() {
                        write!(f, "'$'\\x{byte:02x}''")?;
                    }
                }
                _ => f.write_char(c)?,
            }
        }
        f.write_str("'")
    }
}

/// An option as a word, and its value, if it has one.
type Word<'g> = (&'static str, Option<&'g str>);

/// The options of a guest for ids, names and access control lists, in the order in which they are
/// written. Lists that are on by `-o posix_acl` stay so: beside `--posix-acl` virtiofsd takes no
/// translation of ids. `--xattr` stands where neither these lists nor rules imply it.
pub(crate) fn words_of<'g>(
    alloc: Global,
    guest: &'g GuestOptions<'_, Global>,
) -> Made<Vec<Word<'g>>> {
    let mut words: Vec<Word<'g>> = Vec::new(alloc);
    for (option, values) in [
        (translating(IdKind::Users), &guest.translate_uid),
        (translating(IdKind::Groups), &guest.translate_gid),
        (ranging(IdKind::Users), &guest.uid_map),
        (ranging(IdKind::Groups), &guest.gid_map),
    ] {
        for value in values.as_slice() {
            words.push((option, Some(*value)))?;
        }
    }
    if let Some(rules) = guest.xattrmap {
        words.push(("--xattrmap", Some(rules)))?;
    }
    match (guest.posix_acl, guest.acl_flag) {
        (true, true) => words.push(("--posix-acl", None))?,
        (true, false) => words.push(("-o", Some("posix_acl")))?,
        (false, _) if guest.has_xattrs() && guest.xattrmap.is_none() => {
            words.push(("--xattr", None))?;
        }
        _ => {}
    }
    Ok(words)
}

/// Whether a value is one word with its option, behind a `=`: as a word of its own it would be taken for an
/// option.
pub(crate) fn is_joined(value: &str) -> bool {
    value.starts_with('-')
}

/// Writes the options of a guest at the end of a text, each between two texts.
pub(crate) fn push_options(
    alloc: Global,
    text: &mut String,
    before: &str,
    after: &str,
    guest: &GuestOptions<'_, Global>,
) -> Done {
    for (option, value) in words_of(alloc, guest)? {
        write!(text, "{before}{option}")?;
        if let Some(value) = value {
            let (between, word) = (if is_joined(value) { '=' } else { ' ' }, ShellWord(value));
            write!(text, "{between}{word}")?;
        }
        text.push_str(after)?;
    }
    Ok(())
}
