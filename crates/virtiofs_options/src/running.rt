//! What the command line of a process that runs says: whether it is a daemon's, and what that shares.
ghost use Rattle.std.specs.Prelude.{◌≡◌, IfOk, IfErr};
ghost use Rattle.virtiofs_options.specs.Lines.{is_daemon};
ghost use Rattle.virtiofs_options.specs.Parts.{WrongOnly};
ghost use Rattle.virtiofs_options.specs.Running.{first_word, IsDirectoryIn, Shares, IsWordFault};

use crate::cluster::split_words;
use crate::command::{Part, read_parts};
use crate::fault::ReadError;
use crate::line::{is_daemon, line_of};
use crate::older::older_parts;
use crate::options::Options;
use crate::values::values_in;
use crate::whole::before;
use std::alloc::{AllocError, Global};

/// Whether a process is a daemon's, of which the kernel shows that command line: its first word is the
/// daemon's. So no other program counts that has that word among its own, as `sudo`.
pub fn runs_daemon(cmdline: &[u8]) -> bool
    ensures { result ≡ is_daemon (first_word cmdline.now) }
{
    is_daemon(before(cmdline, 0))
}

/// The directory that is shared, if the parts say one.
fn directory_in<'a>(
    alloc: Global,
    options: Options,
    parts: &[Part<'a>],
) -> Result<Option<&'a str>, AllocError>
    ensures { IfOk result (IsDirectoryIn options parts.now) }
{
    let newer = values_in(alloc, parts, "--shared-dir")?;
    let older = older_parts(alloc, options, parts)?;
    let sources = values_in(alloc, older.as_slice(), "source=")?;
    Ok(sources.last().copied().or(newer.last().copied()))
}

/// The directory that the words of a daemon say it shares: the older form counts more, and of each form
/// the last. Only words before a `--` count.
///
/// # Errors
///
/// What is wrong with a word; or a request for memory was refused.
pub fn shared_directory<'a>(
    alloc: Global,
    options: Options,
    words: &[&'a str],
) -> Result<Option<&'a str>, ReadError<'a>>
    ensures read { IfOk result (Shares options words.now) }
    ensures refused { IfErr result (WrongOnly (IsWordFault options words.now)) }
{
    let words = split_words(alloc, options, line_of(words))?;
    let parts = read_parts(alloc, options, words.as_slice())?;
    let directory = directory_in(alloc, options, parts.as_slice())?;
    Ok(directory)
}
