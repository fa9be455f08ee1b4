//! The values of the program's own options.
ghost use Rattle.std.specs.Prelude.{◌≡◌, IfOk};
ghost use Rattle.virtiofs_options.specs.AskedOptions.{AreValues};
ghost use Rattle.virtiofs_options.specs.GuestOptions.{values_of};

use crate::command::Part;
use std::alloc::{AllocError, Allocator, Global};

/// The values of the options before the first `--` that are the program's own; of each option in
/// the order of the words.
#[derive(Drop)]
pub struct Values<'a> {
    /// Of `--accept`: a kind of finding.
    pub accept: Vec<&'a str, Global>,
    /// Of `--accept-from`: a file with such kinds.
    pub accept_from: Vec<&'a str, Global>,
    /// Of `--explain`: an id or a name.
    pub explain: Vec<&'a str, Global>,
    /// Of `--pid`: a process.
    pub pid: Vec<&'a str, Global>,
    /// Of `--run-as`: the user who starts a daemon.
    pub run_as: Vec<&'a str, Global>,
    /// Of `--subuid`: a file in place of `/etc/subuid`.
    pub subuid: Vec<&'a str, Global>,
    /// Of `--subgid`: a file in place of `/etc/subgid`.
    pub subgid: Vec<&'a str, Global>,
}

/// The values of an option.
pub(crate) fn values_in<'a, A: Allocator>(
    alloc: A,
    parts: &[Part<'a>],
    option: &str,
) -> Result<Vec<&'a str, A>, AllocError>
    ensures { IfOk result (λ all. all.items ≡ values_of option.now parts.now) }
{
    parts
        .iter()
        .filter_map(|part| part.value_in(option))
        .collect(alloc)
}

/// The values of the program's own options that are among the parts.
///
/// # Errors
///
/// `AllocError`: a request for memory was refused.
pub(crate) fn values_of<'a>(alloc: Global, parts: &[Part<'a>]) -> Result<Values<'a>, AllocError>
    ensures { IfOk result (AreValues parts.now) }
{
    Ok(Values {
        accept: values_in(alloc, parts, "--accept")?,
        accept_from: values_in(alloc, parts, "--accept-from")?,
        explain: values_in(alloc, parts, "--explain")?,
        pid: values_in(alloc, parts, "--pid")?,
        run_as: values_in(alloc, parts, "--run-as")?,
        subuid: values_in(alloc, parts, "--subuid")?,
        subgid: values_in(alloc, parts, "--subgid")?,
    })
}
