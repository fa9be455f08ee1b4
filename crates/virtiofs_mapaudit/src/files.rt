//! Reads files of the host.

use crate::words::Made;
use std::alloc::{AllocError, AllocFailed};
use std::{fs, io};

/// Why the host is not asked, or does not answer.
#[derive(Drop)]
pub(crate) enum HostFault {
    /// A sentence that says why.
    Told(String),
    /// There is no such file, or no such process.
    Missing,
    /// A request for memory was refused.
    OutOfMemory,
}

/// What is read of the host.
pub(crate) type Read<T> = Result<T, HostFault>;

impl From<AllocError> for HostFault {
    fn from(_error: AllocError) -> HostFault {
        HostFault::OutOfMemory
    }
}

impl<T: Drop> From<AllocFailed<T>> for HostFault {
    fn from(_error: AllocFailed<T>) -> HostFault {
        HostFault::OutOfMemory
    }
}

/// A fault that is told by this sentence.
pub(crate) fn told(sentence: Made<String>) -> HostFault {
    match sentence {
        Ok(sentence) => HostFault::Told(sentence),
        Err(_) => HostFault::OutOfMemory,
    }
}

/// The device that is read as an empty file.
const NO_FILE: &str = "/dev/null";

/// How many bytes a file has at most that is read.
const MOST_BYTES: u64 = 16777216;

/// Why a file is not read.
pub(crate) fn unread(rt: &HostRuntime, path: &str, error: &io::Error) -> HostFault {
    match error.kind() {
        io::ErrorKind::OutOfMemory => HostFault::OutOfMemory,
        io::ErrorKind::NotFound => HostFault::Missing,
        io::ErrorKind::PermissionDenied => {
            told(format!(in rt.alloc(); "{path} may not be read\n"))
        }
        _ => told(format!(in rt.alloc(); "{path} cannot be read\n")),
    }
}

/// The content of a file.
pub(crate) fn content(rt: &HostRuntime, path: &str) -> Read<Vec<u8>> {
    // (what it is, is asked before it is opened: a pipe would wait for a writer)
    let read = match fs::metadata(rt, path) {
        Ok(kind) if !kind.is_file() && path != NO_FILE => {
            return Err(told(format!(in rt.alloc(); "{path} is no regular file\n")));
        }
        Ok(kind) if kind.len() > MOST_BYTES => {
            return Err(told(format!(in rt.alloc(); "{path} has more than 16 MiB\n")));
        }
        Ok(_) => fs::read(rt, path),
        Err(error) => Err(error),
    };
    match read {
        Ok(bytes) => Ok(bytes),
        Err(error) => Err(unread(rt, path, &error)),
    }
}

/// The content of a file that is to be there.
pub(crate) fn named_content(rt: &HostRuntime, path: &str) -> Read<Vec<u8>> {
    match content(rt, path) {
        Err(HostFault::Missing) => {
            Err(told(format!(in rt.alloc(); "there is no file {path}\n")))
        }
        read => read,
    }
}

/// The content of a file that may be missing, and is empty then.
pub(crate) fn usual_content(rt: &HostRuntime, path: &str) -> Read<Vec<u8>> {
    match content(rt, path) {
        Err(HostFault::Missing) => Ok(Vec::new(rt.alloc())),
        read => read,
    }
}

/// The same of a file that may also be one that is not read.
pub(crate) fn any_content(rt: &HostRuntime, path: &str) -> Read<Vec<u8>> {
    match usual_content(rt, path) {
        Err(HostFault::Told(_why)) => Ok(Vec::new(rt.alloc())),
        read => read,
    }
}

/// The text of a file that is named.
pub(crate) fn named_text(rt: &HostRuntime, path: &str) -> Read<String> {
    match String::from_utf8(named_content(rt, path)?) {
        Ok(text) => Ok(text),
        Err(_) => Err(told(format!(in rt.alloc(); "{path} is not UTF-8\n"))),
    }
}
