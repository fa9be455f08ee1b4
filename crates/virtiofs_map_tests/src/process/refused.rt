//! The readers with each request for memory refused in turn.

use rationed::{Call, Ended, Rationed, Verdict, refuse_in_turn};
use std::alloc::Global;
use std::test::Fail;
use virtiofs_host::command_line::read_command_line;
use virtiofs_host::error::ReadError;
use virtiofs_host::id_map::read_id_map;
use virtiofs_host::subordinate::read_subordinate;

/// A content, and how it is read.
struct Read(Reader, &'static str);

/// What a content is read as.
#[derive(Clone, Copy)]
enum Reader {
    IdMap,
    CommandLine,
    Subordinate,
}

/// How reading ended: with so many values, or with the error.
type Outcome = Result<usize, ReadError>;

fn outcome(alloc: &Rationed<Global>, read: &Read) -> Outcome {
    let Read(reader, text) = read;
    let text = text.as_bytes();
    match reader {
        Reader::IdMap => Ok(read_id_map(alloc, text)?.len()),
        Reader::CommandLine => Ok(read_command_line(alloc, text)?.len()),
        Reader::Subordinate => Ok(read_subordinate(alloc, text, b"bob", 1000)?.len()),
    }
}

impl Call for Read {
    fn run<'h>(&self, ample: &'h Rationed<Global>, scarce: &'h Rationed<Global>) -> Ended {
        let ended = outcome(scarce, self);
        if ended == Err(ReadError::OutOfMemory) {
            return Ended::OutOfMemory;
        }
        Ended::of(ended == outcome(ample, self))
    }
}

static READ: [Read; 5] = [
    Read(
        Reader::IdMap,
        "0 0 1\n1 1 1\n2 2 1\n3 3 1\n4 4 1\n5 5 1\n6 6 1\n7 7 1\n8 8 1\n",
    ),
    Read(Reader::IdMap, "0 0 1\n1 1 1\nx\n"),
    Read(Reader::CommandLine, "a\0b\0c\0d\0e\0f\0g\0h\0i\0j\0"),
    Read(Reader::Subordinate, "bob:1:1\n1000:2:1\neve:3:1\nbob:4:1\n"),
    Read(
        Reader::Subordinate,
        "bob:1:1\nbob:2:1\nbob:3:1\nbob:4:1\nbob:5:1\nbob:6:1",
    ),
];

#[test]
fn each_request_is_refused_in_turn(rt: HostRuntime) -> Result<(), Fail> {
    for read in &READ {
        let Read(_, text) = read;
        let verdict = refuse_in_turn(rt.alloc(), read);
        let Verdict::Passed { requests } = verdict else {
            panic!(rt; "{text}: {verdict:?}");
        };
        println!(rt; "{requests} requests: {text}")?;
        assert!(rt; requests > 0, "{text} makes no request");
    }
    Ok(())
}
