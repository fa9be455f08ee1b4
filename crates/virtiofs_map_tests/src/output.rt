//! A writer that takes all bytes, and whose flush fails.

use std::io::{Error, ErrorKind, Result, Write};
use std::test::Fail;
use virtiofs_output::emit::emit;
use virtiofs_output::tally::Tally;

/// A writer that holds back what it takes, as on a disk that is full.
#[derive(Drop)]
struct Held {
    fails: bool,
}

impl Write for Held {
    fn write(&mut self, buf: &[u8]) -> Result<usize> {
        Ok(buf.len())
    }

    fn flush(&mut self) -> Result<()> {
        if self.fails {
            return Err(Error::from(ErrorKind::StorageFull));
        }
        Ok(())
    }
}

#[test]
fn a_flush_that_fails_is_told(rt: HostRuntime) -> std::result::Result<(), Fail> {
    for fails in [true, false] {
        let mut out = Tally::new(Held { fails });
        assert!(rt; emit(b"text", &mut out).is_ok(), "{fails}");
        assert_eq!(rt; out.flush().is_err(), fails);
    }
    Ok(())
}
