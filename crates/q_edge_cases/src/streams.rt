//! Streams over memory and over a reader, call by call.
use q_stream::{MemSource, Source, StdSource, Take};
use std::alloc::Global;
use std::io;
use std::io::Read;
use std::process::Abort;
use std::test::Fail;

// A reader that gives two bytes a call at most, and fails at one call.
#[derive(Drop)]
struct Flaky {
    bytes: &'static [u8],
    failing: Option<usize>,
    fault: io::ErrorKind,
}

impl Read for Flaky {
    fn read(&mut self, buf: &mut [u8]) -> io::Result<usize> {
        if self.failing == Some(0) {
            self.failing = None;
            return Err(io::Error::from(self.fault));
        }
        self.failing = self.failing.map(|n| n.saturating_sub(1));
        let count = self.bytes.len().min(buf.len()).min(2);
        buf[..count].copy_from_slice(&self.bytes[..count]);
        self.bytes = &self.bytes[count..];
        Ok(count)
    }
}

// Takes into a buffer of four bytes until the end, and writes down each answer and the bytes.
fn row<S: Source>(
    rt: &impl Abort,
    alloc: Global,
    source: &mut S,
    answers: &[Take],
    bytes: &[u8],
) -> Result<(), Fail> {
    let mut taken = Vec::new(alloc);
    for (call, answer) in answers.iter().enumerate() {
        let mut buf = [0; 4];
        let got = source.take(&mut buf);
        assert_eq!(rt; got, *answer, "call {call}");
        if let Take::Took(count) = got {
            assert!(rt; count <= buf.len());
            taken.extend_from_slice(&buf[..count])?;
        }
    }
    assert_eq!(rt; taken.as_slice(), bytes);
    Ok(())
}

use Take::{End, Failed, Took};

#[test]
fn comes_in_pieces(rt: HostRuntime) -> Result<(), Fail> {
    let alloc = rt.alloc();
    let rows: [(&[u8], usize, &[u64], &[Take]); 5] = [
        (b"", 3, &[], &[End, End]),
        (b"abcdefg", 3, &[], &[Took(3), Took(3), Took(1), End]),
        // The buffer has room for four.
        (b"abcdefg", 9, &[], &[Took(4), Took(3), End]),
        (
            b"abc",
            2,
            &[1, 3, 5],
            &[Failed, Took(2), Failed, Took(1), Failed, End],
        ),
        (b"", 1, &[2], &[End, Failed, End]),
    ];
    for (bytes, piece, fails, answers) in rows {
        let mut source = MemSource::new(alloc, bytes, piece, fails)?;
        row(&rt, alloc, &mut source, answers, bytes)?;
    }
    Ok(())
}

#[test]
fn reads_a_reader(rt: HostRuntime) -> Result<(), Fail> {
    let fault = io::ErrorKind::BrokenPipe;
    let interrupted = io::ErrorKind::Interrupted;
    let rows: [(&'static [u8], Option<usize>, io::ErrorKind, &[Take]); 5] = [
        (b"abc", None, fault, &[Took(2), Took(1), End, End]),
        (b"abc", Some(1), fault, &[Took(2), Failed, Took(1), End]),
        (b"", Some(0), fault, &[Failed, End]),
        // A read that a signal interrupts is tried again.
        (b"abc", Some(1), interrupted, &[Took(2), Took(1), End]),
        (b"", Some(0), interrupted, &[End]),
    ];
    for (bytes, failing, fault, answers) in rows {
        let mut source = StdSource::new(Flaky {
            bytes,
            failing,
            fault,
        });
        row(&rt, rt.alloc(), &mut source, answers, bytes)?;
    }
    Ok(())
}
