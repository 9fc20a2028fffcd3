//! A reader that keeps why it failed, and the lines that were read last or list ids.
use crate::heard::Heard;
use std::alloc::Global;
use std::io;
use std::io::Read;

/// The lines of an input that aren't judged yet: their bytes, and the number of the first. Who reads
/// on has judged all whole lines before.
#[derive(Drop)]
pub(crate) struct Lines {
    // counted from 1
    first: u64,
    bytes: Vec<u8>,
    // how many of the lines are whole, and where the last of these ends
    whole: u64,
    end: usize,
}

impl Lines {
    /// No line yet.
    pub(crate) fn new(alloc: Global) -> Lines {
        Lines {
            first: 1,
            bytes: Vec::new(alloc),
            whole: 0,
            end: 0,
        }
    }

    /// Keeps a piece of the input in place of the whole lines before. Whether there is memory for it.
    fn keep(&mut self, piece: &[u8]) -> bool {
        self.bytes.drain(..self.end.min(self.bytes.len()));
        self.first = self.first.saturating_add(self.whole);
        self.whole = piece.iter().filter(|byte| **byte == b'\n').count() as u64;
        let last = piece.iter().rposition(|byte| *byte == b'\n');
        self.end = last.map_or(
            0,
            |at| self.bytes.len().saturating_add(at).saturating_add(1),
        );
        self.bytes.extend_from_slice(piece).is_ok()
    }

    /// The line of this number, if it is kept.
    pub(crate) fn line(&self, number: u64) -> Option<&[u8]> {
        let place = number.checked_sub(self.first)?;
        let mut lines = self.bytes.split(|byte| *byte == b'\n');
        lines.nth(usize::try_from(place).ok()?)
    }
}

/// A reader that keeps its last error beside it, and its last lines where it is asked to.
#[derive(Drop)]
pub(crate) struct Noted<'a, R: Read> {
    pub(crate) reader: R,
    pub(crate) heard: &'a Heard,
}

impl<R: Read> Noted<'_, R> {
    // Keeps a piece of a list of ids, where there is memory.
    fn keep_ids(&self, piece: &[u8]) {
        if let Some(mut acted) = self.heard.acted.take() {
            if acted.keep(piece).is_ok() {
                self.heard.acted.set(Some(acted));
            }
        }
    }

    // Keeps a piece of the lines, where there is memory.
    fn keep(&self, piece: &[u8]) {
        if let Some(mut lines) = self.heard.lines.take() {
            if lines.keep(piece) {
                self.heard.lines.set(Some(lines));
            }
        }
    }
}

impl<R: Read> Read for Noted<'_, R> {
    fn read(&mut self, buf: &mut [u8]) -> io::Result<usize> {
        match self.reader.read(buf) {
            Err(e) => {
                let kind = e.kind();
                self.heard.error.set(Some(e));
                Err(io::Error::from(kind))
            }
            Ok(count) => {
                if let Some(piece) = buf.get(..count) {
                    self.keep(piece);
                    self.keep_ids(piece);
                }
                Ok(count)
            }
        }
    }
}
