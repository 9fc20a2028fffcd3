//! The bytes of the short file that was read last, so that what is read of it again costs no call.
//!
//! It is forgotten as soon as a file is written, made or taken away, and follows one that moves.
ghost use Rattle.std.specs.Prelude.{◌≤◌, IfSome, length};

use q_model::Spot;
use std::alloc::Global;

/// A file of which so many bytes are read at once is kept.
const MOST: usize = 16_384;

/// A short file, under its place, with all bytes that it has.
#[derive(Drop)]
pub(crate) struct Short {
    spot: Option<Spot>,
    bytes: Vec<u8>,
}

impl Short {
    /// None is known yet.
    pub(crate) fn new(alloc: Global) -> Short {
        Short {
            spot: None,
            bytes: Vec::new(alloc),
        }
    }

    // The bytes of the file of a place, where they are known.
    fn of(&self, spot: Spot) -> Option<&[u8]> {
        if self.spot == Some(spot) {
            return Some(self.bytes.as_slice());
        }
        None
    }

    /// How many bytes the file of a place has, where it is known.
    pub(crate) fn size(&self, spot: Spot) -> Option<u64> {
        Some(self.of(spot)?.len() as u64)
    }

    /// Reads from an offset on until the buffer is full or the file ends, where it is known.
    pub(crate) fn read(&self, spot: Spot, at: u64, buf: &mut [u8]) -> Option<usize>
        ensures within { IfSome result (λ count. count ≤ length buf.new) }
    {
        let bytes = self.of(spot)?;
        let from = at.min(bytes.len() as u64) as usize;
        let count = (bytes.len() - from).min(buf.len());
        buf[..count].copy_from_slice(&bytes[from..from + count]);
        Some(count)
    }

    /// A file was read from its beginning, and has these bytes.
    pub(crate) fn know(&mut self, spot: Spot, bytes: &[u8]) {
        self.forget();
        if bytes.len() <= MOST && self.bytes.extend_from_slice(bytes).is_ok() {
            self.spot = Some(spot);
        }
    }

    /// A file moved.
    pub(crate) fn follow(&mut self, from: Spot, to: Spot) {
        if self.spot == Some(from) {
            self.spot = Some(to);
        } else if self.spot == Some(to) {
            self.forget();
        }
    }

    /// Nothing is known any more.
    pub(crate) fn forget(&mut self) {
        self.spot = None;
        self.bytes.clear();
    }
}
