//! A file in memory, with what isn't synced.
ghost use Rattle.std.specs.Prelude.{◌≡◌, ◌≤◌, length, OnOk, OnErr, IsSome, ◌+◌};
ghost use Rattle.q_host.specs.Files.{written};
ghost use Rattle.q_mem_host.specs.Kept.{firm, overwritten, is_soft, rotten, fallen};
ghost use Rattle.q_mem_host.specs.Data.{kept};

use crate::Rot;
use std::alloc::{AllocError, Global};

/// A file in memory.
#[derive(Drop)]
pub(crate) struct File {
    pub bytes: Vec<u8>,
    // the ranges (offset and length) written since the last sync
    soft: Vec<(usize, usize)>,
    // the bytes at the last sync, where these may be others
    synced: Option<Vec<u8>>,
}

// Writes over the bytes from an offset on, and past their end. Where memory runs out, nothing has changed.
fn write_over(bytes: &mut Vec<u8>, at: usize, over: &[u8]) -> Result<(), AllocError>
    requires { at ≤ length bytes.old.items }
    ensures ok { OnOk result (bytes.new.items ≡ written at over.now bytes.old.items) }
    ensures err { OnErr result (bytes.new.items ≡ bytes.old.items) }
{
    let within = over.len().min(bytes.len() - at);
    let (front, behind) = over.split_at(within);
    bytes.extend_from_slice(behind)?;
    bytes[at..at + within].copy_from_slice(front);
    Ok(())
}

fn is_soft_at(soft: &[(usize, usize)], i: usize) -> bool
    ensures { result ≡ is_soft soft.now i }
{
    soft.iter().any(|r| r.0 <= i && i - r.0 < r.1)
}

// Each byte that isn't synced becomes this one.
fn rot_bytes(bytes: &mut [u8], soft: &[(usize, usize)], byte: u8)
    ensures { bytes.new ≡ rotten byte soft.now 0 bytes.old }
{
    for i in 0..bytes.len() {
        if is_soft_at(soft, i) {
            bytes[i] = byte;
        }
    }
}

impl File {
    /// A file of these bytes, which are on the disk.
    pub(crate) fn firm(alloc: Global, bytes: Vec<u8>) -> File
        ensures { kept result ≡ firm bytes.items }
    {
        File {
            bytes,
            soft: Vec::new(alloc),
            synced: None,
        }
    }

    // Keeps the bytes of the last sync apart from those that change.
    fn keep_synced(&mut self, alloc: Global) -> Result<(), AllocError>
        ensures same { kept self.new ≡ kept self.old }
        ensures bytes { self.new.bytes ≡ self.old.bytes }
        ensures apart { OnOk result (IsSome self.new.synced) }
    {
        if self.synced.is_none() {
            let bytes = self.bytes.to_vec(alloc)?;
            self.synced = Some(bytes);
        }
        Ok(())
    }

    /// Writes over the bytes from an offset on, and past their end. Where memory runs out,
    /// nothing has changed.
    pub(crate) fn overwrite(
        &mut self,
        alloc: Global,
        at: usize,
        over: &[u8],
    ) -> Result<(), AllocError>
        requires { at ≤ length self.old.bytes.items }
        ensures ok { OnOk result (kept self.new ≡ overwritten at over.now (kept self.old)) }
        ensures err { OnErr result (kept self.new ≡ kept self.old) }
    {
        self.keep_synced(alloc)?;
        self.soft.reserve(1)?;
        write_over(&mut self.bytes, at, over)?;
        let _ = self.soft.push((at, over.len()));
        Ok(())
    }

    /// Its bytes are on the disk.
    pub(crate) fn sync(&mut self)
        ensures { kept self.new ≡ firm (kept self.old).bytes }
    {
        self.soft.clear();
        self.synced = None;
    }

    /// What a crash makes of it.
    pub(crate) fn fall(&mut self, choice: Rot)
        ensures { kept self.new ≡ fallen choice (kept self.old) }
    {
        match choice {
            Rot::Keep => {}
            Rot::Old => {
                if let Some(bytes) = self.synced.take() {
                    self.bytes = bytes;
                }
            }
            Rot::Byte(byte) => rot_bytes(&mut self.bytes, &self.soft, byte),
        }
        self.sync();
    }
}
