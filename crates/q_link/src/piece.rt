//! Bytes that come over a link at once. It is an error to make a piece of no byte.
ghost use Rattle.std.specs.Prelude.{◌<◌, ◌≡◌, IfOk, length};

use std::alloc::{AllocError, Global};

/// At least one byte.
#[derive(Drop)]
pub(crate) struct Piece {
    pub bytes: Vec<u8>,
    ghost some: { 0 < length bytes.items },
}

impl Piece {
    pub(crate) fn new(alloc: Global, bytes: &[u8]) -> Result<Piece, AllocError>
        requires { 0 < length bytes.now }
        ensures { IfOk result (λ piece. piece.bytes.items ≡ bytes.now) }
    {
        let bytes = Vec::from_slice(alloc, bytes)?;
        Ok(Piece { bytes })
    }
}
