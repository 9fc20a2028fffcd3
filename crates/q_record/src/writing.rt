//! Writing a record.
ghost use Rattle.std.specs.Prelude.{◌≡◌, length, true, IfOk};
ghost use Rattle.q_model.specs.Records.{record_bytes};
ghost use Rattle.q_record.specs.Kinds.{is_length};

use q_model::{Bytes, NoMemory};
use std::alloc::Global;

/// The bytes of a record of this kind with this body.
pub fn put(alloc: Global, kind: u8, body: &[u8]) -> Result<Bytes, NoMemory>
    requires { is_length kind (length body.now) ≡ true }
    ensures { IfOk result (λ bytes. bytes ≡ record_bytes kind body.now) }
{
    let mut bytes = Vec::new(alloc);
    bytes.push(kind)?;
    bytes.extend_from_slice(&(body.len() as u32).to_be_bytes())?;
    bytes.extend_from_slice(body)?;
    Ok(Bytes::from_vec(bytes))
}
