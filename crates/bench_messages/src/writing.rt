//! A large queue file.
ghost use Rattle.q_message.specs.NewFile.{is_receiver};
ghost use Rattle.std.specs.List.{list_all};
ghost use Rattle.std.specs.Prelude.{◌≡◌, true, IfOk};

use q_message::write_message;
use q_model::{
    Address, Addresses, Bytes, Head, MOST_CONTENT_BYTES, MOST_RECIPIENTS, NoMemory, Receiver,
};
use std::alloc::Global;

fn recipients(alloc: Global, count: u16) -> Result<Addresses, NoMemory>
    ensures { IfOk result (λ to. list_all is_receiver to ≡ true) }
{
    let mut to = Addresses::new(alloc);
    let Some(address) = Address::new(b"somebody@destination.example") else {
        return Ok(to);
    };
    for _i in 0..count {
        to.push(Receiver {
            address,
            original: None,
        })?;
    }
    Ok(to)
}

/// 400 bytes for each recipient.
fn content(alloc: Global, count: u16) -> Result<Vec<u8>, NoMemory> {
    let mut content = Vec::new(alloc);
    for _i in 0..count {
        content.extend_from_slice(&[b'x'; 400])?;
    }
    Ok(content)
}

/// The file of a message to so many recipients. `None` where memory is short or the message is
/// none that a queue file holds.
pub(crate) fn file_of(alloc: Global, count: u16) -> Option<Bytes> {
    let head = Head {
        sender: None,
        arrival: 1000,
    };
    let to = recipients(alloc, count).ok()?;
    let content = content(alloc, count).ok()?;
    let many = to.len() > MOST_RECIPIENTS as usize;
    if to.len() == 0 || many || content.len() > MOST_CONTENT_BYTES as usize {
        return None;
    }
    write_message(alloc, &head, &to, &content).ok()
}
