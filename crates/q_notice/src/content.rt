//! The content of a bounce.
ghost use Rattle.std.specs.Prelude.{◌≡◌, ◌≤◌, ◌+◌, ◌++◌, IfOk, length, min, OnOk};
ghost use Rattle.q_notice.specs.NoticeTexts.{head_lines, IsNotice, notice_text, size_lines};

use crate::failures::add_failures;
use crate::lines::{add, add_line, add_number};
use q_model::{Address, Addresses, Bytes, Id, MOST_RETURNED_BYTES, NoMemory, Records, id_name};
use std::alloc::Global;

/// Adds the header, and the line in front of the failures.
fn add_head(text: &mut Vec<u8>, id: Id, sender: &Address) -> Result<(), NoMemory>
    ensures text { OnOk result (text.new.items ≡ text.old.items ++ head_lines id sender.now) }
    ensures short { OnOk result (length text.new.items ≤ length text.old.items + 600) }
{
    add(text, b"From: MAILER-DAEMON\nTo: ")?;
    add(text, sender.bytes())?;
    add(
        text,
        b"\nSubject: Undelivered Mail Returned to Sender\n\nThese recipients of message ",
    )?;
    add(text, id_name(id).bytes())?;
    add(text, b" were not reached:\n\n")
}

/// How many bytes of a message of this size follow.
fn front_size(size: u32) -> u32
    ensures { result ≡ min size 50000 }
{
    if size < MOST_RETURNED_BYTES {
        size
    } else {
        MOST_RETURNED_BYTES
    }
}

/// Adds the lines that say how much of the message follows.
fn add_size(alloc: Global, text: &mut Vec<u8>, size: u32) -> Result<(), NoMemory>
    ensures text { OnOk result (text.new.items ≡ text.old.items ++ size_lines size) }
    ensures short { OnOk result (length text.new.items ≤ length text.old.items + 100) }
{
    let front = front_size(size);
    add(text, b"\nThe message had ")?;
    add_number(alloc, text, size)?;
    add(text, b" bytes. Its first ")?;
    add_number(alloc, text, front)?;
    add(text, b" bytes follow.\n\n")
}

/// The content of the bounce of a message: a header, a line for each failure in their order with
/// the addresses of its recipient (`names` has them in the same order), and the front of the
/// content, of which the message has `size` bytes. It is an error to give more or fewer names than
/// failures, or more than 50,000 bytes.
pub fn notice(
    alloc: Global,
    id: Id,
    sender: &Address,
    failures: &Records,
    names: &Addresses,
    size: u32,
    front: &[u8],
) -> Result<Bytes, NoMemory>
    requires named { length names.now ≡ length failures.now }
    requires short { length front.now ≤ 50000 }
    ensures text { IfOk result (λ text. text
        ≡ notice_text id sender.now failures.now names.now size front.now) }
    // It is the notice of each message whose failures, names, size and front these are.
    ensures notice { IfOk result (λ text.
        IsNotice text id sender.now failures.now names.now size front.now) }
    // A queue file can hold it, where the failures are those of a message.
    ensures room { length failures.now ≤ 50000 → IfOk result (λ text. length text ≤ 40000000) }
{
    let mut text = Vec::new(alloc);
    add_head(&mut text, id, sender)?;
    add_failures(alloc, &mut text, failures.as_slice(), names.as_slice())?;
    add_size(alloc, &mut text, size)?;
    add(&mut text, front)?;
    Ok(Bytes::from_vec(text))
}
