//! The lines of failures.
ghost use Rattle.std.specs.Prelude.{◌≡◌, ◌≤◌, ◌*◌, ◌+◌, ◌++◌, length, OnOk};
ghost use Rattle.q_model.specs.Notices.{original_text};
ghost use Rattle.q_model.specs.TextParts.{why_text};
ghost use Rattle.q_notice.specs.NoticeTexts.{named_failure, named_failures};

use crate::lines::{add, add_number};
use q_model::{Address, Failure, NoMemory, Receiver, Why};
use std::alloc::Global;

fn why_text(why: Why) -> &'static [u8]
    ensures { result.now ≡ why_text why }
{
    match why {
        Why::Refused => b"refused",
        Why::Expired => b"expired",
    }
}

/// Adds what is said of the address that the sender wrote, where that is another.
fn add_original(text: &mut Vec<u8>, original: &Option<Address>) -> Result<(), NoMemory>
    ensures text { OnOk result (text.new.items ≡ text.old.items ++ original_text original.now) }
    ensures short { OnOk result (length (original_text original.now) ≤ 261) }
{
    let Some(original) = original else {
        return Ok(());
    };
    add(text, b" (for ")?;
    add(text, original.bytes())?;
    add(text, b")")
}

/// Adds the line of a failure, with the addresses of its recipient.
fn add_failure(
    alloc: Global,
    text: &mut Vec<u8>,
    receiver: &Receiver,
    failure: Failure,
) -> Result<(), NoMemory>
    ensures text { OnOk result (text.new.items
        ≡ text.old.items ++ named_failure receiver.now failure) }
    ensures short { OnOk result (length (named_failure receiver.now failure) ≤ 541) }
{
    add(text, receiver.address.bytes())?;
    add_original(text, &receiver.original)?;
    add(text, b": ")?;
    add(text, why_text(failure.why))?;
    add(text, b" ")?;
    add_number(alloc, text, u32::from(failure.code))?;
    add(text, b"\n")
}

/// Adds the lines of failures, in their order, with the addresses of their recipients.
pub(crate) fn add_failures(
    alloc: Global,
    text: &mut Vec<u8>,
    failures: &[Failure],
    names: &[Receiver],
) -> Result<(), NoMemory>
    requires { length names.now ≡ length failures.now }
    ensures text { OnOk result (text.new.items
        ≡ text.old.items ++ named_failures failures.now names.now) }
    ensures short { OnOk result (length text.new.items
        ≤ length text.old.items + 541 * length failures.now) }
{
    for (i, failure) in failures.iter().enumerate() {
        add_failure(alloc, text, &names[i], *failure)?;
    }
    Ok(())
}
