//! Writing a queue file.
ghost use Rattle.std.specs.Prelude.{◌≡◌, ◌≤◌, ◌++◌, [], ◌∷◌, length, flat_map, unwrap_or, true, IfOk, OnOk};
ghost use Rattle.std.specs.List.{list_all};
ghost use Rattle.std.specs.Option.{option_map_or};
ghost use Rattle.q_model.specs.QueueFileBytes.{IsFileOf};
ghost use Rattle.q_model.specs.Records.{record_bytes};
ghost use Rattle.q_model.specs.Texts.{is_address};
ghost use Rattle.q_record.specs.Kinds.{is_length};
ghost use Rattle.q_message.specs.NewFile.{are_addresses, counts_text, head_text, is_receiver, new_file, new_message, recipient_record};

use crate::body::NEW_VERSION;
use q_model::{Address, Addresses, Bytes, Head, NoMemory, Receiver};
use q_record::put;
use std::alloc::Global;

/// The mark byte of a recipient to whom nothing was delivered.
const PENDING: u8 = b'P';

fn push_record(out: &mut Vec<u8>, alloc: Global, kind: u8, body: &[u8]) -> Result<(), NoMemory>
    requires { is_length kind (length body.now) ≡ true }
    ensures { OnOk result (out.new.items ≡ out.old.items ++ record_bytes kind body.now) }
{
    let record = put(alloc, kind, body)?;
    out.extend_from_slice(record.as_slice())?;
    Ok(())
}

fn push_original(
    out: &mut Vec<u8>,
    alloc: Global,
    original: &Option<Address>,
) -> Result<(), NoMemory>
    ensures written { OnOk result (out.new.items ≡ out.old.items ++ record_bytes 79
        (unwrap_or original.now [])) }
    ensures form { OnOk result (option_map_or is_address original.now true ≡ true) }
{
    match original {
        None => push_record(out, alloc, b'O', &[])?,
        Some(address) => push_record(out, alloc, b'O', address.bytes())?,
    }
    Ok(())
}

fn push_address(out: &mut Vec<u8>, alloc: Global, address: &Address) -> Result<(), NoMemory>
    ensures written { OnOk result (out.new.items ≡ out.old.items ++ record_bytes 82 (80 ∷ address.now)) }
    ensures form { OnOk result (is_address address.now ≡ true) }
{
    let mut body = Vec::new(alloc);
    body.push(PENDING)?;
    body.extend_from_slice(address.bytes())?;
    push_record(out, alloc, b'R', &body)?;
    Ok(())
}

fn push_recipient(out: &mut Vec<u8>, alloc: Global, receiver: &Receiver) -> Result<(), NoMemory>
    ensures written { OnOk result (out.new.items ≡ out.old.items ++ recipient_record receiver.now) }
    ensures address { OnOk result (is_address receiver.now.address ≡ true) }
    ensures original { OnOk result (option_map_or is_address receiver.now.original true ≡ true) }
{
    push_original(out, alloc, &receiver.original)?;
    push_address(out, alloc, &receiver.address)?;
    Ok(())
}

fn push_recipients(out: &mut Vec<u8>, alloc: Global, to: &Addresses) -> Result<(), NoMemory>
    ensures written { OnOk result (out.new.items ≡ out.old.items ++ flat_map recipient_record to.now) }
    ensures forms { OnOk result (list_all are_addresses to.now ≡ true) }
{
    for receiver in to.as_slice() {
        push_recipient(out, alloc, receiver)?;
    }
    Ok(())
}

/// The version and the sizes.
fn counts(alloc: Global, recipients: u32, content: u32) -> Result<Vec<u8>, NoMemory>
    ensures { IfOk result (λ body. body.items ≡ counts_text recipients content) }
{
    let mut body = Vec::new(alloc);
    body.extend_from_slice(&NEW_VERSION.to_be_bytes())?;
    body.extend_from_slice(&recipients.to_be_bytes())?;
    body.extend_from_slice(&content.to_be_bytes())?;
    Ok(body)
}

fn push_sender(out: &mut Vec<u8>, alloc: Global, sender: &Option<Address>) -> Result<(), NoMemory>
    ensures written { OnOk result (out.new.items ≡ out.old.items ++ record_bytes 83
        (unwrap_or sender.now [])) }
    ensures form { OnOk result (option_map_or is_address sender.now true ≡ true) }
{
    match sender {
        None => push_record(out, alloc, b'S', &[])?,
        Some(address) => push_record(out, alloc, b'S', address.bytes())?,
    }
    Ok(())
}

/// The records before those of the recipients.
fn head_records(
    alloc: Global,
    head: &Head,
    recipients: u32,
    content: u32,
) -> Result<Vec<u8>, NoMemory>
    ensures written { IfOk result (λ out. out.items ≡ head_text head.now recipients content) }
    ensures form { IfOk result (λ out. option_map_or is_address head.now.sender true ≡ true) }
{
    let mut out = Vec::new(alloc);
    let counts = counts(alloc, recipients, content)?;
    push_record(&mut out, alloc, b'C', &counts)?;
    push_record(&mut out, alloc, b'T', &head.arrival.to_be_bytes())?;
    push_sender(&mut out, alloc, &head.sender)?;
    Ok(out)
}

/// The records behind those of the recipients.
fn push_content(out: &mut Vec<u8>, alloc: Global, content: &[u8]) -> Result<(), NoMemory>
    requires { length content.now ≤ 40000000 }
    ensures { OnOk result (out.new.items ≡ out.old.items ++ record_bytes 78 content.now
        ++ record_bytes 69 []) }
{
    push_record(out, alloc, b'N', content)?;
    push_record(out, alloc, b'E', &[])?;
    Ok(())
}

/// The bytes of the queue file of a new message, in which every recipient is pending. It is an error
/// to call it past the form's bounds: 999,990,000,000 for the arrival, 1 to 50,000 recipients, none
/// with its own address as the original one, and 40,000,000 bytes of content.
pub fn write_message(
    alloc: Global,
    head: &Head,
    to: &Addresses,
    content: &[u8],
) -> Result<Bytes, NoMemory>
    requires arrival { head.now.arrival ≤ 999990000000 }
    requires some { 1 ≤ length to.now }
    requires few { length to.now ≤ 50000 }
    requires others { list_all is_receiver to.now ≡ true }
    requires short { length content.now ≤ 40000000 }
    ensures written { IfOk result (λ bytes. bytes ≡ new_file head.now to.now content.now) }
    ensures reads { IfOk result (λ bytes. IsFileOf bytes (new_message head.now to.now content.now)) }
{
    let mut out = head_records(alloc, head, to.len() as u32, content.len() as u32)?;
    push_recipients(&mut out, alloc, to)?;
    push_content(&mut out, alloc, content)?;
    Ok(Bytes::from_vec(out))
}
