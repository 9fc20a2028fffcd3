//! Taking a new message.
ghost use Rattle.std.specs.Prelude.{◌≡◌, ◌≤◌, ◌<◌, ◌↔◌, length, true, IsErrOf, IsTrue, OnErr, OnOk};
ghost use Rattle.std.specs.List.{list_all};
ghost use Rattle.q_host.specs.Faults.{DiskCause};
ghost use Rattle.q_message.specs.NewFile.{is_receiver};
ghost use Rattle.q_books.specs.HostStands.{KeepsNotes, TakesBy, TriesBy};
ghost use Rattle.q_files.specs.Causes.{SubmitCause};
ghost use Rattle.q_files.specs.Submissions.{AddsMessage};
ghost use Rattle.q_files.specs.declared.error.FileError.TheVariants.{TooBig, TooMany};

use crate::error::FileError;
use q_host::{Host, HostError};
use q_message::write_message;
use q_model::{Addresses, Area, Head, Id, MOST_CONTENT_BYTES, MOST_RECIPIENTS, Spot, id_name};
use q_store::store_file;
use std::alloc::Global;

/// The file is made before the disk is touched.
fn store_new<H: Host>(
    alloc: Global,
    host: &mut H,
    id: Id,
    head: &Head,
    to: &Addresses,
    content: &[u8],
) -> Result<(), HostError>
    requires arrival { head.now.arrival ≤ 999990000000 }
    requires some { 1 ≤ length to.now }
    requires few { length to.now ≤ 50000 }
    requires others { list_all is_receiver to.now ≡ true }
    requires short { length content.now ≤ 40000000 }
    ensures ok { OnOk result (TakesBy
        (AddsMessage (H.view host.old).files id head.now to.now content.now)
        H.tells H.view host.old host.new) }
    ensures tries { TriesBy (AddsMessage (H.view host.old).files id head.now to.now content.now)
        H.tells H.view host.old host.new }
    ensures notes { IsTrue H.tells → KeepsNotes (H.view host.old) (H.view host.new) }
    ensures cause { DiskCause (H.faults host.old) (H.faults host.new) result }
{
    let file = write_message(alloc, head, to, content)?;
    let name = id_name(id);
    let spot = Spot {
        area: Area::Incoming,
        name,
    };
    store_file(host, name, spot, file.as_slice())
}

/// Takes a message with this id into incoming, with every recipient pending: its file is written in
/// tmp under the id's name, synced and renamed.
///
/// The content is judged first, then the number of recipients, both before the disk is touched. It
/// is an error to call it with no recipient, with one whose original address is its own, with an
/// arrival above 999,990,000,000, or with an id that stands in the spool already.
pub fn submit<H: Host>(
    alloc: Global,
    host: &mut H,
    id: Id,
    head: &Head,
    to: &Addresses,
    content: &[u8],
) -> Result<(), FileError>
    requires arrival { head.now.arrival ≤ 999990000000 }
    requires some { 1 ≤ length to.now }
    requires others { list_all is_receiver to.now ≡ true }
    ensures ok { OnOk result (TakesBy
        (AddsMessage (H.view host.old).files id head.now to.now content.now)
        H.tells H.view host.old host.new) }
    ensures err { OnErr result (TriesBy
        (AddsMessage (H.view host.old).files id head.now to.now content.now)
        H.tells H.view host.old host.new) }
    ensures notes { IsTrue H.tells → KeepsNotes (H.view host.old) (H.view host.new) }
    ensures big { IsErrOf result TooBig ↔ (40000000 < length content.now) }
    ensures many { IsErrOf result TooMany
        ↔ (length content.now ≤ 40000000) × (50000 < length to.now) }
    // Nothing was done then.
    ensures big_untouched { 40000000 < length content.now → host.new ≡ host.old }
    ensures many_untouched { 50000 < length to.now → host.new ≡ host.old }
    ensures cause { SubmitCause (H.faults host.old) (H.faults host.new) result }
{
    if content.len() > MOST_CONTENT_BYTES as usize {
        return Err(FileError::TooBig);
    }
    if to.len() > MOST_RECIPIENTS as usize {
        return Err(FileError::TooMany);
    }
    match store_new(alloc, host, id, head, to, content) {
        Ok(()) => Ok(()),
        Err(error) => Err(FileError::from(error)),
    }
}
