//! The files of queues that are passed over, and the damaged messages.
ghost use Rattle.std.specs.Prelude.{◌≡◌, ◌++◌, IfOk, IsTrue, List, OnOk, ℕ};
ghost use Rattle.q_check.specs.QueueTexts.{AreTexts, IsFileText, IsQueueText, text_of_file, text_of_other, verdict};
ghost use Rattle.q_host.specs.Calls.{Stays};
ghost use Rattle.q_host.specs.Faults.{DiskCause};

use crate::file_names::is_file_name;
use crate::lines::add_file_line;
use crate::names::all_names;
use q_host::{Host, HostError};
use q_model::{Area, Name, NoMemory};
use std::alloc::Global;

/// What is looked for in a queue.
#[derive(Clone, Copy, Debug, PartialEq, Eq)]
pub(crate) enum Look {
    /// Files that no message has.
    PassedOver,
    /// Files of messages, where the queue is corrupt.
    Damaged,
}

/// What is told.
fn verdict(look: Look) -> &'static [u8]
    ensures { result.now ≡ verdict look }
{
    match look {
        Look::PassedOver => b"no queue file, passed over",
        Look::Damaged => b"damaged message",
    }
}

/// Adds what is told of a name that a message's file may have.
fn add_file(text: &mut Vec<u8>, look: Look, area: Area, name: &Name) -> Result<(), NoMemory>
    ensures { OnOk result (text.new.items ≡ text.old.items ++ text_of_file look area name.now) }
{
    match look {
        Look::PassedOver => Ok(()),
        Look::Damaged => add_file_line(text, area, name, verdict(look)),
    }
}

/// Adds what is told of any other name.
fn add_other(text: &mut Vec<u8>, look: Look, area: Area, name: &Name) -> Result<(), NoMemory>
    ensures { OnOk result (text.new.items ≡ text.old.items ++ text_of_other look area name.now) }
{
    match look {
        Look::PassedOver => add_file_line(text, area, name, verdict(look)),
        Look::Damaged => Ok(()),
    }
}

/// Adds what is told of a file.
fn add_name(text: &mut Vec<u8>, look: Look, area: Area, name: &Name) -> Result<(), NoMemory>
    ensures { OnOk result ((line : List ℕ) × IsFileText look area name.now line
        × (text.new.items ≡ text.old.items ++ line)) }
{
    if is_file_name(area, *name) {
        return add_file(text, look, area, name);
    }
    add_other(text, look, area, name)
}

/// Adds what is told of files with these names.
fn add_names(text: &mut Vec<u8>, look: Look, area: Area, names: &[Name]) -> Result<(), NoMemory>
    ensures { OnOk result ((lines : List ℕ) × AreTexts (IsFileText look area) names.now lines
        × (text.new.items ≡ text.old.items ++ lines)) }
{
    for name in names {
        add_name(text, look, area, name)?;
    }
    Ok(())
}

/// Adds what is told of the files of a queue.
pub(crate) fn add_queue<H: Host>(
    alloc: Global,
    host: &mut H,
    text: &mut Vec<u8>,
    look: Look,
    area: Area,
) -> Result<(), HostError>
    ensures added { OnOk result (IsTrue H.tells → (lines : List ℕ)
        × IsQueueText (H.view host.old).files look area lines
        × (text.new.items ≡ text.old.items ++ lines)) }
    ensures stays { IsTrue H.tells → Stays (H.view host.old) (H.view host.new) }
    ensures cause { DiskCause (H.faults host.old) (H.faults host.new) result }
{
    let names = all_names(alloc, host, area)?;
    add_names(text, look, area, names.as_slice())?;
    Ok(())
}

/// Adds what is told of the files of several queues.
pub(crate) fn add_queues<H: Host>(
    alloc: Global,
    host: &mut H,
    text: &mut Vec<u8>,
    look: Look,
    areas: &[Area],
) -> Result<(), HostError>
    ensures added { OnOk result (IsTrue H.tells → (lines : List ℕ)
        × AreTexts (IsQueueText (H.view host.old).files look) areas.now lines
        × (text.new.items ≡ text.old.items ++ lines)) }
    ensures stays { IsTrue H.tells → Stays (H.view host.old) (H.view host.new) }
    ensures cause { DiskCause (H.faults host.old) (H.faults host.new) result }
{
    for area in areas {
        add_queue(alloc, host, text, look, *area)?;
    }
    Ok(())
}
