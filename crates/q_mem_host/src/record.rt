//! The record of what was done.
ghost use Rattle.std.specs.Prelude.{◌≡◌, ◌≤◌, ◌<◌, ◌+◌, ◌++◌, ◌∷◌, [], None, OnOk, vec_len, vec_capacity};
ghost use Rattle.q_mem_host.specs.Record.{event_of, history};

use crate::Rot;
use q_model::{Area, Name};
use std::alloc::AllocError;

/// A call that changed something, a file that was put there synced, or a crash.
#[derive(Drop)]
pub(crate) enum Call {
    Create(Area, Name),
    Write(Area, Name, u64, Vec<u8>),
    Sync(Area, Name),
    Rename(Area, Name, Area, Name),
    Remove(Area, Name),
    Tell(Vec<u8>),
    Place(Area, Name, Vec<u8>),
    Crash(Rot),
}

/// Makes room for a call and a crash before it, so that noting them takes no memory.
pub(crate) fn make_room(calls: &mut Vec<Call>) -> Result<(), AllocError>
    ensures same { calls.new.items ≡ calls.old.items }
    ensures room { OnOk result (vec_len calls.new + 2 ≤ vec_capacity calls.new) }
{
    calls.reserve(2)?;
    Ok(())
}

fn push_within(calls: &mut Vec<Call>, call: Call)
    requires { vec_len calls.old < vec_capacity calls.old }
    ensures items { calls.new.items ≡ calls.old.items ++ call ∷ [] }
    ensures room { vec_capacity calls.old ≤ vec_capacity calls.new }
    ensures len { vec_len calls.new ≡ vec_len calls.old + 1 }
{
    let _ = calls.push(call);
}

// Notes a crash that isn't noted yet.
fn note_crash(calls: &mut Vec<Call>, crashed: &mut Option<Rot>)
    requires { vec_len calls.old + 2 ≤ vec_capacity calls.old }
    ensures same { history calls.new.items crashed.new ≡ history calls.old.items crashed.old }
    ensures noted { crashed.new ≡ None }
    ensures room { vec_len calls.new < vec_capacity calls.new }
{
    if let Some(rot) = *crashed {
        push_within(calls, Call::Crash(rot));
        *crashed = None;
    }
}

/// Notes a call, and before it a crash that isn't noted yet, in the room that is there.
pub(crate) fn note(calls: &mut Vec<Call>, crashed: &mut Option<Rot>, call: Call)
    requires { vec_len calls.old + 2 ≤ vec_capacity calls.old }
    ensures { history calls.new.items crashed.new ≡ history calls.old.items crashed.old
        ++ event_of call ∷ [] }
{
    note_crash(calls, crashed);
    push_within(calls, call);
}
