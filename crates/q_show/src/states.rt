//! How the recipients of a message stand.
ghost use Rattle.std.specs.BTreeMap.{get, is_at};
ghost use Rattle.std.specs.Ordering.{nat_cmp};
ghost use Rattle.std.specs.Prelude.{◌≡◌, cond, IfOk, IsTrue, List, OnOk, Some, ℕ};
ghost use Rattle.q_host.specs.Calls.{Stays};
ghost use Rattle.q_host.specs.Faults.{DiskCause};
ghost use Rattle.q_listing.specs.Listings.{last_code, notes_in};
ghost use Rattle.q_model.specs.Message.{Message, pending};
ghost use Rattle.q_pending.specs.Readings.{IsPendingAhead, IsReading};
ghost use Rattle.q_show.specs.declared.states.State.TheVariants as state_kinds;
ghost use Rattle.q_show.specs.States.{AreStates, failed_or, state_in, waiting};
ghost use Rattle.q_walk.specs.Walks.{IsFound};

use q_host::{Host, HostError};
use q_listing::{Codes, code_of, codes_of, reader_of};
use q_logfile::log_of;
use q_model::{Failure, NoMemory, Taken, Why};
use q_pending::Pending;
use q_walk::Found;
use std::alloc::Global;
use std::collections::BTreeMap;

/// How a recipient stands.
#[derive(Clone, Copy, Debug, PartialEq, Eq)]
pub(crate) enum State {
    Done,
    /// The last code that was noted of it, if any.
    Pending(Option<u16>),
    /// Its failure, by the failure log.
    Failed(Why, u16),
}

/// How recipients stand, by position; those that aren't in it are done.
pub(crate) type States = BTreeMap<u32, State>;

/// How the recipient of a position stands.
pub(crate) fn state_of(states: &States, position: u32) -> State
    ensures { result ≡ state_in states.now position }
{
    match states.get(&position) {
        Some(state) => *state,
        None => State::Done,
    }
}

/// Says of a position how it stands.
fn set(states: &mut States, position: u32, state: State) -> Result<(), NoMemory>
    ensures { OnOk result ((q : ℕ) → get nat_cmp states.new q
        ≡ cond (is_at (nat_cmp position) q) (Some state) (get nat_cmp states.old q)) }
{
    states.insert(position, state)?;
    Ok(())
}

/// Says of a recipient that was read that it is pending, with its code.
fn set_waiting(states: &mut States, codes: &Codes, taken: &Taken) -> Result<(), NoMemory>
    ensures { OnOk result ((q : ℕ) → get nat_cmp states.new q
        ≡ cond (is_at (nat_cmp taken.now.position) q)
        (Some (state_kinds.Pending (get nat_cmp codes.now taken.now.position)))
        (get nat_cmp states.old q)) }
{
    let code = code_of(codes, taken.position);
    set(states, taken.position, State::Pending(code))
}

/// The states of those that the reader gives.
fn waiting_of<H: Host>(
    alloc: Global,
    host: &mut H,
    codes: &Codes,
    reader: &mut Pending,
) -> Result<States, HostError>
    requires reading { IsTrue H.tells → IsReading (H.view host.old).files reader.old }
    ensures states { IfOk result (λ states. IsTrue H.tells → (m : Message) → (positions : List ℕ)
        → IsPendingAhead (H.view host.old).files m reader.old positions → (q : ℕ)
        → get nat_cmp states q ≡ waiting (get nat_cmp codes.now) positions q) }
    ensures stays { IsTrue H.tells → Stays (H.view host.old) (H.view host.new) }
    ensures cause { DiskCause (H.faults host.old) (H.faults host.new) result }
{
    let mut states = States::new(alloc);
    loop {
        let Some(taken) = reader.next(host)? else {
            return Ok(states);
        };
        set_waiting(&mut states, codes, &taken)?;
    }
}

/// Says of each position in the log that it failed, from the last record to the first, since the
/// first of a position counts.
fn add_failures(failures: &[Failure], states: &mut States) -> Result<(), NoMemory>
    ensures { OnOk result ((q : ℕ) → get nat_cmp states.new q
        ≡ failed_or failures.now (get nat_cmp states.old q) q) }
{
    let mut left = failures.len();
    while left > 0 {
        left -= 1;
        let failure = failures[left];
        let state = State::Failed(failure.why, failure.code);
        set(states, failure.position, state)?;
    }
    Ok(())
}

/// The states of the pending recipients of a message that was found.
fn pending_of<H: Host>(alloc: Global, host: &mut H, found: &Found) -> Result<States, HostError>
    ensures states { IfOk result (λ states. IsTrue H.tells → (m : Message)
        → IsFound (H.view host.old).files m found.now → (q : ℕ) → get nat_cmp states q
        ≡ waiting (last_code (notes_in (H.view host.old).files m.id)) (pending m) q) }
    ensures stays { IsTrue H.tells → Stays (H.view host.old) (H.view host.new) }
    ensures cause { DiskCause (H.faults host.old) (H.faults host.new) result }
{
    let codes = codes_of(alloc, host, found.id)?;
    match reader_of(alloc, host, found)? {
        Some(mut reader) => waiting_of(alloc, host, &codes, &mut reader),
        None => Ok(States::new(alloc)),
    }
}

/// How the recipients of a message stand that was found.
pub(crate) fn states_of<H: Host>(
    alloc: Global,
    host: &mut H,
    found: &Found,
) -> Result<States, HostError>
    ensures states { IfOk result (λ states. IsTrue H.tells → (m : Message)
        → IsFound (H.view host.old).files m found.now
        → AreStates (notes_in (H.view host.old).files m.id) m states) }
    ensures stays { IsTrue H.tells → Stays (H.view host.old) (H.view host.new) }
    ensures cause { DiskCause (H.faults host.old) (H.faults host.new) result }
{
    let failures = log_of(alloc, host, found.id)?;
    let mut states = pending_of(alloc, host, found)?;
    add_failures(failures.as_slice(), &mut states)?;
    Ok(states)
}
