//! The beginning of a life on a spool.
ghost use Rattle.std.specs.Prelude.{◌≡◌, ◌<◌, ◌-◌, ◌^◌, ◌||◌, IfErr, IfOk, IfSome, IsErrOf, false, IsTrue, length, List, None, ℕ, true};
ghost use Rattle.q_books.specs.HostStands.{HostStands};
ghost use Rattle.q_core.specs.Agrees.{AgreesIfOrderly, ForFirst};
ghost use Rattle.q_core.specs.Changes.{is_looked_at};
ghost use Rattle.q_core.specs.Deciding.{is_answered};
ghost use Rattle.q_engine.specs.Beginnings.{BeginsLife, is_of_spool, IsRefusalOfSomeSpool, opening_refusal, StopsBeginning};
ghost use Rattle.q_engine.specs.Refusals.{EngineCause, is_of_host, refusal_of};
ghost use Rattle.q_engine.specs.Stands.{IsReady};
ghost use Rattle.q_engine.specs.declared.error.EngineError.{EngineError as EngineRefusal};
ghost use Rattle.q_engine.specs.declared.error.EngineError.TheVariants as errors;
ghost use Rattle.q_entries.specs.Entries.{DoesEntry, StopsEntry};
ghost use Rattle.q_model.specs.declared.limits.Bound.{Bound as Bounds};
ghost use Rattle.q_model.specs.declared.limits.Bound.TheVariants as bounds;
ghost use Rattle.q_host.specs.Calls.{Stays};
ghost use Rattle.q_host.specs.View.{Told};
ghost use Rattle.q_host.specs.declared.error.HostError.{HostError as Refusal};
ghost use Rattle.q_model.specs.Book.{Book};
ghost use Rattle.q_model.specs.Orderly.{is_orderly};
ghost use Rattle.q_model.specs.declared.entry.Entry.TheVariants as entries;
ghost use Rattle.q_model.specs.declared.id.Id.{Id as Ids};
ghost use Rattle.q_model.specs.declared.spot.Area.{Area as Areas};
ghost use Rattle.q_places.specs.Kept.{kept_file};
ghost use Rattle.q_settings.specs.Ranges.{IsInRange};
ghost use Rattle.q_restart.specs.Damages.{IsDamage, IsNextGeneration, IsSpent};
ghost use Rattle.q_restart.specs.Openings.{LeavesUnbegun};
ghost use Rattle.q_transport.specs.Routing.{table_of};

use crate::engine::Engine;
use crate::error::{EngineError, refusal_of};
use q_core::Core;
use q_entries::tell;
use q_host::Host;
use q_model::{Bound, Entry, Mode};
use q_places::Places;
use q_restart::{OpenError, open_spool};
use q_settings::Params;
use q_transport::Table;
use std::alloc::Global;

fn opening_refusal(error: OpenError) -> EngineError
    ensures exact { result ≡ opening_refusal error }
    ensures kinds { (is_of_host result || is_of_spool result) ≡ true }
{
    match error {
        OpenError::Disk => EngineError::Disk,
        OpenError::NoMemory => EngineError::NoMemory,
        OpenError::Damaged { area, name } => EngineError::Damaged { area, name },
        OpenError::Spent => EngineError::Limit {
            bound: Bound::Generation,
        },
    }
}

/// Puts a value in a box. Nothing comes where memory is wanting.
fn boxed<T: Drop>(alloc: Global, value: T) -> Option<Box<T>>
    ensures { IfSome result (λ made. made.value ≡ value) }
{
    match Box::new(alloc, value) {
        Ok(made) => Some(made),
        Err(_) => None,
    }
}

/// The core of a life that begins, in a box. Nothing comes where memory is wanting.
fn first_core(alloc: Global, params: Params, transports: u8, mode: Mode) -> Option<Box<Core>>
    requires { IsInRange params }
    ensures orderly { IfSome result (λ core. ForFirst params transports mode
        (λ w book l. AgreesIfOrderly w core.value book l)) }
    ensures answered { IfSome result (λ core. is_answered core.value.question ≡ true) }
    ensures looked { IfSome result (λ core. is_looked_at core.value ≡ true) }
{
    let Ok(core) = Core::new(alloc, params, transports, mode) else {
        return None;
    };
    let made = boxed(alloc, core)?;
    Some(made)
}

/// Tells the first line of a life on a spool that was opened.
fn tell_life<H: Host>(
    alloc: Global,
    host: &mut H,
    params: Params,
    table: Table,
    mode: Mode,
    generation: u32,
) -> Result<Engine, EngineError>
    requires { IsInRange params }
    ensures ok { IfOk result (λ engine. IsTrue H.tells → (b : Book) → HostStands (H.view host.old) b
        → DoesEntry (table_of table) (entries.Life generation mode) b b
        (H.view host.old) (H.view host.new)) }
    ensures core { IfOk result (λ engine. ForFirst params (length (table_of table).transports) mode
        (λ w book l. AgreesIfOrderly w engine.core.value book l)) }
    ensures made { IfOk result (λ engine. engine ≡ record {
      core = engine.core;
      table = table;
      generation = generation;
      arrivals = 0;
      preempts = 0;
      places = engine.places;
    }) }
    ensures places { IfOk result (λ engine. (id : Ids) → kept_file engine.places id ≡ None) }
    ensures ready { IfOk result (λ engine. IsReady engine) }
    ensures err { (error : Refusal) → IsErrOf result (refusal_of error) → IsTrue H.tells
        → (b : Book) → HostStands (H.view host.old) b
        → StopsEntry (table_of table) (entries.Life generation mode) b b error
        (H.view host.old) (H.view host.new) }
    ensures spool { (error : EngineRefusal) → IsErrOf result error → is_of_spool error ≡ false }
    ensures kinds { (error : EngineRefusal) → IsErrOf result error → is_of_host error ≡ true }
    ensures files { IsTrue H.tells → (H.view host.new).files ≡ (H.view host.old).files }
    ensures cause { EngineCause (H.faults host.old) (H.faults host.new) result }
{
    let Some(core) = first_core(alloc, params, table.transports(), mode) else {
        return Err(EngineError::NoMemory);
    };
    let engine = Engine {
        core,
        table,
        generation,
        arrivals: 0,
        preempts: 0,
        places: Places::new(alloc),
    };
    match tell(
        alloc,
        host,
        &engine.table,
        &Entry::Life { generation, mode },
    ) {
        Ok(()) => Ok(engine),
        Err(error) => Err(refusal_of(error)),
    }
}

/// Opens a spool, and begins a life on it: each entry that follows is one of `step` or `finish`.
///
/// `Damaged` and `Limit` of Generation come where the spool can't be opened, and there nothing is
/// done, by a fault or for want of memory neither. After every other error the spool is the one
/// before or the one of the new life.
pub fn begin<H: Host>(
    alloc: Global,
    host: &mut H,
    params: Params,
    table: Table,
    mode: Mode,
) -> Result<Engine, EngineError>
    requires { IsInRange params }
    // Of each book for which the host stands: the life begins on it, and its first line is told.
    ensures ok { IfOk result (λ engine. IsTrue H.tells
        → BeginsLife params table mode engine (H.view host.old) (H.view host.new)) }
    ensures ready { IfOk result (λ engine. IsReady engine) }

    // By a fault or for want of memory it may have gone some way.
    ensures err { (error : Refusal) → IsErrOf result (refusal_of error) → IsTrue H.tells
        → StopsBeginning table mode error (H.view host.old) (H.view host.new) }

    // The spool is opened, found damaged or found spent where it is so.
    ensures opened { IfOk result (λ engine. IsTrue H.tells
        → IsNextGeneration (H.view host.old).files engine.generation) }
    ensures damaged { IsTrue H.tells → (area : Areas) → (name : List ℕ)
        → IsErrOf result (errors.Damaged area name) → IsDamage (H.view host.old).files area name }
    ensures limit { (bound : Bounds) → IsErrOf result (errors.Limit bound)
        → bound ≡ bounds.Generation }
    ensures spent { (bound : Bounds) → IsErrOf result (errors.Limit bound) → IsTrue H.tells
        → IsSpent (H.view host.old).files }
    // The same of every host, by some names and files.
    ensures some { IfErr result IsRefusalOfSomeSpool }
    ensures untouched { (error : EngineRefusal) → IsErrOf result error → is_of_spool error ≡ true
        → Told H.tells H.view host.old host.new Stays }

    // A spool on which no life can begin is only looked at, whatever the answer.
    ensures unbegun { Told H.tells H.view host.old host.new LeavesUnbegun }

    // No other refusal comes, so none of an event.
    ensures kinds { (error : EngineRefusal) → IsErrOf result error
        → (is_of_host error || is_of_spool error) ≡ true }

    // An orderly book is never refused but at the last generation.
    ensures orderly { IsTrue H.tells → (b : Book) → HostStands (H.view host.old) b
        → is_orderly b ≡ true → b.generation < 2 ^ 32 - 1
        → (error : EngineRefusal) → IsErrOf result error → is_of_spool error ≡ false }
    ensures cause { EngineCause (H.faults host.old) (H.faults host.new) result }
{
    match open_spool(alloc, host) {
        Ok(spool) => tell_life(alloc, host, params, table, mode, spool.generation),
        Err(error) => Err(opening_refusal(error)),
    }
}

impl Engine {
    /// `begin`, among the calls of an engine.
    pub fn begin<H: Host>(
        alloc: Global,
        host: &mut H,
        params: Params,
        table: Table,
        mode: Mode,
    ) -> Result<Engine, EngineError>
        requires { IsInRange params }
        // Of each book for which the host stands: the life begins on it, and its first line is
        // told.
        ensures ok { IfOk result (λ engine. IsTrue H.tells
            → BeginsLife params table mode engine (H.view host.old) (H.view host.new)) }
        ensures ready { IfOk result (λ engine. IsReady engine) }

        // By a fault or for want of memory it may have gone some way.
        ensures err { (error : Refusal) → IsErrOf result (refusal_of error) → IsTrue H.tells
            → StopsBeginning table mode error (H.view host.old) (H.view host.new) }

        // The spool is opened, found damaged or found spent where it is so.
        ensures opened { IfOk result (λ engine. IsTrue H.tells
            → IsNextGeneration (H.view host.old).files engine.generation) }
        ensures damaged { IsTrue H.tells → (area : Areas) → (name : List ℕ)
            → IsErrOf result (errors.Damaged area name)
            → IsDamage (H.view host.old).files area name }
        ensures limit { (bound : Bounds) → IsErrOf result (errors.Limit bound)
            → bound ≡ bounds.Generation }
        ensures spent { (bound : Bounds) → IsErrOf result (errors.Limit bound) → IsTrue H.tells
            → IsSpent (H.view host.old).files }
        // The same of every host, by some names and files.
        ensures some { IfErr result IsRefusalOfSomeSpool }
        ensures untouched { (error : EngineRefusal) → IsErrOf result error
            → is_of_spool error ≡ true → Told H.tells H.view host.old host.new Stays }

        // A spool on which no life can begin is only looked at, whatever the answer.
        ensures unbegun { Told H.tells H.view host.old host.new LeavesUnbegun }

        // No other refusal comes, so none of an event.
        ensures kinds { (error : EngineRefusal) → IsErrOf result error
            → (is_of_host error || is_of_spool error) ≡ true }

        // An orderly book is never refused but at the last generation.
        ensures orderly { IsTrue H.tells → (b : Book) → HostStands (H.view host.old) b
            → is_orderly b ≡ true → b.generation < 2 ^ 32 - 1
            → (error : EngineRefusal) → IsErrOf result error → is_of_spool error ≡ false }
        ensures cause { EngineCause (H.faults host.old) (H.faults host.new) result }
    {
        begin(alloc, host, params, table, mode)
    }
}
