//! One item of an event list, taken by a life.
ghost use Rattle.std.specs.Prelude.{◌≡◌, IfErr, IfOk, IfSome, is_none, IsErrOf, IsTrue, None, Some, ℕ, false, true};
ghost use Rattle.q_engine.specs.Stands.{IsReady};
ghost use Rattle.q_engine.specs.Steps.{StandsForSome};
ghost use Rattle.q_events.specs.Forms.{IsInForm, IsItemInForm};
ghost use Rattle.q_events.specs.Readings.{is_list_end};
ghost use Rattle.q_events.specs.declared.list_item.ListItem.TheVariants as items;
ghost use Rattle.q_host.specs.View.{Told};
ghost use Rattle.q_settings.specs.Ranges.{IsInRange};
ghost use Rattle.q_restart.specs.Damages.{IsUndamaged};
ghost use Rattle.q_replay.specs.DamagedSpools.{FindsDamage, NamesOnlyDamage};
ghost use Rattle.q_replay.specs.Named.{BlamesItem, is_of_host, IsNamed, IsRefusedBy, IsUnbegun};
ghost use Rattle.q_replay.specs.Takings.{BeginsAnew, GivesUpItem, GivesUpNext, is_unreadable, NeverBegins, ReplayCause, TakesItem, TakesNext};

use crate::error::{ReplayError, replay_error};
use q_engine::{Engine, begin};
use q_events::ListItem;
use q_host::Host;
use q_model::{Event, Mode};
use q_settings::Params;
use q_transport::Table;
use std::alloc::Global;

/// A life begins on the spool in this mode, at an item in this line. A refusal is `Disk` or
/// `Tell` where the host failed, `NoMemory`, `Limit` where no generation is left, or `Damaged` with
/// the first name of the spool at fault.
pub fn begin_life<H: Host>(
    alloc: Global,
    host: &mut H,
    params: Params,
    table: Table,
    mode: Mode,
    line: u64,
) -> Result<Engine, ReplayError>
    requires range { IsInRange params }
    ensures ok { IfOk result (λ engine. Told H.tells H.view host.old host.new
        (BeginsAnew params table mode engine)) }
    ensures undamaged { IfOk result (λ _. IsTrue H.tells → IsUndamaged (H.view host.old).files) }
    ensures ready { IfOk result IsReady }
    ensures err { IfErr result (λ error. Told H.tells H.view host.old host.new
        (NeverBegins params table mode line error)) }
    ensures damaged { Told H.tells H.view host.old host.new (λ u v. FindsDamage u v result) }
    ensures only_damaged { IsTrue H.tells → NamesOnlyDamage (H.view host.new) result }
    ensures no_source { IsErrOf result ReplayError.Source → ⊥ }
    ensures readable { IsTrue H.tells → IfErr result (λ error. is_unreadable error ≡ false) }
    ensures named { IfErr result IsUnbegun }
    ensures cause { ReplayCause (H.faults host.old) (H.faults host.new) result }
{
    match begin(alloc, host, params, table, mode) {
        Ok(engine) => Ok(engine),
        Err(error) => Err(replay_error(line, error)),
    }
}

/// The life goes on with an event, which stands in this line. Where it is refused, what was told
/// stands on disk, and the life can't go on.
pub fn hear<H: Host>(
    alloc: Global,
    host: &mut H,
    engine: Engine,
    event: Event,
    line: u64,
) -> Result<Engine, ReplayError>
    requires ready { IsReady engine }
    requires form { IsInForm event }
    requires stands { IsTrue H.tells → StandsForSome engine (H.view host.old) }
    ensures ok { IfOk result (λ next. (at : ℕ) → Told H.tells H.view host.old host.new
        (TakesItem engine (items.Step event at) (Some next))) }
    ensures ready { IfOk result IsReady }
    ensures timed { IfOk result (λ next. next.core.value.timed ≡ true) }
    ensures err { IfErr result (λ error. (at : ℕ) → Told H.tells H.view host.old host.new
        (GivesUpItem engine (items.Step event at) line error)) }
    ensures no_source { IsErrOf result ReplayError.Source → ⊥ }
    ensures readable { IsTrue H.tells → IfErr result (λ error. is_unreadable error ≡ false) }
    ensures named { IfErr result (IsRefusedBy line engine event) }
    ensures cause { ReplayCause (H.faults host.old) (H.faults host.new) result }
{
    match engine.step(alloc, host, event) {
        Ok(next) => Ok(next),
        Err(error) => Err(replay_error(line, error)),
    }
}

/// The life ends, at an item in this line. A refusal is of the host alone, and nothing that was told
/// before is lost by it.
pub fn end<H: Host>(
    alloc: Global,
    host: &mut H,
    engine: Engine,
    line: u64,
) -> Result<(), ReplayError>
    ensures ok { IfOk result (λ _. Told H.tells H.view host.old host.new
        (TakesItem engine items.End None)) }
    ensures err { IfErr result (λ error. Told H.tells H.view host.old host.new
        (GivesUpItem engine items.End line error)) }
    ensures no_source { IsErrOf result ReplayError.Source → ⊥ }
    ensures readable { IsTrue H.tells → IfErr result (λ error. is_unreadable error ≡ false) }
    ensures named { IfErr result (λ error. is_of_host error ≡ true) }
    ensures cause { ReplayCause (H.faults host.old) (H.faults host.new) result }
{
    match engine.finish(alloc, host) {
        Ok(()) => Ok(()),
        Err(error) => Err(replay_error(line, error)),
    }
}

/// Takes an item of the list, which stands in this line. The answer is the life that goes on; behind
/// `end` there is none.
pub(crate) fn take<H: Host>(
    alloc: Global,
    host: &mut H,
    params: Params,
    engine: Engine,
    item: ListItem,
    line: u64,
) -> Result<Option<Engine>, ReplayError>
    requires range { IsInRange params }
    requires ready { IsReady engine }
    requires form { IsItemInForm item }
    requires stands { IsTrue H.tells → StandsForSome engine (H.view host.old) }
    ensures ok { IfOk result (λ next. Told H.tells H.view host.old host.new
        (TakesNext params engine item next)) }
    ensures ended { IfOk result (λ next. is_none next ≡ is_list_end item) }
    ensures ready { IfOk result (λ next. IfSome next IsReady) }
    ensures err { IfErr result (λ error. Told H.tells H.view host.old host.new
        (GivesUpNext params engine item line error)) }
    ensures no_source { IsErrOf result ReplayError.Source → ⊥ }
    ensures readable { IsTrue H.tells → IfErr result (λ error. is_unreadable error ≡ false) }
    ensures named { IfErr result IsNamed }
    ensures bad { IfErr result (BlamesItem item line) }
    ensures cause { ReplayCause (H.faults host.old) (H.faults host.new) result }
{
    match item {
        ListItem::Step { event, .. } => Ok(Some(hear(alloc, host, engine, event, line)?)),
        ListItem::Restart => {
            let table = engine.release();
            Ok(Some(begin_life(alloc, host, params, table, Mode::Deliver, line)?))
        }
        ListItem::End => {
            end(alloc, host, engine, line)?;
            Ok(None)
        }
    }
}
