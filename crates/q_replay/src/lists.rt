//! Lives on a spool that take the events of a list.
ghost use Rattle.std.specs.Prelude.{◌≡◌, Err, IfSome, IsTrue, IfErr, OnOk, false};
ghost use Rattle.q_events.specs.Forms.{IsItemInForm};
ghost use Rattle.q_host.specs.View.{Told};
ghost use Rattle.q_model.specs.FaultCounts.{Rose};
ghost use Rattle.q_settings.specs.Ranges.{IsInRange};
ghost use Rattle.q_replay.specs.AnyLists.{TakesList};
ghost use Rattle.q_replay.specs.DamagedSpools.{FindsDamage, NamesOnlyDamage};
ghost use Rattle.q_replay.specs.Listings.{listing_of};
ghost use Rattle.q_replay.specs.Named.{BlamesList, IsNamed};
ghost use Rattle.q_replay.specs.ReplayEnds.{ForOrderly, IsFitSpool, ReplayEnds};
ghost use Rattle.q_replay.specs.Takings.{is_unreadable, ReplayCause};

use crate::error::{ReplayError, list_error};
use crate::taking::{begin_life, take};
use q_events::Events;
use q_host::Host;
use q_model::Mode;
use q_settings::Params;
use q_stream::Source;
use q_transport::Table;
use std::alloc::Global;

/// Begins a life on the spool of a host, and takes the event list of the source through it, and
/// through one more at each `restart`. Each entry is told after the disk holds what it says. With Ok
/// the deferral log of each message that was admitted, and not removed since, reads as its delays
/// since the last admission.
///
/// `BadEvent` names the first line that can't be taken. `Limit` comes for content above 10,240,000
/// bytes, for more than 50,000 recipients, for a message beyond the last serial of its life, for a
/// life beyond the last generation, and for a list that goes on behind its first 2^40 bytes.
/// `Damaged` comes for a spool that can't be opened, before anything is told. `Unreadable` names a
/// queue file that can't be read any longer. `Disk`, `Tell` and `Source` come where the host or the
/// source failed, `NoMemory` where memory ran out.
pub fn replay<H: Host, S: Source>(
    alloc: Global,
    source: &mut S,
    host: &mut H,
    params: Params,
    table: Table,
) -> Result<(), ReplayError>
    requires range { IsInRange params }
    // Where the host tells its files, they stand for an orderly book, or show a damage.
    requires spool { IsTrue H.tells → IsFitSpool (H.view host.old) }

    // How far it went, by the text of the source, for each orderly book for which the host stood.
    ensures ends { Told H.tells H.view host.old host.new (λ v x. ForOrderly params table v (λ w b.
        IfSome (S.left source.old) (λ bytes. ReplayEnds w b bytes (S.left source.new) v x result))) }
    // The same of every source: the items are those of some list in the form of the grammar.
    ensures lists { Told H.tells H.view host.old host.new (λ v x. ForOrderly params table v (λ w b.
        TakesList w b v x result)) }
    // A spool that shows a damage is found so, and nothing is changed; only a damage is called one.
    ensures damaged { Told H.tells H.view host.old host.new (λ u v. FindsDamage u v result) }
    ensures only_damaged { IsTrue H.tells → NamesOnlyDamage (H.view host.new) result }
    // Where the host tells its files, each queue file can be read.
    ensures readable { IsTrue H.tells → IfErr result (λ error. is_unreadable error ≡ false) }
    // Of every host: a damage, and that no generation is left, are what some names and files show.
    ensures named { IfErr result IsNamed }
    // Where the source tells, a line of its text is at fault, or passes the limit.
    ensures line { IfErr result (λ error. IfSome (S.left source.old) (λ bytes.
        BlamesList (listing_of bytes) error)) }
    ensures cause { ReplayCause (H.faults host.old) (H.faults host.new) result }
    ensures source { result ≡ Err ReplayError.Source
        → Rose (S.faults source.old) (S.faults source.new) }
    // A list was read whole without a fault.
    ensures faultless { OnOk result (S.faults source.new ≡ S.faults source.old) }
{
    let Ok(mut events) = Events::new(alloc) else {
        return Err(ReplayError::NoMemory);
    };
    let mut engine = begin_life(alloc, host, params, table, Mode::Deliver, 0)?;
    loop {
        let item = match events.read_event(alloc, source) {
            Ok(item) => item,
            Err(error) => return Err(list_error(error)),
        };
        match take(alloc, host, params, engine, item, events.lines())? {
            Some(next) => engine = next,
            None => return Ok(()),
        }
    }
}
