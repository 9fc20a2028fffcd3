//! One intake life, which takes one message.
ghost use Rattle.std.specs.Prelude.{◌≤◌, IsErrOf, IsTrue, IfErr, false, ◌≡◌};
ghost use Rattle.q_events.specs.Forms.{IsMailInForm};
ghost use Rattle.q_host.specs.View.{Told};
ghost use Rattle.q_model.specs.declared.event.Mode.TheVariants as modes;
ghost use Rattle.q_settings.specs.Ranges.{IsInRange};
ghost use Rattle.q_replay.specs.DamagedSpools.{FindsDamage, NamesOnlyDamage};
ghost use Rattle.q_replay.specs.Named.{IsLetterRefusal};
ghost use Rattle.q_replay.specs.ReplayEnds.{ForOrderly, IsFitSpool};
ghost use Rattle.q_replay.specs.RunEnds.{RunEnds};
ghost use Rattle.q_replay.specs.Submissions.{submitted};
ghost use Rattle.q_replay.specs.Takings.{is_unreadable, ReplayCause};

use crate::error::ReplayError;
use crate::intake::intake_params;
use crate::taking::{begin_life, end, hear};
use q_host::Host;
use q_model::{Address, Addresses, Bytes, Event, Mode, Moment};
use q_settings::Params;
use q_transport::Table;
use std::alloc::Global;

/// A message that is handed in: its sender, none for the null sender, at least one recipient, and
/// its content.
#[derive(Debug, Drop)]
pub struct Letter {
    pub sender: Option<Address>,
    pub to: Addresses,
    pub content: Bytes,
}

/// Begins an intake life on the spool of a host, takes the message at this moment, and ends the life:
/// with Ok it stands in incoming, and no crash takes it away.
///
/// `Limit` comes for content above 10,240,000 bytes, for more than 50,000 recipients, and where no
/// generation is left; `Damaged` for a spool that can't be opened; in all three nothing is stored.
pub fn submit<H: Host>(
    alloc: Global,
    host: &mut H,
    params: Params,
    table: Table,
    moment: Moment,
    letter: Letter,
) -> Result<(), ReplayError>
    requires range { IsInRange params }
    requires moment { moment ≤ 999990000000 }
    requires form { IsMailInForm letter.sender letter.to }
    // Where the host tells its files, they stand for an orderly book, or show a damage.
    requires spool { IsTrue H.tells → IsFitSpool (H.view host.old) }

    // How far it went, for each orderly book for which the host stood.
    ensures ends { Told H.tells H.view host.old host.new (λ v x. ForOrderly params table v (λ w b.
        RunEnds w modes.Intake b (submitted w b moment letter) v x result)) }
    ensures no_source { IsErrOf result ReplayError.Source → ⊥ }
    // A spool that shows a damage is found so, and nothing is changed; only a damage is called one.
    ensures damaged { Told H.tells H.view host.old host.new (λ u v. FindsDamage u v result) }
    ensures only_damaged { IsTrue H.tells → NamesOnlyDamage (H.view host.new) result }
    // Where the host tells its files, each queue file can be read.
    ensures readable { IsTrue H.tells → IfErr result (λ error. is_unreadable error ≡ false) }
    // Of every host: what a limit, or some names and files of the spool, say of it.
    ensures named { IfErr result (IsLetterRefusal letter.to letter.content) }
    ensures cause { ReplayCause (H.faults host.old) (H.faults host.new) result }
{
    let begun = begin_life(alloc, host, intake_params(params), table, Mode::Intake, 0)?;
    let timed = hear(alloc, host, begun, Event::At { moment }, 1)?;
    let Letter {
        sender,
        to,
        content,
    } = letter;
    let mail = Event::Mail {
        sender,
        to,
        content,
    };
    let taken = hear(alloc, host, timed, mail, 2)?;
    end(alloc, host, taken, 3)
}
