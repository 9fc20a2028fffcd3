//! `load`: a generated load, on a host in memory of its own.
ghost use Rattle.q_host.specs.View.{Told};
ghost use Rattle.q_telling.specs.Telling.{TellingCause};
ghost use Rattle.q_replay.specs.Spools.{Serves};
ghost use Rattle.q_top.specs.Causes.{HasHostCause};
ghost use Rattle.q_top.specs.Statuses.{names_fault, is_unreadable};
ghost use Rattle.q_top.specs.Tellings.{IsLoadText, MayTellSummary, TellsLoad, TellsSummary};
ghost use Rattle.std.specs.Prelude.{◌≢◌, IfOk, OnErr, OnOk, ℕ, ◌≡◌, false};

use crate::status::{Status, telling_status};
use q_host::{Host, HostError};
use q_load::load;
use q_model::NoMemory;
use q_telling::tell_text;
use std::alloc::Global;

/// The text of the load's summary.
fn load_text(alloc: Global, mails: u32) -> Result<Vec<u8>, NoMemory>
    ensures { IfOk result (λ text. IsLoadText mails text.items) }
{
    let summary = load(alloc, mails)?;
    summary.text(alloc)
}

/// Tells the summary of the load.
fn tell_summary<H: Host>(alloc: Global, host: &mut H, mails: u32) -> Result<(), HostError>
    ensures told { OnOk result (Told H.tells H.view host.old host.new (TellsSummary mails)) }
    ensures front { OnErr result (Told H.tells H.view host.old host.new (MayTellSummary mails)) }
    ensures cause { TellingCause (H.faults host.old) (H.faults host.new) result }
{
    let text = load_text(alloc, mails)?;
    tell_text(host, text.as_slice())
}

/// Tells the summary of a load of so many mails. Nothing else is done to the host.
pub(crate) fn tell_load<H: Host>(alloc: Global, host: &mut H, mails: u32) -> Status
    ensures tells { Told H.tells H.view host.old host.new (λ u v. TellsLoad mails u v result) }
    ensures serves { Told H.tells H.view host.old host.new (Serves false) }
    ensures readable { is_unreadable result ≡ false }
    ensures faultless { names_fault result ≡ false }
    ensures host { HasHostCause (H.faults host.old) (H.faults host.new) result }
    ensures no_source { result ≢ Status.Source }
    ensures no_usage { result ≢ Status.Usage }
    ensures no_door { result ≢ Status.Door }
    ensures no_rests { (n : ℕ) → result ≢ Status.Unfinished n }
{
    telling_status(tell_summary(alloc, host, mails))
}
