//! Telling the figures of a spool.
ghost use Rattle.std.specs.Prelude.{◌≡◌, IfOk, IsTrue, OnErr, OnOk};
ghost use Rattle.q_host.specs.Calls.{Stays};
ghost use Rattle.q_host.specs.Faults.{DiskCause};
ghost use Rattle.q_host.specs.View.{Told};
ghost use Rattle.q_model.specs.Book.{Book};
ghost use Rattle.q_model.specs.FilesStand.{Stands};
ghost use Rattle.q_telling.specs.Telling.{OnlyTells, TellingCause, TellsFront, TellsMore};
ghost use Rattle.q_views.specs.Metrics.{status_text};
ghost use Rattle.q_views.specs.Tallies.{figures_of};

use crate::counting::tally;
use crate::figures::Figures;
use crate::generation::last_generation;
use crate::metrics::add_figures;
use q_host::{Host, HostError};
use q_model::Queues;
use q_telling::tell_text;
use std::alloc::Global;

/// No queue.
const NONE: Queues = Queues {
    incoming: false,
    active: false,
    deferred: false,
    hold: false,
};

/// The figures of the spool, queue after queue.
fn read_figures<H: Host>(alloc: Global, host: &mut H) -> Result<Figures, HostError>
    ensures figures { IfOk result (λ figures. IsTrue H.tells → (b : Book)
        → Stands (H.view host.old).files b → figures ≡ figures_of b) }
    ensures stays { IsTrue H.tells → Stays (H.view host.old) (H.view host.new) }
    ensures cause { DiskCause (H.faults host.old) (H.faults host.new) result }
{
    let incoming = tally(
        alloc,
        host,
        Queues {
            incoming: true,
            ..NONE
        },
    )?;
    let active = tally(
        alloc,
        host,
        Queues {
            active: true,
            ..NONE
        },
    )?;
    let deferred = tally(
        alloc,
        host,
        Queues {
            deferred: true,
            ..NONE
        },
    )?;
    let hold = tally(alloc, host, Queues { hold: true, ..NONE })?;
    let generation = last_generation(alloc, host)?;
    Ok(Figures {
        incoming,
        active,
        deferred,
        hold,
        generation,
    })
}

/// The text of the figures.
fn status_text<H: Host>(alloc: Global, host: &mut H) -> Result<Vec<u8>, HostError>
    ensures text { IfOk result (λ text. IsTrue H.tells → (b : Book)
        → Stands (H.view host.old).files b → text.items ≡ status_text b) }
    ensures stays { IsTrue H.tells → Stays (H.view host.old) (H.view host.new) }
    ensures cause { DiskCause (H.faults host.old) (H.faults host.new) result }
{
    let figures = read_figures(alloc, host)?;
    let mut text = Vec::new(alloc);
    add_figures(alloc, &mut text, &figures)?;
    Ok(text)
}

/// Tells the figures of the spool, in the text format that Prometheus reads: how many messages and
/// pending recipients stand in each queue, when the oldest message of each arrived, when the first
/// message in deferred is due, and the generation of the last life. No file is changed.
///
/// The text has less than 2,000 bytes, and is told at once, when all was read.
pub fn tell_status<H: Host>(alloc: Global, host: &mut H) -> Result<(), HostError>
    ensures told { OnOk result (IsTrue H.tells → (b : Book) → Stands (H.view host.old).files b
        → TellsMore (status_text b) (H.view host.old) (H.view host.new)) }
    ensures front { OnErr result (IsTrue H.tells → (b : Book) → Stands (H.view host.old).files b
        → TellsFront (status_text b) (H.view host.old) (H.view host.new)) }
    ensures only { Told H.tells H.view host.old host.new OnlyTells }
    ensures cause { TellingCause (H.faults host.old) (H.faults host.new) result }
{
    let text = match status_text(alloc, host) {
        Ok(text) => text,
        Err(error) => return Err(error),
    };
    tell_text(host, text.as_slice())
}
