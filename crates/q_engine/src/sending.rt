//! Deliveries that start, and jobs that go before others: only their lines are told.
ghost use Rattle.q_engine.specs.Steps.{EachError};
ghost use Rattle.q_host.specs.View.{Told};
ghost use Rattle.std.specs.Prelude.{◌≡◌, IfOk, IsTrue, OnOk};
ghost use Rattle.q_core.specs.declared.decision.Decision.TheVariants as decisions;
ghost use Rattle.q_engine.specs.Refusals.{Flies};
ghost use Rattle.q_engine.specs.Steps.{CarriesOut, GivesDecisionUp, HasNext};
ghost use Rattle.q_entries.specs.Causes.{HostCause};

use crate::engine::Engine;
use q_entries::tell;
use q_host::{Host, HostError};
use q_model::{Entry, Id, NoMemory, Positions, Site};
use std::alloc::Global;

/// The same positions, in memory of their own.
pub(crate) fn copied(alloc: Global, positions: &[u32]) -> Result<Positions, NoMemory>
    ensures { IfOk result (λ copy. copy ≡ positions.now) }
{
    let mut items = Vec::new(alloc);
    items.extend_from_slice(positions)?;
    Ok(Positions::from_vec(items))
}

impl Engine {
    /// A delivery starts.
    pub(crate) fn start<H: Host>(
        &self,
        alloc: Global,
        host: &mut H,
        number: u64,
        id: Id,
        site: Site,
    ) -> Result<(), HostError>
        requires decided { IsTrue H.tells
            → HasNext (decisions.Start number id site) self.now (H.view host.old) }
        requires flies { Flies self.now number }
        ensures ok { OnOk result (Told H.tells H.view host.old host.new
            (CarriesOut (decisions.Start number id site) self.now self.now)) }
        ensures err { EachError result (λ error. Told H.tells H.view host.old host.new
            (GivesDecisionUp (decisions.Start number id site) self.now error)) }
        ensures cause { HostCause (H.faults host.old) (H.faults host.new) result }
    {
        let Some(positions) = self.core.entry_positions(number) else {
            unreachable!()
        };
        let positions = copied(alloc, positions)?;
        tell(
            alloc,
            host,
            &self.table,
            &Entry::Start {
                number,
                id,
                site,
                positions,
            },
        )
    }

    /// A job goes before another in the line of a transport.
    pub(crate) fn preempt<H: Host>(
        &mut self,
        alloc: Global,
        host: &mut H,
        child: Id,
        parent: Id,
        transport: u8,
        need: u32,
    ) -> Result<(), HostError>
        requires { IsTrue H.tells
            → HasNext (decisions.Preempt child parent transport need) self.old (H.view host.old) }
        ensures ok { OnOk result (Told H.tells H.view host.old host.new
            (CarriesOut (decisions.Preempt child parent transport need) self.old self.new)) }
        ensures err { EachError result (λ error. Told H.tells H.view host.old host.new
            (GivesDecisionUp (decisions.Preempt child parent transport need) self.old error)) }
        ensures core { self.new.core ≡ self.old.core }
        ensures cause { HostCause (H.faults host.old) (H.faults host.new) result }
    {
        tell(
            alloc,
            host,
            &self.table,
            &Entry::Preempt {
                child,
                parent,
                transport,
                need,
            },
        )?;
        self.preempts = self.preempts.saturating_add(1);
        Ok(())
    }
}
