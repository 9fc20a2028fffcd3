//! Open sessions and their links.
ghost use Rattle.std.specs.Prelude.{◌≡◌, IfOk, IsTrue, None, OnErr, OnOk, length, true};
ghost use Rattle.q_host.specs.Calls.{Stays};
ghost use Rattle.q_host.specs.Faults.{DiskCause};
ghost use Rattle.q_link.specs.Records.{Closes, Rests, StaysOpen};
ghost use Rattle.q_smtp.specs.Codes.{put_off};
ghost use Rattle.q_session.specs.Mails.{Mail, StandsAt};
ghost use Rattle.q_agent.specs.Answers.{HasFile};
ghost use Rattle.q_agent.specs.Polling.{Concluded, GoesOnBy, PollsOnce, PollsWork, Went};
ghost use Rattle.q_agent.specs.Rests.{RestsWork};
ghost use Rattle.q_agent.specs.Sessions.{CanGoOn, IsSound, IsSoundWork, work_waits};
ghost use Rattle.q_agent.specs.Slots.{shown, shown_work, work_of};

use crate::report::Report;
use q_host::{Host, HostError};
use q_link::{Hops, Link};
use q_model::{Moment, NoMemory, Outcome, Outcomes, SiteState};
use q_session::{Polled, Session};
use std::alloc::Global;

/// A session and its link.
#[derive(Drop)]
pub(crate) struct Work<L: Link> {
    pub(crate) session: Session,
    pub(crate) link: L,
}

/// The session of a delivery to so many recipients. Without a link it is over at its first poll.
#[derive(Drop)]
pub(crate) struct DeliverySession<L: Link> {
    pub(crate) recipients: usize,
    pub(crate) work: Option<Work<L>>,
}

/// Outcomes that put off so many recipients.
fn put_off(alloc: Global, recipients: usize) -> Result<Outcomes, NoMemory>
    ensures { IfOk result (λ outcomes. outcomes ≡ put_off recipients) }
{
    let mut outcomes = Vec::with_capacity(alloc, recipients)?;
    for _ in 0..recipients {
        outcomes.push_reserved(Outcome::Later(0));
    }
    Ok(Outcomes::from_vec(outcomes))
}

impl<L: Link> Work<L> {
    fn poll<H: Host>(&mut self, host: &mut H, now: Moment) -> Result<Polled, HostError>
        requires there { IsTrue H.tells → (mail : Mail)
            × StandsAt H.tells (H.view host.old) self.old.session.content.spot mail }
        requires sound { CanGoOn (length self.old.session.to) (shown_work L.view self.old) }
        ensures polled { IfOk result (λ p. PollsWork H.tells (H.view host.old) now p
            (shown_work L.view self.old) (shown_work L.view self.new)) }
        ensures sound { GoesOnBy result
            (CanGoOn (length self.old.session.to) (shown_work L.view self.new)) }
        ensures stays { IsTrue H.tells → Stays (H.view host.old) (H.view host.new) }
        ensures cause { DiskCause (H.faults host.old) (H.faults host.new) result }
    {
        self.session.poll(host, &mut self.link, now)
    }

    /// Gives the link back, which is recorded, and the outcomes with it.
    fn close<N: Hops<Link = L>>(self, alloc: Global, hops: &mut N) -> Result<Outcomes, NoMemory>
        ensures closes { OnOk result (Closes (L.view self.link) (N.view hops.old) (N.view hops.new)) }
        ensures outcomes { IfOk result (λ outcomes. outcomes ≡ self.session.outcomes) }
        ensures err { OnErr result (StaysOpen (N.view hops.old) (N.view hops.new)) }
    {
        hops.close(alloc, self.link)?;
        Ok(self.session.into_outcomes())
    }
}

impl<L: Link> DeliverySession<L> {
    /// Polls its session, and where that is over closes its link and reports. After an error it has
    /// a session that may be polled, or no link.
    pub(crate) fn poll<H: Host, N: Hops<Link = L>>(
        &mut self,
        alloc: Global,
        host: &mut H,
        hops: &mut N,
        number: u64,
        now: Moment,
    ) -> Result<Option<Report>, HostError>
        requires there { IsTrue H.tells
            → HasFile H.tells (H.view host.old) (shown L.view number self.old).work }
        requires sound { IsSound (shown L.view number self.old) }
        ensures went { IfOk result (λ r. Went H.tells (H.view host.old) now
            (N.view hops.old) (N.view hops.new) r
            (shown L.view number self.old) (shown L.view number self.new)) }
        ensures recipients { self.new.recipients ≡ self.old.recipients }
        ensures sound { IsSound (shown L.view number self.new) }
        ensures err { OnErr result (StaysOpen (N.view hops.old) (N.view hops.new)) }
        ensures stays { IsTrue H.tells → Stays (H.view host.old) (H.view host.new) }
        ensures cause { DiskCause (H.faults host.old) (H.faults host.new) result }
    {
        let Polled::Over { site } = self.poll_session(host, now)? else {
            return Ok(None);
        };
        let outcomes = self.conclude(alloc, hops)?;
        Ok(Some(Report {
            number,
            site,
            outcomes,
        }))
    }

    /// Polls its session; without a link it is over.
    fn poll_session<H: Host>(&mut self, host: &mut H, now: Moment) -> Result<Polled, HostError>
        requires there { IsTrue H.tells → HasFile H.tells (H.view host.old) (work_of L.view self.old) }
        requires sound { IsSoundWork self.old.recipients (work_of L.view self.old) }
        ensures polled { IfOk result (λ p. PollsOnce H.tells (H.view host.old) now p
            (work_of L.view self.old) (work_of L.view self.new)) }
        ensures recipients { self.new.recipients ≡ self.old.recipients }
        ensures sound { GoesOnBy result
            (IsSoundWork self.new.recipients (work_of L.view self.new)) }
        ensures stays { IsTrue H.tells → Stays (H.view host.old) (H.view host.new) }
        ensures cause { DiskCause (H.faults host.old) (H.faults host.new) result }
    {
        let Some(work) = &mut self.work else {
            return Ok(Polled::Over {
                site: SiteState::Down,
            });
        };
        work.poll(host, now)
    }

    /// Ends its session. Without a link its recipients are put off.
    fn conclude<N: Hops<Link = L>>(
        &mut self,
        alloc: Global,
        hops: &mut N,
    ) -> Result<Outcomes, NoMemory>
        ensures ok { IfOk result (Concluded (N.view hops.old) (N.view hops.new)
            (work_of L.view self.old) self.old.recipients) }
        ensures gone { self.new ≡ record self.old { work = None } }
        ensures err { OnErr result (StaysOpen (N.view hops.old) (N.view hops.new)) }
    {
        match self.work.take() {
            Some(work) => work.close(alloc, hops),
            None => put_off(alloc, self.recipients),
        }
    }

    /// Gives its link to a rest of these hops.
    pub(crate) fn rest<N: Hops<Link = L>>(&mut self, hops: &mut N)
        requires waits { work_waits (work_of L.view self.old) ≡ true }
        ensures rested { RestsWork (work_of L.view self.old) (work_of L.view self.new) }
        ensures recipients { self.new.recipients ≡ self.old.recipients }
        ensures counts { Rests (N.view hops.old) (N.view hops.new) }
    {
        if let Some(work) = &mut self.work {
            hops.rest(&mut work.link);
        }
    }
}
