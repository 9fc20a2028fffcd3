//! A session, as callers see it.
ghost use Rattle.std.specs.Prelude.{◌≡◌, ◌≤◌, ◌<◌, ◌+◌, ◌^◌, false, true, IfOk, Ok, OnErr};
ghost use Rattle.q_link.specs.Views.{View as LinkView};
ghost use Rattle.q_link.specs.declared.usage.Usage.TheVariants.{Open};
ghost use Rattle.q_smtpd.specs.Pacing.{Paces};
ghost use Rattle.q_smtpd.specs.Polls.{Brings, ComesTo, Completes, FitsServed, IsHeardBy, Stops, TimesOut, is_message, is_over, mails_in, waits_of};
ghost use Rattle.q_smtpd.specs.Sessions.{IsNew, IsUnused, Serves, with_taken};
ghost use Rattle.q_smtpd.specs.Traffic.{Answers, Tells};
ghost use Rattle.q_smtpd.specs.Uses.{SparesServed, Uses};

use crate::served::Served;
use crate::session::Session;
use q_link::Link;
use q_model::{Moment, NoMemory};
use std::alloc::Global;
use std::marker::Model;

/// A session with one client. Of a message that comes it keeps the recipients and the content, and
/// gives both away with it; of any other bytes it keeps a line.
#[derive(Drop)]
pub struct Intake {
    session: Session,
}

impl Model for Intake {
    ghost use Rattle.q_smtpd.specs.Soundness.{IsSound};
    ghost use Rattle.q_smtpd.specs.declared.session.Session.{Session};

    ghost Value = { Session };

    ghost view = { λ i. i.session };

    ghost invariant = { λ i. IsSound i.session };
}

impl Intake {
    /// A session that begins at this moment, for a link over which nothing came or went. It takes no
    /// memory.
    pub fn new(alloc: Global, opened: Moment) -> Result<Intake, NoMemory>
        ensures serves { IfOk result (λ i. (v : LinkView) → IsUnused v → Serves i v) }
        ensures begins { IfOk result (λ i. IsNew opened i) }
    {
        Ok(Intake {
            session: Session::new(alloc, opened),
        })
    }

    /// Sends what is due and takes what came, a byte with each read, until the link isn't ready, a
    /// message came whole, or the session is over.
    pub fn poll<L: Link>(
        &mut self,
        alloc: Global,
        link: &mut L,
        now: Moment,
    ) -> Result<Served, NoMemory>
        requires goes_on { self.old.over ≡ false }
        requires taken { self.old.untaken ≡ false }
        ensures form { IfOk result FitsServed }
        ensures given_up { OnErr result (self.new.over ≡ true) }
        ensures late { self.old.heard + 300 ≤ now → (result ≡ Ok Served.Over)
            × Tells TimesOut (L.view link.old) (L.view link.new) }
        ensures serves { now < self.old.heard + 300 → IfOk result (λ served.
            Serves self.old (L.view link.old) → Serves self.new (L.view link.new)) }
        // Each byte was read where all that was due by those before it had been sent.
        ensures paced { Serves self.old (L.view link.old) → Paces (L.view link.new) }
        ensures brings { IfOk result (λ served.
            Brings self.old (L.view link.old) (L.view link.new) (mails_in served)) }
        ensures completes { IfOk result (λ served.
            Completes served self.old (L.view link.old) (L.view link.new)) }
        ensures comes { now < self.old.heard + 300 → IfOk result (λ served.
            ComesTo served self.new (L.view link.old) (L.view link.new)) }
        ensures full { 2 ^ 40 ≤ self.old.count → result ≡ Ok Served.Over }
        ensures answers { now < self.old.heard + 300 → IfOk result (λ served.
            Tells (Answers (waits_of served)) (L.view link.old) (L.view link.new)) }
        ensures counts { IfOk result (λ served. (self.new.untaken ≡ is_message served)
            × (self.new.over ≡ is_over served)) }
        ensures heard { IfOk result (λ served. IsHeardBy now self.old self.new) }
        // The last byte of a message came in this poll.
        ensures grows { IfOk result (λ served. is_message served ≡ true
            → self.old.count < self.new.count) }
        // It makes no call on the link behind one that answered `End` or `Failed`.
        ensures uses { (L.view link.old).usage ≡ Open → Uses result (L.view link.new).usage }
        // Where it waits, the link answered `NotYet` once more than before.
        ensures spares { IfOk result (λ served. SparesServed served
            (L.view link.old).waits_left (L.view link.new).waits_left) }
        ensures faults { (L.view link.old).faults ≤ (L.view link.new).faults }
        ensures err { OnErr result (Stops self.old (L.view link.old) (L.view link.new)) }
    {
        self.session.poll(alloc, link, now)
    }

    /// The message that was given was taken: it is acknowledged next.
    pub fn taken(&mut self)
        requires { self.old.untaken ≡ true }
        ensures serves { (v : LinkView) → Serves self.old v → Serves self.new v }
        ensures taken { self.new ≡ with_taken self.old }
    {
        self.session.taken();
    }
}
