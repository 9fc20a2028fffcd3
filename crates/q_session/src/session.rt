//! One delivery, as callers see it.
ghost use Rattle.std.specs.Prelude.{◌≡◌, ◌≤◌, ◌<◌, ◌+◌, [], map, Bool, true, false, Some, Ok, IfOk, IsTrue, OnErr};
ghost use Rattle.q_host.specs.Calls.{Stays};
ghost use Rattle.q_host.specs.Faults.{DiskCause};
ghost use Rattle.q_link.specs.Views.{View as LinkView};
ghost use Rattle.q_link.specs.declared.usage.Usage.TheVariants.{Open};
ghost use Rattle.q_model.specs.declared.outcome.SiteState.{SiteState as State};
ghost use Rattle.q_session.specs.Codes.{HasCodes};
ghost use Rattle.q_session.specs.Deliveries.{Serves};
ghost use Rattle.q_session.specs.Mails.{IsHeadOf, Mail, StandsAt};
ghost use Rattle.q_session.specs.Polls.{Counts, Ends, IsAwaiting, IsNew, IsUnused, Keeps, OfMails, Passes};
ghost use Rattle.q_session.specs.Uses.{SparesPolled, Uses};

use crate::delivery::Delivery;
use crate::polled::Polled;
use q_host::{Host, HostError};
use q_link::Link;
use q_model::{Addresses, FileHead, Moment, NoMemory, Outcomes, Spot};
use std::alloc::Global;
use std::marker::Model;

/// One delivery of a message to some of its recipients. It keeps no content, and of what came only
/// what isn't used yet.
#[derive(Drop)]
pub struct Session {
    delivery: Delivery,
}

impl Model for Session {
    ghost use Rattle.std.specs.Prelude.{◌≡◌, false};
    ghost use Rattle.q_session.specs.Deliveries.{IsSound};
    ghost use Rattle.q_session.specs.declared.delivery.Delivery.{Delivery};

    ghost Value = { Delivery };

    ghost view = { λ s. s.delivery };

    ghost invariant = { λ s. s.delivery.over ≡ false → IsSound s.delivery };
}

impl Session {
    /// A delivery of the message in a queue file, of which this is the head, to these recipients,
    /// which begins at this moment. Of a recipient it uses the address alone. It is for a link over
    /// which nothing came or went.
    pub fn new(
        alloc: Global,
        spot: Spot,
        file: &FileHead,
        to: &Addresses,
        opened: Moment,
    ) -> Result<Session, NoMemory>
        ensures begins { IfOk result (IsNew spot (map (λ r. r.address) to.now) opened) }
        ensures serves { IfOk result (λ s. (tells : Bool) (mail : Mail) (v : LinkView)
            → (IsTrue tells → IsHeadOf mail file.now) → IsUnused v → Serves tells mail s v) }
    {
        let delivery = Delivery::new(alloc, spot, file, to, opened)?;
        Ok(Session { delivery })
    }

    /// Sends what is due and reads what came, until the link isn't ready or the delivery is over.
    /// It takes no memory, and makes no call on the link behind one that answered `NotYet`, `End` or
    /// `Failed`; what comes of sending QUIT is not looked at. 600 seconds behind its opening it is
    /// over (RFC 5321, section 4.5.3.2).
    pub fn poll<H: Host, L: Link>(
        &mut self,
        host: &mut H,
        link: &mut L,
        now: Moment,
    ) -> Result<Polled, HostError>
        requires goes_on { self.old.over ≡ false }
        requires there { IsTrue H.tells
            → (mail : Mail) × StandsAt H.tells (H.view host.old) self.old.content.spot mail }
        requires ended { (L.view link.old).ended ≡ false }
        requires usable { (L.view link.old).usage ≡ Open }
        ensures late { self.old.opened + 600 ≤ now → result ≡ Ok (Polled.Over State.Down) }
        ensures in_time { result ≡ Ok Polled.Working → now < self.old.opened + 600 }
        ensures goes_on { result ≡ Ok Polled.Working → self.new.over ≡ false }
        ensures fails { OnErr result (self.new.over ≡ false) }
        ensures keeps { Keeps self.old self.new }
        ensures counts { IfOk result (λ p. Counts p self.new) }
        ensures codes { IfOk result (λ p. HasCodes p self.new) }
        ensures passes { IfOk result (λ p. Passes p (L.view link.old) (L.view link.new)) }
        ensures faults { (L.view link.old).faults ≤ (L.view link.new).faults }
        ensures ended { (L.view link.new).ended ≡ true → result ≡ Ok (Polled.Over State.Down) }
        // It makes no call on the link behind one that answered `End` or `Failed`.
        ensures uses { Uses result (L.view link.new).usage }
        // Where it isn't over, the link answered `NotYet` once more than before.
        ensures spares { IfOk result (λ polled. SparesPolled polled
            (L.view link.old).waits_left (L.view link.new).waits_left) }
        ensures serves { result ≡ Ok Polled.Working
            → OfMails H.tells (H.view host.old) self.old (L.view link.old)
            (λ mail. Serves H.tells mail self.new (L.view link.new)) }
        ensures awaits { result ≡ Ok Polled.Working
            → OfMails H.tells (H.view host.old) self.old (L.view link.old)
            (λ mail. IsAwaiting H.tells mail self.old.to (L.view link.new)) }
        ensures over { (site : State) → result ≡ Ok (Polled.Over site)
            → OfMails H.tells (H.view host.old) self.old (L.view link.old)
            (λ mail. Ends H.tells site now mail self.new (L.view link.old) (L.view link.new)) }
        ensures stays { IsTrue H.tells → Stays (H.view host.old) (H.view host.new) }
        ensures cause { DiskCause (H.faults host.old) (H.faults host.new) result }
    {
        self.delivery.poll(host, link, now)
    }

    /// The outcomes of the recipients, in the order of their addresses; none before it is over.
    pub fn outcomes(&self) -> &Outcomes
        ensures { result.now ≡ self.now.outcomes }
    {
        &self.delivery.outcomes
    }

    /// Its outcomes, without a copy.
    pub fn into_outcomes(self) -> Outcomes
        ensures { result ≡ self.outcomes }
    {
        self.delivery.outcomes
    }
}
