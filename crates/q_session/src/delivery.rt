//! One delivery: from a new one to the outcomes of its recipients.
ghost use Rattle.std.specs.Prelude.{◌≡◌, ◌≢◌, ◌≤◌, ◌<◌, ◌+◌, [], length, map, take, vec_capacity, Bool, true, false, Some, Ok, IfOk, IsTrue, OnErr};
ghost use Rattle.q_host.specs.Calls.{Stays};
ghost use Rattle.q_host.specs.Faults.{DiskCause};
ghost use Rattle.q_link.specs.Views.{View as LinkView};
ghost use Rattle.q_link.specs.declared.usage.Usage.TheVariants.{Misused, Open};
ghost use Rattle.q_model.specs.declared.outcome.SiteState.{SiteState as State};
ghost use Rattle.q_smtp.specs.Codes.{outcome_by, put_off};
ghost use Rattle.q_smtp.specs.Dialogue.{quit_line};
ghost use Rattle.q_session.specs.Codes.{HasCodes};
ghost use Rattle.q_session.specs.Deliveries.{IsSound, Serves};
ghost use Rattle.q_session.specs.Mails.{IsHeadOf, Mail, StandsAt};
ghost use Rattle.q_session.specs.Polls.{Counts, Ends, IsAwaiting, IsNew, IsUnused, Keeps, OfMails, Passes, SendsOnce};
ghost use Rattle.q_session.specs.Traffic.{GoesOn, Tells};
ghost use Rattle.q_session.specs.Uses.{SparesPolled, Uses};

use crate::content::Content;
use crate::dialogue::Dialogue;
use crate::inbox::Inbox;
use crate::outbox::Outbox;
use crate::outcomes::{put_off, settle};
use crate::polled::Polled;
use crate::steps::Step;
use q_host::{Host, HostError};
use q_link::Link;
use q_model::{
    Address, Addresses, FileHead, Moment, NoMemory, Outcome, Outcomes, Receiver, Sequence,
    SiteState, Spot,
};
use std::alloc::{AllocError, Global};
use std::mem;

/// For how many seconds a delivery goes on.
const PATIENCE: u64 = 600;

/// One delivery of a message to some of its recipients.
#[derive(Drop)]
pub(crate) struct Delivery {
    pub(crate) alloc: Global,
    pub(crate) sender: Option<Address>,
    pub(crate) to: Sequence<Address>,
    pub(crate) opened: Moment,
    pub(crate) dialogue: Dialogue,
    pub(crate) inbox: Inbox,
    pub(crate) outbox: Outbox,
    pub(crate) content: Content,
    // room for the outcomes until the delivery is over
    pub(crate) room: Vec<Outcome>,
    pub(crate) outcomes: Outcomes,
    pub(crate) over: bool,
}

/// The addresses of recipients.
fn addresses(alloc: Global, to: &[Receiver]) -> Result<Vec<Address>, AllocError>
    ensures { IfOk result (λ v. v.items ≡ map (λ r. r.address) to.now) }
{
    to.iter().map(|r| r.address).collect(alloc)
}

impl Delivery {
    /// A delivery of the message in a queue file, of which this is the head, to these recipients,
    /// which begins at this moment. Of a recipient it uses the address alone.
    pub(crate) fn new(
        alloc: Global,
        spot: Spot,
        file: &FileHead,
        to: &Addresses,
        opened: Moment,
    ) -> Result<Delivery, NoMemory>
        ensures sound { IfOk result IsSound }
        ensures begins { IfOk result (IsNew spot (map (λ r. r.address) to.now) opened) }
        ensures serves { IfOk result (λ d. (tells : Bool) (mail : Mail) (v : LinkView)
            → (IsTrue tells → IsHeadOf mail file.now) → IsUnused v → Serves tells mail d v) }
    {
        let to = addresses(alloc, to.as_slice())?;
        let dialogue = Dialogue::new(alloc, to.len())?;
        let inbox = Inbox::new(alloc)?;
        let outbox = Outbox::new(alloc)?;
        let room = Vec::with_capacity(alloc, to.len())?;
        Ok(Delivery {
            alloc,
            sender: sender_of(file),
            to: Sequence::from_vec(to),
            opened,
            dialogue,
            inbox,
            outbox,
            content: Content::new(spot, file),
            room,
            outcomes: Outcomes::new(alloc),
            over: false,
        })
    }

    /// Sends what is due and reads what came, until the link isn't ready or the delivery is over.
    pub(crate) fn poll<H: Host, L: Link>(
        &mut self,
        host: &mut H,
        link: &mut L,
        now: Moment,
    ) -> Result<Polled, HostError>
        requires sound { IsSound self.old }
        requires goes_on { self.old.over ≡ false }
        requires there { IsTrue H.tells
            → (mail : Mail) × StandsAt H.tells (H.view host.old) self.old.content.spot mail }
        requires ended { (L.view link.old).ended ≡ false }
        requires usable { (L.view link.old).usage ≡ Open }
        ensures sound { self.new.over ≡ false → IsSound self.new }
        ensures late { self.old.opened + 600 ≤ now → result ≡ Ok (Polled.Over State.Down) }
        ensures in_time { result ≡ Ok Polled.Working → now < self.old.opened + 600 }
        ensures goes_on { result ≡ Ok Polled.Working → self.new.over ≡ false }
        ensures fails { OnErr result (self.new.over ≡ false) }
        ensures keeps { Keeps self.old self.new }
        ensures counts { IfOk result (λ p. Counts p self.new) }
        ensures codes { IfOk result (λ p. HasCodes p self.new) }
        ensures passes { IfOk result (λ p. Passes p (L.view link.old) (L.view link.new)) }
        ensures faults { (L.view link.old).faults ≤ (L.view link.new).faults }
        ensures ended { (L.view link.new).ended ≡ true → result ≡ Ok (Polled.Over State.Down) }
        ensures uses { Uses result (L.view link.new).usage }
        ensures spares { IfOk result (λ polled. SparesPolled polled
            (L.view link.old).waits_left (L.view link.new).waits_left) }
        ensures serves { result ≡ Ok Polled.Working
            → OfMails H.tells (H.view host.old) self.old (L.view link.old)
            (λ mail. Serves H.tells mail self.new (L.view link.new)) }
        ensures awaits { result ≡ Ok Polled.Working
            → OfMails H.tells (H.view host.old) self.old (L.view link.old)
            (λ mail. IsAwaiting H.tells mail self.old.to (L.view link.new)) }
        ensures over { (site : State) → result ≡ Ok (Polled.Over site)
            → OfMails H.tells (H.view host.old) self.old (L.view link.old)
            (λ mail. Ends H.tells site now mail self.new (L.view link.old) (L.view link.new)) }
        ensures stays { IsTrue H.tells → Stays (H.view host.old) (H.view host.new) }
        ensures cause { DiskCause (H.faults host.old) (H.faults host.new) result }
    {
        if now.saturating_sub(self.opened) >= PATIENCE {
            return Ok(self.give_up());
        }
        loop {
            match self.step(host, link)? {
                Step::Onward => {}
                Step::Waits => return Ok(Polled::Working),
                Step::Lost => return Ok(self.give_up()),
                Step::Settles(last) => return Ok(self.quit(link, last)),
            }
        }
    }

    /// Takes leave, by one write whose answer isn't looked at.
    fn quit<L: Link>(&mut self, link: &mut L, last: u16) -> Polled
        requires usable { (L.view link.old).usage ≡ Open }
        requires room { length self.old.dialogue.answers.items ≤ vec_capacity self.old.room }
        requires empty { self.old.room.items ≡ [] }
        ensures up { result ≡ Polled.Over State.Up }
        ensures outcomes { self.new.outcomes ≡ map (outcome_by last) self.old.dialogue.answers.items }
        ensures over { self.new.over ≡ true }
        ensures keeps { Keeps self.old self.new }
        ensures link { GoesOn (L.view link.old) (L.view link.new) }
        ensures quits { Tells (SendsOnce quit_line) (L.view link.old) (L.view link.new) }
        ensures uses { (L.view link.new).usage ≢ Misused }
    {
        self.outbox.clear();
        self.outbox.add(b"QUIT\r\n");
        self.outbox.send_once(link);
        settle(&mut self.room, &self.dialogue.answers, last);
        self.end();
        Polled::Over {
            site: SiteState::Up,
        }
    }

    /// Puts off all recipients.
    fn give_up(&mut self) -> Polled
        requires room { length self.old.to ≤ vec_capacity self.old.room }
        requires empty { self.old.room.items ≡ [] }
        ensures down { result ≡ Polled.Over State.Down }
        ensures outcomes { self.new.outcomes ≡ put_off (length self.old.to) }
        ensures over { self.new.over ≡ true }
        ensures keeps { Keeps self.old self.new }
    {
        put_off(&mut self.room, self.to.len());
        self.end();
        Polled::Over {
            site: SiteState::Down,
        }
    }

    /// The delivery is over, with the outcomes in its room.
    fn end(&mut self)
        ensures outcomes { self.new.outcomes ≡ self.old.room.items }
        ensures over { self.new.over ≡ true }
        ensures keeps { Keeps self.old self.new }
    {
        let outcomes = mem::replace(&mut self.room, Vec::new(self.alloc));
        self.outcomes = Outcomes::from_vec(outcomes);
        self.over = true;
    }
}

fn sender_of(file: &FileHead) -> Option<Address>
    ensures { result ≡ file.now.head.sender }
{
    file.head.sender
}
