//! One step of a delivery: all that is due is sent, the next reply is read, and acted on.
ghost use Rattle.std.specs.Prelude.{◌≡◌, ◌≤◌, ◌<◌, ℕ, [], Bool, length, Some, Err, Ok, IfOk, IsTrue, true};
ghost use Rattle.q_host.specs.Calls.{Stays};
ghost use Rattle.q_host.specs.Faults.{DiskCause};
ghost use Rattle.q_link.specs.Views.{Told};
ghost use Rattle.q_session.specs.Codes.{AreSettled};
ghost use Rattle.q_link.specs.declared.usage.Usage.TheVariants.{Open};
ghost use Rattle.q_session.specs.Course.{command_line, replies_left};
ghost use Rattle.q_session.specs.Deliveries.{Hearing, IsAllSent, IsSound, Serves};
ghost use Rattle.q_session.specs.Mails.{Mail, StandsAt};
ghost use Rattle.q_session.specs.Steps.{Acts, IsSame, IsSendingSame, SendsDue, StaysSound, Steps};
ghost use Rattle.q_session.specs.Traffic.{GoesOn};
ghost use Rattle.q_session.specs.Uses.{SparesSent, SparesStep, UsesBy, UsesSent, UsesStep};

use crate::delivery::Delivery;
use crate::dialogue::{Command, Next};
use crate::inbox::Heard;
use crate::outbox::Sent;
use q_host::{Host, HostError};
use q_link::Link;

/// What came of a step.
#[derive(Clone, Copy, Debug, PartialEq, Eq)]
pub(crate) enum Step {
    /// Another reply is awaited.
    Onward,
    /// The link isn't ready.
    Waits,
    /// The delivery can't go on.
    Lost,
    /// Each recipient has its answer, and those that were accepted have this one.
    Settles(u16),
}

impl Delivery {
    /// Sends what is due, reads the reply to it and acts on it, as far as the link is ready.
    pub(crate) fn step<H: Host, L: Link>(
        &mut self,
        host: &mut H,
        link: &mut L,
    ) -> Result<Step, HostError>
        requires sound { IsSound self.old }
        requires there { IsTrue H.tells
            → (mail : Mail) × StandsAt H.tells (H.view host.old) self.old.content.spot mail }
        requires usable { (L.view link.old).usage ≡ Open }
        ensures sound { IfOk result (StaysSound self.new) }
        ensures kept { (error : HostError) → result ≡ Err error → IsSound self.new }
        ensures same { IsSame self.old self.new }
        ensures fewer { result ≡ Ok Step.Onward
            → replies_left self.new.dialogue < replies_left self.old.dialogue }
        ensures settled { (last : ℕ) → result ≡ Ok (Step.Settles last)
            → length self.new.dialogue.answers.items ≡ length self.new.to }
        ensures codes { (last : ℕ) → result ≡ Ok (Step.Settles last)
            → AreSettled last self.new.dialogue.answers.items }
        ensures steps { IfOk result (Steps H.tells
            (StandsAt H.tells (H.view host.old) self.old.content.spot)
            self.old self.new (L.view link.old) (L.view link.new)) }
        ensures faults { (L.view link.old).faults ≤ (L.view link.new).faults }
        ensures ended { (error : HostError) → result ≡ Err error
            → (L.view link.new).ended ≡ (L.view link.old).ended }
        ensures uses { UsesBy UsesStep result (L.view link.new).usage }
        ensures spares { IfOk result (λ step. SparesStep step
            (L.view link.old).waits_left (L.view link.new).waits_left) }
        ensures stays { IsTrue H.tells → Stays (H.view host.old) (H.view host.new) }
        ensures cause { DiskCause (H.faults host.old) (H.faults host.new) result }
    {
        match self.send(host, link)? {
            Sent::All => Ok(self.hear(link)),
            Sent::NotYet => Ok(Step::Waits),
            Sent::Lost => Ok(Step::Lost),
        }
    }

    /// Reads the reply that is awaited, and acts on it.
    fn hear<L: Link>(&mut self, link: &mut L) -> Step
        requires sound { IsSound self.old }
        requires sent { IsAllSent self.old }
        requires usable { (L.view link.old).usage ≡ Open }
        ensures sound { StaysSound self.new result }
        ensures same { IsSame self.old self.new }
        ensures fewer { result ≡ Step.Onward
            → replies_left self.new.dialogue < replies_left self.old.dialogue }
        ensures settled { (last : ℕ) → result ≡ Step.Settles last
            → length self.new.dialogue.answers.items ≡ length self.new.to }
        ensures codes { (last : ℕ) → result ≡ Step.Settles last
            → AreSettled last self.new.dialogue.answers.items }
        ensures steps { (tells : Bool) → Steps tells (λ mail. Unit {0}) self.old self.new
            (L.view link.old) (L.view link.new) result }
        ensures uses { UsesStep result (L.view link.new).usage }
        ensures spares { SparesStep result
            (L.view link.old).waits_left (L.view link.new).waits_left }
    {
        let code = match self.inbox.receive(link) {
            Heard::Code(code) => code,
            Heard::NotYet => return Step::Waits,
            Heard::NoReply => return Step::Lost,
            Heard::Lost => return Step::Lost,
        };
        self.act(code)
    }

    /// Goes on behind a reply with this code.
    fn act(&mut self, code: u16) -> Step
        requires sound { IsSound self.old }
        requires sent { IsAllSent self.old }
        ensures sound { StaysSound self.new result }
        ensures same { IsSame self.old self.new }
        ensures fewer { result ≡ Step.Onward
            → replies_left self.new.dialogue < replies_left self.old.dialogue }
        ensures settled { (last : ℕ) → result ≡ Step.Settles last
            → length self.new.dialogue.answers.items ≡ length self.new.to }
        ensures codes { (last : ℕ) → result ≡ Step.Settles last
            → AreSettled last self.new.dialogue.answers.items }
        ensures never { result ≡ Step.Waits → ⊥ }
        ensures acts { (tells : Bool) (mail : Mail) (t : Told) → Hearing tells mail self.old code t
            → Acts tells mail self.new t result }
    {
        match self.dialogue.hear(code) {
            Next::Say(command) => {
                self.say(command);
                Step::Onward
            }
            Next::SendContent => {
                self.content.begin();
                Step::Onward
            }
            Next::Settled(last) => Step::Settles(last),
            Next::Broken => Step::Lost,
        }
    }

    /// Sends what is due.
    fn send<H: Host, L: Link>(&mut self, host: &mut H, link: &mut L) -> Result<Sent, HostError>
        requires sound { IsSound self.old }
        requires there { IsTrue H.tells
            → (mail : Mail) × StandsAt H.tells (H.view host.old) self.old.content.spot mail }
        requires usable { (L.view link.old).usage ≡ Open }
        ensures sound { IsSound self.new }
        ensures same { IsSendingSame self.old self.new }
        ensures sends { IfOk result (SendsDue H.tells
            (StandsAt H.tells (H.view host.old) self.old.content.spot)
            self.old self.new (L.view link.old) (L.view link.new)) }
        ensures link { GoesOn (L.view link.old) (L.view link.new) }
        ensures uses { UsesBy UsesSent result (L.view link.new).usage }
        ensures spares { IfOk result (λ sent. SparesSent sent
            (L.view link.old).waits_left (L.view link.new).waits_left) }
        ensures stays { IsTrue H.tells → Stays (H.view host.old) (H.view host.new) }
        ensures cause { DiskCause (H.faults host.old) (H.faults host.new) result }
    {
        loop {
            match self.outbox.flush(link) {
                Sent::All => {}
                Sent::NotYet => return Ok(Sent::NotYet),
                Sent::Lost => return Ok(Sent::Lost),
            }
            if self.content.is_idle() {
                return Ok(Sent::All);
            }
            if !self.content.fill(host, &mut self.outbox)? {
                return Ok(Sent::Lost);
            }
        }
    }

    /// Puts a command into the outbox, in place of what was sent.
    fn say(&mut self, command: Command)
        requires place { (place : ℕ) → command ≡ Command.Rcpt place → place < length self.old.to }
        ensures { self.new ≡ record self.old {
          outbox = record {
            bytes = command_line self.old.sender self.old.to command;
            gone = 0;
          };
        } }
    {
        self.outbox.clear();
        match command {
            Command::Ehlo => self.outbox.add(b"EHLO localhost\r\n"),
            Command::Helo => self.outbox.add(b"HELO localhost\r\n"),
            Command::Mail => {
                self.outbox.add(b"MAIL FROM:<");
                if let Some(sender) = &self.sender {
                    self.outbox.add(sender.bytes());
                }
                self.outbox.add(b">\r\n");
            }
            Command::Rcpt(place) => {
                self.outbox.add(b"RCPT TO:<");
                self.outbox.add(self.to.as_slice()[place].bytes());
                self.outbox.add(b">\r\n");
            }
            Command::Data => self.outbox.add(b"DATA\r\n"),
        }
    }
}
