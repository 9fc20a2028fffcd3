//! One session, from the greeting to its end.
ghost use Rattle.std.specs.Prelude.{◌≡◌, ◌≢◌, ◌≤◌, ◌<◌, ◌+◌, ◌^◌, [], false, true, IfOk, Ok, OnErr};
ghost use Rattle.q_link.specs.Views.{View as LinkView};
ghost use Rattle.q_link.specs.declared.usage.Usage.TheVariants.{Misused, Open};
ghost use Rattle.q_smtpd.specs.Hearings.{Holds};
ghost use Rattle.q_smtpd.specs.Intakes.{comes};
ghost use Rattle.q_smtpd.specs.Places.{Place};
ghost use Rattle.q_smtpd.specs.Polls.{Brings, ComesTo, Completes, FitsServed, IsHeardBy, Stops, TimesOut, is_message, is_over, mails_in, waits_of};
ghost use Rattle.q_smtpd.specs.Sessions.{IsNew, IsUnused, Serves, Stands, with_taken};
ghost use Rattle.q_smtpd.specs.Steps.{Acts, Counts, FitsStep, IsHeard, Steps, is_mail};
ghost use Rattle.q_smtpd.specs.Traffic.{Answers, Tells};
ghost use Rattle.q_smtpd.specs.Uses.{SparesServed, Uses};

use crate::answer::{Answer, timeout_line};
use crate::hearing::{Heard, Hearing, Mail, Stage};
use crate::outbox::{Outbox, Sent};
use crate::served::Served;
use q_link::{Got, Link};
use q_model::{Moment, NoMemory};
use std::alloc::Global;

/// For how many seconds a client may send nothing (RFC 5321, section 4.5.3.2.7).
const PATIENCE: u64 = 300;

/// How many bytes are taken from a client. This program's own, so that each session ends.
const BYTES: u64 = 1 << 40;

/// One session with a client.
#[derive(Drop)]
pub(crate) struct Session {
    pub(crate) hearing: Hearing,
    pub(crate) outbox: Outbox,
    // a message was given, and isn't acknowledged yet
    pub(crate) untaken: bool,
    // how many bytes came, and when the last of them
    pub(crate) count: u64,
    pub(crate) heard: Moment,
    pub(crate) over: bool,
}

/// What came of a step.
#[derive(Drop)]
pub(crate) enum Step {
    /// More may come.
    Onward,
    /// The link isn't ready.
    Waits,
    Mail(Mail),
    /// The session is over.
    Ends,
}

impl Session {
    pub(crate) fn new(alloc: Global, opened: Moment) -> Session
        ensures serves { (v : LinkView) → IsUnused v → Serves result v }
        ensures stands { Stands result.hearing }
        ensures begins { IsNew opened result }
    {
        Session {
            hearing: Hearing::new(alloc),
            outbox: Outbox::new(Answer::Greeting),
            untaken: false,
            count: 0,
            heard: opened,
            over: false,
        }
    }

    /// The message was taken, which is acknowledged next.
    pub(crate) fn taken(&mut self)
        requires untaken { self.old.untaken ≡ true }
        requires sent { self.old.outbox ≡ [] }
        ensures serves { (v : LinkView) → Serves self.old v → Serves self.new v }
        ensures taken { self.new ≡ with_taken self.old }
    {
        self.untaken = false;
        self.outbox = Outbox::new(Answer::Accepted);
    }

    /// Sends what is due and reads what came.
    pub(crate) fn poll<L: Link>(
        &mut self,
        alloc: Global,
        link: &mut L,
        now: Moment,
    ) -> Result<Served, NoMemory>
        requires goes_on { self.old.over ≡ false }
        requires taken { self.old.untaken ≡ false }
        requires stands { Stands self.old.hearing }
        ensures stands { self.new.over ≡ false → Stands self.new.hearing }
        ensures form { IfOk result FitsServed }
        ensures given_up { OnErr result (self.new.over ≡ true) }
        // Where no byte came for 300 seconds, the session is over.
        ensures late { self.old.heard + 300 ≤ now → (result ≡ Ok Served.Over)
            × Tells TimesOut (L.view link.old) (L.view link.new) }
        // Else it follows its link on, and gives the messages that came.
        ensures serves { now < self.old.heard + 300 → IfOk result (λ served.
            Serves self.old (L.view link.old) → Serves self.new (L.view link.new)) }
        ensures brings { IfOk result (λ served.
            Brings self.old (L.view link.old) (L.view link.new) (mails_in served)) }
        ensures completes { IfOk result (λ served.
            Completes served self.old (L.view link.old) (L.view link.new)) }
        ensures comes { now < self.old.heard + 300 → IfOk result (λ served.
            ComesTo served self.new (L.view link.old) (L.view link.new)) }
        ensures full { 2 ^ 40 ≤ self.old.count → result ≡ Ok Served.Over }
        ensures answers { now < self.old.heard + 300 → IfOk result (λ served.
            Tells (Answers (waits_of served)) (L.view link.old) (L.view link.new)) }
        ensures counts { IfOk result (λ served. (self.new.untaken ≡ is_message served)
            × (self.new.over ≡ is_over served)) }
        ensures heard { IfOk result (λ served. IsHeardBy now self.old self.new) }
        ensures grows { IfOk result (λ served. is_message served ≡ true
            → self.old.count < self.new.count) }
        ensures waits { self.new.untaken ≡ true → self.new.outbox ≡ [] }
        ensures uses { (L.view link.old).usage ≡ Open → Uses result (L.view link.new).usage }
        ensures spares { IfOk result (λ served. SparesServed served
            (L.view link.old).waits_left (L.view link.new).waits_left) }
        ensures faults { (L.view link.old).faults ≤ (L.view link.new).faults }
        ensures err { OnErr result (Stops self.old (L.view link.old) (L.view link.new)) }
    {
        if now.saturating_sub(self.heard) >= PATIENCE {
            return Ok(self.time_out(link));
        }
        loop {
            let step = match self.step(alloc, link, now) {
                Ok(step) => step,
                Err(error) => {
                    self.over = true;
                    return Err(error);
                }
            };
            match step {
                Step::Onward => {}
                Step::Waits => return Ok(Served::Working),
                Step::Mail(mail) => {
                    self.untaken = true;
                    return Ok(Served::Message {
                        sender: mail.sender,
                        to: mail.to,
                        content: mail.content,
                    });
                }
                Step::Ends => {
                    self.over = true;
                    return Ok(Served::Over);
                }
            }
        }
    }

    /// Tells a client that sent nothing for so long, by one write whose answer isn't looked at.
    fn time_out<L: Link>(&mut self, link: &mut L) -> Served
        ensures over { result ≡ Served.Over }
        ensures session { self.new ≡ record self.old { over = true } }
        ensures told { Tells TimesOut (L.view link.old) (L.view link.new) }
        ensures uses { (L.view link.old).usage ≡ Open → (L.view link.new).usage ≢ Misused }
        ensures faults { (L.view link.old).faults ≤ (L.view link.new).faults }
    {
        let _ = link.write(timeout_line());
        self.over = true;
        Served::Over
    }

    /// Sends what is due, and takes the next byte.
    fn step<L: Link>(&mut self, alloc: Global, link: &mut L, now: Moment) -> Result<Step, NoMemory>
        requires taken { self.old.untaken ≡ false }
        requires stands { Stands self.old.hearing }
        ensures stands { IfOk result (λ step. Stands self.new.hearing) }
        ensures form { IfOk result FitsStep }
        ensures steps { IfOk result (λ step.
            Steps self.old step self.new (L.view link.old) (L.view link.new)) }
        ensures counts { IfOk result (λ step. Counts now self.old self.new) }
        ensures grows { IfOk result (λ step. is_mail step ≡ true
            → self.old.count < self.new.count) }
        ensures kept { self.new.untaken ≡ self.old.untaken }
        ensures full { 2 ^ 40 ≤ self.old.count → result ≡ Ok Step.Ends }
        ensures fewer { result ≡ Ok Step.Onward
            → (self.new.count ≡ self.old.count + 1) × (self.old.count < 2 ^ 40) }
        ensures faults { (L.view link.old).faults ≤ (L.view link.new).faults }
        ensures usable { OnErr result ((L.view link.old).usage ≡ Open
            → (L.view link.new).usage ≡ Open) }
        ensures err { OnErr result (Stops self.old (L.view link.old) (L.view link.new)) }
    {
        if self.count >= BYTES {
            return Ok(Step::Ends);
        }
        match self.outbox.flush(link) {
            Sent::All => {}
            Sent::NotYet => return Ok(Step::Waits),
            Sent::Lost => return Ok(Step::Ends),
        }
        if self.hearing.has_left() {
            return Ok(Step::Ends);
        }
        self.receive(alloc, link, now)
    }

    /// Takes the next byte; all replies were sent.
    fn receive<L: Link>(
        &mut self,
        alloc: Global,
        link: &mut L,
        now: Moment,
    ) -> Result<Step, NoMemory>
        requires taken { self.old.untaken ≡ false }
        requires sent { self.old.outbox ≡ [] }
        requires stays { self.old.hearing.stage ≢ Stage.Left }
        requires few { self.old.count < 2 ^ 40 }
        requires stands { Stands self.old.hearing }
        ensures stands { IfOk result (λ step. Stands self.new.hearing) }
        ensures form { IfOk result FitsStep }
        ensures steps { IfOk result (λ step.
            Steps self.old step self.new (L.view link.old) (L.view link.new)) }
        ensures counts { IfOk result (λ step. Counts now self.old self.new) }
        ensures grows { IfOk result (λ step. is_mail step ≡ true
            → self.old.count < self.new.count) }
        ensures kept { self.new.untaken ≡ self.old.untaken }
        ensures fewer { result ≡ Ok Step.Onward
            → (self.new.count ≡ self.old.count + 1) × (self.old.count < 2 ^ 40) }
        ensures faults { (L.view link.old).faults ≤ (L.view link.new).faults }
        ensures usable { OnErr result ((L.view link.old).usage ≡ Open
            → (L.view link.new).usage ≡ Open) }
        ensures err { OnErr result (Stops self.old (L.view link.old) (L.view link.new)) }
    {
        let mut byte = [0; 1];
        match link.read(&mut byte) {
            Got::Took(_) => {}
            Got::NotYet => return Ok(Step::Waits),
            Got::End => return Ok(Step::Ends),
            Got::Failed => return Ok(Step::Ends),
        }
        self.count += 1;
        self.heard = now;
        self.act(alloc, byte[0])
    }

    /// Acts on a byte that came.
    fn act(&mut self, alloc: Global, byte: u8) -> Result<Step, NoMemory>
        requires sent { self.old.outbox ≡ [] }
        requires stands { Stands self.old.hearing }
        ensures stands { IfOk result (λ step. Stands self.new.hearing) }
        ensures form { IfOk result FitsStep }
        ensures acts { IfOk result (λ step. (p : Place) → Holds p self.old.hearing
            → Acts (comes p byte) step self.new) }
        ensures goes { IfOk result (λ step. IsHeard step self.new) }
        ensures same { self.new ≡ record self.old {
          hearing = self.new.hearing;
          outbox = self.new.outbox;
        } }
    {
        match self.hearing.hear(alloc, byte)? {
            Heard::Nothing => Ok(Step::Onward),
            Heard::Answer(answer) => {
                self.outbox = Outbox::new(answer);
                Ok(Step::Onward)
            }
            Heard::Mail(mail) => Ok(Step::Mail(mail)),
        }
    }
}
