//! A life of a decision core on messages that counters tell of.
ghost use Rattle.std.specs.List.{list_all};
ghost use Rattle.std.specs.Prelude.{◌≡◌, IfOk, IfSome, true};
ghost use Rattle.q_core.specs.Facts.{IsDated};
ghost use Rattle.q_core.specs.Hearing.{has_log_code, HasLogCodes, IsInTime};

use crate::files::{Mail, SHARED_HOP, hop, id_of, take_recipient};
use crate::scenario::Scenario;
use q_core::{Core, Decision, Found, Heard};
use q_model::{Batch, Cursor, Hop, Id, Mode, NoMemory, Outcome, Outcomes};
use q_params::read_params;
use std::alloc::Global;

/// More decisions than follow one event, unless a site dies.
const ENOUGH: u32 = 1_000;

/// The core, and how many messages came and were admitted. Those between stand in incoming.
#[derive(Debug, Drop)]
pub(crate) struct Life {
    /// In a box, so that no function but those of the core has to let its parts go.
    core: Box<Core>,
    scenario: Scenario,
    mail: Mail,
    batch: Batch,
    came: u32,
    admitted: u32,
    decisions: u64,
}

/// Puts a value in a box. For a value of any type the check needn't know how it is laid out.
fn boxed<T: Drop>(alloc: Global, value: T) -> Option<Box<T>> {
    match Box::new(alloc, value) {
        Ok(made) => Some(made),
        Err(_) => None,
    }
}

/// A core with no message.
fn empty_core(alloc: Global, limits: &[u8]) -> Option<Box<Core>> {
    let params = read_params(limits).ok()?;
    let core = Core::new(alloc, params, 1, Mode::Deliver).ok()?;
    boxed(alloc, core)
}

/// The same outcome for so many recipients.
fn all_alike(alloc: Global, outcome: Outcome, recipients: usize) -> Result<Outcomes, NoMemory>
    requires { has_log_code outcome ≡ true }
    ensures { IfOk result (λ outcomes. list_all has_log_code outcomes ≡ true) }
{
    let mut outcomes = Outcomes::new(alloc);
    for _ in 0..recipients {
        outcomes.push(outcome)?;
    }
    Ok(outcomes)
}

impl Life {
    /// A life at the moment 1000, with nothing on disk.
    pub(crate) fn begin(alloc: Global, scenario: Scenario, mail: Mail) -> Option<Life> {
        let mut life = Life {
            core: empty_core(alloc, scenario.limits())?,
            scenario,
            mail,
            batch: Batch::new(alloc, scenario.recipients()).ok()?,
            came: 0,
            admitted: 0,
            decisions: 0,
        };
        life.hear(Heard::At { moment: 1000 })?;
        Some(life)
    }

    /// The decisions that were taken, without looks and reads.
    pub(crate) fn decisions(&self) -> u64 {
        self.decisions
    }

    /// Counts a decision.
    fn count(&mut self) -> Option<()> {
        self.decisions = self.decisions.saturating_add(1);
        Some(())
    }

    /// The first message in incoming.
    fn incoming(&self) -> Found
        ensures { IsDated result }
    {
        if self.admitted < self.came {
            self.mail.found(self.admitted + 1)
        } else {
            Found::Nothing
        }
    }

    /// Answers the look that waits.
    fn tell(&mut self, found: Found) -> Option<()>
        requires { IsDated found }
    {
        if !self.core.is_looking() {
            return None;
        }
        self.core.found(found);
        Some(())
    }

    /// Reads the recipient at this position.
    fn take(&mut self, serial: u32, position: u32) -> Option<()> {
        let site = self.mail.site(serial, position)?;
        if !self.core.may_name() {
            return None;
        }
        self.core.sited(&site);
        take_recipient(&mut self.batch, position)
    }

    /// Reads the recipients from one position up to another.
    fn take_all(&mut self, serial: u32, from: u32, to: u32) -> Option<()> {
        self.batch.clear();
        for position in from..to {
            self.take(serial, position)?;
        }
        Some(())
    }

    /// Answers the read that waits.
    fn load(&mut self, id: Id, from: u32, max: u32) -> Option<()> {
        let to = self
            .mail
            .recipients(id.serial)
            .min(from.saturating_add(max));
        self.take_all(id.serial, from, to)?;
        if !self.core.is_looked_at()
            || !self.core.is_reading()
            || self.core.named() != self.batch.len()
        {
            return None;
        }
        let behind = Cursor {
            position: to,
            at: 0,
        };
        self.core.loaded(&self.batch, behind);
        Some(())
    }

    /// Answers a look or a read, or counts the decision.
    fn answer(&mut self, decision: Decision) -> Option<()> {
        match decision {
            Decision::LookActive => self.tell(Found::Nothing),
            Decision::LookIncoming => self.tell(self.incoming()),
            Decision::LookDeferred { .. } => self.tell(Found::Nothing),
            Decision::Read { id, from, max } => self.load(id, from, max),
            Decision::Admit { id, .. } => {
                self.admitted = id.serial;
                self.count()
            }
            _ => self.count(),
        }
    }

    /// Whether there was a decision.
    fn step(&mut self) -> Option<bool> {
        if !self.core.is_answered() {
            return None;
        }
        match self.core.next_decision() {
            Some(decision) => {
                self.answer(decision)?;
                Some(true)
            }
            None => Some(false),
        }
    }

    /// Takes a thousand decisions at most. Whether there is none left.
    pub(crate) fn decide(&mut self) -> Option<bool> {
        for _i in 0..ENOUGH {
            if !self.step()? {
                return Some(true);
            }
        }
        Some(false)
    }

    /// Takes the event.
    fn take_event(&mut self, heard: Heard<'_>) -> Option<()>
        requires time { IsInTime heard }
        requires codes { HasLogCodes heard }
    {
        if !self.core.is_answered() || !self.core.is_looked_at() {
            return None;
        }
        self.core.event(heard);
        Some(())
    }

    /// Takes the event and the decisions that follow.
    fn hear(&mut self, heard: Heard<'_>) -> Option<()>
        requires time { IsInTime heard }
        requires codes { HasLogCodes heard }
    {
        self.take_event(heard)?;
        self.decide()?.then_some(())
    }

    /// A message comes.
    pub(crate) fn bring(&mut self) -> Option<()> {
        self.came = self.came.checked_add(1)?;
        let id = id_of(self.came);
        self.hear(Heard::Mail { id })
    }

    /// What becomes of the recipients of a delivery.
    fn outcomes(&self, alloc: Global, number: u64) -> Option<Outcomes>
        ensures { IfSome result (λ outcomes. list_all has_log_code outcomes ≡ true) }
    {
        let recipients = self.core.entry_positions(number)?.len();
        match all_alike(alloc, self.scenario.outcome(), recipients) {
            Ok(outcomes) => Some(outcomes),
            Err(_) => None,
        }
    }

    /// The delivery with the least number ends, where one is in flight. The decisions that follow
    /// aren't taken.
    fn reply(&mut self, alloc: Global) -> Option<()> {
        match self.core.least_flight() {
            Some(number) => self.end(alloc, number),
            None => Some(()),
        }
    }

    /// The delivery of this number ends. The decisions that follow aren't taken.
    fn end(&mut self, alloc: Global, number: u64) -> Option<()> {
        let outcomes = self.outcomes(alloc, number)?;
        let reply = Heard::Reply {
            number,
            site: self.scenario.site_state(),
            outcomes: &outcomes,
        };
        self.take_event(reply)
    }

    /// Whether a delivery of this number goes to the next hop of this number.
    fn goes_to(&self, number: u64, hop: Hop) -> bool {
        match self.core.flight(number) {
            Some(flight) => flight.site.hop == hop,
            None => false,
        }
    }

    /// A message comes and begins; its delivery to a next hop of its own ends. One to the next hop
    /// that it shares with others goes on, or waits.
    pub(crate) fn begin_job(&mut self, alloc: Global) -> Option<()> {
        self.bring()?;
        let last = self.core.last_number();
        let number = if self.goes_to(last, hop(SHARED_HOP)?) {
            last.saturating_sub(1)
        } else {
            last
        };
        self.end(alloc, number)?;
        self.decide()?.then_some(())
    }

    /// The number of the delivery that began last, and the serial of its message; 0 where it is over.
    pub(crate) fn last_delivery(&self) -> (u64, u32) {
        let number = self.core.last_number();
        let serial = match self.core.flight(number) {
            Some(flight) => flight.id.serial,
            None => 0,
        };
        (number, serial)
    }

    /// The oldest delivery ends, and a choice is made for the process that it had.
    pub(crate) fn choose(&mut self, alloc: Global) -> Option<()> {
        self.reply(alloc)?;
        self.decide()?.then_some(())
    }

    /// A delivery ends, and a message comes in the place of the one that is gone.
    pub(crate) fn turn(&mut self, alloc: Global) -> Option<()> {
        self.reply(alloc)?;
        if !self.decide()? {
            return None;
        }
        self.bring()
    }

    /// Whether the first site is dead, which is the only one where sites die.
    fn has_dead_site(&self) -> bool {
        match self.core.first_site() {
            Some(noted) => noted.is_dead(),
            None => false,
        }
    }

    /// Takes turns until a site dies. The decisions that follow its death aren't taken.
    pub(crate) fn kill(&mut self, alloc: Global) -> Option<()> {
        for _i in 0..ENOUGH {
            self.reply(alloc)?;
            if self.has_dead_site() {
                return Some(());
            }
            if !self.decide()? {
                return None;
            }
            self.bring()?;
        }
        None
    }
}
