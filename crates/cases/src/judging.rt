//! What a page says must have come of its last command.
use crate::bytes::bytes_of;
use crate::flaw::{Flaw, same, same_number};
use crate::places::{QUEUES, name_of, number_of, spot_of};
use crate::stage::Stage;
use crate::step::Step;
use q_top::Status;
use std::alloc::Global;

/// How a command ended: its status, and the text of it.
pub(crate) fn end_text(alloc: Global, status: Status) -> Result<String, Flaw> {
    Ok(format!(in alloc; "{} {status}\n", status.number())?)
}

/// How many lines of a trace begin with the word.
fn lines_of(trace: &str, word: &str) -> u64 {
    let mut count: u64 = 0;
    for line in trace.lines() {
        if line.split(' ').next() == Some(word) {
            count = count.saturating_add(1);
        }
    }
    count
}

impl Stage {
    /// What the last command told.
    pub(crate) fn told(&self) -> &str {
        match self.host.told().get(self.told_before..) {
            Some(told) => told,
            None => "",
        }
    }

    fn wanted(&self, step: &Step<'_>, end: &[u8]) -> Result<Vec<u8>, Flaw> {
        bytes_of(self.alloc, step.below.as_slice(), end)
    }

    /// A command whose end the page doesn't say ended with status 0.
    pub(crate) fn judge_end(&mut self) -> Result<(), Flaw> {
        match self.ended.take() {
            Some(status) => {
                let came = end_text(self.alloc, status)?;
                same(self.alloc, b"0 done\n", came.as_bytes())
            }
            None => Ok(()),
        }
    }

    fn judge_status(&mut self, wanted: &str) -> Result<(), Flaw> {
        let Some(status) = self.ended.take() else {
            return Err(Flaw::NoStep("no command before"));
        };
        let wanted = format!(in self.alloc; "{wanted}\n")?;
        let came = end_text(self.alloc, status)?;
        same(self.alloc, wanted.as_bytes(), came.as_bytes())
    }

    /// The lines stand together in what was told, behind the lines that the page named before.
    fn judge_part(&mut self, wanted: &[u8]) -> Result<(), Flaw> {
        let told = self.host.told();
        let rest = told.get(self.found..).unwrap_or("");
        let part = str::from_utf8(wanted).unwrap_or("");
        match rest.find(part) {
            Some(at) => {
                self.found = self.found.saturating_add(at).saturating_add(part.len());
                Ok(())
            }
            None => same(self.alloc, wanted, rest.as_bytes()),
        }
    }

    fn judge_count(&self, rest: &str) -> Result<(), Flaw> {
        let Some((word, count)) = rest.split_once(' ') else {
            return Err(Flaw::NoStep("no number of lines"));
        };
        same_number(self.alloc, number_of(count)?, lines_of(self.told(), word))
    }

    fn judge_file(&self, place: &str, wanted: &[u8]) -> Result<(), Flaw> {
        let spot = spot_of(place)?;
        match self.host.file(spot.area, spot.name) {
            Some(bytes) => same(self.alloc, wanted, bytes),
            None => same(self.alloc, wanted, b"no file\n"),
        }
    }

    fn judge_gone(&self, place: &str) -> Result<(), Flaw> {
        let spot = spot_of(place)?;
        match self.host.file(spot.area, spot.name) {
            Some(bytes) => same(self.alloc, b"no file\n", bytes),
            None => Ok(()),
        }
    }

    /// In how many queues a file of the name stands.
    pub(crate) fn places(&self, name: &str) -> Result<u64, Flaw> {
        let name = name_of(name)?;
        let mut count: u64 = 0;
        for area in QUEUES {
            if self.host.file(area, name).is_some() {
                count = count.saturating_add(1);
            }
        }
        Ok(count)
    }

    fn judge_places(&self, rest: &str) -> Result<(), Flaw> {
        let Some((name, count)) = rest.split_once(' ') else {
            return Err(Flaw::NoStep("no number of queues"));
        };
        same_number(self.alloc, number_of(count)?, self.places(name)?)
    }

    /// The next link that was closed was sent these bytes.
    fn judge_sent(&mut self, wanted: &[u8]) -> Result<(), Flaw> {
        let link = self.links_seen;
        self.links_seen = link.saturating_add(1);
        if link >= self.hops.closed() {
            return Err(Flaw::NoStep("no link more was closed"));
        }
        same(self.alloc, wanted, self.hops.sent(link))
    }

    /// The next client whose link was closed was sent these bytes.
    fn judge_answered(&mut self, wanted: &[u8]) -> Result<(), Flaw> {
        let link = self.clients_seen;
        self.clients_seen = link.saturating_add(1);
        if link >= self.door.closed() {
            return Err(Flaw::NoStep("no client more was served"));
        }
        same(self.alloc, wanted, self.door.sent(link))
    }

    /// Holds what came over connections against a step. Whether it says what must have come.
    fn judge_connections(&mut self, step: &Step<'_>) -> Result<bool, Flaw> {
        let rest = step.rest();
        let wanted = self.wanted(step, b"\r\n")?;
        match step.word() {
            "sent" => self.judge_sent(wanted.as_slice())?,
            "answered" => self.judge_answered(wanted.as_slice())?,
            "links" => same_number(self.alloc, number_of(rest)?, self.hops.closed() as u64)?,
            "clients" => same_number(self.alloc, number_of(rest)?, self.door.closed() as u64)?,
            _ => return Ok(false),
        }
        Ok(true)
    }

    /// Holds what came against a step. Whether it says what must have come.
    pub(crate) fn judge(&mut self, step: &Step<'_>) -> Result<bool, Flaw> {
        let rest = step.rest();
        match step.word() {
            "status" => self.judge_status(rest)?,
            "tells" => same(
                self.alloc,
                self.wanted(step, b"\n")?.as_slice(),
                self.told().as_bytes(),
            )?,
            "then" => {
                let wanted = self.wanted(step, b"\n")?;
                self.judge_part(wanted.as_slice())?;
            }
            "lines" => self.judge_count(rest)?,
            "file" => self.judge_file(rest, self.wanted(step, b"\n")?.as_slice())?,
            "gone" => self.judge_gone(rest)?,
            "queues" => self.judge_places(rest)?,
            "calls" => {
                let came = self.host.calls().saturating_sub(self.calls_before);
                same_number(self.alloc, number_of(rest)?, came)?;
            }
            "entries" => self.judge_entries(step, true)?,
            "no-entries" => self.judge_entries(step, false)?,
            "no-entry" => self.judge_no_entry(step)?,
            "audits" => self.judge_audit(step)?,
            "without" | "swapped" | "raised" => self.judge_change(step)?,
            _ => return self.judge_connections(step),
        }
        Ok(true)
    }
}
