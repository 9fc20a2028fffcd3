//! The trace that the last command told, as `audit` judges it: as it is, or with one line changed.
use crate::bytes::bytes_of;
use crate::command::run_on;
use crate::flaw::{Flaw, same};
use crate::judging::end_text;
use crate::places::{name_of, number_of};
use crate::stage::Stage;
use crate::step::Step;
use q_door::ScriptDoor;
use q_link::ScriptHops;
use q_model::Area;
use q_silent_host::SilentHost;
use q_stream::MemSource;
use q_top::Status;
use std::alloc::Global;

/// One change of a trace. Lines count from 1, and the word behind the first of a line is its first.
#[derive(Clone, Copy)]
enum Change {
    /// The line is left out.
    Without { line: usize },
    /// The line and the next one are swapped.
    Swapped { line: usize },
    /// The number that the word is, or in which it ends, is one more.
    Raised { line: usize, word: usize },
}

fn place_of(text: &str) -> Result<usize, Flaw> {
    Ok(number_of(text)? as usize)
}

/// The change that a step says.
fn change_of(word: &str, places: &str) -> Result<Change, Flaw> {
    match word {
        "without" => Ok(Change::Without {
            line: place_of(places)?,
        }),
        "swapped" => Ok(Change::Swapped {
            line: place_of(places)?,
        }),
        _ => match places.split_once(' ') {
            Some((line, word)) => Ok(Change::Raised {
                line: place_of(line)?,
                word: place_of(word)?,
            }),
            None => Err(Flaw::NoStep("no line and word")),
        },
    }
}

/// The word with its number one more: decimal, behind `:` too, or the hexadecimal serial of an id.
fn raised_word(alloc: Global, word: &str) -> Result<String, Flaw> {
    if let Some((generation, serial)) = word.split_once('-') {
        let digits = serial.strip_suffix("b").unwrap_or(serial);
        let behind = if digits.len() == serial.len() {
            ""
        } else {
            "b"
        };
        let Ok(number) = u32::from_str_radix(digits, 16) else {
            return Err(Flaw::NoStep("no id"));
        };
        let next = number.saturating_add(1);
        return Ok(format!(in alloc; "{generation}-{next:08x}{behind}")?);
    }
    if let Some((why, code)) = word.split_once(':') {
        let next = number_of(code)?.saturating_add(1);
        return Ok(format!(in alloc; "{why}:{next}")?);
    }
    let next = number_of(word)?.saturating_add(1);
    Ok(format!(in alloc; "{next}")?)
}

/// The line with this word raised.
fn raised_line(alloc: Global, line: &str, place: usize) -> Result<String, Flaw> {
    let mut text = String::new(alloc);
    for (i, word) in line.split(' ').enumerate() {
        if i != 0 {
            text.push(' ')?;
        }
        if i == place {
            text.push_str(raised_word(alloc, word)?.as_str())?;
        } else {
            text.push_str(word)?;
        }
    }
    Ok(text)
}

/// The line that stands at this place behind the change, and whether one does.
fn changed_line(
    alloc: Global,
    lines: &[&str],
    place: usize,
    change: Change,
) -> Result<Option<String>, Flaw> {
    let taken = match change {
        Change::Without { line } if line == place => return Ok(None),
        Change::Swapped { line } if line == place => place.saturating_add(1),
        Change::Swapped { line } if line.saturating_add(1) == place => line,
        _ => place,
    };
    let Some(text) = lines.get(taken.saturating_sub(1)) else {
        return Err(Flaw::NoStep("no such line of the trace"));
    };
    match change {
        Change::Raised { line, word } if line == place => Ok(Some(raised_line(alloc, text, word)?)),
        _ => Ok(Some(text.to_string(alloc)?)),
    }
}

/// The trace with one change.
fn changed(alloc: Global, trace: &str, change: Change) -> Result<String, Flaw> {
    let mut lines = Vec::new(alloc);
    for line in trace.lines() {
        lines.push(line)?;
    }
    let mut text = String::new(alloc);
    for i in 0..lines.len() {
        let place = i.saturating_add(1);
        if let Some(line) = changed_line(alloc, lines.as_slice(), place, change)? {
            text.push_str(line.as_str())?;
            text.push('\n')?;
        }
    }
    Ok(text)
}

/// Whether the command tells lines behind its life, which are none of a trace.
fn is_tool(words: &str) -> bool {
    let command = words.split(' ').next().unwrap_or("");
    ["hold", "release", "requeue", "expire", "flush"].contains(&command)
}

impl Stage {
    /// A host with the files of conf, and nothing else.
    fn conf_alone(&self) -> Result<SilentHost, Flaw> {
        let mut host = SilentHost::new(self.alloc);
        for file in ["params", "transport"] {
            let name = name_of(file)?;
            if let Some(bytes) = self.host.file(Area::Conf, name) {
                host.put(Area::Conf, name, bytes)?;
            }
        }
        Ok(host)
    }

    /// What `audit` tells of a trace by the files of conf, or else how it ended.
    fn report_on(&self, trace: &str) -> Result<String, Flaw> {
        let alloc = self.alloc;
        let mut host = self.conf_alone()?;
        let mut source = MemSource::new(alloc, trace.as_bytes(), self.piece.max(1), &[])?;
        let mut hops = ScriptHops::new(alloc);
        let mut door = ScriptDoor::new(alloc);
        match run_on(
            alloc,
            &mut host,
            "audit",
            &mut source,
            &[],
            &mut hops,
            &mut door,
        )? {
            Status::Done => Ok(host.told().to_string(alloc)?),
            status => end_text(alloc, status),
        }
    }

    /// What the first command on an empty spool told has to be lawful, where it is a trace. One may not be in
    /// which a file rots.
    pub(crate) fn audit_first(&mut self, words: &str, rots: bool) -> Result<(), Flaw> {
        if !self.is_fresh || !self.told().starts_with("life ") {
            return Ok(());
        }
        self.is_fresh = false;
        if rots || is_tool(words) {
            return Ok(());
        }
        let report = self.report_on(self.told())?;
        if report.starts_with("lawful ") {
            return Ok(());
        }
        same(self.alloc, b"lawful\n", report.as_bytes())
    }

    /// The audit of the trace that was told reports this.
    pub(crate) fn judge_audit(&self, step: &Step<'_>) -> Result<(), Flaw> {
        let came = self.report_on(self.told())?;
        let wanted = bytes_of(self.alloc, step.below.as_slice(), b"\n")?;
        same(self.alloc, wanted.as_slice(), came.as_bytes())
    }

    /// That of the trace with one change reports what stands behind the colon.
    pub(crate) fn judge_change(&self, step: &Step<'_>) -> Result<(), Flaw> {
        let Some((places, report)) = step.rest().split_once(": ") else {
            return Err(Flaw::NoStep("no report"));
        };
        let change = change_of(step.word(), places)?;
        let trace = changed(self.alloc, self.told(), change)?;
        let came = self.report_on(trace.as_str())?;
        let wanted = format!(in self.alloc; "{report}\n")?;
        same(self.alloc, wanted.as_bytes(), came.as_bytes())
    }
}
