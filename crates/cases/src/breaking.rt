//! A client that breaks off: at each read of what it says, and at each write of an answer to it.
//!
//! The client says one text, and the command serves it whole first. Then the command is run again, on the
//! same spool, for each byte of the text with a link whose read of that byte fails, and for each line that
//! was answered with a link whose write of that line fails. Each time it ends as before, and what it
//! answers and tells is a front of what it did then. Behind a crash of each kind, each message that was
//! told stands as it did then, and no more of them were acknowledged than told.
//!
//! What came of it is a table, with a line for each row of calls behind which as many messages were told
//! and acknowledged.
use crate::client::{PIECE, door_for};
use crate::command::run_on;
use crate::flaw::{Flaw, same};
use crate::server::Act;
use crate::snapshot::Snapshot;
use crate::stage::FIRST_MOMENT;
use crate::standing::{Due, judge_standing};
use crate::sweep::CRASHES;
use q_link::ScriptHops;
use q_mem_host::Rot;
use q_model::Area;
use q_stream::MemSource;
use std::alloc::Global;

/// The calls of one kind on a link.
#[derive(Clone, Copy, PartialEq, Eq)]
enum Kind {
    Read,
    Write,
}

/// A call on a link that fails, with its number among those of its kind, from 1 on.
#[derive(Clone, Copy)]
struct Call {
    kind: Kind,
    number: usize,
}

/// A command, the spool that it is run on, and what its client says.
#[derive(Clone, Copy)]
pub(crate) struct Dialogue<'a> {
    pub(crate) alloc: Global,
    pub(crate) spool: &'a Snapshot,
    pub(crate) words: &'a str,
    pub(crate) text: &'a [u8],
}

/// What was answered, and what was told and stands behind a crash.
#[derive(Drop)]
struct Played {
    sent: Vec<u8>,
    left: Snapshot,
}

/// How many messages were told, and how many of them acknowledged.
#[derive(Clone, Copy, PartialEq, Eq)]
struct Count {
    told: usize,
    acknowledged: usize,
}

/// Calls of a kind, one behind the other, behind which the same came.
#[derive(Clone, Copy)]
struct Row {
    kind: Kind,
    first: usize,
    last: usize,
    count: Count,
}

/// What the single client says, which does nothing else.
pub(crate) fn text_of(clients: &[Vec<Act>]) -> Result<&[u8], Flaw> {
    let (Some(acts), 1) = (clients.first(), clients.len()) else {
        return Err(Flaw::NoStep("no client, or more than one"));
    };
    match (acts.first(), acts.len()) {
        (Some(Act::Says(text)), 1) => Ok(text.as_slice()),
        _ => Err(Flaw::NoStep("a client that doesn't just say one text")),
    }
}

/// How many messages are acknowledged by these answers: a `250` behind a `354` is of one.
fn acknowledged(sent: &[u8]) -> usize {
    let mut count: usize = 0;
    let mut is_content = false;
    for line in str::from_utf8(sent).unwrap_or("").lines() {
        if is_content && line.starts_with("250") {
            count = count.saturating_add(1);
        }
        is_content = line.starts_with("354");
    }
    count
}

/// How many messages were told.
fn arrivals(told: &str) -> usize {
    told.lines()
        .filter(|line| line.starts_with("arrive "))
        .count()
}

/// Each file of incoming stands as it did where nothing failed.
fn judge_files(whole: &Snapshot, left: &Snapshot) -> Result<(), Flaw> {
    for file in &left.files {
        if file.spot.area == Area::Incoming && !whole.files.iter().any(|known| known == file) {
            return Err(Flaw::NoStep("a message that stands otherwise than it came"));
        }
    }
    Ok(())
}

/// Adds what came of a call to the last row, or begins another.
fn add_count(rows: &mut Vec<Row>, call: Call, count: Count) -> Result<(), Flaw> {
    if let Some(row) = rows.last_mut() {
        if row.kind == call.kind && row.count == count {
            row.last = call.number;
            return Ok(());
        }
    }
    rows.push(Row {
        kind: call.kind,
        first: call.number,
        last: call.number,
        count,
    })?;
    Ok(())
}

/// The lines of a table.
fn text_of_rows(alloc: Global, rows: &[Row]) -> Result<String, Flaw> {
    let mut text = String::new(alloc);
    for row in rows {
        let calls = match row.kind {
            Kind::Read => "reads",
            Kind::Write => "writes",
        };
        let Row { first, last, .. } = row;
        let Count { told, acknowledged } = row.count;
        let line = format!(in alloc;
            "{calls} {first} to {last}: {told} told, {acknowledged} acknowledged\n"
        )?;
        text.push_str(line.as_str())?;
    }
    Ok(text)
}

impl Dialogue<'_> {
    /// What the client does where a call fails, if one does.
    fn acts(&self, call: Option<Call>) -> Result<Vec<Act>, Flaw> {
        let mut acts = Vec::new(self.alloc);
        let mut text = self.text;
        if let Some(Call { kind, number }) = call {
            match kind {
                Kind::Read => text = text.get(..number.saturating_sub(1)).unwrap_or(&[]),
                Kind::Write => acts.push(Act::WriteFails(number as u64))?,
            }
        }
        acts.push(Act::Says(Vec::from_slice(self.alloc, text)?))?;
        acts.push(Act::ReadFails)?;
        Ok(acts)
    }

    /// Runs the command where a call fails, if one does, with a crash behind it.
    fn play(&self, call: Option<Call>, rot: Rot) -> Result<Played, Flaw> {
        let alloc = self.alloc;
        let mut clients = Vec::new(alloc);
        clients.push(self.acts(call)?)?;
        let mut door = door_for(alloc, clients.as_slice(), 1)?;
        let mut host = self.spool.host(alloc)?;
        let mut source = MemSource::new(alloc, &[], PIECE, &[])?;
        let mut hops = ScriptHops::new(alloc);
        let status = run_on(
            alloc,
            &mut host,
            self.words,
            &mut source,
            &[FIRST_MOMENT],
            &mut hops,
            &mut door,
        )?;
        same(alloc, b"done", format!(in alloc; "{status}")?.as_bytes())?;
        if door.closed() == 0 {
            return Err(Flaw::NoStep("no client was served"));
        }
        let sent = Vec::from_slice(alloc, door.sent(0))?;
        let mut host = host.crash(rot);
        let left = Snapshot::of(alloc, &mut host, "")?;
        Ok(Played { sent, left })
    }

    /// Holds what came where a call failed against what came where none did.
    fn judge(&self, whole: &Played, played: &Played) -> Result<Count, Flaw> {
        let alloc = self.alloc;
        let told = played.left.told.as_str();
        let begun = told.strip_suffix("end\n").unwrap_or(told);
        if !whole.left.told.starts_with(begun) {
            same(alloc, whole.left.told.as_bytes(), told.as_bytes())?;
        }
        let (answers, sent) = (whole.sent.as_slice(), played.sent.as_slice());
        if !answers.starts_with(sent) || answers.len() == sent.len() {
            return Err(Flaw::Differs {
                wanted: Vec::from_slice(alloc, answers)?,
                came: Vec::from_slice(alloc, sent)?,
            });
        }
        let none = Due {
            first: "",
            second: "",
        };
        judge_standing(alloc, &played.left, none)?;
        judge_files(&whole.left, &played.left)?;
        let count = Count {
            told: arrivals(told),
            acknowledged: acknowledged(sent),
        };
        if count.acknowledged > count.told {
            return Err(Flaw::NoStep("a message that was acknowledged and isn't told"));
        }
        Ok(count)
    }

    /// What comes where a call fails, whatever the crash.
    fn count(&self, whole: &Played, call: Call) -> Result<Count, Flaw> {
        let mut count = Count {
            told: 0,
            acknowledged: 0,
        };
        for rot in CRASHES {
            let played = self.play(Some(call), rot)?;
            count = self.judge(whole, &played)?;
        }
        Ok(count)
    }

    /// Lets each of so many calls of a kind fail.
    fn add_rows(
        &self,
        whole: &Played,
        kind: Kind,
        calls: usize,
        rows: &mut Vec<Row>,
    ) -> Result<(), Flaw> {
        for number in 1..=calls {
            let call = Call { kind, number };
            let count = self.count(whole, call)?;
            add_count(rows, call, count)?;
        }
        Ok(())
    }

    /// What comes where each call fails. A write behind the last one that is counted makes no difference.
    pub(crate) fn table(&self) -> Result<String, Flaw> {
        let alloc = self.alloc;
        let whole = self.play(None, Rot::Keep)?;
        let writes = str::from_utf8(whole.sent.as_slice())
            .unwrap_or("")
            .lines()
            .count();
        let mut rows = Vec::new(alloc);
        self.add_rows(&whole, Kind::Read, self.text.len(), &mut rows)?;
        self.add_rows(&whole, Kind::Write, writes, &mut rows)?;
        let behind = Call {
            kind: Kind::Write,
            number: writes.saturating_add(1),
        };
        let last = self.play(Some(behind), Rot::Keep)?;
        same(alloc, whole.sent.as_slice(), last.sent.as_slice())?;
        text_of_rows(alloc, rows.as_slice())
    }
}
