//! A fault of disk or output in the midst of a command, at a call that is named by a line.
use crate::client::{PIECE, door_for};
use crate::command::run_on;
use crate::flaw::Flaw;
use crate::places::{number_of, spot_of};
use crate::server::Act;
use crate::snapshot::Snapshot;
use q_link::ScriptHops;
use q_model::{Moment, Spot};
use q_silent_host::SilentHost;
use q_stream::MemSource;
use std::alloc::Global;

/// How many calls a command makes at most, where a line of it is looked for.
const MOST_CALLS: u64 = 10_000;

/// Where a fault comes, by the call that tells a line.
#[derive(Clone, Copy)]
enum Place {
    /// At this call, or so many before it.
    Before(u64),
    /// At the next one, or so many behind that.
    Behind(u64),
}

/// What becomes of a call.
#[derive(Clone, Copy)]
pub(crate) enum Kind {
    /// Neither it nor any behind it is carried out.
    Stops,
    /// It alone fails.
    Fails,
    /// With it the file at the spot rots.
    Rots(Spot),
}

/// A fault at a call of a command.
#[derive(Drop)]
pub(crate) struct Fault {
    kind: Kind,
    place: Place,
    line: String,
}

/// What a command is given, but servers, and the spool that it is run on.
#[derive(Clone, Copy)]
pub(crate) struct Given<'a> {
    pub(crate) spool: &'a Snapshot,
    pub(crate) words: &'a str,
    pub(crate) input: &'a [u8],
    pub(crate) moments: &'a [Moment],
    pub(crate) clients: &'a [Vec<Act>],
}

/// The place that is written as a number of calls, `before` or `behind`, and a line.
fn place_of(text: &str) -> Result<(Place, &str), Flaw> {
    if let Some((calls, line)) = text.split_once(" before ") {
        return Ok((Place::Before(number_of(calls)?), line));
    }
    if let Some((calls, line)) = text.split_once(" behind ") {
        return Ok((Place::Behind(number_of(calls)?), line));
    }
    Err(Flaw::NoStep("no line by which a fault comes"))
}

/// The fault at a place that is written so.
pub(crate) fn fault_of(alloc: Global, kind: Kind, text: &str) -> Result<Fault, Flaw> {
    let (place, line) = place_of(text)?;
    let line = line.to_string(alloc)?;
    Ok(Fault { kind, place, line })
}

/// The rot of a file, which is written before the place.
pub(crate) fn rot_of(alloc: Global, text: &str) -> Result<Fault, Flaw> {
    let Some((file, place)) = text.split_once(' ') else {
        return Err(Flaw::NoStep("no file and place"));
    };
    fault_of(alloc, Kind::Rots(spot_of(file)?), place)
}

/// Whether the line is told where the command is stopped after so many calls.
fn is_told(alloc: Global, given: Given<'_>, calls: u64, line: &str) -> Result<bool, Flaw> {
    let mut host = given.spool.host(alloc)?;
    host.stop_after(calls);
    let mut source = MemSource::new(alloc, given.input, PIECE, &[])?;
    let mut hops = ScriptHops::new(alloc);
    let mut door = door_for(alloc, given.clients, PIECE)?;
    let words = given.words;
    run_on(
        alloc,
        &mut host,
        words,
        &mut source,
        given.moments,
        &mut hops,
        &mut door,
    )?;
    Ok(host.told().lines().any(|told| told == line))
}

/// The number of the call that tells the line, from 1 on.
fn call_of(alloc: Global, given: Given<'_>, line: &str) -> Result<u64, Flaw> {
    for calls in 0..MOST_CALLS {
        if is_told(alloc, given, calls, line)? {
            return Ok(calls);
        }
    }
    Err(Flaw::NoStep("a line that is never told"))
}

impl Fault {
    /// Whether a file rots.
    pub(crate) fn rots(&self) -> bool {
        match self.kind {
            Kind::Rots(_) => true,
            _ => false,
        }
    }

    /// Makes the host fail there.
    pub(crate) fn plan(
        &self,
        alloc: Global,
        given: Given<'_>,
        host: &mut SilentHost,
    ) -> Result<(), Flaw> {
        let told = call_of(alloc, given, self.line.as_str())?;
        let call = match self.place {
            Place::Before(calls) => told.saturating_sub(calls),
            Place::Behind(calls) => told.saturating_add(calls).saturating_add(1),
        };
        match self.kind {
            Kind::Stops => host.stop_after(call.saturating_sub(1)),
            Kind::Fails => host.fail_call(call),
            Kind::Rots(spot) => host.rot(call, spot),
        }
        Ok(())
    }
}
