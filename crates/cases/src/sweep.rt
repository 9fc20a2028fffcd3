//! A command that is stopped after each call, and the two lives behind each stop.
//!
//! The command runs on a fresh spool and is stopped after each number of its calls on disk and output.
//! Behind each stop comes a crash, with what wasn't synced kept, lost, and made another byte. The next
//! life is stopped after each of its first twelve calls, with a crash of the same kind, and a third life
//! runs to its end. In each state that is left the messages stand that have to (`judge_standing`), and
//! what was told is the first part of what the life would have told without a stop. Messages that the
//! spool has from the beginning have to stand too. Where two stops one behind the other leave the same,
//! what follows is the same, and is tried once.
use crate::client::{PIECE, door_for};
use crate::command::run_on;
use crate::flaw::{Flaw, same};
use crate::server::Act;
use crate::snapshot::Snapshot;
use crate::standing::{Due, judge_standing, line_due};
use q_link::ScriptHops;
use q_mem_host::Rot;
use q_model::Moment;
use q_silent_host::SilentHost;
use q_stream::MemSource;
use q_top::Status;
use std::alloc::Global;

/// After how many calls of the second life the last stop comes.
const LAST_STOP: u64 = 12;

/// What a crash makes of what wasn't synced: it is kept, lost, or another byte.
pub(crate) const CRASHES: [Rot; 3] = [Rot::Keep, Rot::Old, Rot::Byte(0x44)];

/// A command, its input and the moment of its clock.
#[derive(Clone, Copy)]
pub(crate) struct Life<'a> {
    pub(crate) words: &'a str,
    pub(crate) input: &'a [u8],
    pub(crate) moment: Moment,
}

/// What is swept: a command on a spool, with the clients that come to it, and the life that follows each
/// stop.
#[derive(Clone, Copy)]
pub(crate) struct Sweep<'a> {
    pub(crate) alloc: Global,
    pub(crate) spool: &'a Snapshot,
    pub(crate) clients: &'a [Vec<Act>],
    pub(crate) first: Life<'a>,
    pub(crate) next: Life<'a>,
}

/// A life, what it would tell without a stop, and how it crashes.
#[derive(Clone, Copy)]
struct Stopped<'a> {
    life: Life<'a>,
    whole: &'a str,
    rot: Rot,
}

/// What was told behind this.
fn told_behind<'a>(told: &'a str, before: &str) -> &'a str {
    told.strip_prefix(before).unwrap_or("")
}

/// How a life ended, as it is shown.
fn end_text(alloc: Global, status: Status, told: &str) -> Result<String, Flaw> {
    Ok(format!(in alloc; "{told}{status}\n")?)
}

impl<'a> Sweep<'a> {
    fn live(&self, host: &mut SilentHost, life: Life<'_>) -> Result<Status, Flaw> {
        let alloc = self.alloc;
        let mut source = MemSource::new(alloc, life.input, PIECE, &[])?;
        let mut hops = ScriptHops::new(alloc);
        let mut door = door_for(alloc, self.clients, PIECE)?;
        run_on(
            alloc,
            host,
            life.words,
            &mut source,
            &[life.moment],
            &mut hops,
            &mut door,
        )
    }

    /// A life that isn't stopped, on what was left.
    fn live_on(&self, left: &Snapshot, life: Life<'_>) -> Result<SilentHost, Flaw> {
        let mut host = left.host(self.alloc)?;
        let status = self.live(&mut host, life)?;
        let came = end_text(self.alloc, status, host.told())?;
        let wanted = end_text(self.alloc, Status::Done, host.told())?;
        same(self.alloc, wanted.as_bytes(), came.as_bytes())?;
        Ok(host)
    }

    /// What is left of a life that is stopped after so many calls.
    fn stop(&self, left: &Snapshot, stopped: Stopped<'_>, calls: u64) -> Result<Snapshot, Flaw> {
        let mut host = left.host(self.alloc)?;
        host.stop_after(calls);
        self.live(&mut host, stopped.life)?;
        let mut host = host.crash(stopped.rot);
        if !stopped.whole.starts_with(host.told()) {
            same(self.alloc, stopped.whole.as_bytes(), host.told().as_bytes())?;
        }
        Snapshot::of(self.alloc, &mut host, left.told.as_str())
    }

    /// The third life, which runs to its end.
    fn end(&self, left: &Snapshot, due: Due<'_>) -> Result<(), Flaw> {
        judge_standing(self.alloc, left, due)?;
        let mut host = self.live_on(left, self.next)?;
        let end = Snapshot::of(self.alloc, &mut host, left.told.as_str())?;
        judge_standing(self.alloc, &end, due)
    }

    /// What is left of the second life, which was stopped.
    fn end_stopped(
        &self,
        left: &Snapshot,
        behind: &Snapshot,
        whole: &str,
        due: &str,
    ) -> Result<(), Flaw> {
        let told = told_behind(behind.told.as_str(), left.told.as_str());
        let second = line_due(whole, told);
        self.end(behind, Due { first: due, second })
    }

    /// The second life, stopped after each of its first calls.
    fn stop_next(&self, left: &Snapshot, rot: Rot, due: &str) -> Result<(), Flaw> {
        let first = Due {
            first: due,
            second: "",
        };
        judge_standing(self.alloc, left, first)?;
        let unstopped = self.live_on(left, self.next)?;
        let stopped = Stopped {
            life: self.next,
            whole: unstopped.told(),
            rot,
        };
        let mut before = None;
        for calls in 0..=LAST_STOP {
            let behind = self.stop(left, stopped, calls)?;
            if before.as_ref() != Some(&behind) {
                self.end_stopped(left, &behind, stopped.whole, due)?;
            }
            before = Some(behind);
        }
        Ok(())
    }

    /// The command, stopped after each of its calls, with one kind of crash.
    fn stop_each(&self, stopped: Stopped<'_>, calls: u64) -> Result<(), Flaw> {
        let mut before = None;
        for call in 0..=calls {
            let left = self.stop(self.spool, stopped, call)?;
            if before.as_ref() != Some(&left) {
                let told = told_behind(left.told.as_str(), self.spool.told.as_str());
                let due = line_due(stopped.whole, told);
                self.stop_next(&left, stopped.rot, due)?;
            }
            before = Some(left);
        }
        Ok(())
    }

    /// Sweeps. The last stop of the command is behind its last call.
    pub(crate) fn run(&self) -> Result<(), Flaw> {
        let unstopped = self.live_on(self.spool, self.first)?;
        for rot in CRASHES {
            let stopped = Stopped {
                life: self.first,
                whole: unstopped.told(),
                rot,
            };
            self.stop_each(stopped, unstopped.calls())?;
        }
        Ok(())
    }
}
