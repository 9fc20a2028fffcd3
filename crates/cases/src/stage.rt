//! What a case is carried out on: a spool and an output in memory, and what its next command is given.
use crate::breaking::{Dialogue, text_of};
use crate::bytes::bytes_of;
use crate::client::PIECE;
use crate::fault::{Fault, Kind, fault_of, rot_of};
use crate::flaw::{Flaw, same};
use crate::places::{number_of, numbers_of, spot_of};
use crate::server::Act;
use crate::snapshot::Snapshot;
use crate::step::{PIECES, Step};
use crate::sweep::{Life, Sweep};
use q_door::ScriptDoor;
use q_link::ScriptHops;
use q_mem_host::Rot;
use q_model::{Area, Moment};
use q_silent_host::SilentHost;
use q_top::Status;
use std::alloc::Global;
use std::mem;

/// The moment of a command that is stopped after each call, or whose client breaks off.
pub(crate) const FIRST_MOMENT: Moment = 1_000;

/// The spool of a case, what its next command is given, and what the last one left.
#[derive(Drop)]
pub(crate) struct Stage {
    pub(crate) alloc: Global,
    pub(crate) host: SilentHost,
    /// Whether nothing stands there but files of conf, and no life has begun.
    pub(crate) is_fresh: bool,
    /// The moments that the clock gives.
    pub(crate) moments: Vec<Moment>,
    /// Which of the sizes is taken that a page names for pieces.
    round: usize,
    /// How many bytes of the input and of clients come at once, and the calls on the input that fail.
    pub(crate) piece: usize,
    pub(crate) fails: Vec<u64>,
    pub(crate) servers: Vec<Vec<Act>>,
    /// The clients that come at its door, and whether the next act is one of theirs.
    pub(crate) clients: Vec<Vec<Act>>,
    is_of_client: bool,
    /// The fault of disk or output in its midst, or the file that rots there.
    pub(crate) fault: Option<Fault>,
    /// How the last command ended, unless the page has said it.
    pub(crate) ended: Option<Status>,
    /// How much was told before it, and how far a page has found its parts in what was told since.
    pub(crate) told_before: usize,
    pub(crate) found: usize,
    /// How many calls were made before it.
    pub(crate) calls_before: u64,
    /// Its links, and how many of them a page has asked after.
    pub(crate) hops: ScriptHops,
    pub(crate) links_seen: usize,
    /// The same of its clients.
    pub(crate) door: ScriptDoor,
    pub(crate) clients_seen: usize,
}

/// Adds an act to the last of these scripts.
fn add_to_last(scripts: &mut Vec<Vec<Act>>, act: Act) -> Result<(), Flaw> {
    match scripts.last_mut() {
        Some(acts) => {
            acts.push(act)?;
            Ok(())
        }
        None => Err(Flaw::NoStep("no server or client before")),
    }
}

impl Stage {
    /// A stage for a case whose pieces have the size with this index, or the last one that is named.
    pub(crate) fn new(alloc: Global, round: usize) -> Stage {
        Stage {
            alloc,
            host: SilentHost::new(alloc),
            is_fresh: true,
            moments: Vec::new(alloc),
            round,
            piece: PIECE,
            fails: Vec::new(alloc),
            servers: Vec::new(alloc),
            clients: Vec::new(alloc),
            is_of_client: false,
            fault: None,
            ended: None,
            told_before: 0,
            found: 0,
            calls_before: 0,
            hops: ScriptHops::new(alloc),
            links_seen: 0,
            door: ScriptDoor::new(alloc),
            clients_seen: 0,
        }
    }

    /// A file stands on the spool, synced.
    fn put(&mut self, step: &Step<'_>) -> Result<(), Flaw> {
        let spot = spot_of(step.rest())?;
        let bytes = bytes_of(self.alloc, step.below.as_slice(), b"\n")?;
        self.host.put(spot.area, spot.name, bytes.as_slice())?;
        if spot.area != Area::Conf {
            self.is_fresh = false;
        }
        Ok(())
    }

    /// A command is stopped after each call, on a spool with the files that the page has put, and the
    /// lives behind it begin at this moment.
    fn sweep(&mut self, step: &Step<'_>) -> Result<(), Flaw> {
        let alloc = self.alloc;
        let Some((moment, words)) = step.rest().split_once(' ') else {
            return Err(Flaw::NoStep("no moment and command"));
        };
        let input = bytes_of(alloc, step.below.as_slice(), b"\n")?;
        let list = format!(in alloc; "at {moment}\nend\n")?;
        let spool = Snapshot::with_arrivals(alloc, &mut self.host)?;
        let clients = mem::replace(&mut self.clients, Vec::new(alloc));
        let sweep = Sweep {
            alloc,
            spool: &spool,
            clients: clients.as_slice(),
            first: Life {
                words,
                input: input.as_slice(),
                moment: FIRST_MOMENT,
            },
            next: Life {
                words: "replay",
                input: list.as_bytes(),
                moment: number_of(moment)?,
            },
        };
        sweep.run()
    }

    /// What a client says breaks off at each call on its link. The page says what came of that.
    fn break_off(&mut self, step: &Step<'_>) -> Result<(), Flaw> {
        let alloc = self.alloc;
        let clients = mem::replace(&mut self.clients, Vec::new(alloc));
        let spool = Snapshot::of(alloc, &mut self.host, "")?;
        let dialogue = Dialogue {
            alloc,
            spool: &spool,
            words: step.rest(),
            text: text_of(clients.as_slice())?,
        };
        let wanted = bytes_of(alloc, step.below.as_slice(), b"\n")?;
        same(alloc, wanted.as_slice(), dialogue.table()?.as_bytes())
    }

    /// The size of pieces from now on.
    fn size_pieces(&mut self, sizes: &str) -> Result<(), Flaw> {
        let sizes = numbers_of(self.alloc, sizes)?;
        match sizes.get(self.round).or(sizes.last()) {
            Some(size) => {
                self.piece = *size as usize;
                Ok(())
            }
            None => Err(Flaw::NoStep("no size of pieces")),
        }
    }

    fn crash(&mut self, choice: &str) -> Result<(), Flaw> {
        let rot = match choice {
            "keeping" => Rot::Keep,
            "losing" => Rot::Old,
            _ => match u8::from_str_radix(choice, 16) {
                Ok(byte) => Rot::Byte(byte),
                Err(_) => return Err(Flaw::NoStep("no crash")),
            },
        };
        let host = mem::replace(&mut self.host, SilentHost::new(self.alloc));
        self.host = host.crash(rot);
        self.is_fresh = false;
        Ok(())
    }

    /// Begins the script of a server or a client, to which the next acts belong.
    fn begin_script(&mut self, is_of_client: bool) -> Result<bool, Flaw> {
        self.is_of_client = is_of_client;
        let script = Vec::new(self.alloc);
        if is_of_client {
            self.clients.push(script)?;
        } else {
            self.servers.push(script)?;
        }
        Ok(true)
    }

    /// Adds to what the last server or client does.
    fn add_act(&mut self, act: Act) -> Result<(), Flaw> {
        if self.is_of_client {
            return add_to_last(&mut self.clients, act);
        }
        add_to_last(&mut self.servers, act)
    }

    /// Carries out a step on servers and clients. Whether it was one.
    fn script(&mut self, step: &Step<'_>) -> Result<bool, Flaw> {
        let rest = step.rest();
        let act = match step.word() {
            "server" => return self.begin_script(false),
            "client" => return self.begin_script(true),
            "says" => Act::Says(bytes_of(self.alloc, step.below.as_slice(), b"\r\n")?),
            "slowly" => Act::Slowly(bytes_of(self.alloc, step.below.as_slice(), b"\r\n")?),
            "waits" => Act::Waits,
            "ends" => Act::Ends,
            "read-fails" => Act::ReadFails,
            "write-fails" => Act::WriteFails(number_of(rest)?),
            "write-waits" => Act::WriteWaits(number_of(rest)?),
            _ => return Ok(false),
        };
        self.add_act(act)?;
        Ok(true)
    }

    /// Carries out a step on the spool, and on what the next command is given. Whether it was one.
    fn prepare(&mut self, step: &Step<'_>) -> Result<bool, Flaw> {
        let rest = step.rest();
        match step.word() {
            "put" => self.put(step)?,
            "crash" => self.crash(rest)?,
            "sweep" => self.sweep(step)?,
            "breaks" => self.break_off(step)?,
            "clock" => self.moments = numbers_of(self.alloc, rest)?,
            PIECES => self.size_pieces(rest)?,
            "input-fails" => self.fails = numbers_of(self.alloc, rest)?,
            "fails" => self.fault = Some(fault_of(self.alloc, Kind::Fails, rest)?),
            "stops" => self.fault = Some(fault_of(self.alloc, Kind::Stops, rest)?),
            "rots" => self.fault = Some(rot_of(self.alloc, rest)?),
            _ => return Ok(false),
        }
        Ok(true)
    }

    /// Carries out a step.
    pub(crate) fn carry_out(&mut self, step: &Step<'_>) -> Result<(), Flaw> {
        if self.judge(step)? {
            return Ok(());
        }
        self.judge_end()?;
        if step.word() == "run" {
            let input = bytes_of(self.alloc, step.below.as_slice(), b"\n")?;
            return self.run(step.rest(), input.as_slice());
        }
        if self.prepare(step)? {
            return Ok(());
        }
        if self.script(step)? {
            return Ok(());
        }
        Err(Flaw::NoStep("no such step"))
    }
}
