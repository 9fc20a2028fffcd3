//! The steps of a case.
use crate::client::Client;
use crate::hops::next_hop;
use crate::many::{add_bytes, make_files};
use crate::room::Room;
use crate::running::{Running, Streams, ids_told_by, run};
use anyhow::{Context, Result, bail};
use q_serving::Server;
use std::fs;
use std::fs::{OpenOptions, read_dir};
use std::io::Write;

/// A case: its room, what the next command reads and writes, the commands that run, the hops, and the
/// client.
#[derive(Drop)]
pub(crate) struct Stage {
    rt: HostRuntime,
    room: Room,
    streams: Streams,
    first: Option<Running>,
    second: Option<Running>,
    servers: Vec<Server>,
    client: Option<Client>,
}

fn no_streams(rt: HostRuntime) -> Streams {
    Streams {
        input: String::new(rt.alloc()),
        input_from: None,
        output_to: None,
    }
}

/// A word, and what stands behind it.
fn cut(text: &str) -> (&str, &str) {
    text.split_once(' ').unwrap_or((text, ""))
}

impl Stage {
    /// A case in this room, of which nothing is carried out yet.
    pub(crate) fn new(rt: HostRuntime, room: Room) -> Stage {
        Stage {
            rt,
            room,
            streams: no_streams(rt),
            first: None,
            second: None,
            servers: Vec::new(rt.alloc()),
            client: None,
        }
    }

    /// Ends the case, and its hops.
    pub(crate) fn leave(self) -> Result<()> {
        for server in self.servers {
            server.stop()?;
        }
        self.room.leave()
    }

    // Runs a command with the streams that were said.
    fn run(&mut self, words: &str) -> Result<()> {
        run(self.rt, &self.room, words, &self.streams)?;
        self.streams = no_streams(self.rt);
        Ok(())
    }

    // Shows the names in a folder, in order.
    fn show_names(&self, folder: &str) -> Result<()> {
        let path = self.room.inside(folder)?;
        let mut names = Vec::new(self.rt.alloc());
        for entry in read_dir(&self.rt, path)? {
            let name = entry?;
            names.push(format!(in self.rt.alloc(); "{}", name.file_name())?)?;
        }
        names.sort()?;
        for name in &names {
            println!(self.rt; "{name}")?;
        }
        Ok(())
    }

    // A step that changes what stands in the room.
    fn change(&self, word: &str, text: &str) -> Result<()> {
        let (name, behind) = cut(text);
        let path = self.room.inside(name)?;
        match word {
            "write" => {
                let line = format!(in self.rt.alloc(); "{behind}\n")?;
                fs::write(&self.rt, &path, &line)?
            }
            "folder" => fs::create_dir(&self.rt, &path)?,
            "remove" => fs::remove_file(&self.rt, &path)?,
            "move" => fs::rename(&self.rt, &path, self.room.inside(behind)?)?,
            _ => bail!("no step: {word} {text}"),
        }
        Ok(())
    }

    // A step that makes much of one kind.
    fn make_many(&self, word: &str, text: &str) -> Result<()> {
        let (name, behind) = cut(text);
        let (count, behind) = cut(behind);
        let path = self.room.inside(name)?;
        let count = count.parse::<u32>()?;
        match word {
            "bytes" => add_bytes(self.rt, path.as_str(), count, behind),
            _ => make_files(self.rt, path.as_str(), count),
        }
    }

    // The next command reads a line so many times.
    fn repeat(&mut self, count: &str, line: &str) -> Result<()> {
        let mut input = String::new(self.rt.alloc());
        for _ in 0..count.parse::<u32>()? {
            input.push_str(line)?;
            input.push('\n')?;
        }
        self.streams.input = input;
        Ok(())
    }

    // Starts a hop that behaves so, and routes a domain to it by a line more of a table.
    fn route(&mut self, table: &str, text: &str) -> Result<()> {
        let (domain, kind) = cut(text);
        let hop = next_hop(self.rt, &self.room, kind, &mut self.servers)?;
        let path = self.room.inside(table)?;
        let line = format!(in self.rt.alloc(); "{domain} smtp:{hop}\n")?;
        let mut file = OpenOptions::new()
            .append(true)
            .create(true)
            .open(&self.rt, &path)?;
        Ok(file.write_all(line.as_bytes())?)
    }

    // The command that runs under this name.
    fn running(&mut self, name: &str) -> &mut Option<Running> {
        if name == "first" {
            &mut self.first
        } else {
            &mut self.second
        }
    }

    // A step of a command that runs beside others.
    fn go_on(&mut self, word: &str, text: &str) -> Result<()> {
        let (name, behind) = cut(text);
        let rt = self.rt;
        if word == "begin" {
            let running = Running::new(rt, &self.room, behind)?;
            *self.running(name) = Some(running);
            return Ok(());
        }
        let mut running = self.running(name).take().context("no command runs")?;
        match word {
            "send" => running.send(behind)?,
            "hear" => running.hear(rt)?,
            _ => return running.end(rt),
        }
        *self.running(name) = Some(running);
        Ok(())
    }

    // A step of the client.
    fn hand_in(&mut self, word: &str, text: &str) -> Result<()> {
        let rt = self.rt;
        if word == "connect" {
            self.client = Some(Client::new(rt, self.room.port)?);
            return Ok(());
        }
        let client = self.client.as_mut().context("no client is connected")?;
        match word {
            "says" => client.send(rt, text),
            _ => client.hear(rt),
        }
    }

    /// Carries out a step, and shows it. Empty lines and those that begin with `#` say nothing.
    pub(crate) fn carry_out(&mut self, line: &str) -> Result<()> {
        let (word, text) = cut(line);
        if line.is_empty() || line.starts_with("#") {
            return Ok(());
        }
        println!(self.rt; "$ {line}")?;
        let (name, behind) = cut(text);
        match word {
            "qmgr" => self.run(text)?,
            "input" => self.streams.input = format!(in self.rt.alloc(); "{text}\n")?,
            "input-from" => self.streams.input_from = Some(self.room.inside(text)?),
            "output-to" => self.streams.output_to = Some(self.room.inside(text)?),
            "input-ids-of" => self.streams.input = ids_told_by(self.rt, &self.room, text)?,
            "input-lines" => self.repeat(name, behind)?,
            "route" => self.route(name, behind)?,
            "names" => self.show_names(text)?,
            "bytes" | "files" => self.make_many(word, text)?,
            "begin" | "send" | "hear" | "end" => self.go_on(word, text)?,
            "leave" => self.client = None,
            "connect" | "says" | "hears" => self.hand_in(word, text)?,
            _ => self.change(word, text)?,
        }
        Ok(())
    }
}
