//! Runs the program on real folders, as an operator would, by the steps of the pages that its words
//! name, and shows what came. Each case begins in a folder of its own. Moments are shown as MOMENT,
//! numbers of processes as N, and ports as PORT, since they are others each time.
//!
//! The commands and the hops are processes of this program: `q_program_cases qmgr WORD..` does as
//! `qmgr WORD..`, `q_program_cases answer REPLY..` as `q_hop REPLY..`; `q_program_cases stuck REPLY..`
//! reads nothing behind the last reply, and `q_program_cases together FOLDER N REPLY..` answers once N
//! of its kind have a connection. It is an error to name a page that isn't there, or one with a line that
//! is no step.
#![tactic(auto)]

mod client;
mod hop;
mod hops;
mod many;
mod room;
mod running;
mod shown;
mod stage;

use anyhow::Result;
use hop::{serve, serve_stuck, serve_together};
use q_program::program;
use room::Room;
use stage::Stage;
use std::process::ExitCode;
use std::{env, fs};

/// Carries out the steps of a page, each case in a room of its own.
fn run_page(rt: HostRuntime, page: &str) -> Result<()> {
    let text = fs::read_to_string(&rt, page)?;
    let mut stage = Stage::new(rt, Room::new(rt)?);
    for line in text.as_str().lines() {
        match line.strip_prefix("case ") {
            Some(name) => {
                println!(rt; "== {name}")?;
                stage.leave()?;
                stage = Stage::new(rt, Room::new(rt)?);
            }
            None => stage.carry_out(line)?,
        }
    }
    stage.leave()
}

/// Carries out the pages that the words name.
fn run_pages(rt: HostRuntime, pages: &[String]) -> Result<()> {
    for page in pages {
        run_page(rt, page.as_str())?;
    }
    Ok(())
}

fn main(rt: HostRuntime) -> Result<ExitCode> {
    let mut words = Vec::new(rt.alloc());
    for word in env::args(&rt)?.skip(1) {
        words.push(word)?;
    }
    if let [first, behind @ ..] = words.as_slice() {
        match first.as_str() {
            "qmgr" => return Ok(ExitCode::from(program(rt, behind))),
            "answer" => serve(rt, behind)?,
            "stuck" => serve_stuck(rt, behind)?,
            "together" => serve_together(rt, behind)?,
            _ => run_pages(rt, &words)?,
        }
    }
    Ok(ExitCode::SUCCESS)
}
