//! Carries out the cases of the pages that its words name, and says of each whether it is kept.
//!
//! A page is a text. `case NAME` begins a case on an empty spool in memory; the lines behind it are its
//! steps, and lines below one that begin with a bar are its text (see `bytes`). Steps before the first case
//! of a page are carried out at the beginning of each. docs/TESTING.md has all
//! steps. A case is kept where everything comes that its page says; else the first difference is shown.
//! It is an error to name a file that isn't there; a line that is no step is shown as a difference.
#![tactic(auto)]

mod auditing;
mod breaking;
mod bytes;
mod client;
mod command;
mod fault;
mod flaw;
mod judging;
mod places;
mod server;
mod snapshot;
mod stage;
mod standing;
mod step;
mod sweep;
mod traces;

use anyhow::Result;
use flaw::Flaw;
use stage::Stage;
use std::process::ExitCode;
use std::{env, fs};
use step::{PIECES, Step, steps_of};

/// The word of a step that names a case.
const CASE: &str = "case";

/// How many cases are kept, and how many aren't.
#[derive(Clone, Copy)]
struct Count {
    kept: u64,
    broken: u64,
}

impl Count {
    fn add(&mut self, kept: bool) {
        if kept {
            self.kept = self.kept.saturating_add(1);
        } else {
            self.broken = self.broken.saturating_add(1);
        }
    }
}

/// Bytes as they are shown.
fn shown(rt: HostRuntime, bytes: &[u8]) -> Result<String> {
    let mut text = String::new(rt.alloc());
    for byte in bytes.escape_ascii() {
        text.push(char::from(byte))?;
        if text.ends_with("\\n") {
            text.push('\n')?;
        }
    }
    Ok(text)
}

/// Says at which step of its page a case isn't kept, the size of pieces there, and why.
fn show(
    rt: HostRuntime,
    page: &str,
    name: &str,
    step: &Step<'_>,
    piece: usize,
    flaw: &Flaw,
) -> Result<()> {
    let line = step.number;
    println!(rt; "BROKEN: {name} ({page}, line {line}, pieces of {piece})")?;
    match flaw {
        Flaw::NoStep(why) => println!(rt; "{why}")?,
        Flaw::NoMemory => println!(rt; "no memory")?,
        Flaw::Differs { wanted, came } => {
            println!(rt; "wanted:\n{}", shown(rt, wanted.as_slice())?)?;
            println!(rt; "came:\n{}", shown(rt, came.as_slice())?)?;
        }
    }
    Ok(())
}

/// How many of these steps come before the first one that names a case.
fn own_steps(steps: &[Step<'_>]) -> usize {
    steps.iter().take_while(|step| step.word() != CASE).count()
}

/// How often the steps of a case are carried out: once for each size of pieces that the last of them
/// names which names any.
fn rounds_of(begin: &[Step<'_>], own: &[Step<'_>]) -> usize {
    let mut rounds = 1;
    for step in begin.iter().chain(own) {
        if step.word() == PIECES {
            rounds = step.rest().split_whitespace().count().max(1);
        }
    }
    rounds
}

/// Carries out the steps of a case with one size of pieces. Whether they are kept.
fn check_round(
    rt: HostRuntime,
    page: &str,
    case: &Step<'_>,
    begin: &[Step<'_>],
    own: &[Step<'_>],
    round: usize,
) -> Result<bool> {
    let name = case.rest();
    let mut stage = Stage::new(rt.alloc(), round);
    for step in begin.iter().chain(own) {
        if let Err(flaw) = stage.carry_out(step) {
            show(rt, page, name, step, stage.piece, &flaw)?;
            return Ok(false);
        }
    }
    if let Err(flaw) = stage.judge_end() {
        show(rt, page, name, case, stage.piece, &flaw)?;
        return Ok(false);
    }
    Ok(true)
}

/// Carries out the case that is named at a place: the steps that the page begins each case with, and
/// its own. Whether it is kept.
fn check(
    rt: HostRuntime,
    page: &str,
    steps: &[Step<'_>],
    place: usize,
    case: &Step<'_>,
) -> Result<bool> {
    let begin = steps.get(..own_steps(steps)).unwrap_or(&[]);
    let behind = steps.get(place.saturating_add(1)..).unwrap_or(&[]);
    let own = behind.get(..own_steps(behind)).unwrap_or(&[]);
    for round in 0..rounds_of(begin, own) {
        if !check_round(rt, page, case, begin, own, round)? {
            return Ok(false);
        }
    }
    println!(rt; "{}", case.rest())?;
    Ok(true)
}

/// Carries out the cases of a page.
fn check_page(rt: HostRuntime, page: &str, count: &mut Count) -> Result<()> {
    let text = fs::read_to_string(&rt, page)?;
    let steps = steps_of(rt.alloc(), text.as_str())?;
    for (place, step) in steps.iter().enumerate() {
        if step.word() == CASE {
            count.add(check(rt, page, steps.as_slice(), place, step)?);
        }
    }
    Ok(())
}

fn main(rt: HostRuntime) -> Result<ExitCode> {
    let mut count = Count { kept: 0, broken: 0 };
    for page in env::args(&rt)?.skip(1) {
        println!(rt; "== {page}")?;
        check_page(rt, page.as_str(), &mut count)?;
    }
    println!(rt; "{} kept, {} broken", count.kept, count.broken)?;
    Ok(ExitCode::from(u8::from(count.broken > 0)))
}
