//! How fast the next decision is found: `bench_decisions N` brings N small messages, of one recipient
//! each, into the memory of a decision core, at 40 next hops by turns. Then it replies `up ok` to the
//! delivery with the least number, takes the decisions that follow, and brings a new message for the
//! one that went: 2,000 times, or for ten seconds. It prints the decisions in a second of both parts,
//! looks and reads not counted. The first part may take long, and a word before N says what mail there
//! is:
//!
//! - `plain`: the same as without a word.
//! - `large`: a message of 10,000 recipients comes before the N small ones.
//! - `dead`: all messages have one next hop, and deliveries end with `down` until it is dead. A part of
//!   its own, of ten seconds at most, tells how fast all that waits for it is put off. The new messages
//!   behind that are put off as they come.
//! - `sites`: there are N next hops, one for each message.
//! - `rests`: N next hops were sent to and rest, and for each a message waits. Behind these come messages
//!   with a next hop each that was never sent to, which go on and are measured.
//! - `awake`: the same mail, where no next hop rests.
//! - `begun`: N jobs begin a delivery each and wait with another one, behind a job that is served, and
//!   three come that can't begin. Nothing is measured.
//! - `chosen`: the same, and then the next delivery is chosen once. The script `bench/asked` counts how many
//!   sites that asks.
//!
//! 50000 messages are the most, with the large one among them, and of `dead` 2 are the fewest.
#![tactic(auto)]

mod files;
mod lap;
mod life;
mod scenario;

use anyhow::{Result, bail};
use lap::Lap;
use life::Life;
use scenario::Scenario;
use std::alloc::Global;
use std::env;

/// How often a delivery ends and a message comes.
const TURNS: u32 = 2_000;

/// More messages than there are processes.
const FRESH: u32 = 200;

const STUCK: &str = "the core takes no more: memory ran out, or an answer didn't fit";

/// A life with so many small messages in memory.
fn filled(rt: HostRuntime, scenario: Scenario, messages: u32) -> Result<Life> {
    let Some(mut life) = Life::begin(rt.alloc(), scenario, scenario.mail(messages)) else {
        bail!("{STUCK}");
    };
    let lap = Lap::begin(rt, &life)?;
    for _i in 0..messages.saturating_add(scenario.large_messages()) {
        if life.bring().is_none() {
            bail!("{STUCK}");
        }
    }
    lap.report(rt, "filling", &life)?;
    Ok(life)
}

/// Each next hop is sent its first message, and its second one comes. Then messages come to others, of
/// which some wait until a process is free.
fn wait_again(rt: HostRuntime, life: &mut Life, messages: u32) -> Result<()> {
    let lap = Lap::begin(rt, life)?;
    for _i in 0..messages {
        if life.turn(rt.alloc()).is_none() {
            bail!("{STUCK}");
        }
    }
    lap.report(rt, "first messages", life)?;
    for _i in 0..FRESH {
        if life.bring().is_none() {
            bail!("{STUCK}");
        }
    }
    Ok(())
}

/// Takes the decisions that follow the death of a site. Whether none is left.
fn put_off(rt: HostRuntime, life: &mut Life, lap: &Lap) -> Result<bool> {
    for _i in 0..TURNS {
        if lap.is_long(rt)? {
            return Ok(false);
        }
        match life.decide() {
            Some(true) => return Ok(true),
            Some(false) => {}
            None => bail!("{STUCK}"),
        }
    }
    Ok(false)
}

/// Replies and new messages by turns.
fn take_turns(rt: HostRuntime, life: &mut Life, lap: &Lap) -> Result<()> {
    for _i in 0..TURNS {
        if lap.is_long(rt)? {
            return Ok(());
        }
        if life.turn(rt.alloc()).is_none() {
            bail!("{STUCK}");
        }
    }
    Ok(())
}

/// Goes on for a while and prints how fast.
fn measure_turns(rt: HostRuntime, life: &mut Life, name: &str) -> Result<()> {
    let lap = Lap::begin(rt, life)?;
    take_turns(rt, life, &lap)?;
    lap.report(rt, name, life)?;
    Ok(())
}

/// Lets the one site die, and prints how fast its rows are put off, and then new messages.
fn measure_death(rt: HostRuntime, life: &mut Life) -> Result<()> {
    if life.kill(rt.alloc()).is_none() {
        bail!("{STUCK}");
    }
    let lap = Lap::begin(rt, life)?;
    let whole = put_off(rt, life, &lap)?;
    lap.report(rt, "putting off", life)?;
    if whole {
        measure_turns(rt, life, "new messages")?;
    }
    Ok(())
}

/// The deliveries that are open while jobs begin: a large message's, as many as its next hop takes. N
/// jobs begin behind it. One more delivery takes the last process, so three messages can't begin.
fn begin_jobs(life: &mut Life, alloc: Global, jobs: u32) -> Option<()> {
    life.bring()?;
    for _i in 0..jobs {
        life.begin_job(alloc)?;
    }
    for _i in 0..4 {
        life.bring()?;
    }
    Some(())
}

/// Lets so many jobs begin, and makes a choice behind them.
fn choose(rt: HostRuntime, scenario: Scenario, jobs: u32) -> Result<()> {
    let Some(mut life) = Life::begin(rt.alloc(), scenario, scenario.mail(jobs)) else {
        bail!("{STUCK}");
    };
    if begin_jobs(&mut life, rt.alloc(), jobs).is_none() {
        bail!("{STUCK}");
    }
    if scenario == Scenario::Chosen && life.choose(rt.alloc()).is_none() {
        bail!("{STUCK}");
    }
    let (number, serial) = life.last_delivery();
    println!(rt; "{jobs} jobs: delivery {number} is of message {serial}")?;
    Ok(())
}

/// Fills the memory, goes on and prints how fast.
fn measure(rt: HostRuntime, scenario: Scenario, messages: u32) -> Result<()> {
    if scenario.begins_jobs() {
        return choose(rt, scenario, messages);
    }
    let mut life = filled(rt, scenario, messages)?;
    if scenario == Scenario::Dead {
        return measure_death(rt, &mut life);
    }
    if scenario.waits_again() {
        wait_again(rt, &mut life, messages)?;
    }
    let name = format!(in rt.alloc(); "{messages} messages")?;
    measure_turns(rt, &mut life, &name)
}

/// Measures with the number of messages that a word says.
fn measure_word(rt: HostRuntime, scenario: Scenario, word: &str) -> Result<()> {
    let fewest = scenario.fewest();
    let most = scenario.most();
    match word.parse::<u32>() {
        Ok(messages) if messages >= fewest && messages <= most => measure(rt, scenario, messages),
        _ => bail!("{word} is no number from {fewest} to {most}"),
    }
}

/// Does what the words of the program say.
fn obey(rt: HostRuntime, words: &[String]) -> Result<()> {
    match words {
        [] => {
            println!(rt; "bench_decisions N: takes decisions with N messages in memory")?;
            println!(rt; "bench_decisions plain|large|dead|sites N: the same of such mail")?;
            println!(rt;
                "bench_decisions rests|awake N: the same behind N next hops that rest, or don't"
            )?;
            println!(rt; "bench_decisions begun|chosen N: begins N jobs; and then chooses once")?;
            Ok(())
        }
        [number] => measure_word(rt, Scenario::Plain, number),
        [name, number] => match Scenario::named(name) {
            Some(scenario) => measure_word(rt, scenario, number),
            None => bail!(
                "{name} is none of plain, large, dead, sites, rests, awake, begun and chosen"
            ),
        },
        _ => bail!("too many words"),
    }
}

fn main(rt: HostRuntime) -> Result<()> {
    let mut words = Vec::new(rt.alloc());
    for word in env::args(&rt)?.skip(1) {
        words.push(word)?;
    }
    obey(rt, &words)
}
