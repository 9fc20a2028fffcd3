//! How fast sessions deliver: `bench_sessions N` delivers a message of 100 KB over 100 scripted links at
//! once, N times, and prints the sessions, polls and bytes of content in a second.
#![tactic(auto)]

mod round;
mod running;
mod server;

use q_message::read_head;
use q_model::{Address, Addresses, Area, Head, MOST_CONTENT_BYTES, Name, Receiver, Spot};
use q_silent_host::{FIRST, SilentHost};
use round::{Counts, Message, deliver};
use std::alloc::Global;
use std::process::ExitCode;
use std::time::{Duration, Instant};
use std::{env, io};

/// How many links are open at once.
const LINKS: u64 = 100;

/// A line of the content; every eighth begins with a dot.
const LINES: &[u8] = b".one line begins with a dot, and is sent with two\n\
a line of a message that is somewhat long, as lines of messages are\n\
another one\nand one more, with a CR before its end\r\n\n\
five lines stand before this one\nand then\nthe last of eight\n";

/// The message, whose file stands on the host. `None` where memory runs out.
fn message(alloc: Global, host: &mut SilentHost) -> Option<Message> {
    let mut content = Vec::new(alloc);
    for _ in 0..400 {
        content.extend_from_slice(LINES).ok()?;
    }
    let name = Name::new(FIRST.as_bytes())?;
    let head = Head {
        sender: Address::new(b"a@x.example"),
        arrival: 1000,
    };
    let mut to = Addresses::new(alloc);
    to.push(Receiver {
        address: Address::new(b"b@y.example")?,
        original: None,
    })
    .ok()?;
    if content.len() > MOST_CONTENT_BYTES as usize {
        return None;
    }
    let bytes = q_message::write_message(alloc, &head, &to, &content).ok()?;
    host.put(Area::Active, name, bytes.as_slice()).ok()?;
    let spot = Spot {
        area: Area::Active,
        name,
    };
    let file = read_head(host, spot).ok()?;
    Some(Message { spot, file, to })
}

/// So much in a second.
fn per_second(count: u64, spent: Duration) -> u64 {
    let millis = spent
        .as_secs()
        .saturating_mul(1000)
        .saturating_add(u64::from(spent.subsec_millis()));
    count.saturating_mul(1000) / millis.max(1)
}

/// Delivers so many times over all links.
fn deliver_often(alloc: Global, times: u32) -> Option<Counts> {
    let mut host = SilentHost::new(alloc);
    let message = message(alloc, &mut host)?;
    let mut counts = Counts::default();
    for _ in 0..times {
        deliver(alloc, &mut host, &message, LINKS, &mut counts)?;
    }
    Some(counts)
}

fn measure(rt: &HostRuntime, times: u32) -> io::Result<ExitCode> {
    let started = Instant::now(rt)?;
    let counts = deliver_often(rt.alloc(), times);
    let spent = started.elapsed(rt)?;
    let Some(counts) = counts else {
        return Ok(ExitCode::from(9));
    };
    let sessions = per_second(counts.sessions, spent);
    let polls = per_second(counts.polls, spent);
    let bytes = per_second(counts.bytes, spent);
    println!(rt;
        "{} sessions, {} polls, {} bytes of content",
        counts.sessions, counts.polls, counts.bytes
    )?;
    println!(rt; "a second: {sessions} sessions, {polls} polls, {bytes} bytes of content")?;
    Ok(ExitCode::from(0))
}

fn main(rt: HostRuntime) -> io::Result<ExitCode> {
    let Some(word) = env::args(&rt)?.nth(1) else {
        println!(rt;
            "bench_sessions N: delivers N times over 100 links at once, and tells how fast"
        )?;
        return Ok(ExitCode::from(0));
    };
    match word.parse::<u32>() {
        Ok(times) => measure(&rt, times),
        Err(_) => Ok(ExitCode::from(1)),
    }
}
