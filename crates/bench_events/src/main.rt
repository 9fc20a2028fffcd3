//! How fast event lists are read: `bench_events N` makes a list of N thousand messages in memory,
//! reads it through its end, and prints the bytes read in a second. 700 make a list of 100 MB.
#![tactic(auto)]

mod reading;

use q_stream::MemSource;
use reading::read_through;
use std::alloc::{AllocError, Global};
use std::process::ExitCode;
use std::time::Instant;
use std::{env, io};

/// One message and what becomes of it.
const EVENTS: &[u8] = b"at 1000\nbody Subject: a short message\nbody\nbody its text\n\
mail a@x.example b@y.example c@y.example d@z.example\nreply 1 up ok later:450 never:550\n";

fn list(alloc: Global, times: u32) -> Result<Vec<u8>, AllocError> {
    let mut text = Vec::new(alloc);
    for _i in 0..times {
        text.extend_from_slice(EVENTS)?;
    }
    text.extend_from_slice(b"end\n")?;
    Ok(text)
}

/// Makes the list, reads it and prints how fast.
fn measure(rt: &HostRuntime, thousands: u32) -> io::Result<ExitCode> {
    let alloc = rt.alloc();
    let text = list(alloc, thousands.saturating_mul(1000))?;
    let Ok(mut source) = MemSource::new(alloc, &text, 65_536, &[]) else {
        return Ok(ExitCode::from(9));
    };
    let started = Instant::now(rt)?;
    let read = read_through(alloc, &mut source);
    let spent = started.elapsed(rt)?;
    let Ok(events) = read else {
        return Ok(ExitCode::from(9));
    };
    let size = text.len() as u64;
    let millis = spent
        .as_secs()
        .saturating_mul(1000)
        .saturating_add(u64::from(spent.subsec_millis()));
    let speed = (size / millis.max(1)).saturating_mul(1000);
    println!(rt; "{events} events, {size} bytes, {speed} bytes a second")?;
    Ok(ExitCode::from(0))
}

fn main(rt: HostRuntime) -> io::Result<ExitCode> {
    let Some(word) = env::args(&rt)?.nth(1) else {
        println!(rt; "bench_events N: reads an event list of N thousand messages")?;
        return Ok(ExitCode::from(0));
    };
    match word.parse::<u32>() {
        Ok(thousands) => measure(&rt, thousands),
        Err(_) => Ok(ExitCode::from(1)),
    }
}
