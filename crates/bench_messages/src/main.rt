//! How fast queue files are written and read: `bench_messages N` makes the file of a message to N
//! recipients with 400 bytes of content for each, puts it on a host in memory, reads its head and
//! its recipients, and prints the bytes in a second. 50000 make the greatest file.
#![tactic(auto)]

mod reading;
mod writing;

use q_mem_host::MemHost;
use q_model::{Area, Id, Spot, id_name};
use reading::read_through;
use std::process::ExitCode;
use std::time::{Duration, Instant};
use std::{env, io};
use writing::file_of;

/// The bytes in a second.
fn speed(size: u64, spent: Duration) -> u64 {
    let millis = spent
        .as_secs()
        .saturating_mul(1000)
        .saturating_add(u64::from(spent.subsec_millis()));
    (size / millis.max(1)).saturating_mul(1000)
}

/// Writes the file, reads it and prints how fast.
fn measure(rt: &HostRuntime, recipients: u16) -> io::Result<ExitCode> {
    let alloc = rt.alloc();
    let name = id_name(Id {
        generation: 1,
        serial: 1,
        bounce: false,
    });
    let started = Instant::now(rt)?;
    let Some(file) = file_of(alloc, recipients) else {
        return Ok(ExitCode::from(9));
    };
    let written = speed(file.len() as u64, started.elapsed(rt)?);
    let mut host = MemHost::new(alloc);
    let put = host.put_file(Area::Active, name, file.as_slice());
    if put.is_err() || host.file(Area::Active, name).is_none() {
        return Ok(ExitCode::from(9));
    }
    let spot = Spot {
        area: Area::Active,
        name,
    };
    let started = Instant::now(rt)?;
    let Some(taken) = read_through(alloc, &mut host, spot) else {
        return Ok(ExitCode::from(9));
    };
    let read = speed(file.len() as u64, started.elapsed(rt)?);
    let size = file.len();
    println!(rt;
        "{size} bytes, {taken} recipients, {written} bytes a second written, {read} read"
    )?;
    Ok(ExitCode::from(0))
}

fn main(rt: HostRuntime) -> io::Result<ExitCode> {
    let Some(word) = env::args(&rt)?.nth(1) else {
        println!(rt; "bench_messages N: writes and reads a queue file of N recipients")?;
        return Ok(ExitCode::from(0));
    };
    match word.parse::<u16>() {
        Ok(recipients) => measure(&rt, recipients),
        Err(_) => Ok(ExitCode::from(1)),
    }
}
