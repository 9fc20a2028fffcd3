//! The hops of a case, as processes of their own.
use crate::room::{Room, free_port};
use anyhow::{Context, Result, bail};
use q_serving::{ACCEPTANCE, Server, start};
use std::process::Command;
use std::{env, fs};

/// Starts a hop by these words, and says its name.
fn start_hop(
    rt: HostRuntime,
    words: &[&str],
    replies: &[&str],
    servers: &mut Vec<Server>,
) -> Result<String> {
    let alloc = rt.alloc();
    let program = env::args(&rt)?.next().context("the name of this program")?;
    let mut command = Command::new(alloc, program)?;
    for word in words {
        command.arg(*word)?;
    }
    for reply in replies {
        command.arg(*reply)?;
    }
    let server = start(alloc, &rt, &mut command)?;
    let name = server.next_hop(alloc)?;
    servers.push(server)?;
    Ok(name)
}

/// The name of a hop whose port was free a moment ago.
fn nobody(rt: HostRuntime) -> Result<String> {
    let port = free_port(rt)?;
    Ok(format!(in rt.alloc(); "[127.0.0.1]:{port}")?)
}

/// The name of a hop that takes the message once so many like it have a connection. Each leaves a name in
/// the folder then.
fn together(
    rt: HostRuntime,
    folder: &str,
    wanted: &str,
    servers: &mut Vec<Server>,
) -> Result<String> {
    fs::create_dir_all(&rt, folder)?;
    start_hop(rt, &["together", folder, wanted], &ACCEPTANCE, servers)
}

/// The name of a next hop that takes the message (`accepts`), that takes it once so many like it have a
/// connection (`together N`), that answers 354 and then neither reads nor answers (`stuck`), or where
/// nobody listens (`nobody`). Where it is a process, it is added to these.
pub(crate) fn next_hop(
    rt: HostRuntime,
    room: &Room,
    kind: &str,
    servers: &mut Vec<Server>,
) -> Result<String> {
    match kind.split_once(' ').unwrap_or((kind, "")) {
        ("accepts", "") => start_hop(rt, &["answer"], &ACCEPTANCE, servers),
        ("stuck", "") => start_hop(rt, &["stuck"], &ACCEPTANCE[..5], servers),
        ("nobody", "") => nobody(rt),
        ("together", wanted) => together(rt, room.inside("together")?.as_str(), wanted, servers),
        _ => bail!("no hop: {kind}"),
    }
}
