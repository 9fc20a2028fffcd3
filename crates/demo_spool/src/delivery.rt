//! The delivery of a message to an SMTP server.
use crate::command::Command;
use q_serving::{ACCEPTANCE, Server, start};
use std::process::Command as Program;
use std::{fs, io};

/// The commands of it. What the story put off isn't due yet.
pub(crate) const DELIVERY: [Command; 2] = [
    Command {
        shown: "echo Hello | qmgr spool submit ann@x.example fay@hop.example",
        words: &["submit", "ann@x.example", "fay@hop.example"],
        input: "Hello\n",
        moment: 1600,
    },
    Command {
        shown: "qmgr spool drain",
        words: &["drain"],
        input: "",
        moment: 1600,
    },
];

/// Starts the server, whose program stands in this file.
pub(crate) fn start_hop(rt: HostRuntime, program: &str) -> io::Result<Server> {
    let mut command = Program::new(rt.alloc(), program)?;
    print!(rt; "$ q_hop")?;
    for reply in ACCEPTANCE {
        print!(rt; " '{reply}'")?;
        command.arg(reply)?;
    }
    println!(rt; " &")?;
    start(rt.alloc(), &rt, &mut command)
}

/// Routes the mail to `hop.example` to a server, by the transport table of a spool.
pub(crate) fn route_to(rt: HostRuntime, folder: &str, server: &Server) -> io::Result<()> {
    let alloc = rt.alloc();
    let path = format!(in alloc; "{folder}/conf/transport")?;
    let hop = server.next_hop(alloc)?;
    let line = format!(in alloc; "hop.example smtp:{hop}")?;
    println!(rt; "$ echo '{line}' > {path}")?;
    let table = format!(in alloc; "{line}\n")?;
    fs::write(&rt, &path, &table)
}
