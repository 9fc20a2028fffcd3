//! The queue manager: `qmgr [-w SECONDS] SPOOL COMMAND ..` runs a command on the spool in a folder.
//! Standard input has what the command reads, standard output is what it tells, and standard error
//! says why it ends with another status than 0.
#![tactic(auto)]

use q_program::{program, words_of};
use std::process::ExitCode;

fn main(rt: HostRuntime) -> ExitCode {
    match words_of(rt) {
        Ok(words) => ExitCode::from(program(rt, &words)),
        Err(status) => ExitCode::from(status),
    }
}
