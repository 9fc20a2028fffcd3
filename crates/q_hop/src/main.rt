//! A server for tests of the delivery agent. `q_hop REPLY..` listens on a free port of 127.0.0.1,
//! prints that port on a line of its own, takes one connection and answers from its words, each
//! with CRLF behind it: the first at once, each further one behind a line that came. Behind a 354
//! content comes, of which only the line `.` is answered. Behind the last reply it reads until the
//! other side closes, and ends with 0.
//!
//! Without words it opens no port. An error of the system, and a connection that is closed before
//! the last reply, ends it with 1 and a line on standard error.
#![tactic(auto)]

use q_serving::{Answers, answer, await_end, listen};
use std::io::BufReader;
use std::process::ExitCode;
use std::time::Duration;
use std::{env, io};

/// Serves one connection.
fn serve(rt: HostRuntime, replies: &[String]) -> io::Result<()> {
    let alloc = rt.alloc();
    let listener = listen(&rt)?;
    let (mut stream, _) = listener.accept()?;
    // a second connection is refused
    drop(listener);
    let mut lines = BufReader::new(alloc, stream.try_clone()?)?;
    let answers = Answers {
        replies,
        delay: Duration::ZERO,
    };
    answer(alloc, &rt, &mut lines, &mut stream, answers)?;
    await_end(&mut lines)
}

fn main(rt: HostRuntime) -> io::Result<ExitCode> {
    let mut replies = Vec::new(rt.alloc());
    for word in env::args(&rt)?.skip(1) {
        replies.push(word)?;
    }
    if replies.is_empty() {
        println!(rt; "no replies")?;
        return Ok(ExitCode::from(0));
    }
    match serve(rt, &replies) {
        Ok(()) => Ok(ExitCode::from(0)),
        Err(error) => {
            eprintln!(rt; "q_hop: {error}")?;
            Ok(ExitCode::from(1))
        }
    }
}
