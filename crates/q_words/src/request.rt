//! What the words of a command ask for.
use crate::tool::ToolRequest;
use q_model::{Address, Addresses, Id, Sequence};
use q_shape::TableRequest;

/// What the words of a command ask for.
#[derive(Debug, Drop)]
pub enum Request {
    /// Run an event list.
    Replay,
    /// Take in one message; `None` is the null sender.
    Submit {
        sender: Option<Address>,
        to: Addresses,
    },
    /// Deliver by SMTP; so many rests may be given.
    Drain {
        rests: u64,
    },
    /// Tell the ages of mail.
    Qshape(TableRequest),
    /// Tell what the queues hold.
    Queue,
    /// Run so many generated mails on a host in memory, and tell what came of them.
    Load {
        mails: u32,
    },
    /// Take mail by SMTP (RFC 5321) at this port of 127.0.0.1, over so many connections; so many rests
    /// may be given.
    Listen {
        port: u16,
        count: u32,
        rests: u64,
    },
    /// Act on messages that wait.
    Tool(ToolRequest),
    /// Tell what the queues hold as JSON lines.
    Json,
    /// Tell figures of the spool.
    Status,
    /// Tell the message of an id.
    Show(Id),
    /// Tell the parameters in force.
    Params,
    /// Tell where the mail to these addresses goes.
    Route(Sequence<Address>),
    /// Tell what is wrong with the spool and the files of conf.
    Check,
    /// Tell whether the trace of standard input is lawful, and how far preemption delayed each job.
    Audit,
}
