//! What a queue tool did, by the lines that it told, and which messages it found nowhere.
use crate::saying::say;
use q_input::id_named;
use q_model::{Id, id_name};
use q_numbers::first_word;
use q_text::{is_passed_over, trim};
use q_words::{Chosen, Request, Target, ToolRequest};
use std::alloc::{AllocError, Global};

/// What a tool does with a message.
#[derive(Clone, Copy)]
enum Deed {
    Hold,
    Release,
    Requeue,
    Expire,
    Flush,
}

impl Deed {
    // The word of its lines.
    fn word(self) -> &'static [u8] {
        match self {
            Deed::Hold => b"hold",
            Deed::Release => b"release",
            Deed::Requeue => b"requeue",
            Deed::Expire => b"expire",
            Deed::Flush => b"flush",
        }
    }

    // How its sum says what was done.
    fn done(self) -> &'static str {
        match self {
            Deed::Hold => "held",
            Deed::Release => "released",
            Deed::Requeue => "requeued",
            Deed::Expire => "expired",
            Deed::Flush => "flushed",
        }
    }
}

/// The acts that were told, and what the input named.
#[derive(Drop)]
pub(crate) struct Acted {
    deed: Deed,
    count: u64,
    // of ids that come from the input: its bytes, and the ids that were told
    is_listed: bool,
    input: Vec<u8>,
    ids: Vec<Id>,
}

/// Whether the messages are all or those of the input.
fn is_of_many(target: Target) -> bool {
    !matches!(target, Target::Only(Chosen::One(_)))
}

fn is_listed(target: Target) -> bool {
    matches!(target, Target::Only(Chosen::Listed))
}

/// What a request asks to do, and with which messages.
fn deed_of(request: &Request) -> Option<(Deed, Target)> {
    match request {
        Request::Tool(ToolRequest::Hold(target)) => Some((Deed::Hold, *target)),
        Request::Tool(ToolRequest::Release(target)) => Some((Deed::Release, *target)),
        Request::Tool(ToolRequest::Requeue(target)) => Some((Deed::Requeue, *target)),
        Request::Tool(ToolRequest::Expire(chosen)) => {
            Some((Deed::Expire, Target::Only(*chosen)))
        }
        Request::Tool(ToolRequest::Flush(_)) => Some((Deed::Flush, Target::All)),
        _ => None,
    }
}

impl Acted {
    /// Nothing yet, of a tool that may act on more than one message.
    pub(crate) fn new(alloc: Global, request: &Request) -> Option<Acted> {
        let (deed, target) = deed_of(request)?;
        is_of_many(target).then(|| Acted {
            deed,
            count: 0,
            is_listed: is_listed(target),
            input: Vec::new(alloc),
            ids: Vec::new(alloc),
        })
    }

    /// Keeps a piece of the input.
    pub(crate) fn keep(&mut self, piece: &[u8]) -> Result<(), AllocError> {
        if self.is_listed {
            self.input.extend_from_slice(piece)?;
        }
        Ok(())
    }

    /// Hears a line that was told.
    pub(crate) fn hear(&mut self, line: &[u8]) -> Result<(), AllocError> {
        let (word, behind) = first_word(line);
        if word != self.deed.word() {
            return Ok(());
        }
        self.count = self.count.saturating_add(1);
        if !self.is_listed {
            return Ok(());
        }
        if let Some(id) = id_named(behind.unwrap_or_default()) {
            self.ids.push(id)?;
        }
        Ok(())
    }

    /// Says which of the messages that the input named were found nowhere: those of which no line was
    /// told, where the lines come in the input's order.
    pub(crate) fn say_absent(&self, rt: HostRuntime) {
        let mut told: usize = 0;
        for line in self.input.split(|byte| *byte == b'\n') {
            let Some(id) = id_in(line) else {
                continue;
            };
            if self.ids.get(told) == Some(&id) {
                told = told.saturating_add(1);
            } else {
                say(rt, format_args!("{}: no such message", id_name(id)));
            }
        }
    }

    /// Says how many messages the tool acted on.
    pub(crate) fn say_sum(&self, rt: HostRuntime) {
        let what = if self.count == 1 {
            "message"
        } else {
            "messages"
        };
        say(
            rt,
            format_args!("{} {} {what}", self.deed.done(), self.count),
        );
    }
}

/// The id that a line of the input names.
fn id_in(line: &[u8]) -> Option<Id> {
    if is_passed_over(line) {
        return None;
    }
    id_named(trim(line))
}
