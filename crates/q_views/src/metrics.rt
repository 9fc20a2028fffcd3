//! The figures of a spool as lines that Prometheus reads.
ghost use Rattle.std.specs.Prelude.{◌≡◌, ◌++◌, codes, decimal, OnOk};
ghost use Rattle.q_model.specs.Text.{spaced};
ghost use Rattle.q_views.specs.Metrics.{arrivals_text, counts_text, due_text, figures_text, generation_text, head_lines, messages_text, moment_line, moment_text, oldest_text, queue_line, queue_moment_line, recipients_text, value_line, value_text};

use crate::figures::{Figures, QueueCounts};
use q_model::{Moment, NoMemory};
use std::alloc::Global;

fn add(text: &mut Vec<u8>, bytes: &[u8]) -> Result<(), NoMemory>
    ensures { OnOk result (text.new.items ≡ text.old.items ++ bytes.now) }
{
    text.extend_from_slice(bytes)?;
    Ok(())
}

/// Adds the two lines that say what a figure is.
fn add_head(text: &mut Vec<u8>, name: &[u8], help: &[u8]) -> Result<(), NoMemory>
    ensures { OnOk result (text.new.items ≡ text.old.items ++ head_lines name.now help.now) }
{
    add(text, b"# HELP ")?;
    add(text, name)?;
    add(text, b" ")?;
    add(text, help)?;
    add(text, b"\n# TYPE ")?;
    add(text, name)?;
    add(text, b" gauge\n")
}

/// Adds a space, a number and the line's end.
fn add_number(alloc: Global, text: &mut Vec<u8>, value: u128) -> Result<(), NoMemory>
    ensures { OnOk result (text.new.items
        ≡ text.old.items ++ (spaced (decimal value) ++ codes "\n")) }
{
    add(text, b" ")?;
    add(text, value.to_string(alloc)?.as_bytes())?;
    add(text, b"\n")
}

fn add_value(alloc: Global, text: &mut Vec<u8>, name: &[u8], value: u128) -> Result<(), NoMemory>
    ensures { OnOk result (text.new.items ≡ text.old.items ++ value_line name.now value) }
{
    add(text, name)?;
    add_number(alloc, text, value)
}

fn add_queue(
    alloc: Global,
    text: &mut Vec<u8>,
    name: &[u8],
    queue: &[u8],
    value: u128,
) -> Result<(), NoMemory>
    ensures { OnOk result (text.new.items
        ≡ text.old.items ++ queue_line name.now queue.now value) }
{
    add(text, name)?;
    add(text, b"{queue=\"")?;
    add(text, queue)?;
    add(text, b"\"}")?;
    add_number(alloc, text, value)
}

/// Adds the line of a moment, if there is one.
fn add_moment(
    alloc: Global,
    text: &mut Vec<u8>,
    name: &[u8],
    moment: Option<Moment>,
) -> Result<(), NoMemory>
    ensures { OnOk result (text.new.items ≡ text.old.items ++ moment_line name.now moment) }
{
    match moment {
        Some(moment) => add_value(alloc, text, name, u128::from(moment)),
        None => Ok(()),
    }
}

fn add_queue_moment(
    alloc: Global,
    text: &mut Vec<u8>,
    name: &[u8],
    queue: &[u8],
    moment: Option<Moment>,
) -> Result<(), NoMemory>
    ensures { OnOk result (text.new.items
        ≡ text.old.items ++ queue_moment_line name.now queue.now moment) }
{
    match moment {
        Some(moment) => add_queue(alloc, text, name, queue, u128::from(moment)),
        None => Ok(()),
    }
}

/// Adds a count of each queue.
fn add_counts(
    alloc: Global,
    text: &mut Vec<u8>,
    name: &[u8],
    help: &[u8],
    counts: &QueueCounts,
) -> Result<(), NoMemory>
    ensures { OnOk result (text.new.items
        ≡ text.old.items ++ counts_text name.now help.now counts.now) }
{
    add_head(text, name, help)?;
    add_queue(alloc, text, name, b"incoming", counts.incoming)?;
    add_queue(alloc, text, name, b"active", counts.active)?;
    add_queue(alloc, text, name, b"deferred", counts.deferred)?;
    add_queue(alloc, text, name, b"hold", counts.hold)
}

/// Adds the oldest arrival in each queue.
fn add_arrivals(
    alloc: Global,
    text: &mut Vec<u8>,
    name: &[u8],
    help: &[u8],
    figures: &Figures,
) -> Result<(), NoMemory>
    ensures { OnOk result (text.new.items
        ≡ text.old.items ++ arrivals_text name.now help.now figures.now) }
{
    add_head(text, name, help)?;
    add_queue_moment(alloc, text, name, b"incoming", figures.incoming.oldest)?;
    add_queue_moment(alloc, text, name, b"active", figures.active.oldest)?;
    add_queue_moment(alloc, text, name, b"deferred", figures.deferred.oldest)?;
    add_queue_moment(alloc, text, name, b"hold", figures.hold.oldest)
}

fn add_moment_text(
    alloc: Global,
    text: &mut Vec<u8>,
    name: &[u8],
    help: &[u8],
    moment: Option<Moment>,
) -> Result<(), NoMemory>
    ensures { OnOk result (text.new.items
        ≡ text.old.items ++ moment_text name.now help.now moment) }
{
    add_head(text, name, help)?;
    add_moment(alloc, text, name, moment)
}

fn add_value_text(
    alloc: Global,
    text: &mut Vec<u8>,
    name: &[u8],
    help: &[u8],
    value: u128,
) -> Result<(), NoMemory>
    ensures { OnOk result (text.new.items
        ≡ text.old.items ++ value_text name.now help.now value) }
{
    add_head(text, name, help)?;
    add_value(alloc, text, name, value)
}

fn add_messages(alloc: Global, text: &mut Vec<u8>, figures: &Figures) -> Result<(), NoMemory>
    ensures { OnOk result (text.new.items ≡ text.old.items ++ messages_text figures.now) }
{
    let name = b"qmgr_messages";
    add_counts(
        alloc,
        text,
        name,
        b"Messages in the queue.",
        &figures.messages(),
    )
}

fn add_recipients(alloc: Global, text: &mut Vec<u8>, figures: &Figures) -> Result<(), NoMemory>
    ensures { OnOk result (text.new.items ≡ text.old.items ++ recipients_text figures.now) }
{
    let name = b"qmgr_pending_recipients";
    let help = b"Pending recipients of the messages in the queue.";
    add_counts(alloc, text, name, help, &figures.recipients())
}

fn add_oldest(alloc: Global, text: &mut Vec<u8>, figures: &Figures) -> Result<(), NoMemory>
    ensures { OnOk result (text.new.items ≡ text.old.items ++ oldest_text figures.now) }
{
    let name = b"qmgr_oldest_arrival_timestamp_seconds";
    let help = b"Arrival of the oldest message in the queue.";
    add_arrivals(alloc, text, name, help, figures)
}

fn add_due(alloc: Global, text: &mut Vec<u8>, figures: &Figures) -> Result<(), NoMemory>
    ensures { OnOk result (text.new.items ≡ text.old.items ++ due_text figures.now) }
{
    let name = b"qmgr_next_due_timestamp_seconds";
    let help = b"When the first message in deferred is due.";
    add_moment_text(alloc, text, name, help, figures.deferred.due)
}

fn add_generation(alloc: Global, text: &mut Vec<u8>, figures: &Figures) -> Result<(), NoMemory>
    ensures { OnOk result (text.new.items ≡ text.old.items ++ generation_text figures.now) }
{
    let name = b"qmgr_generation";
    let help = b"Generation of the last life, 0 before the first.";
    add_value_text(alloc, text, name, help, u128::from(figures.generation))
}

/// Adds all figures.
pub(crate) fn add_figures(
    alloc: Global,
    text: &mut Vec<u8>,
    figures: &Figures,
) -> Result<(), NoMemory>
    ensures { OnOk result (text.new.items ≡ text.old.items ++ figures_text figures.now) }
{
    add_messages(alloc, text, figures)?;
    add_recipients(alloc, text, figures)?;
    add_oldest(alloc, text, figures)?;
    add_due(alloc, text, figures)?;
    add_generation(alloc, text, figures)
}
