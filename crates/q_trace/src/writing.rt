//! The line of an entry.
ghost use Rattle.std.specs.Prelude.{◌≡◌, ◌∷◌, [], codes, decimal, IfOk};
ghost use Rattle.q_trace.specs.Wording.{arrive_words, reply_words, log_words, WritesEntry};
ghost use Rattle.q_model.specs.IdTexts.{id_text};
ghost use Rattle.q_model.specs.Text.{joined, line, mode_words, trigger_text};
ghost use Rattle.q_trace.specs.Bounds.{IsAloneInLine};
ghost use Rattle.q_transport.specs.Routing.{table_of};

use crate::line::TraceLine;
use q_model::{
    Address, Addresses, Bytes, Entry, Failure, Id, Mode, Moment, NoMemory, Outcomes, Positions,
    Site, SiteState, Trigger, Why,
};
use q_transport::Table;
use std::alloc::Global;

fn id_line(alloc: Global, word: &[u8], id: &Id) -> Result<TraceLine, NoMemory>
    ensures { IfOk result (λ l. l ≡ joined (word.now ∷ id_text id.now ∷ [])) }
{
    let mut line = TraceLine::new(alloc, word)?;
    line.id(id)?;
    Ok(line)
}

fn id_number_line(alloc: Global, word: &[u8], id: &Id, number: u64) -> Result<TraceLine, NoMemory>
    ensures { IfOk result (λ l. l ≡ joined (word.now ∷ id_text id.now ∷ decimal number ∷ [])) }
{
    let mut line = id_line(alloc, word, id)?;
    line.number(alloc, number)?;
    Ok(line)
}

fn life_line(alloc: Global, generation: u32, mode: Mode) -> Result<TraceLine, NoMemory>
    ensures { IfOk result (λ l. l ≡ joined (codes "life" ∷ decimal generation ∷ mode_words mode)) }
{
    let mut line = TraceLine::new(alloc, b"life")?;
    line.number(alloc, u64::from(generation))?;
    if mode == Mode::Intake {
        line.word(b"intake")?;
    }
    Ok(line)
}

fn at_line(alloc: Global, moment: Moment) -> Result<TraceLine, NoMemory>
    ensures { IfOk result (λ l. l ≡ joined (codes "at" ∷ decimal moment ∷ [])) }
{
    let mut line = TraceLine::new(alloc, b"at")?;
    line.number(alloc, moment)?;
    Ok(line)
}

fn arrive_line(
    alloc: Global,
    id: &Id,
    sender: &Option<Address>,
    to: &Addresses,
    content: &Bytes,
) -> Result<TraceLine, NoMemory>
    ensures { IfOk result (λ l. l ≡ joined (arrive_words id.now sender.now to.now content.now)) }
{
    let mut line = id_line(alloc, b"arrive", id)?;
    line.sender(sender)?;
    line.number(alloc, content.len() as u64)?;
    line.addresses(to)?;
    Ok(line)
}

fn load_line(alloc: Global, id: &Id, from: u32, to: u32) -> Result<TraceLine, NoMemory>
    ensures { IfOk result (λ l. l
        ≡ joined (codes "load" ∷ id_text id.now ∷ decimal from ∷ decimal to ∷ [])) }
{
    let mut line = id_number_line(alloc, b"load", id, u64::from(from))?;
    line.number(alloc, u64::from(to))?;
    Ok(line)
}

fn start_line(
    alloc: Global,
    number: u64,
    id: &Id,
    site: &Site,
    positions: &Positions,
    table: &Table,
) -> Result<TraceLine, NoMemory>
    ensures { IfOk result (WritesEntry (table_of table.now)
        (Entry.Start number id.now site.now positions.now)) }
{
    let mut line = TraceLine::new(alloc, b"start")?;
    line.number(alloc, number)?;
    line.id(id)?;
    line.site(table, site)?;
    line.positions(alloc, positions)?;
    Ok(line)
}

fn preempt_line(
    alloc: Global,
    child: &Id,
    parent: &Id,
    transport: u8,
    need: u32,
    table: &Table,
) -> Result<TraceLine, NoMemory>
    ensures { IfOk result (WritesEntry (table_of table.now)
        (Entry.Preempt child.now parent.now transport need)) }
{
    let mut line = id_line(alloc, b"preempt", child)?;
    line.id(parent)?;
    line.transport(table, transport)?;
    line.number(alloc, u64::from(need))?;
    Ok(line)
}

fn reply_line(
    alloc: Global,
    number: u64,
    site: SiteState,
    outcomes: &Outcomes,
) -> Result<TraceLine, NoMemory>
    ensures { IfOk result (λ l. l ≡ joined (reply_words number site outcomes.now)) }
{
    let mut line = TraceLine::new(alloc, b"reply")?;
    line.number(alloc, number)?;
    match site {
        SiteState::Up => line.word(b"up")?,
        SiteState::Down => line.word(b"down")?,
    }
    line.outcomes(alloc, outcomes)?;
    Ok(line)
}

fn skip_line(
    alloc: Global,
    id: &Id,
    site: &Site,
    positions: &Positions,
    table: &Table,
) -> Result<TraceLine, NoMemory>
    ensures { IfOk result (WritesEntry (table_of table.now) (Entry.Skip id.now site.now positions.now)) }
{
    let mut line = id_line(alloc, b"skip", id)?;
    line.site(table, site)?;
    line.positions(alloc, positions)?;
    Ok(line)
}

fn log_line(alloc: Global, id: &Id, failure: &Failure) -> Result<TraceLine, NoMemory>
    ensures { IfOk result (λ l. l
        ≡ joined (log_words id.now failure.now)) }
{
    let mut line = id_number_line(alloc, b"log", id, u64::from(failure.position))?;
    match failure.why {
        Why::Refused => line.word(b"refused")?,
        Why::Expired => line.word(b"expired")?,
    }
    line.number(alloc, u64::from(failure.code))?;
    Ok(line)
}

fn trigger_line(alloc: Global, kind: Trigger) -> Result<TraceLine, NoMemory>
    ensures { IfOk result (λ l. l ≡ joined (codes "trigger" ∷ trigger_text kind ∷ [])) }
{
    let mut line = TraceLine::new(alloc, b"trigger")?;
    match kind {
        Trigger::D => line.word(b"D")?,
        Trigger::A => line.word(b"A")?,
        Trigger::F => line.word(b"F")?,
    }
    Ok(line)
}

fn entry_line(alloc: Global, entry: &Entry, table: &Table) -> Result<TraceLine, NoMemory>
    ensures { IfOk result (WritesEntry (table_of table.now) entry.now) }
{
    match entry {
        Entry::Life { generation, mode } => life_line(alloc, *generation, *mode),
        Entry::At { moment } => at_line(alloc, *moment),
        Entry::Arrive {
            id,
            sender,
            to,
            content,
        } => arrive_line(alloc, id, sender, to, content),
        Entry::Back { id } => id_line(alloc, b"back", id),
        Entry::Admit { id } => id_line(alloc, b"admit", id),
        Entry::Load { id, from, to } => load_line(alloc, id, *from, *to),
        Entry::Start {
            number,
            id,
            site,
            positions,
        } => start_line(alloc, *number, id, site, positions, table),
        Entry::Preempt {
            child,
            parent,
            transport,
            need,
        } => { preempt_line(alloc, child, parent, *transport, *need, table) }
        Entry::Reply {
            number,
            site,
            outcomes,
        } => reply_line(alloc, *number, *site, outcomes),
        Entry::Skip {
            id,
            site,
            positions,
        } => skip_line(alloc, id, site, positions, table),
        Entry::Log { id, failure } => log_line(alloc, id, failure),
        Entry::Mark { id, position } => id_number_line(alloc, b"mark", id, u64::from(*position)),
        Entry::Sync { id } => id_line(alloc, b"sync", id),
        Entry::Defer { id, due } => id_number_line(alloc, b"defer", id, *due),
        Entry::Bounce { id } => id_line(alloc, b"bounce", id),
        Entry::Remove { id } => id_line(alloc, b"remove", id),
        Entry::Corrupt { id } => id_line(alloc, b"corrupt", id),
        Entry::Trigger { kind } => trigger_line(alloc, *kind),
        Entry::End => TraceLine::new(alloc, b"end"),
    }
}

/// The line of an entry, with its LF. A transport stands there by its name in the table.
///
/// No two entries within the bounds of a trace have one line, unless they are the same but for
/// the bytes of an arrived content and the original addresses of an arrived message.
#[tactic(auto, unfolding(q_model::specs::Text::line))]
pub fn entry_text(alloc: Global, entry: &Entry, table: &Table) -> Result<Bytes, NoMemory>
    ensures text { IfOk result (λ bytes. bytes ≡ line (table_of table.now) entry.now) }
    ensures only { IsAloneInLine (table_of table.now) entry.now }
{
    entry_line(alloc, entry, table)?.ended()
}
