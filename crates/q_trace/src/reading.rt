//! The entry of a line.
ghost use Rattle.std.specs.Prelude.{◌≡◌, IfOk, IsErrOf, replicate};
ghost use Rattle.q_model.specs.declared.entry.Entry.{Entry as EntryValue};
ghost use Rattle.q_trace.specs.Answers.{AnswersText};
ghost use Rattle.q_trace.specs.Bodies.{arrive_behind, entry_behind, entry_of_line, reply_behind, skip_behind, start_behind};
ghost use Rattle.q_trace.specs.Bounds.{IsLineOf, as_told, IsNoLine};
ghost use Rattle.q_transport.specs.Routing.{table_of};

use crate::bodies::plain;
use crate::error::EntryError;
use crate::fields::{
    hop_field, id_field, number64_field, sender_field, size_field, state_field, transport_field,
};
use crate::kind::Kind;
use crate::lists::{addresses, outcomes, positions};
use crate::parts::without_end;
use q_model::{Bytes, Entry, NoMemory, Site};
use q_numbers::cut;
use q_transport::Table;
use std::alloc::Global;

/// Content of so many zeros.
fn zeros(alloc: Global, size: u32) -> Result<Bytes, NoMemory>
    ensures { IfOk result (λ bytes. bytes ≡ replicate size 0) }
{
    let bytes = vec![in alloc; 0u8; size as usize]?;
    Ok(Bytes::from_vec(bytes))
}

fn arrive(alloc: Global, text: &[u8]) -> Result<Entry, EntryError>
    ensures { AnswersText result (arrive_behind text.now) }
{
    let Some((id, rest)) = id_field(text) else {
        return Err(EntryError::BadEntry);
    };
    let Some((sender, rest)) = sender_field(rest) else {
        return Err(EntryError::BadEntry);
    };
    let Some((size, rest)) = size_field(rest) else {
        return Err(EntryError::BadEntry);
    };
    let to = addresses(alloc, rest)?;
    let content = zeros(alloc, size)?;
    Ok(Entry::Arrive {
        id,
        sender,
        to,
        content,
    })
}

fn start(alloc: Global, text: &[u8], table: &Table) -> Result<Entry, EntryError>
    ensures { AnswersText result (start_behind (table_of table.now) text.now) }
{
    let Some((number, rest)) = number64_field(text) else {
        return Err(EntryError::BadEntry);
    };
    let Some((id, rest)) = id_field(rest) else {
        return Err(EntryError::BadEntry);
    };
    let Some((transport, rest)) = transport_field(rest, table) else {
        return Err(EntryError::BadEntry);
    };
    let Some((hop, rest)) = hop_field(rest) else {
        return Err(EntryError::BadEntry);
    };
    let positions = positions(alloc, rest)?;
    Ok(Entry::Start {
        number,
        id,
        site: Site { transport, hop },
        positions,
    })
}

fn reply(alloc: Global, text: &[u8]) -> Result<Entry, EntryError>
    ensures { AnswersText result (reply_behind text.now) }
{
    let Some((number, rest)) = number64_field(text) else {
        return Err(EntryError::BadEntry);
    };
    let Some((site, rest)) = state_field(rest) else {
        return Err(EntryError::BadEntry);
    };
    let outcomes = outcomes(alloc, rest, site)?;
    Ok(Entry::Reply {
        number,
        site,
        outcomes,
    })
}

fn skip(alloc: Global, text: &[u8], table: &Table) -> Result<Entry, EntryError>
    ensures { AnswersText result (skip_behind (table_of table.now) text.now) }
{
    let Some((id, rest)) = id_field(text) else {
        return Err(EntryError::BadEntry);
    };
    let Some((transport, rest)) = transport_field(rest, table) else {
        return Err(EntryError::BadEntry);
    };
    let Some((hop, rest)) = hop_field(rest) else {
        return Err(EntryError::BadEntry);
    };
    let positions = positions(alloc, rest)?;
    Ok(Entry::Skip {
        id,
        site: Site { transport, hop },
        positions,
    })
}

/// The entry of this kind with this text behind its word.
#[tactic(auto, unfolding(crate::specs::Bodies::entry_behind))]
fn body(alloc: Global, kind: Kind, text: &[u8], table: &Table) -> Result<Entry, EntryError>
    ensures { AnswersText result (entry_behind (table_of table.now) kind text.now) }
{
    match kind {
        Kind::Arrive => arrive(alloc, text),
        Kind::Start => start(alloc, text, table),
        Kind::Reply => reply(alloc, text),
        Kind::Skip => skip(alloc, text, table),
        _ => plain(kind, text, table).ok_or(EntryError::BadEntry),
    }
}

/// The entry of a line without its end.
#[tactic(auto, unfolding(crate::specs::Bodies::entry_of_line))]
fn entry(alloc: Global, text: &[u8], table: &Table) -> Result<Entry, EntryError>
    ensures { AnswersText result (entry_of_line (table_of table.now) text.now) }
{
    if text == b"end".as_slice() {
        return Ok(Entry::End);
    }
    let Some((word, rest)) = cut(text, b' ') else {
        return Err(EntryError::BadEntry);
    };
    let Some(kind) = Kind::named(word) else {
        return Err(EntryError::BadEntry);
    };
    body(alloc, kind, rest, table)
}

/// The entry of a line, which ends with its LF. An `arrive` line has only the number of bytes of
/// a content, so its entry has so many zeros, and no original addresses, so its recipients have none.
///
/// `BadEntry` comes where no entry has this line: a word, a number, an id, an address, a next
/// hop or an outcome isn't of its form or above its bound, a part is missing or too much, the
/// table has no transport of this name, or parts aren't divided by single spaces.
pub fn read_entry(alloc: Global, line: &[u8], table: &Table) -> Result<Entry, EntryError>
    ensures ok { IfOk result (λ e. IsLineOf (table_of table.now) line.now e × (as_told e ≡ e)) }
    ensures bad { IsErrOf result EntryError.BadEntry
        → IsNoLine (table_of table.now) line.now }
    ensures back { (e : EntryValue) → IsLineOf (table_of table.now) line.now e
        → IfOk result (λ r. r ≡ as_told e) }
{
    match without_end(line) {
        Some(text) => entry(alloc, text, table),
        None => Err(EntryError::BadEntry),
    }
}
