//! What stands behind the first word of a line whose entry has no list.
ghost use Rattle.std.specs.Prelude.{◌≡◌};
ghost use Rattle.q_trace.specs.Bodies.{at_behind, defer_behind, life_in, life_behind, load_behind, log_behind, mark_behind, plain_behind, preempt_behind};
ghost use Rattle.q_transport.specs.Routing.{table_of};

use crate::fields::{id_field, number32_field, transport_field, why_field};
use crate::kind::Kind;
use crate::part_texts::id;
use q_model::{Entry, Failure, LAST_MOMENT, Mode};
use q_numbers::{cut, read_number, read_number32};
use q_text::read_trigger;
use q_transport::Table;

/// The greatest moment of twelve digits.
const LAST_DUE: u64 = 999_999_999_999;

fn life_in(text: &[u8], mode: Mode) -> Option<Entry>
    ensures { result ≡ life_in mode text.now }
{
    let generation = read_number32(text, 1, u32::MAX)?;
    Some(Entry::Life { generation, mode })
}

fn life(text: &[u8]) -> Option<Entry>
    ensures { result ≡ life_behind text.now }
{
    match cut(text, b' ') {
        None => life_in(text, Mode::Deliver),
        Some((number, b"intake")) => life_in(number, Mode::Intake),
        Some(_) => None,
    }
}

fn at(text: &[u8]) -> Option<Entry>
    ensures { result ≡ at_behind text.now }
{
    let moment = read_number(text, 0, LAST_MOMENT)?;
    Some(Entry::At { moment })
}

fn load(text: &[u8]) -> Option<Entry>
    ensures { result ≡ load_behind text.now }
{
    let (id, rest) = id_field(text)?;
    let (from, rest) = number32_field(rest)?;
    let to = read_number32(rest, 0, u32::MAX)?;
    Some(Entry::Load { id, from, to })
}

fn preempt(text: &[u8], table: &Table) -> Option<Entry>
    ensures { result ≡ preempt_behind (table_of table.now) text.now }
{
    let (child, rest) = id_field(text)?;
    let (parent, rest) = id_field(rest)?;
    let (transport, rest) = transport_field(rest, table)?;
    let need = read_number32(rest, 0, u32::MAX)?;
    Some(Entry::Preempt {
        child,
        parent,
        transport,
        need,
    })
}

fn log(text: &[u8]) -> Option<Entry>
    ensures { result ≡ log_behind text.now }
{
    let (id, rest) = id_field(text)?;
    let (position, rest) = number32_field(rest)?;
    let (why, rest) = why_field(rest)?;
    let code = read_number(rest, 0, 65_535)? as u16;
    let failure = Failure {
        position,
        why,
        code,
    };
    Some(Entry::Log { id, failure })
}

fn mark(text: &[u8]) -> Option<Entry>
    ensures { result ≡ mark_behind text.now }
{
    let (id, rest) = id_field(text)?;
    let position = read_number32(rest, 0, u32::MAX)?;
    Some(Entry::Mark { id, position })
}

fn defer(text: &[u8]) -> Option<Entry>
    ensures { result ≡ defer_behind text.now }
{
    let (id, rest) = id_field(text)?;
    let due = read_number(rest, 0, LAST_DUE)?;
    Some(Entry::Defer { id, due })
}

/// The entry of a kind without a list; of the other kinds none.
#[tactic(auto, unfolding(crate::specs::Bodies::plain_behind))]
pub(crate) fn plain(kind: Kind, text: &[u8], table: &Table) -> Option<Entry>
    ensures { result ≡ plain_behind (table_of table.now) kind text.now }
{
    match kind {
        Kind::Life => life(text),
        Kind::At => at(text),
        Kind::Back => Some(Entry::Back { id: id(text)? }),
        Kind::Admit => Some(Entry::Admit { id: id(text)? }),
        Kind::Load => load(text),
        Kind::Preempt => preempt(text, table),
        Kind::Log => log(text),
        Kind::Mark => mark(text),
        Kind::Sync => Some(Entry::Sync { id: id(text)? }),
        Kind::Defer => defer(text),
        Kind::Bounce => Some(Entry::Bounce { id: id(text)? }),
        Kind::Remove => Some(Entry::Remove { id: id(text)? }),
        Kind::Corrupt => Some(Entry::Corrupt { id: id(text)? }),
        Kind::Trigger => {
            let kind = read_trigger(text)?;
            Some(Entry::Trigger { kind })
        }
        Kind::Arrive | Kind::Start | Kind::Reply | Kind::Skip => None,
    }
}
