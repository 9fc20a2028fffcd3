//! What a part of a line says, beside the values that event lists have too.
ghost use Rattle.std.specs.Prelude.{◌≡◌, ◌<◌, bytes_eq, length, true};
ghost use Rattle.q_model.specs.Text.{transport_text};
ghost use Rattle.q_model.specs.Texts.{is_hop};
ghost use Rattle.q_trace.specs.PartTexts.{hop_of, id_of, transport_of, why_of_text};
ghost use Rattle.q_transport.specs.Routing.{table_of};

use q_model::{Hop, Id, Name, Why, id_of};
use q_transport::Table;

pub(crate) fn id(text: &[u8]) -> Option<Id>
    ensures { result ≡ id_of text.now }
{
    id_of(Name::new(text)?)
}

fn is_name(table: &Table, number: u8, text: &[u8]) -> bool
    requires { number < length (table_of table.now).transports }
    ensures exact { result ≡ bytes_eq (transport_text (table_of table.now) number) text.now }
    ensures form { is_hop (transport_text (table_of table.now) number) ≡ true }
{
    table.transport_name(number).bytes() == text
}

/// The number of a transport, by its name.
pub(crate) fn transport(text: &[u8], table: &Table) -> Option<u8>
    ensures { result ≡ transport_of (table_of table.now) text.now }
{
    for number in 0..table.transports() {
        if is_name(table, number, text) {
            return Some(number);
        }
    }
    None
}

pub(crate) fn hop(text: &[u8]) -> Option<Hop>
    ensures { result ≡ hop_of text.now }
{
    Hop::new(text)
}

pub(crate) fn why(text: &[u8]) -> Option<Why>
    ensures { result ≡ why_of_text text.now }
{
    if text == b"refused".as_slice() {
        Some(Why::Refused)
    } else if text == b"expired".as_slice() {
        Some(Why::Expired)
    } else {
        None
    }
}
