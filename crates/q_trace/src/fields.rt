//! A value before a space, and what stands behind it.
ghost use Rattle.std.specs.Prelude.{◌≡◌, option_map};
ghost use Rattle.q_trace.specs.Parts.{field};
ghost use Rattle.q_numbers.specs.Numbers.{number32_of, number64_of};
ghost use Rattle.q_text.specs.ValueTexts.{sender_of_text, state_of_text};
ghost use Rattle.q_trace.specs.PartTexts.{hop_of, id_of, size_of, transport_of, why_of_text};
ghost use Rattle.q_transport.specs.Routing.{table_of};

use crate::part_texts::{hop, id, transport, why};
use q_model::{Address, Hop, Id, MOST_MAIL_BYTES, SiteState, Why};
use q_numbers::{cut, read_number, read_number32};
use q_text::{read_sender, read_state};
use q_transport::Table;

pub(crate) fn id_field(text: &[u8]) -> Option<(Id, &[u8])>
    ensures { option_map (λ f. (f.0, f.1.now)) result ≡ field id_of text.now }
{
    let (part, rest) = cut(text, b' ')?;
    Some((id(part)?, rest))
}

pub(crate) fn number32_field(text: &[u8]) -> Option<(u32, &[u8])>
    ensures { option_map (λ f. (f.0, f.1.now)) result ≡ field number32_of text.now }
{
    let (part, rest) = cut(text, b' ')?;
    Some((read_number32(part, 0, u32::MAX)?, rest))
}

pub(crate) fn number64_field(text: &[u8]) -> Option<(u64, &[u8])>
    ensures { option_map (λ f. (f.0, f.1.now)) result ≡ field number64_of text.now }
{
    let (part, rest) = cut(text, b' ')?;
    Some((read_number(part, 0, u64::MAX)?, rest))
}

/// The number of bytes of a content.
pub(crate) fn size_field(text: &[u8]) -> Option<(u32, &[u8])>
    ensures { option_map (λ f. (f.0, f.1.now)) result ≡ field size_of text.now }
{
    let (part, rest) = cut(text, b' ')?;
    Some((read_number32(part, 0, MOST_MAIL_BYTES)?, rest))
}

pub(crate) fn sender_field(text: &[u8]) -> Option<(Option<Address>, &[u8])>
    ensures { option_map (λ f. (f.0, f.1.now)) result ≡ field sender_of_text text.now }
{
    let (part, rest) = cut(text, b' ')?;
    Some((read_sender(part)?, rest))
}

pub(crate) fn transport_field<'a>(text: &'a [u8], table: &Table) -> Option<(u8, &'a [u8])>
    ensures { option_map (λ f. (f.0, f.1.now)) result
        ≡ field (transport_of (table_of table.now)) text.now }
{
    let (part, rest) = cut(text, b' ')?;
    Some((transport(part, table)?, rest))
}

pub(crate) fn hop_field(text: &[u8]) -> Option<(Hop, &[u8])>
    ensures { option_map (λ f. (f.0, f.1.now)) result ≡ field hop_of text.now }
{
    let (part, rest) = cut(text, b' ')?;
    Some((hop(part)?, rest))
}

pub(crate) fn state_field(text: &[u8]) -> Option<(SiteState, &[u8])>
    ensures { option_map (λ f. (f.0, f.1.now)) result ≡ field state_of_text text.now }
{
    let (part, rest) = cut(text, b' ')?;
    Some((read_state(part)?, rest))
}

pub(crate) fn why_field(text: &[u8]) -> Option<(Why, &[u8])>
    ensures { option_map (λ f. (f.0, f.1.now)) result ≡ field why_of_text text.now }
{
    let (part, rest) = cut(text, b' ')?;
    Some((why(part)?, rest))
}
