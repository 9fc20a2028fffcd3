//! The parts of a line of a transport table.
ghost use Rattle.std.specs.Prelude.{◌≡◌, if◌then◌else◌, None, option_map, Some};
ghost use Rattle.q_transport.specs.Parts.{seen};
ghost use Rattle.q_transport.specs.TableLines.{behind_pattern, divided_line, next_hop_of, parts_of_line, parts_of};
ghost use Rattle.q_transport.specs.Texts.{is_transport};

use crate::text::{blank, is_transport};
use q_model::Hop;
use q_numbers::cut;
use q_text::{is_text, trim_start};

/// A pattern, the name of a transport, and a next hop; none is the domain of the recipient.
#[derive(Debug, Drop)]
pub(crate) struct TableLine<'a> {
    pub(crate) pattern: &'a [u8],
    pub(crate) transport: Hop,
    pub(crate) hop: Option<Hop>,
}

/// The name of a transport.
fn transport(name: &[u8]) -> Option<Hop>
    ensures { result ≡ (if is_transport name.now then Some name.now else None) }
{
    if !is_transport(name) {
        return None;
    }
    Hop::new(name)
}

/// A next hop, which may be empty.
fn next_hop(text: &[u8]) -> Option<Option<Hop>>
    ensures { result ≡ next_hop_of text.now }
{
    if text.is_empty() {
        return Some(None);
    }
    Some(Some(Hop::new(text)?))
}

fn parts<'a>(pattern: &'a [u8], name: &[u8], text: &[u8]) -> Option<TableLine<'a>>
    ensures { option_map seen result ≡ parts_of pattern.now name.now text.now }
{
    let transport = transport(name)?;
    let hop = next_hop(text)?;
    Some(TableLine {
        pattern,
        transport,
        hop,
    })
}

/// The first colon stands between the name and the next hop.
fn behind_pattern<'a>(pattern: &'a [u8], text: &[u8]) -> Option<TableLine<'a>>
    ensures { option_map seen result ≡ behind_pattern pattern.now text.now }
{
    let (name, hop) = cut(text, b':')?;
    parts(pattern, name, hop)
}

/// The first blank stands behind the pattern, which isn't empty.
fn divided(line: &[u8]) -> Option<TableLine<'_>>
    ensures { option_map seen result ≡ divided_line line.now }
{
    let at = blank(line)?;
    if at == 0 {
        return None;
    }
    let (pattern, rest) = line.split_at(at);
    behind_pattern(pattern, trim_start(rest))
}

/// The parts of a line that isn't passed over.
pub(crate) fn parse(line: &[u8]) -> Option<TableLine<'_>>
    ensures { option_map seen result ≡ parts_of_line line.now }
{
    if !is_text(line) {
        return None;
    }
    divided(line)
}
