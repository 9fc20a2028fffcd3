//! The entries of a transport table whose next hop can't be reached. What is an entry is said by
//! q_transport, and which next hop has a route by q_link.
ghost use Rattle.std.specs.List.{list_all};
ghost use Rattle.std.specs.Prelude.{◌≡◌, ◌++◌, ◌<◌, IfOk, IfSome, length, List, OnOk, position, ℕ};
ghost use Rattle.q_text.specs.Blanks.{is_blank};
ghost use Rattle.q_check.specs.NextHops.{hop_in, hop_lines, is_unreachable, is_unreachable_hop, text_of_line};
ghost use Rattle.q_transport.specs.TableLines.{behind_pattern, divided_line, next_hop_of, parts_of, parts_of_line};
ghost use Rattle.q_transport.specs.Texts.{is_transport, is_transport_byte};

use crate::lines::{add_conf_line, hop_text};
use q_conf::ConfFile;
use q_link::address_of;
use q_model::{Hop, NoMemory};
use q_numbers::cut;
use q_text::{first_line, is_blank, is_passed_over, is_text, trim_start};
use std::alloc::Global;

fn are_transport_bytes(name: &[u8]) -> bool
    ensures { result ≡ list_all is_transport_byte name.now }
{
    name.iter()
        .all(|b| matches!(*b, b'a'..=b'z' | b'0'..=b'9' | b'_' | b'-'))
}

/// Whether a text has the form of a transport's name.
fn is_transport(name: &[u8]) -> bool
    ensures { result ≡ is_transport name.now }
{
    let filled = !name.is_empty();
    let short = name.len() <= 32;
    let lawful = are_transport_bytes(name);
    filled & short & lawful
}

/// A next hop, which may be empty.
fn next_hop(text: &[u8]) -> Option<Option<Hop>>
    ensures { result ≡ next_hop_of text.now }
{
    if text.is_empty() {
        return Some(None);
    }
    Some(Some(Hop::new(text)?))
}

fn hop_of(name: &[u8], text: &[u8]) -> Option<Option<Hop>>
    ensures { (pattern : List ℕ) → result ≡ hop_in (parts_of pattern name.now text.now) }
{
    if !is_transport(name) {
        return None;
    }
    next_hop(text)
}

/// The first colon stands before the next hop.
fn hop_behind(text: &[u8]) -> Option<Option<Hop>>
    ensures { (pattern : List ℕ) → result ≡ hop_in (behind_pattern pattern text.now) }
{
    let (name, hop) = cut(text, b':')?;
    hop_of(name, hop)
}

/// The place of the first blank.
fn blank(line: &[u8]) -> Option<usize>
    ensures exact { result ≡ position is_blank line.now }
    ensures within { IfSome result (λ at. at < length line.now) }
{
    line.iter().position(|b| is_blank(*b))
}

/// The first blank stands behind the pattern, which isn't empty.
fn hop_divided(line: &[u8]) -> Option<Option<Hop>>
    ensures { result ≡ hop_in (divided_line line.now) }
{
    let at = blank(line)?;
    if at == 0 {
        return None;
    }
    let (_, rest) = line.split_at(at);
    hop_behind(trim_start(rest))
}

/// The next hop of an entry, where the line is one.
fn hop_in_line(line: &[u8]) -> Option<Option<Hop>>
    ensures { result ≡ hop_in (parts_of_line line.now) }
{
    if !is_text(line) {
        return None;
    }
    hop_divided(line)
}

fn is_unreachable_hop(hop: &Option<Hop>) -> bool
    ensures { result ≡ is_unreachable_hop hop.now }
{
    match hop {
        Some(hop) => address_of(hop).is_none(),
        None => true,
    }
}

/// Whether a line is an entry whose next hop can't be reached.
fn is_unreachable(line: &[u8]) -> bool
    ensures { result ≡ is_unreachable line.now }
{
    if is_passed_over(line) {
        return false;
    }
    match hop_in_line(line) {
        Some(hop) => is_unreachable_hop(&hop),
        None => false,
    }
}

/// Adds what is told of this line.
fn add_line(alloc: Global, text: &mut Vec<u8>, number: u64, line: &[u8]) -> Result<(), NoMemory>
    ensures { OnOk result (text.new.items ≡ text.old.items ++ text_of_line number line.now) }
{
    if !is_unreachable(line) {
        return Ok(());
    }
    add_conf_line(alloc, text, ConfFile::Table, number, hop_text())
}

/// What is told of the lines of a table.
pub(crate) fn hop_lines(alloc: Global, bytes: &[u8]) -> Result<Vec<u8>, NoMemory>
    ensures { IfOk result (λ text. text.items ≡ hop_lines bytes.now) }
{
    let mut text = Vec::new(alloc);
    let mut number = 0;
    let mut rest = bytes;
    while !rest.is_empty() {
        let (line, others) = first_line(rest);
        number += 1;
        add_line(alloc, &mut text, number, line)?;
        rest = others;
    }
    Ok(text)
}
