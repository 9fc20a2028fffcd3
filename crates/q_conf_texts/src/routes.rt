//! Where the mail to addresses goes.
ghost use Rattle.std.specs.Prelude.{◌≡◌, ◌<◌, ◌++◌, ◌∷◌, bytes_eq, IfOk, IfSome, length, map, OnOk, option_map, position};
ghost use Rattle.q_conf_texts.specs.Routes.{deciding_line, has_entry, line_of_pattern, line_text, pattern_in, reach_text, route_line, routes_text, site_line};
ghost use Rattle.q_model.specs.Lists.{first_some};
ghost use Rattle.q_model.specs.Texts.{lower};
ghost use Rattle.q_text.specs.Blanks.{is_blank};
ghost use Rattle.q_transport.specs.Routing.{parents};

use crate::text::{add, add_number};
use q_link::address_of;
use q_model::{Address, Hop, NoMemory, split_domain};
use q_text::{first_line, is_blank, is_passed_over};
use q_transport::Table;
use std::alloc::Global;

/// Whether two texts are the same, in whatever case.
#[tactic(auto, using(crate::proofs::CaseLaws::compared))]
fn are_same(one: &[u8], other: &[u8]) -> bool
    ensures { result ≡ bytes_eq (map lower one.now) (map lower other.now) }
{
    one.eq_ignore_ascii_case(other)
}

/// The place of the first blank.
fn blank(line: &[u8]) -> Option<usize>
    ensures exact { result ≡ position is_blank line.now }
    ensures within { IfSome result (λ at. at < length line.now) }
{
    line.iter().position(|b| is_blank(*b))
}

/// The pattern of a line: what stands before its first blank.
fn pattern_in(line: &[u8]) -> Option<&[u8]>
    ensures { option_map (λ text. text.now) result ≡ pattern_in line.now }
{
    if is_passed_over(line) {
        return None;
    }
    let end = blank(line)?;
    Some(&line[..end])
}

/// Whether a line has an entry of the pattern, in whatever case.
fn has_entry(line: &[u8], pattern: &[u8]) -> bool
    ensures { result ≡ has_entry (map lower pattern.now) line.now }
{
    match pattern_in(line) {
        Some(text) => are_same(text, pattern),
        None => false,
    }
}

/// The first line that has an entry of the pattern, counted from 1.
fn line_of(bytes: &[u8], pattern: &[u8]) -> Option<u64>
    ensures { result ≡ line_of_pattern bytes.now (map lower pattern.now) }
{
    let mut number = 0;
    let mut rest = bytes;
    while !rest.is_empty() {
        let (line, others) = first_line(rest);
        number += 1;
        if has_entry(line, pattern) {
            return Some(number);
        }
        rest = others;
    }
    None
}

/// The line of the nearest parent of a domain that has an entry.
fn line_of_parent(bytes: &[u8], domain: &[u8]) -> Option<u64>
    ensures { result ≡ first_some (line_of_pattern bytes.now) (parents (map lower domain.now)) }
{
    let mut rest = domain;
    while let [b, others @ ..] = rest {
        if *b == b'.' {
            if let Some(found) = line_of(bytes, rest) {
                return Some(found);
            }
        }
        rest = others;
    }
    None
}

/// The line of a domain, or else of its nearest parent that has an entry.
fn line_of_domain(bytes: &[u8], domain: &[u8]) -> Option<u64>
    ensures { result ≡ first_some (line_of_pattern bytes.now)
        (map lower domain.now ∷ parents (map lower domain.now)) }
{
    if let Some(found) = line_of(bytes, domain) {
        return Some(found);
    }
    line_of_parent(bytes, domain)
}

/// The line that decides where an address goes.
fn deciding_line(bytes: &[u8], address: &Address) -> Option<u64>
    ensures { result ≡ deciding_line bytes.now address.now }
{
    if let Some(found) = line_of(bytes, address.bytes()) {
        return Some(found);
    }
    let domain = split_domain(address);
    if let Some(found) = line_of_domain(bytes, domain.bytes()) {
        return Some(found);
    }
    line_of(bytes, b"*")
}

/// Adds which line decides.
fn add_line(alloc: Global, text: &mut Vec<u8>, line: Option<u64>) -> Result<(), NoMemory>
    ensures { OnOk result (text.new.items ≡ text.old.items ++ line_text line) }
{
    let Some(line) = line else {
        return add(text, b"no line");
    };
    add(text, b"line ")?;
    add_number(alloc, text, line)
}

/// Adds that no connection can be opened to a next hop, where that is so.
fn add_reach(text: &mut Vec<u8>, hop: &Hop) -> Result<(), NoMemory>
    ensures { OnOk result (text.new.items ≡ text.old.items ++ reach_text hop.now) }
{
    if address_of(hop).is_some() {
        return Ok(());
    }
    add(text, b", can't be reached")
}

/// Adds the line of an address.
fn add_site(
    alloc: Global,
    text: &mut Vec<u8>,
    address: &Address,
    transport: &Hop,
    hop: &Hop,
    line: Option<u64>,
) -> Result<(), NoMemory>
    ensures { OnOk result (text.new.items
        ≡ text.old.items ++ site_line address.now transport.now hop.now line) }
{
    add(text, address.bytes())?;
    add(text, b" ")?;
    add(text, transport.bytes())?;
    add(text, b":")?;
    add(text, hop.bytes())?;
    add(text, b" (")?;
    add_line(alloc, text, line)?;
    add_reach(text, hop)?;
    add(text, b")\n")
}

/// Adds where an address goes by the table, of whose file these are the bytes.
fn add_route(
    alloc: Global,
    text: &mut Vec<u8>,
    table: &Table,
    bytes: &[u8],
    address: &Address,
) -> Result<(), NoMemory>
    ensures { OnOk result (text.new.items
        ≡ text.old.items ++ route_line table.now bytes.now address.now) }
{
    let site = table.route(address);
    let transport = table.transport_name(site.transport);
    let line = deciding_line(bytes, address);
    add_site(alloc, text, address, &transport, &site.hop, line)
}

/// A line for each address.
pub(crate) fn routes_text(
    alloc: Global,
    table: &Table,
    bytes: &[u8],
    addresses: &[Address],
) -> Result<Vec<u8>, NoMemory>
    ensures { IfOk result (λ text. text.items ≡ routes_text table.now bytes.now addresses.now) }
{
    let mut text = Vec::new(alloc);
    for address in addresses {
        add_route(alloc, &mut text, table, bytes, address)?;
    }
    Ok(text)
}
