//! The transport table.
ghost use Rattle.std.specs.Prelude.{◌≡◌, ◌<◌, ◌≤◌, ◌++◌, ◌∷◌, ◌==◌, ◌&&◌, ◌||◌, [], bytes_eq, IfErr, length, None, OnOk, position, slice_get, Some, true};
ghost use Rattle.std.specs.Option.{option_map_or};
ghost use Rattle.q_model.specs.Routes.{no_table};
ghost use Rattle.q_model.specs.Texts.{is_hop};
ghost use Rattle.q_transport.specs.Contents.{rule_of_pattern, empty_contents, rule_from, with_rule};
ghost use Rattle.q_transport.specs.Lawful.{IsLawful};
ghost use Rattle.q_transport.specs.Names.{number_of, smtp};
ghost use Rattle.q_transport.specs.Parts.{seen};
ghost use Rattle.q_transport.specs.Readings.{add_parts, BecomesTable, is_full, read_table_line};
ghost use Rattle.q_transport.specs.Routing.{table_of};
ghost use Rattle.q_transport.specs.TableLines.{AreParts};
ghost use Rattle.q_transport.specs.Texts.{is_transport};

use crate::entries::{Entries, Target};
use crate::error::TableError;
use crate::line::{TableLine, parse};
use crate::lookup::deciding;
use crate::text::lowered;
use q_model::{Address, Hop, Site, split_domain};
use q_text::is_passed_over;
use std::alloc::Global;
use std::marker::Model;

/// The most entries of a table.
const MOST_ENTRIES: usize = 10_000;

/// The most transports that a table names.
const MOST_NAMES: usize = 20;

/// A transport table: which transport and next hop an address goes to (transport(5)). A contract
/// sees it as its contents, the names and entries of its lines in order, and `table_of` them is
/// the table of the rules.
#[derive(Debug, Drop)]
pub struct Table {
    names: Vec<Hop>,
    entries: Entries,
}

impl Model for Table {
    ghost use Rattle.q_transport.specs.Contents.{Contents};

    ghost Value = { Contents };

    ghost use Rattle.q_transport.specs.Contents.{AreContents};

    ghost view = { λ t. record { names = t.names.items; entries = t.entries } };

    ghost invariant = { λ t. AreContents (record { names = t.names.items; entries = t.entries }) };
}

/// The number of a transport: its place among the names, or the next number where it is new.
fn number_of(names: &[Hop], name: &[u8]) -> usize
    ensures { result ≡ number_of names.now name.now }
{
    place(names, name).unwrap_or(names.len())
}

fn place(names: &[Hop], name: &[u8]) -> Option<usize>
    ensures { result ≡ position (λ other. bytes_eq other name.now) names.now }
{
    names.iter().position(|other| other.bytes() == name)
}

fn smtp() -> Hop
    ensures { result ≡ smtp }
{
    Hop::new(b"smtp").unwrap()
}

impl Table {
    /// A table without lines, which routes each address to its domain by `smtp`. It takes no
    /// memory.
    pub fn empty(alloc: Global) -> Table
        ensures exact { result ≡ empty_contents }
        ensures no_table { table_of result ≡ no_table }
    {
        Table {
            names: Vec::new(alloc),
            entries: Entries::new(alloc),
        }
    }

    /// Whether a transport's number would be a 21st, or there are 10,000 entries.
    fn is_full(&self, transport: usize) -> bool
        ensures { result ≡ is_full self.now transport }
    {
        let is_new = transport == self.names.len();
        self.entries.len() >= MOST_ENTRIES || (is_new && self.names.len() >= MOST_NAMES)
    }

    /// Adds the name of a transport, which is new.
    fn push_name(&mut self, name: Hop) -> Result<(), TableError>
        requires few { length self.old.names < 20 }
        requires form { is_transport name ≡ true }
        requires new { number_of self.old.names name ≡ length self.old.names }
        ensures ok { OnOk result (self.new ≡ record self.old { names = self.old.names ++ name ∷ [] }) }
        ensures err { IfErr result (λ e. e ≡ TableError.NoMemory) }
    {
        self.names.push(name)?;
        Ok(())
    }

    /// Adds an entry, whose transport is one of the names, and whose pattern none has so far.
    fn push_entry(&mut self, pattern: Vec<u8>, target: Target) -> Result<(), TableError>
        requires named { target.transport < length self.old.names }
        requires hop { option_map_or is_hop target.hop true ≡ true }
        requires new { rule_of_pattern self.old.entries pattern.items ≡ None }
        ensures ok { OnOk result (self.new ≡ with_rule
            (rule_from pattern.items target.transport target.hop) self.old) }
        ensures err { IfErr result (λ e. e ≡ TableError.NoMemory) }
    {
        self.entries.push(pattern, target)
    }

    /// Adds the line of this number.
    fn add(&mut self, alloc: Global, number: u64, line: &TableLine<'_>) -> Result<(), TableError>
        requires { AreParts (seen line.now) }
        ensures { BecomesTable result self.new (add_parts number self.old (seen line.now)) }
    {
        let pattern = lowered(alloc, line.pattern)?;
        if self.entries.get(pattern.as_slice()).is_some() {
            return Err(TableError::Twice { line: number });
        }
        let transport = number_of(self.names.as_slice(), line.transport.bytes());
        if self.is_full(transport) {
            return Err(TableError::TooMany { line: number });
        }
        if transport == self.names.len() {
            self.push_name(line.transport)?;
        }
        let target = Target {
            transport: transport as u8,
            hop: line.hop,
        };
        self.push_entry(pattern, target)
    }

    /// Reads the line of this number.
    pub(crate) fn read_line(
        &mut self,
        alloc: Global,
        number: u64,
        line: &[u8],
    ) -> Result<(), TableError>
        ensures { BecomesTable result self.new (read_table_line number self.old line.now) }
    {
        if is_passed_over(line) {
            return Ok(());
        }
        match parse(line) {
            Some(line) => self.add(alloc, number, &line),
            None => Err(TableError::BadLine { line: number }),
        }
    }

    /// The transport and the next hop of an address. What is looked up is, in this order: the
    /// address, its domain, each parent of the domain with a dot before it, the nearest first,
    /// and `*`. Where an entry has no next hop, or there is none, it is the domain in lower case.
    pub fn route(&self, address: &Address) -> Site
        ensures exact { result ≡ (table_of self.now).route address.now }
        ensures within { result.transport < length (table_of self.now).transports }
        ensures hop { is_hop result.hop ≡ true }
    {
        let domain = split_domain(address);
        let Some(target) = deciding(&self.entries, address, &domain) else {
            let transport = number_of(self.names.as_slice(), b"smtp") as u8;
            return Site {
                transport,
                hop: domain,
            };
        };
        let hop = match target.hop {
            Some(hop) => hop,
            None => domain,
        };
        Site {
            transport: target.transport,
            hop,
        }
    }

    /// How many transports there are, from 1 to 21. They are numbered in order of first
    /// appearance; `smtp` is the last where no entry names it.
    pub fn transports(&self) -> u8
        ensures exact { result ≡ length (table_of self.now).transports }
        ensures low { 1 ≤ result }
        ensures high { result ≤ 21 }
    {
        let named = self.names.len() as u8;
        if number_of(self.names.as_slice(), b"smtp") == self.names.len() {
            named + 1
        } else {
            named
        }
    }

    /// The name of a transport.
    pub fn transport_name(&self, n: u8) -> Hop
        requires { n < length (table_of self.now).transports }
        ensures { slice_get (table_of self.now).transports n ≡ Some result }
    {
        let place = n as usize;
        if place < self.names.len() {
            self.names[place]
        } else {
            smtp()
        }
    }

    /// What every table keeps: no two transports have one name, each name has its form, and each
    /// address goes to one of the transports, at a next hop. For proofs; it does nothing.
    pub fn lawful(&self)
        ensures { IsLawful (table_of self.now) }
    {
        let _ = &self.names;
    }
}
