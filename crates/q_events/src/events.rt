//! A reader of event lists.
ghost use Rattle.std.specs.Prelude.{◌≡◌, ◌≤◌, ◌<◌, ◌+◌, ◌++◌, IfOk, OnOk, drop, false, IfErr, Some, true};
ghost use Rattle.q_model.specs.FaultCounts.{Rose};
ghost use Rattle.q_model.specs.TextParts.{text_line};
ghost use Rattle.q_events.specs.EventList.{command_in, content_by, item_of};
ghost use Rattle.q_events.specs.Forms.{IsItemInForm};
ghost use Rattle.q_events.specs.LineReadings.{ReadsLine};
ghost use Rattle.q_events.specs.Readings.{GivesNoMore, is_list_end, Reads};
ghost use Rattle.q_events.specs.States.{unread_list};

use crate::error::EventError;
use crate::line::{Command, ListLine, parse};
use crate::list_item::ListItem;
use q_lines::{LineError, LineReader, NextLine};
use q_model::{Bound, Bytes, Event, NoMemory};
use q_stream::Source;
use std::alloc::Global;
use std::marker::Model;

/// Reads an event list. A contract sees it as the bytes that it took and that stand behind the
/// last line that it read, how many more bytes the list may have, how many lines were read, and
/// whether `end` was among them.
#[derive(Drop)]
pub struct Events {
    reader: LineReader,
    lines: u64,
    ended: bool,
}

impl Model for Events {
    ghost use Rattle.std.specs.Prelude.{◌+◌, ◌≤◌};
    ghost use Rattle.q_events.specs.States.{EventsState};

    ghost Value = { EventsState };

    ghost view = { λ e. record {
      buffered = e.reader.buffered;
      budget = e.reader.budget;
      lines = e.lines;
      ended = e.ended;
    } };

    ghost invariant = { λ e. e.lines + e.reader.budget ≤ 1099511627776 };
}

/// Adds a line of content, whose text stands behind `body` and a space.
fn add_text(content: &mut Vec<u8>, line: &[u8]) -> Result<(), NoMemory>
    ensures { OnOk result (content.new.items ≡ content.old.items ++ text_line (drop 5 line.now)) }
{
    let text = &line[line.len().min(5)..];
    content.extend_from_slice(text)?;
    content.push(b'\n')?;
    Ok(())
}

/// What a line says: its text is added to the content, or it is the command that is given.
fn add_line(content: &mut Vec<u8>, line: &[u8], said: ListLine) -> Result<Option<Command>, NoMemory>
    ensures command { IfOk result (λ command. command ≡ command_in (Some said)) }
    ensures content { OnOk result (content.new.items
        ≡ content.old.items ++ content_by line.now (Some said)) }
{
    match said {
        ListLine::Passed => Ok(None),
        ListLine::Body => {
            add_text(content, line)?;
            Ok(None)
        }
        ListLine::Told(command) => Ok(Some(command)),
    }
}

/// The item of a command behind this content, which only a mail may have.
fn item(command: Command, line: u64, content: Vec<u8>) -> Option<ListItem>
    ensures { result ≡ item_of content.items line command }
{
    let bare = content.is_empty();
    match command {
        Command::Mail { sender, to } => {
            let content = Bytes::from_vec(content);
            let event = Event::Mail {
                sender,
                to,
                content,
            };
            Some(ListItem::Step { event, line })
        }
        Command::Plain(event) => bare.then_some(ListItem::Step { event, line }),
        Command::Restart => bare.then_some(ListItem::Restart),
        Command::End => bare.then_some(ListItem::End),
    }
}

impl Events {
    /// A reader of a list of which nothing is read. It takes no memory, so the answer is never an
    /// error.
    pub fn new(_alloc: Global) -> Result<Events, NoMemory>
        ensures { result ≡ Ok unread_list }
    {
        Ok(Events {
            reader: LineReader::new(),
            lines: 0,
            ended: false,
        })
    }

    /// How many lines were read. Behind an item it is the number of the item's line.
    pub fn lines(&self) -> u64
        ensures { result ≡ self.now.lines }
    {
        self.lines
    }

    /// The next line, which is counted.
    fn next_line<S: Source>(&mut self, alloc: Global, source: &mut S) -> Result<Vec<u8>, EventError>
        ensures line { ReadsLine self.old (S.left source.old) self.new (S.left source.new) result }
        ensures going { self.new.ended ≡ self.old.ended }
        ensures count { OnOk result (self.new.lines ≡ self.old.lines + 1) }
        ensures progress { OnOk result (self.new.budget < self.old.budget) }
        ensures source { result ≡ Err EventError.Source
            → Rose (S.faults source.old) (S.faults source.new) }
        ensures later { S.faults source.old ≤ S.faults source.new }
        ensures faultless { OnOk result (S.faults source.new ≡ S.faults source.old) }
    {
        match self.reader.read_line(alloc, source) {
            Ok(NextLine::Line(line)) => {
                self.lines += 1;
                Ok(line)
            }
            // A last line may lack its LF.
            Ok(NextLine::Unended(line)) => {
                self.lines += 1;
                Ok(line)
            }
            Ok(NextLine::PastLimit) => Err(EventError::Limit {
                bound: Bound::Input,
            }),
            Ok(NextLine::TooLong) => Err(EventError::BadEvent {
                line: self.lines + 1,
            }),
            Ok(NextLine::End) => Err(EventError::BadEvent {
                line: self.lines + 1,
            }),
            Err(LineError::Source) => Err(EventError::Source),
            Err(LineError::NoMemory) => Err(EventError::NoMemory),
        }
    }

    /// The next item, where `end` wasn't read.
    fn read_item<S: Source>(
        &mut self,
        alloc: Global,
        source: &mut S,
    ) -> Result<ListItem, EventError>
        requires { self.old.ended ≡ false }
        ensures going { self.new.ended ≡ false }
        ensures exact { Reads self.old (S.left source.old) self.new (S.left source.new) result }
        ensures form { IfOk result IsItemInForm }
        ensures progress { OnOk result (self.new.budget < self.old.budget) }
        ensures source { result ≡ Err EventError.Source
            → Rose (S.faults source.old) (S.faults source.new) }
        ensures later { S.faults source.old ≤ S.faults source.new }
        ensures faultless { OnOk result (S.faults source.new ≡ S.faults source.old) }
    {
        let mut content = Vec::new(alloc);
        loop {
            let text = self.next_line(alloc, source)?;
            let line = self.lines;
            let Some(said) = parse(alloc, text.as_slice())? else {
                return Err(EventError::BadEvent { line });
            };
            if let Some(command) = add_line(&mut content, text.as_slice(), said)? {
                return item(command, line, content).ok_or(EventError::BadEvent { line });
            }
        }
    }

    /// The next item of the list that this reader has begun and that the source goes on with.
    /// Lines that are empty or begin with `#` are passed over. Content is the texts of the `body`
    /// lines before a mail, each with LF; no other line may follow them. Bytes behind the line
    /// `end` are not looked at, and from then on the answer is `End`.
    ///
    /// At most one line is in memory beside the content of one mail.
    ///
    /// An item comes only where the source didn't fail in the call: a fault is never read as an
    /// end. After an error no call gives an item any more, since the line in which the source
    /// stopped would be read from its middle: the reader is to be given up.
    pub fn read_event<S: Source>(
        &mut self,
        alloc: Global,
        source: &mut S,
    ) -> Result<ListItem, EventError>
        ensures exact { Reads self.old (S.left source.old) self.new (S.left source.new) result }
        // From here on also where the source doesn't tell what is left of it.
        ensures form { IfOk result IsItemInForm }
        ensures ended { IfOk result (λ item. self.new.ended ≡ is_list_end item) }
        ensures stays { self.old.ended ≡ true → IfOk result (λ item. is_list_end item ≡ true) }
        ensures progress { IfOk result (λ item. is_list_end item ≡ false
            → self.new.budget < self.old.budget) }
        ensures moves { IfOk result (λ _. self.old.ended ≡ false
            → self.new.budget < self.old.budget) }
        ensures given_up { IfErr result (λ _. GivesNoMore self.new) }
        ensures source { result ≡ Err EventError.Source
            → Rose (S.faults source.old) (S.faults source.new) }
        ensures later { S.faults source.old ≤ S.faults source.new }
        ensures faultless { IfOk result (λ _. S.faults source.new ≡ S.faults source.old) }
    {
        if self.ended {
            return Ok(ListItem::End);
        }
        match self.read_item(alloc, source) {
            Ok(item) => {
                self.ended = matches!(item, ListItem::End);
                Ok(item)
            }
            Err(error) => {
                self.reader.give_up();
                Err(error)
            }
        }
    }
}
