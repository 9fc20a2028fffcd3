//! What commands change: the greeting, and the message that has begun.
ghost use Rattle.std.specs.Prelude.{◌≡◌, IfOk};
ghost use Rattle.std.specs.Option.{option_map};
ghost use Rattle.q_smtpd.specs.Commands.{begins_content, mail_came, obeyed, rcpt_came};
ghost use Rattle.q_smtpd.specs.Paths.{from_path, to_path};
ghost use Rattle.q_smtpd.specs.Verbs.{is_missing};
ghost use Rattle.q_smtpd.specs.Hearings.{ComesTo};
ghost use Rattle.q_smtpd.specs.Places.{answers, greeted, ungreeted, without_envelope};

use crate::answer::Answer;
use crate::path::{from_path, to_path};
use crate::verb::{Verb, verb_of, words_of};
use q_model::{Address, Addresses, MOST_RECIPIENTS, NoMemory, Receiver};
use std::alloc::Global;
use std::marker::Model;

/// The sender and the recipients so far of a message that has begun (RFC 5321, section 2.3.1).
#[derive(Drop)]
pub(crate) struct Envelope {
    pub(crate) sender: Option<Address>,
    pub(crate) to: Addresses,
}

impl Model for Envelope {
    ghost use Rattle.q_smtpd.specs.Places.{Envelope as EnvelopeValue};

    ghost Value = { EnvelopeValue };

    ghost view = { λ e. record { sender = e.sender; to = e.to } };
}

/// What came of a command.
#[derive(Clone, Copy, Debug, PartialEq, Eq)]
pub(crate) enum Next {
    Answer(Answer),
    /// The content of the message comes.
    Content,
    /// The client takes leave.
    Leave,
}

/// Whether the client said who it is, and the message that has begun.
#[derive(Drop)]
pub(crate) struct Course {
    greeted: bool,
    envelope: Option<Envelope>,
}

impl Model for Course {
    ghost use Rattle.q_smtpd.specs.Places.{Course as CourseValue};

    ghost Value = { CourseValue };

    ghost view = { λ c. record { greeted = c.greeted; envelope = c.envelope } };
}

impl Course {
    pub(crate) fn new() -> Course
        ensures { result ≡ ungreeted }
    {
        Course {
            greeted: false,
            envelope: None,
        }
    }

    /// Another message may follow. The answer is the one that had begun.
    pub(crate) fn end(&mut self) -> Option<Envelope>
        ensures envelope { result ≡ self.old.envelope }
        ensures course { self.new ≡ greeted }
    {
        self.greeted = true;
        self.envelope.take()
    }

    /// Carries out a command line.
    pub(crate) fn obey(&mut self, alloc: Global, line: &[u8]) -> Result<Next, NoMemory>
        ensures { IfOk result (λ next. ComesTo (obeyed self.old line.now) next self.new) }
    {
        let (word, argument) = words_of(line);
        let next = match verb_of(word) {
            Verb::Hello if is_missing(argument) => Next::Answer(Answer::BadSyntax),
            Verb::Hello => self.hello(),
            Verb::Mail => Next::Answer(self.mail(alloc, argument.unwrap_or(b""))),
            Verb::Rcpt => Next::Answer(self.rcpt(argument.unwrap_or(b""))?),
            Verb::Verify if is_missing(argument) => Next::Answer(Answer::BadSyntax),
            Verb::Verify => Next::Answer(Answer::AnyArgument),
            Verb::Data if argument.is_none() => self.data(),
            Verb::Reset if argument.is_none() => self.reset(),
            Verb::Noop if argument.is_none() => Next::Answer(Answer::Accepted),
            Verb::Quit if argument.is_none() => Next::Leave,
            _ => Next::Answer(Answer::Unknown),
        };
        Ok(next)
    }

    fn hello(&mut self) -> Next
        ensures next { result ≡ Next.Answer Answer.Hello }
        ensures course { self.new ≡ greeted }
    {
        self.greeted = true;
        self.envelope = None;
        Next::Answer(Answer::Hello)
    }

    fn mail(&mut self, alloc: Global, text: &[u8]) -> Answer
        ensures { mail_came (from_path text.now) self.old ≡ answers result self.new }
    {
        if !self.greeted || self.envelope.is_some() {
            return Answer::OutOfOrder;
        }
        let Some((path, behind)) = from_path(text) else {
            return Answer::BadSyntax;
        };
        let sender = Address::new(path);
        if sender.is_none() && !path.is_empty() {
            return Answer::BadAddress;
        }
        if !behind.is_empty() {
            return Answer::HasParameters;
        }
        self.envelope = Some(Envelope {
            sender,
            to: Addresses::new(alloc),
        });
        Answer::Accepted
    }

    fn rcpt(&mut self, text: &[u8]) -> Result<Answer, NoMemory>
        ensures { IfOk result (λ answer.
            rcpt_came (to_path text.now) self.old ≡ answers answer self.new) }
    {
        let Some(envelope) = &mut self.envelope else {
            return Ok(Answer::OutOfOrder);
        };
        let Some((path, behind)) = to_path(text) else {
            return Ok(Answer::BadSyntax);
        };
        let Some(address) = Address::new(path) else {
            return Ok(Answer::BadAddress);
        };
        if !behind.is_empty() {
            return Ok(Answer::HasParameters);
        }
        if envelope.to.len() >= MOST_RECIPIENTS as usize {
            return Ok(Answer::TooMany);
        }
        envelope.to.push(Receiver {
            address,
            original: None,
        })?;
        Ok(Answer::Accepted)
    }

    fn data(&self) -> Next
        ensures { ComesTo (begins_content self.now self.now.envelope) result self.now }
    {
        match &self.envelope {
            Some(envelope) if envelope.to.len() > 0 => Next::Content,
            _ => Next::Answer(Answer::OutOfOrder),
        }
    }

    fn reset(&mut self) -> Next
        ensures next { result ≡ Next.Answer Answer.Accepted }
        ensures course { self.new ≡ without_envelope self.old }
    {
        self.envelope = None;
        Next::Answer(Answer::Accepted)
    }
}

fn is_missing(argument: Option<&[u8]>) -> bool
    ensures { result ≡ is_missing (option_map (λ text. text.now) argument.entry) }
{
    match argument {
        Some(text) => text.is_empty(),
        None => true,
    }
}
