//! The course of a dialogue: what a reply means, and what is sent next.
ghost use Rattle.std.specs.Prelude.{◌≡◌, ◌≤◌, ◌<◌, ◌+◌, ◌-◌, ◌++◌, [], ◌∷◌, length, replicate, ℕ, vec_len, vec_capacity, IfOk};
ghost use Rattle.std.specs.List.{list_any};
ghost use Rattle.q_smtp.specs.Codes.{is_done, is_later, is_never, is_refusal, is_answer, outcome_of, outcome_by};
ghost use Rattle.q_smtp.specs.Dialogue.{Transaction};
ghost use Rattle.q_session.specs.Codes.{AreAnswers, IsLast};
ghost use Rattle.q_session.specs.Course.{AtMost, IsCourse, IsFewer, Goes, Named, Begins};

use q_model::{NoMemory, Outcome};
use std::alloc::Global;

/// A command (RFC 5321, section 4.1).
#[derive(Clone, Copy, Debug, PartialEq, Eq)]
pub(crate) enum Command {
    Ehlo,
    Helo,
    Mail,
    /// RCPT for the recipient of this place.
    Rcpt(usize),
    Data,
}

/// What comes next.
#[derive(Clone, Copy, Debug, PartialEq, Eq)]
pub(crate) enum Next {
    Say(Command),
    SendContent,
    /// Each recipient has its answer, and those that were accepted have this one.
    Settled(u16),
    /// The reply can't come there.
    Broken,
}

/// Which reply is awaited: the greeting, or that to a command, or to the content.
#[derive(Clone, Copy, Debug, PartialEq, Eq)]
pub(crate) enum Awaited {
    Greeting,
    Answer(Command),
    Verdict,
}

/// The course of a dialogue.
#[derive(Debug, Drop)]
pub(crate) struct Dialogue {
    pub(crate) awaited: Awaited,
    pub(crate) recipients: usize,
    // the codes of the recipients so far, with room for all
    pub(crate) answers: Vec<u16>,
}

fn is_done(code: u16) -> bool
    ensures { result ≡ is_done code }
{
    200 <= code && code < 300
}

fn is_never(code: u16) -> bool
    ensures { result ≡ is_never code }
{
    500 <= code && code < 600
}

fn is_later(code: u16) -> bool
    ensures { result ≡ is_later code }
{
    400 <= code && code < 500
}

fn is_refusal(code: u16) -> bool
    ensures { result ≡ is_refusal code }
{
    is_later(code) || is_never(code)
}

fn is_answer(code: u16) -> bool
    ensures { result ≡ is_answer code }
{
    is_done(code) || is_refusal(code)
}

fn outcome_of(code: u16) -> Outcome
    ensures { result ≡ outcome_of code }
{
    if is_done(code) {
        Outcome::Ok
    } else if is_later(code) {
        Outcome::Later(code)
    } else {
        Outcome::Never(code)
    }
}

/// What a recipient's own code says, or where that accepted it, the last one.
pub(crate) fn outcome_by(last: u16, code: u16) -> Outcome
    ensures { result ≡ outcome_by last code }
{
    if is_done(code) {
        outcome_of(last)
    } else {
        outcome_of(code)
    }
}

fn is_any_done(codes: &[u16]) -> bool
    ensures { result ≡ list_any is_done codes.now }
{
    codes.iter().any(|code| is_done(*code))
}

impl Dialogue {
    /// A dialogue for so many recipients, of which the greeting is awaited.
    pub(crate) fn new(alloc: Global, recipients: usize) -> Result<Dialogue, NoMemory>
        ensures { IfOk result (λ d. Begins recipients d) }
    {
        let answers = Vec::with_capacity(alloc, recipients)?;
        Ok(Dialogue {
            awaited: Awaited::Greeting,
            recipients,
            answers,
        })
    }

    /// Takes the code of the reply that was awaited.
    pub(crate) fn hear(&mut self, code: u16) -> Next
        requires course { IsCourse self.old }
        requires codes { AreAnswers self.old.answers.items }
        ensures goes { (e : Transaction) → length e.to ≡ self.old.recipients
            → Goes e self.old code result self.new }
        ensures fewer { IsFewer result self.old self.new }
        ensures codes { AreAnswers self.new.answers.items }
        ensures last { IsLast result }
    {
        match self.awaited {
            Awaited::Greeting => self.hear_greeting(code),
            Awaited::Answer(Command::Ehlo) => self.hear_ehlo(code),
            Awaited::Answer(Command::Helo) => self.hear_helo(code),
            Awaited::Answer(Command::Mail) => self.hear_mail(code),
            Awaited::Answer(Command::Rcpt(_)) => self.hear_rcpt(code),
            Awaited::Answer(Command::Data) => self.hear_data(code),
            Awaited::Verdict => self.hear_verdict(code),
        }
    }

    fn say(&mut self, command: Command) -> Next
        ensures next { result ≡ Next.Say command }
        ensures awaited { self.new ≡ record self.old { awaited = Awaited.Answer command } }
    {
        self.awaited = Awaited::Answer(command);
        Next::Say(command)
    }

    fn hear_greeting(&mut self, code: u16) -> Next
        requires course { IsCourse self.old }
        requires codes { AreAnswers self.old.answers.items }
        requires awaited { self.old.awaited ≡ Awaited.Greeting }
        ensures goes { (e : Transaction) → length e.to ≡ self.old.recipients
            → Goes e self.old code result self.new }
        ensures fewer { IsFewer result self.old self.new }
        ensures codes { AreAnswers self.new.answers.items }
        ensures last { IsLast result }
    {
        if code == 220 {
            return self.say(Command::Ehlo);
        }
        Next::Broken
    }

    fn hear_ehlo(&mut self, code: u16) -> Next
        requires course { IsCourse self.old }
        requires codes { AreAnswers self.old.answers.items }
        requires awaited { self.old.awaited ≡ Awaited.Answer Command.Ehlo }
        ensures goes { (e : Transaction) → length e.to ≡ self.old.recipients
            → Goes e self.old code result self.new }
        ensures fewer { IsFewer result self.old self.new }
        ensures codes { AreAnswers self.new.answers.items }
        ensures last { IsLast result }
    {
        if is_done(code) {
            return self.say(Command::Mail);
        }
        if is_never(code) {
            return self.say(Command::Helo);
        }
        Next::Broken
    }

    fn hear_helo(&mut self, code: u16) -> Next
        requires course { IsCourse self.old }
        requires codes { AreAnswers self.old.answers.items }
        requires awaited { self.old.awaited ≡ Awaited.Answer Command.Helo }
        ensures goes { (e : Transaction) → length e.to ≡ self.old.recipients
            → Goes e self.old code result self.new }
        ensures fewer { IsFewer result self.old self.new }
        ensures codes { AreAnswers self.new.answers.items }
        ensures last { IsLast result }
    {
        if is_done(code) {
            return self.say(Command::Mail);
        }
        Next::Broken
    }

    fn hear_mail(&mut self, code: u16) -> Next
        requires course { IsCourse self.old }
        requires codes { AreAnswers self.old.answers.items }
        requires awaited { self.old.awaited ≡ Awaited.Answer Command.Mail }
        ensures goes { (e : Transaction) → length e.to ≡ self.old.recipients
            → Goes e self.old code result self.new }
        ensures fewer { IsFewer result self.old self.new }
        ensures codes { AreAnswers self.new.answers.items }
        ensures last { IsLast result }
    {
        if is_done(code) {
            return self.name_recipient();
        }
        if !is_refusal(code) {
            return Next::Broken;
        }
        for _ in 0..self.recipients {
            self.answers.push_reserved(code);
        }
        Next::Settled(code)
    }

    fn hear_rcpt(&mut self, code: u16) -> Next
        requires course { IsCourse self.old }
        requires codes { AreAnswers self.old.answers.items }
        requires awaited { self.old.awaited ≡ Awaited.Answer (Command.Rcpt (vec_len self.old.answers)) }
        ensures goes { (e : Transaction) → length e.to ≡ self.old.recipients
            → Goes e self.old code result self.new }
        ensures fewer { IsFewer result self.old self.new }
        ensures codes { AreAnswers self.new.answers.items }
        ensures last { IsLast result }
    {
        if !is_answer(code) {
            return Next::Broken;
        }
        self.answers.push_reserved(code);
        self.name_recipient()
    }

    /// Names the next recipient; behind the last one it asks to send the content, where one was
    /// accepted.
    fn name_recipient(&mut self) -> Next
        requires few { vec_len self.old.answers ≤ self.old.recipients }
        requires room { self.old.recipients ≤ vec_capacity self.old.answers }
        requires codes { AreAnswers self.old.answers.items }
        ensures named { (e : Transaction) → length e.to ≡ self.old.recipients
            → Named e self.old result self.new }
        // One for each recipient that isn't named yet, and those to DATA and to the content.
        ensures left { AtMost (self.old.recipients - vec_len self.old.answers + 2) result self.new }
        ensures codes { AreAnswers self.new.answers.items }
        ensures last { IsLast result }
    {
        let place = self.answers.len();
        if place < self.recipients {
            return self.say(Command::Rcpt(place));
        }
        if is_any_done(&self.answers) {
            return self.say(Command::Data);
        }
        Next::Settled(0)
    }

    fn hear_data(&mut self, code: u16) -> Next
        requires course { IsCourse self.old }
        requires codes { AreAnswers self.old.answers.items }
        requires awaited { self.old.awaited ≡ Awaited.Answer Command.Data }
        ensures goes { (e : Transaction) → length e.to ≡ self.old.recipients
            → Goes e self.old code result self.new }
        ensures fewer { IsFewer result self.old self.new }
        ensures codes { AreAnswers self.new.answers.items }
        ensures last { IsLast result }
    {
        if code == 354 {
            self.awaited = Awaited::Verdict;
            return Next::SendContent;
        }
        if !is_refusal(code) {
            return Next::Broken;
        }
        Next::Settled(code)
    }

    fn hear_verdict(&mut self, code: u16) -> Next
        requires course { IsCourse self.old }
        requires codes { AreAnswers self.old.answers.items }
        requires awaited { self.old.awaited ≡ Awaited.Verdict }
        ensures goes { (e : Transaction) → length e.to ≡ self.old.recipients
            → Goes e self.old code result self.new }
        ensures fewer { IsFewer result self.old self.new }
        ensures codes { AreAnswers self.new.answers.items }
        ensures last { IsLast result }
    {
        if !is_answer(code) {
            return Next::Broken;
        }
        Next::Settled(code)
    }
}
