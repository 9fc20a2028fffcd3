//! The reply that is to be sent.
ghost use Rattle.std.specs.Prelude.{◌≡◌};
ghost use Rattle.q_smtpd.specs.Answers.{answer_line};
ghost use Rattle.q_link.specs.declared.usage.Usage.TheVariants.{Open};
ghost use Rattle.q_smtpd.specs.Traffic.{Gave, GoesOn, Sends, Tells, waits_of_sent};
ghost use Rattle.q_smtpd.specs.Uses.{SparesSent, UsesSent};

use crate::answer::Answer;
use q_link::{Link, Put};
use std::marker::Model;

/// What came of sending.
#[derive(Clone, Copy, Debug, PartialEq, Eq)]
pub(crate) enum Sent {
    /// Nothing is left to send.
    All,
    /// The link isn't ready to send more.
    NotYet,
    /// The link failed.
    Lost,
}

/// A reply, and how many of its bytes were sent. A contract sees the bytes that are left.
#[derive(Debug, Drop)]
pub(crate) struct Outbox {
    answer: Answer,
    gone: usize,
}

impl Model for Outbox {
    ghost use Rattle.std.specs.Prelude.{◌≤◌, drop, length, List, ℕ};
    ghost use Rattle.q_smtpd.specs.Answers.{answer_line};

    ghost Value = { List ℕ };

    ghost view = { λ o. drop o.gone (answer_line o.answer) };

    ghost invariant = { λ o. o.gone ≤ length (answer_line o.answer) };
}

impl Outbox {
    pub(crate) fn new(answer: Answer) -> Outbox
        ensures { result ≡ answer_line answer }
    {
        Outbox { answer, gone: 0 }
    }

    /// Sends until nothing is left or the link isn't ready.
    pub(crate) fn flush<L: Link>(&mut self, link: &mut L) -> Sent
        ensures sends { Sends result self.new (L.view link.old) (L.view link.new) }
        ensures link { GoesOn (L.view link.old) (L.view link.new) }
        ensures gave { Tells (Gave self.old self.new (waits_of_sent result))
            (L.view link.old) (L.view link.new) }
        ensures uses { (L.view link.old).usage ≡ Open → UsesSent result (L.view link.new).usage }
        ensures spares { SparesSent result
            (L.view link.old).waits_left (L.view link.new).waits_left }
    {
        let line = self.answer.line();
        while self.gone < line.len() {
            let (_, rest) = line.split_at(self.gone);
            match link.write(rest) {
                Put::Gave(count) => self.gone += count,
                Put::NotYet => return Sent::NotYet,
                Put::Failed => return Sent::Lost,
            }
        }
        Sent::All
    }
}
