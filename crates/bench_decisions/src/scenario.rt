//! What mail there is, and what becomes of it.
ghost use Rattle.std.specs.Prelude.{◌≡◌, true};
ghost use Rattle.q_core.specs.Hearing.{has_log_code};

use crate::files::Mail;
use q_model::{Outcome, SiteState};

/// The recipients of the large message.
const RECIPIENTS: u32 = 10_000;

/// The next hops of messages that don't have one each.
const HOPS: u32 = 40;

/// So many messages come into memory by the greatest limit.
const MOST: u32 = 50_000;

/// The greatest room for messages and recipients.
const LIMITS: &[u8] = b"qmgr_message_active_limit = 50000\nqmgr_message_recipient_limit = 100000\n";

/// The same, with a delay behind which no next hop comes while this is measured.
const LIMITS_AND_DELAY: &[u8] = b"\
qmgr_message_active_limit = 50000
qmgr_message_recipient_limit = 100000
default_destination_rate_delay = 9999999
";

/// Processes for five deliveries of the large message, five to the next hop that is shared, and one
/// more.
const FEW_PROCESSES: &[u8] = b"default_process_limit = 11\n";

/// The most next hops that rest.
const MOST_RESTING: u32 = 40_000;

/// The most jobs that begin, each with a next hop of its own.
const MOST_BEGUN: u32 = 5_000;

#[derive(Clone, Copy, Debug, PartialEq, Eq)]
pub(crate) enum Scenario {
    /// Small messages at 40 next hops.
    Plain,
    /// The same behind a message of 10,000 recipients.
    Large,
    /// Small messages at one next hop, which dies.
    Dead,
    /// Small messages, each with a next hop of its own.
    Sites,
    /// Next hops that rest, for each of which a message waits, and messages to others.
    Rests,
    /// The same mail, where none rests.
    Awake,
    /// Jobs that began and wait behind a large one, and three that didn't begin.
    Begun,
    /// The same, with a choice behind them.
    Chosen,
}

impl Scenario {
    pub(crate) fn named(word: &str) -> Option<Scenario> {
        match word {
            "plain" => Some(Scenario::Plain),
            "large" => Some(Scenario::Large),
            "dead" => Some(Scenario::Dead),
            "sites" => Some(Scenario::Sites),
            "rests" => Some(Scenario::Rests),
            "awake" => Some(Scenario::Awake),
            "begun" => Some(Scenario::Begun),
            "chosen" => Some(Scenario::Chosen),
            _ => None,
        }
    }

    /// Messages that stand before the small ones.
    pub(crate) fn large_messages(self) -> u32 {
        match self {
            Scenario::Large => 1,
            _ => 0,
        }
    }

    /// The fewest small messages. A site is forgotten where nothing is left for it, and so a single
    /// message doesn't let one die.
    pub(crate) fn fewest(self) -> u32 {
        match self {
            Scenario::Dead => 2,
            _ => 1,
        }
    }

    /// The most small messages.
    pub(crate) fn most(self) -> u32 {
        match self {
            Scenario::Rests | Scenario::Awake => MOST_RESTING,
            Scenario::Begun | Scenario::Chosen => MOST_BEGUN,
            _ => MOST.saturating_sub(self.large_messages()),
        }
    }

    /// Whether jobs begin behind a large one.
    pub(crate) fn begins_jobs(self) -> bool {
        matches!(self, Scenario::Begun | Scenario::Chosen)
    }

    /// Whether mail waits for next hops that were sent to.
    pub(crate) fn waits_again(self) -> bool {
        matches!(self, Scenario::Rests | Scenario::Awake)
    }

    /// The parameters that aren't the defaults.
    pub(crate) fn limits(self) -> &'static [u8] {
        match self {
            Scenario::Rests => LIMITS_AND_DELAY,
            Scenario::Begun | Scenario::Chosen => FEW_PROCESSES,
            _ => LIMITS,
        }
    }

    /// The most recipients of a message.
    pub(crate) fn recipients(self) -> u32 {
        RECIPIENTS
    }

    /// What the messages are like, of which so many are small.
    pub(crate) fn mail(self, messages: u32) -> Mail {
        let (first, hops) = match self {
            Scenario::Plain => (1, HOPS),
            Scenario::Large => (RECIPIENTS, HOPS),
            Scenario::Dead => (1, 1),
            Scenario::Sites => (1, messages),
            Scenario::Rests | Scenario::Awake => return Mail::Rested { hops: messages },
            Scenario::Begun | Scenario::Chosen => return Mail::Begun { jobs: messages },
        };
        Mail::Alike { first, hops }
    }

    /// What a delivery says of its site.
    pub(crate) fn site_state(self) -> SiteState {
        match self {
            Scenario::Dead => SiteState::Down,
            _ => SiteState::Up,
        }
    }

    /// What a delivery says of each recipient.
    pub(crate) fn outcome(self) -> Outcome
        ensures { has_log_code result ≡ true }
    {
        match self {
            Scenario::Dead => Outcome::Later(450),
            _ => Outcome::Ok,
        }
    }
}
