//! A session that isn't over, and its link.
ghost use Rattle.std.specs.Prelude.{◌≡◌, false};
ghost use Rattle.q_link.specs.declared.usage.Usage.TheVariants.{Open};

use q_link::ScriptLink;
use q_session::{Polled, Session};
use q_silent_host::SilentHost;
use std::marker::Model;

/// A session that isn't over, and its link.
#[derive(Drop)]
pub(crate) struct Running {
    session: Session,
    link: ScriptLink,
}

impl Model for Running {
    ghost use Rattle.std.specs.Prelude.{◌≡◌, false};
    ghost use Rattle.q_link.specs.declared.usage.Usage.TheVariants.{Open};

    ghost Value = { Unit {0} };

    ghost view = { λ r. tt };

    ghost invariant = { λ r. (r.session.over ≡ false) × (r.link.view.ended ≡ false) × (r.link.view.usage ≡ Open) };
}

/// What came of a poll.
#[derive(Drop)]
pub(crate) enum Next {
    Working(Running),
    Over(ScriptLink),
}

impl Running {
    pub(crate) fn new(session: Session, link: ScriptLink) -> Running
        requires goes_on { session.over ≡ false }
        requires ended { link.view.ended ≡ false }
        requires usable { link.view.usage ≡ Open }
    {
        Running { session, link }
    }

    /// Polls it; `None` where the host fails.
    pub(crate) fn poll(self, host: &mut SilentHost, now: u64) -> Option<Next> {
        let Running {
            mut session,
            mut link,
        } = self;
        match session.poll(host, &mut link, now).ok()? {
            Polled::Working => Some(Next::Working(Running { session, link })),
            Polled::Over { .. } => Some(Next::Over(link)),
        }
    }
}
