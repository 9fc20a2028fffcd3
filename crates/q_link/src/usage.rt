//! Whether a link may be read and written on.
ghost use Rattle.std.specs.Prelude.{◌≡◌};
ghost use Rattle.q_link.specs.Usages.{usage_called, usage_closed};

/// Whether a link may be read and written on.
#[derive(Clone, Copy, Debug, PartialEq, Eq)]
pub enum Usage {
    /// No read or write answered `End` or `Failed`.
    Open,
    /// One did, and none came behind it.
    Closed,
    /// One came behind it.
    Misused,
}

impl Usage {
    /// Behind a call that answered something else.
    pub fn called(self) -> Usage
        ensures { result ≡ usage_called self }
    {
        match self {
            Usage::Open => Usage::Open,
            Usage::Closed | Usage::Misused => Usage::Misused,
        }
    }

    /// Behind a call that answered `End` or `Failed`.
    pub fn closed(self) -> Usage
        ensures { result ≡ usage_closed self }
    {
        match self {
            Usage::Open => Usage::Closed,
            Usage::Closed | Usage::Misused => Usage::Misused,
        }
    }
}
