//! Sites, which qmgr(8) calls destinations.
use crate::Hop;
use std::marker::Model;

/// A site: a transport, by its number in the table, and a next hop. Concurrency windows are kept
/// for each site (SCHEDULER_README). A contract sees it as the record of the two.
#[derive(Clone, Copy, Debug, PartialEq, Eq, PartialOrd, Ord)]
pub struct Site {
    pub transport: u8,
    pub hop: Hop,
}

impl Model for Site {
    ghost use Rattle.q_model.specs.Values.{Site as SiteValue};

    ghost Value = { SiteValue };

    ghost view = { λ s. record { transport = s.transport; hop = s.hop } };

    ghost inverse = { λ v. record { transport = v.transport; hop = v.hop } };
}
