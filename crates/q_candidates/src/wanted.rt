//! What is looked for among the candidates of a class.
ghost use Rattle.std.specs.Prelude.{◌≡◌};
ghost use Rattle.q_candidates.specs.Walking.{is_open};

use crate::candidate::Candidate;
use q_dest::Sites;
use q_model::Id;

/// What is looked for: a candidate of the transport that needs so many deliveries and is of another
/// message than one.
#[derive(Clone, Copy, Debug)]
pub(crate) struct Wanted {
    pub(crate) transport: u8,
    pub(crate) need: u64,
    pub(crate) except: Id,
}

impl Wanted {
    /// Whether the candidate stands in a lane that is looked for, and its site has space.
    pub(crate) fn is_open(&self, candidate: &Candidate, sites: &Sites) -> bool
        ensures { result ≡ is_open sites.now.items self.now candidate.now }
    {
        candidate.site.transport == self.transport
            && candidate.need == self.need
            && sites.has_space(&candidate.site)
    }
}
