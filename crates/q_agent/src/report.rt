//! What an agent is asked, and what it reports.

use q_model::{Id, Outcomes, Site, SiteState};

/// A delivery of a message in active to some of its recipients, at the next hop of a site. A
/// delivery is known by its number.
#[derive(Clone, Copy, Debug, PartialEq, Eq)]
pub struct Request {
    pub number: u64,
    pub id: Id,
    pub site: Site,
}

/// What came of a delivery: an outcome for each recipient, in the order of the positions that were
/// asked for. With `Down` each is `Later(0)`.
#[derive(Debug, Drop)]
pub struct Report {
    pub number: u64,
    pub site: SiteState,
    pub outcomes: Outcomes,
}
