//! What became of recipients.

/// Whether a delivery reached its site. With `Down` every outcome of the delivery is `Later`.
#[derive(Clone, Copy, Debug, PartialEq, Eq)]
pub enum SiteState {
    Up,
    Down,
}

/// What a delivery agent says of one recipient, with the code of its reply (RFC 5321, section
/// 4.2): 0 for none, or 400 to 499 beside `Later` and 500 to 599 beside `Never`.
#[derive(Clone, Copy, Debug, PartialEq, Eq)]
pub enum Outcome {
    Ok,
    Later(u16),
    Never(u16),
}

/// Why a recipient failed: it was refused for good, or its message grew too old.
#[derive(Clone, Copy, Debug, PartialEq, Eq)]
pub enum Why {
    Refused,
    Expired,
}

/// A record of a failure log. The code is 0 or 400 to 599.
#[derive(Clone, Copy, Debug, PartialEq, Eq)]
pub struct Failure {
    pub position: u32,
    pub why: Why,
    pub code: u16,
}

/// A record of a deferral log. The code is 0 or 400 to 599.
#[derive(Clone, Copy, Debug, PartialEq, Eq)]
pub struct Note {
    pub position: u32,
    pub code: u16,
}
