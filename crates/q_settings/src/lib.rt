//! The parameters of a queue manager (postconf(5)), each in its range, and their defaults. How a
//! file sets them is read elsewhere, so that what goes by them needs no text.
#![tactic(auto)]

mod params;

pub use params::Params;
