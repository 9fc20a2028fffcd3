//! Whom a message goes to.
use crate::Address;
use std::marker::Model;

/// A recipient of a message: its address, and the one that the sender wrote before that was mapped
/// to it, where that is another. A contract sees it as the record of the two.
#[derive(Clone, Copy, Debug, PartialEq, Eq)]
pub struct Receiver {
    pub address: Address,
    pub original: Option<Address>,
}

impl Model for Receiver {
    ghost use Rattle.q_model.specs.Values.{Receiver as ReceiverValue};

    ghost Value = { ReceiverValue };

    ghost view = { λ r. record { address = r.address; original = r.original } };

    ghost inverse = { λ v. record { address = v.address; original = v.original } };
}
