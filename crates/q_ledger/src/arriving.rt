//! A message comes into incoming.
ghost use Rattle.std.specs.Prelude.{IfOk, List, OnErr, OnOk, false, length, map, ℕ, ◌&&◌, ◌+◌, ◌≡◌, ◌≤◌};
ghost use Rattle.q_model.specs.Ids.{id_eq};
ghost use Rattle.q_ledger.specs.Changed.{arrived_at, arrived_in, fresh_recipient};
ghost use Rattle.q_ledger.specs.Following.{Changes};

use crate::accounts::Accounts;
use crate::clock::Clock;
use crate::ledger::Ledger;
use crate::message::{Message, Recipient, count_written};
use q_model::{Address, Entry, Id, Mark, NoMemory, Place, Receiver};
use std::alloc::Global;

fn unmarked(receiver: &Receiver) -> Recipient
    ensures { result ≡ fresh_recipient receiver.now }
{
    Recipient {
        address: receiver.address,
        mark: Mark::Unmarked,
    }
}

fn all_unmarked(alloc: Global, to: &[Receiver]) -> Result<Vec<Recipient>, NoMemory>
    ensures { IfOk result (λ rs. rs.items ≡ map fresh_recipient to.now) }
{
    let recipients = to.iter().map(|receiver| unmarked(receiver)).collect(alloc)?;
    Ok(recipients)
}

/// The message as it arrives.
fn arrived(
    alloc: Global,
    clock: Clock,
    id: Id,
    sender: &Option<Address>,
    to: &[Receiver],
) -> Result<Message, NoMemory>
    requires { length to.now ≤ 50000 }
    ensures { IfOk result (λ m. m ≡ arrived_at clock.seconds id sender.now to.now) }
{
    let recipients = all_unmarked(alloc, to)?;
    let written = count_written(&recipients);
    Ok(Message {
        id,
        sender: *sender,
        arrival: clock.seconds,
        recipients,
        failures: Vec::new(alloc),
        place: Place::Incoming,
        written,
    })
}

impl Ledger {
    /// Whether the id is that of the next message.
    fn is_next_id(&self, accounts: &Accounts, id: Id) -> bool
        ensures { result ≡ id_eq id (record {
          generation = self.now.ledger.book.generation;
          serial = accounts.now.arrivals + 1;
          bounce = false;
        }) }
    {
        !id.bounce
            && id.generation == self.book.generation
            && u128::from(id.serial) == u128::from(accounts.arrivals) + 1
    }

    pub(crate) fn may_arrive(&self, accounts: &Accounts, id: Id) -> bool
        ensures { result ≡ (self.now.ledger.timed && id_eq id (record {
          generation = self.now.ledger.book.generation;
          serial = accounts.now.arrivals + 1;
          bounce = false;
        })) }
    {
        self.timed && self.is_next_id(accounts, id)
    }

    fn add_arrival(
        &mut self,
        alloc: Global,
        id: Id,
        sender: &Option<Address>,
        to: &[Receiver],
    ) -> Result<(), NoMemory>
        requires { length to.now ≤ 50000 }
        ensures ok { OnOk result (self.new ≡ arrived_in id sender.now to.now self.old) }
        ensures err { OnErr result (self.new ≡ self.old) }
    {
        let message = arrived(alloc, self.clock, id, sender, to)?;
        self.book.add_message(message)?;
        Ok(())
    }

    /// The message stands in incoming.
    pub(crate) fn arrive(
        &mut self,
        alloc: Global,
        id: Id,
        sender: &Option<Address>,
        to: &[Receiver],
    ) -> Result<(), NoMemory>
        requires { length to.now ≤ 50000 }
        ensures ok { (content : List ℕ) → OnOk result
            (Changes self.old (Entry.Arrive id sender.now to.now content) self.new) }
        ensures err { OnErr result (self.new ≡ self.old) }
    {
        self.add_arrival(alloc, id, sender, to)?;
        Ok(())
    }
}
