//! What becomes of a message that is done: its notice to the sender is stored where it wants one,
//! and then it is gone.
ghost use Rattle.std.specs.Prelude.{◌≡◌, ◌≤◌, ◌∷◌, [], false, IfOk, IsTrue, length, None, OnErr, OnOk};
ghost use Rattle.q_books.specs.HostStands.{KeepsNotes, TakesBy, TriesBy};
ghost use Rattle.q_core.specs.declared.decision.Decision.TheVariants as decisions;
ghost use Rattle.q_engine.specs.BounceTexts.{AddsBounce, IsNoBounce};
ghost use Rattle.q_engine.specs.Steps.{CarriesOut, EachError, GivesDecisionUp, HasNext};
ghost use Rattle.q_entries.specs.Causes.{HostCause};
ghost use Rattle.q_host.specs.Faults.{DiskCause};
ghost use Rattle.q_host.specs.View.{Told};
ghost use Rattle.q_message.specs.Told.{IsThere};
ghost use Rattle.q_model.specs.Ids.{bounce_of};
ghost use Rattle.q_places.specs.Kept.{kept_file};

use crate::engine::Engine;
use crate::mailing::store;
use crate::notices::notice_at;
use crate::read_fault::head_at;
use q_books::file_spot;
use q_entries::tell;
use q_files::remove;
use q_host::{Host, HostError};
use q_model::{
    Address, Addresses, Entry, FileHead, Head, Id, Moment, NoMemory, Place, Receiver, Spot,
};
use std::alloc::Global;

fn bounce_of(id: Id) -> Id
    ensures { result ≡ bounce_of id }
{
    Id { bounce: true, ..id }
}

fn sender_of(head: &FileHead) -> Option<Address>
    ensures { result ≡ head.now.head.sender }
{
    head.head.sender
}

/// A list of one recipient, with this address.
fn alone(alloc: Global, address: &Address) -> Result<Addresses, NoMemory>
    ensures { IfOk result (λ to. to ≡ record { address = address.now; original = None } ∷ []) }
{
    let mut to = Addresses::new(alloc);
    to.push(Receiver {
        address: *address,
        original: None,
    })?;
    Ok(to)
}

/// Stores the bounce of the message whose file stands at the spot. Whether that could be made: where
/// the host tells its files, the message has a sender and can be read.
fn store_bounce<H: Host>(
    alloc: Global,
    host: &mut H,
    spot: Spot,
    id: Id,
    arrival: Moment,
) -> Result<bool, HostError>
    requires there { IsThere H.tells (H.view host.old) spot }
    requires arrival { arrival ≤ 999990000000 }
    ensures ok { OnOk result (TakesBy (AddsBounce (H.view host.old).files spot id arrival)
        H.tells H.view host.old host.new) }
    ensures made { IfOk result (λ made. made ≡ false → IsTrue H.tells
        → IsNoBounce (H.view host.old) spot id arrival) }
    // Whatever it answers.
    ensures tries { TriesBy (AddsBounce (H.view host.old).files spot id arrival)
        H.tells H.view host.old host.new }
    ensures notes { IsTrue H.tells → KeepsNotes (H.view host.old) (H.view host.new) }
    ensures cause { DiskCause (H.faults host.old) (H.faults host.new) result }
{
    let Some(head) = head_at(host, spot)? else {
        return Ok(false);
    };
    let Some(sender) = sender_of(&head) else {
        return Ok(false);
    };
    let Some(text) = notice_at(alloc, host, spot, id, &head, &sender)? else {
        return Ok(false);
    };
    let to = alone(alloc, &sender)?;
    let head = Head {
        sender: None,
        arrival,
    };
    store(alloc, host, bounce_of(id), &head, &to, text.as_slice())?;
    Ok(true)
}

impl Engine {
    /// Removes a message that is done, and its logs.
    pub(crate) fn remove<H: Host>(
        &self,
        alloc: Global,
        host: &mut H,
        id: Id,
    ) -> Result<(), HostError>
        requires decided { IsTrue H.tells → HasNext (decisions.Remove id) self.now (H.view host.old) }
        // Nothing is kept of its places any longer.
        requires forgotten { kept_file self.now.places id ≡ None }
        ensures ok { OnOk result (Told H.tells H.view host.old host.new
            (CarriesOut (decisions.Remove id) self.now self.now)) }
        ensures err { EachError result (λ error. Told H.tells H.view host.old host.new
            (GivesDecisionUp (decisions.Remove id) self.now error)) }
        ensures cause { HostCause (H.faults host.old) (H.faults host.new) result }
    {
        remove(host, file_spot(Place::Active, id), id)?;
        tell(alloc, host, &self.table, &Entry::Remove { id })
    }

    /// Stores the notice of a message that is done, for its sender. A message of which it can't be
    /// made, since it can't be read, goes to corrupt instead; that is told later, with its `Corrupt`.
    pub(crate) fn bounce<H: Host>(
        &mut self,
        alloc: Global,
        host: &mut H,
        id: Id,
    ) -> Result<(), HostError>
        requires { IsTrue H.tells → HasNext (decisions.Bounce id) self.old (H.view host.old) }
        ensures ok { OnOk result (Told H.tells H.view host.old host.new
            (CarriesOut (decisions.Bounce id) self.old self.new)) }
        ensures err { EachError result (λ error. Told H.tells H.view host.old host.new
            (GivesDecisionUp (decisions.Bounce id) self.old error)) }
        ensures question { self.new.core.value.question ≡ self.old.core.value.question }
        ensures timed { self.new.core.value.timed ≡ self.old.core.value.timed }
        ensures cause { HostCause (H.faults host.old) (H.faults host.new) result }
    {
        let spot = file_spot(Place::Active, id);
        let made = store_bounce(alloc, host, spot, id, self.core.now())?;
        if !made {
            self.core.unbounceable(id);
            return Ok(());
        }
        tell(alloc, host, &self.table, &Entry::Bounce { id })
    }
}
