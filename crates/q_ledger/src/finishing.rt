//! When a message may leave active.
ghost use Rattle.std.specs.Prelude.{◌≡◌, ◌&&◌, false, if◌then◌else◌, is_none};
ghost use Rattle.std.specs.List.{list_any};
ghost use Rattle.std.specs.Option.{option_map_or};
ghost use Rattle.q_model.specs.Book.{message_of};
ghost use Rattle.q_model.specs.Finishing.{has_bounce};
ghost use Rattle.q_model.specs.Ids.{id_eq};
ghost use Rattle.q_model.specs.Leftovers.{was_synced};
ghost use Rattle.q_model.specs.Times.{due, is_expired};
ghost use Rattle.q_ledger.specs.Held.{is_at_rest_in, is_idle_in, is_undone, may_bounce_in, may_defer_in, may_remove_in, may_sync_in};
ghost use Rattle.q_ledger.specs.Worlds.{world_of};

use crate::clock::Clock;
use crate::ids::bounce_of;
use crate::ledger::Ledger;
use crate::message::Message;
use crate::world::World;
use q_model::{Id, Moment};

/// When the message is due again: as far ahead as its age, within the bounds of the back-off.
pub(crate) fn due(world: &World, clock: Clock, message: &Message) -> Moment
    ensures { result ≡ due (world_of world.now) clock.seconds message.now }
{
    let least = u64::from(world.params.minimal_backoff_time);
    let most = u64::from(world.params.maximal_backoff_time);
    clock.seconds + least.max(most.min(clock.since(message.arrival)))
}

/// The lifetime of a message; bounces have one of their own.
fn lifetime(world: &World, message: &Message) -> u32
    ensures { result ≡ (if is_none message.now.sender then world.now.settings.bounce_lifetime
        else world.now.settings.lifetime) }
{
    if message.sender.is_none() {
        world.params.bounce_queue_lifetime
    } else {
        world.params.maximal_queue_lifetime
    }
}

/// Whether the message has reached its lifetime.
pub(crate) fn is_expired(world: &World, clock: Clock, message: &Message) -> bool
    ensures { result ≡ is_expired (world_of world.now) clock.seconds message.now }
{
    u64::from(lifetime(world, message)) <= clock.since(message.arrival)
}

impl Ledger {
    /// Whether the message is idle, or was left by an earlier life and synced.
    fn is_at_rest(&self, id: Id) -> bool
        ensures { result ≡ is_at_rest_in self.now id }
    {
        self.is_idle(id) || self.is_leftover(id) && self.was_synced(id)
    }

    /// Whether the bounce of the message stands in incoming.
    fn has_bounce(&self, id: Id) -> bool
        ensures { result ≡ has_bounce self.now.ledger id }
    {
        self.book.stands_in_incoming(bounce_of(id))
    }

    fn may_be_bounced(&self, id: Id, message: &Message) -> bool
        ensures { result ≡ may_bounce_in self.now id message.now }
    {
        message.is_active()
            && self.is_at_rest(id)
            && message.is_done()
            && message.wants_bounce()
            && !self.has_bounce(id)
    }

    fn may_be_removed(&self, id: Id, message: &Message) -> bool
        ensures { result ≡ may_remove_in self.now id message.now }
    {
        message.is_active()
            && self.is_at_rest(id)
            && message.is_done()
            && (!message.wants_bounce() || self.has_bounce(id))
    }

    fn may_be_deferred(&self, world: &World, moment: Moment, message: &Message) -> bool
        ensures { result ≡ may_defer_in world.now self.now moment message.now }
    {
        message.has_pending() && message.is_clean() && moment == due(world, self.clock, message)
    }

    pub(crate) fn may_bounce(&self, id: Id) -> bool
        ensures { result ≡ option_map_or (may_bounce_in self.now id)
            (message_of self.now.ledger.book id) false }
    {
        match self.book.message(id) {
            Some(message) => self.may_be_bounced(id, message),
            None => false,
        }
    }

    pub(crate) fn may_remove(&self, id: Id) -> bool
        ensures { result ≡ option_map_or (may_remove_in self.now id)
            (message_of self.now.ledger.book id) false }
    {
        match self.book.message(id) {
            Some(message) => self.may_be_removed(id, message),
            None => false,
        }
    }

    fn may_defer_idle(&self, world: &World, id: Id, moment: Moment) -> bool
        ensures { result ≡ option_map_or (may_defer_in world.now self.now moment)
            (message_of self.now.ledger.book id) false }
    {
        match self.book.message(id) {
            Some(message) => self.may_be_deferred(world, moment, message),
            None => false,
        }
    }

    pub(crate) fn may_defer(&self, world: &World, id: Id, moment: Moment) -> bool
        ensures { result ≡ (is_idle_in self.now id
            && option_map_or (may_defer_in world.now self.now moment)
            (message_of self.now.ledger.book id) false) }
    {
        self.is_idle(id) && self.may_defer_idle(world, id, moment)
    }

    fn may_be_put_back(&self, id: Id) -> bool
        ensures { result ≡ option_map_or is_undone (message_of self.now.ledger.book id) false }
    {
        match self.book.message(id) {
            Some(message) => message.has_marks() && message.is_clean() && message.has_pending(),
            None => false,
        }
    }

    pub(crate) fn may_back(&self, id: Id) -> bool
        ensures { result ≡ (list_any (id_eq id) self.now.leftovers
            && was_synced self.now.ledger id
            && option_map_or is_undone (message_of self.now.ledger.book id) false) }
    {
        self.is_leftover(id) && self.was_synced(id) && self.may_be_put_back(id)
    }

    pub(crate) fn may_sync(&self, id: Id) -> bool
        ensures { result ≡ option_map_or (may_sync_in self.now id)
            (message_of self.now.ledger.book id) false }
    {
        match self.book.message(id) {
            Some(message) => message.is_active() && (self.is_leftover(id) || !message.is_clean()),
            None => false,
        }
    }
}
