//! The queues of a walk, and what the names of their files say.
ghost use Rattle.std.specs.Prelude.{◌≡◌, IfNone, IfSome};
ghost use Rattle.q_model.specs.declared.id.Id.{Id};
ghost use Rattle.q_model.specs.declared.rows.Place.{Place};
ghost use Rattle.q_walk.specs.Queues.{is_chosen, IsNamed, queue_after, queue_area};

use q_model::{Area, Id, Name, Place, Queues, due_of, id_of};

/// A queue of a walk. A walk comes to them in this order.
#[derive(Clone, Copy, Debug, PartialEq, Eq)]
pub(crate) enum Queue {
    Incoming,
    Active,
    Deferred,
    Hold,
}

/// The area of the queue's files.
pub(crate) fn queue_area(queue: Queue) -> Area
    ensures { result ≡ queue_area queue }
{
    match queue {
        Queue::Incoming => Area::Incoming,
        Queue::Active => Area::Active,
        Queue::Deferred => Area::Deferred,
        Queue::Hold => Area::Hold,
    }
}

/// The queue behind this one.
pub(crate) fn queue_after(queue: Queue) -> Option<Queue>
    ensures { result ≡ queue_after queue }
{
    match queue {
        Queue::Incoming => Some(Queue::Active),
        Queue::Active => Some(Queue::Deferred),
        Queue::Deferred => Some(Queue::Hold),
        Queue::Hold => None,
    }
}

/// Whether the queue is one of those that were chosen.
pub(crate) fn is_chosen(queues: Queues, queue: Queue) -> bool
    ensures { result ≡ is_chosen queues queue }
{
    match queue {
        Queue::Incoming => queues.incoming,
        Queue::Active => queues.active,
        Queue::Deferred => queues.deferred,
        Queue::Hold => queues.hold,
    }
}

/// The place and the id of which a file of the queue has this name. `None` where it has another
/// form than the names of the queue's files.
pub(crate) fn named_in(queue: Queue, name: Name) -> Option<(Place, Id)>
    ensures some { IfSome result (λ d. IsNamed queue name d.0 d.1) }
    ensures none { IfNone result ((place : Place) → (id : Id) → IsNamed queue name place id → ⊥) }
{
    match queue {
        Queue::Incoming => Some((Place::Incoming, id_of(name)?)),
        Queue::Active => Some((Place::Active, id_of(name)?)),
        Queue::Deferred => {
            let (due, id) = due_of(name)?;
            Some((Place::Deferred(due), id))
        }
        Queue::Hold => Some((Place::Hold, id_of(name)?)),
    }
}
