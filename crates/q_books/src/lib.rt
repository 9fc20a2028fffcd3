//! When a disk stands for a book: what reads give stands for it, and so does what a crash leaves, as
//! far as a crash may change a book. On it stands what is said of each call that changes a spool:
//! the call takes the host from one book to another, and a crash meanwhile leaves the one or the
//! other. The definitions are in `specs/`, and the laws on calls that follow one another in
//! `proofs/`, both for the crates above.
#![tactic(auto)]

ghost use Rattle.q_books.specs.Spots.{spot_of};
ghost use Rattle.q_model.specs.SpoolFiles.{IsPlace};
ghost use Rattle.std.specs.Prelude.{◌≡◌};

use q_model::{Area, Id, Place, Spot, due_name, id_name};

/// Where the file of a message stands (qmgr(8), "mail queues"). It is an error to ask for a due
/// moment of more than 12 digits.
pub fn file_spot(place: Place, id: Id) -> Spot
    requires { IsPlace place }
    ensures { result ≡ spot_of place id }
{
    let name = match place {
        Place::Deferred(due) => due_name(due, id),
        _ => id_name(id),
    };
    let area = match place {
        Place::Incoming => Area::Incoming,
        Place::Active => Area::Active,
        Place::Deferred(_) => Area::Deferred,
        Place::Hold => Area::Hold,
        Place::Corrupt => Area::Corrupt,
    };
    Spot { area, name }
}
