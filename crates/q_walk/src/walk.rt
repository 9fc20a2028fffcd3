//! A walk over the messages of queues.
ghost use Rattle.std.specs.Prelude.{◌≡◌, ◌<◌, ◌≤◌, IfOk, IfSome, IsTrue, List, None, OnOk, Some};
ghost use Rattle.q_host.specs.Calls.{Stays};
ghost use Rattle.q_host.specs.Faults.{DiskCause};
ghost use Rattle.q_host.specs.NamesLeft.{names_left};
ghost use Rattle.q_model.specs.Book.{Book};
ghost use Rattle.q_model.specs.FilesStand.{Stands};
ghost use Rattle.q_model.specs.Message.{Message};
ghost use Rattle.q_model.specs.SpoolFiles.{Files, IsPlace};
ghost use Rattle.q_scan.specs.Walks.{IsUpToDate};
ghost use Rattle.q_walk.specs.Listed.{listed};
ghost use Rattle.q_walk.specs.Queues.{held_behind};
ghost use Rattle.q_walk.specs.Steps.{IsNextName, Leads, LeavesFewer, SaysFile};
ghost use Rattle.q_walk.specs.Walks.{GivesNext, IsAhead, walk_left};

use crate::queue::{Queue, is_chosen, named_in, queue_after, queue_area};
use q_books::file_spot;
use q_host::{Host, HostError};
use q_message::{MessageError, read_head};
use q_model::{FileHead, Id, Moment, Name, NoMemory, Place, Queues, Spot};
use q_scan::Scan;
use std::alloc::Global;

/// The greatest moment that a name in deferred can say.
const LAST_MOMENT: Moment = 999_999_999_999;

/// A message that stands in a queue: where its file stands, and the head of that file.
#[derive(Debug, Drop)]
pub struct Found {
    pub spot: Spot,
    pub place: Place,
    pub id: Id,
    pub head: FileHead,
}

/// A walk over the messages of queues.
#[derive(Drop)]
pub struct Walk {
    alloc: Global,
    queues: Queues,
    queue: Queue,
    /// It walks over the names of the queue.
    scan: Scan,
}

/// What a step of a walk came to.
#[derive(Drop)]
enum Step {
    Given(Found),
    /// A name was passed over, or the queue ended and isn't the last.
    Passed,
    /// The last queue ended.
    Ended,
}

/// The message whose file has this place and id. None where it is no queue file, or where another
/// process took it away since its name was listed.
fn found_at<H: Host>(host: &mut H, place: Place, id: Id) -> Result<Option<Found>, HostError>
    requires { IsPlace place }
    ensures found { IfOk result (λ found. IsTrue H.tells
        → SaysFile (H.view host.old).files place id found) }
    ensures stays { IsTrue H.tells → Stays (H.view host.old) (H.view host.new) }
    ensures cause { DiskCause (H.faults host.old) (H.faults host.new) result }
{
    let spot = file_spot(place, id);
    if !host.has(spot.area, spot.name)? {
        return Ok(None);
    }
    match read_head(host, spot) {
        Ok(head) => Ok(Some(Found {
            spot,
            place,
            id,
            head,
        })),
        Err(MessageError::NotAMessage { .. }) => Ok(None),
        Err(MessageError::Disk) => Err(HostError::Disk),
        Err(MessageError::NoMemory) => Err(HostError::NoMemory),
    }
}

impl Walk {
    /// A walk over the messages of these queues.
    pub fn new(alloc: Global, queues: Queues) -> Result<Walk, NoMemory>
        ensures { IfOk result (λ walk. (f : Files) → (b : Book) → Stands f b
            → IsAhead f b walk (listed queues b)) }
    {
        let queue = Queue::Incoming;
        let scan = Scan::new(alloc, queue_area(queue))?;
        Ok(Walk {
            alloc,
            queues,
            queue,
            scan,
        })
    }

    /// The next name of the queue, where the queue is chosen.
    fn next_name<H: Host>(&mut self, host: &mut H) -> Result<Option<Name>, HostError>
        ensures queues { self.new.queues ≡ self.old.queues }
        ensures queue { self.new.queue ≡ self.old.queue }
        ensures area { self.new.scan.area ≡ self.old.scan.area }
        ensures place { IfOk result (λ o. IfSome o (λ x. self.new.scan.place ≡ Some x)) }
        ensures left_over { OnOk result (names_left self.new.scan.place
            ≤ names_left self.old.scan.place) }
        ensures fewer { IfOk result (λ o. IfSome o (λ _.
            names_left self.new.scan.place < names_left self.old.scan.place)) }
        ensures exact { IfOk result (λ o. IsTrue H.tells
            → IsUpToDate (H.view host.old).files self.old.scan
            → IsNextName (H.view host.old).files self.old o) }
        ensures up_to_date { OnOk result (IsTrue H.tells
            → IsUpToDate (H.view host.old).files self.old.scan
            → IsUpToDate (H.view host.old).files self.new.scan) }
        ensures stays { IsTrue H.tells → Stays (H.view host.old) (H.view host.new) }
        ensures cause { DiskCause (H.faults host.old) (H.faults host.new) result }
    {
        if !is_chosen(self.queues, self.queue) {
            return Ok(None);
        }
        self.scan.next(host, LAST_MOMENT)
    }

    /// Goes on to the queue behind this one, of which no name is left.
    fn next_queue(&mut self) -> Result<Step, NoMemory>
        ensures step { IfOk result (λ step. (f : Files) → (b : Book)
            → Leads f b self.new (held_behind self.old.queues self.old.queue b) step) }
        ensures fewer { IfOk result (LeavesFewer self.old self.new) }
    {
        let Some(queue) = queue_after(self.queue) else {
            return Ok(Step::Ended);
        };
        self.scan = Scan::new(self.alloc, queue_area(queue))?;
        self.queue = queue;
        Ok(Step::Passed)
    }

    /// Comes to the next name of the queue, or to the queue behind it.
    fn step<H: Host>(&mut self, host: &mut H) -> Result<Step, HostError>
        ensures step { IfOk result (λ step. IsTrue H.tells → (b : Book) → (ms : List Message)
            → Stands (H.view host.old).files b → IsAhead (H.view host.old).files b self.old ms
            → Leads (H.view host.old).files b self.new ms step) }
        ensures fewer { IfOk result (LeavesFewer self.old self.new) }
        ensures stays { IsTrue H.tells → Stays (H.view host.old) (H.view host.new) }
        ensures cause { DiskCause (H.faults host.old) (H.faults host.new) result }
    {
        let Some(name) = self.next_name(host)? else {
            return Ok(self.next_queue()?);
        };
        let Some((place, id)) = named_in(self.queue, name) else {
            return Ok(Step::Passed);
        };
        match found_at(host, place, id)? {
            Some(found) => Ok(Step::Given(found)),
            None => Ok(Step::Passed),
        }
    }

    /// The next message of the queues. Where the files stand for a book, and no file changed since
    /// the walk began, they come in the order of the listing, and `None` behind the last.
    pub fn next<H: Host>(&mut self, host: &mut H) -> Result<Option<Found>, HostError>
        ensures next { IfOk result (λ o. IsTrue H.tells → (b : Book) → (ms : List Message)
            → Stands (H.view host.old).files b → IsAhead (H.view host.old).files b self.old ms
            → GivesNext (H.view host.old).files b self.new ms o) }
        // Each that is given leaves fewer, whatever else is added.
        ensures fewer { IfOk result (λ o. IfSome o (λ _. walk_left self.new < walk_left self.old)) }
        ensures stays { IsTrue H.tells → Stays (H.view host.old) (H.view host.new) }
        ensures cause { DiskCause (H.faults host.old) (H.faults host.new) result }
    {
        loop {
            match self.step(host)? {
                Step::Given(found) => return Ok(Some(found)),
                Step::Passed => {}
                Step::Ended => return Ok(None),
            }
        }
    }
}
