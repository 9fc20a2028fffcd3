//! What is kept of each message, and of each of its recipients in memory.
ghost use Rattle.std.specs.BTreeMap.{get, is_at};
ghost use Rattle.std.specs.Option.{option_copied};
ghost use Rattle.std.specs.Ordering.{nat_cmp};
ghost use Rattle.std.specs.Prelude.{◌≡◌, cond, None, Some, ℕ};
ghost use Rattle.q_model.specs.declared.id.Id.{Id as Ids};
ghost use Rattle.q_places.specs.Kept.{AddsMarks, IsFewer, IsPutIn, kept_file, kept_mark, kept_order, kept_progress};

use q_model::{Batch, Cursor, Id};
use std::alloc::Global;
use std::collections::BTreeMap;

/// How far the recipients of a message were read: how many its queue file has, and the place behind
/// the last that was read.
#[derive(Debug, Drop)]
pub struct Progress {
    pub recipients: u32,
    pub next: Cursor,
}

/// What is kept of a message: how far it was read, and the offset of each mark, by position.
#[derive(Drop)]
struct KeptFile {
    progress: Progress,
    marks: BTreeMap<u32, u64>,
}

/// The places that are kept, by message.
#[derive(Drop)]
pub struct Places {
    files: BTreeMap<Id, KeptFile>,
}

/// Keeps the offsets of the marks of these recipients, as far as memory goes.
fn keep_marks(marks: &mut BTreeMap<u32, u64>, taken: &Batch)
    ensures { AddsMarks taken.now.items marks.old marks.new }
{
    for i in 0..taken.len() {
        let recipient = taken.get(i);
        let _ = marks.insert(recipient.position, recipient.mark_at);
    }
}

impl Places {
    /// Nothing is kept.
    pub fn new(alloc: Global) -> Places
        ensures { (id : Ids) → kept_file result id ≡ None }
    {
        Places {
            files: BTreeMap::new(alloc),
        }
    }

    /// How far a message was read.
    pub fn progress(&self, id: Id) -> Option<&Progress>
        ensures { option_copied result ≡ kept_progress self.now id }
    {
        match self.files.get(&id) {
            Some(file) => Some(&file.progress),
            None => None,
        }
    }

    /// The offset in bytes of a recipient's mark, which is kept no longer.
    pub fn take_mark(&mut self, id: Id, position: u32) -> Option<u64>
        ensures offset { result ≡ kept_mark self.old id position }
        ensures gone { kept_mark self.new id position ≡ None }
        ensures rest { IsFewer self.old self.new }
    {
        match self.files.get_mut(&id) {
            Some(file) => file.marks.remove(&position),
            None => None,
        }
    }

    /// Nothing of this message is kept any longer.
    pub fn forget(&mut self, id: Id)
        ensures gone { kept_file self.new id ≡ None }
        ensures rest { IsFewer self.old self.new }
    {
        let _ = self.files.remove(&id);
    }

    /// The offsets of the marks of a message, of which nothing is kept any longer.
    fn release_marks(&mut self, alloc: Global, id: Id) -> BTreeMap<u32, u64>
        ensures marks { (position at : ℕ) → get nat_cmp result position ≡ Some at
            → kept_mark self.old id position ≡ Some at }
        ensures gone { (q : Ids) → kept_file self.new q
            ≡ cond (is_at (kept_order id) q) None (kept_file self.old q) }
    {
        match self.files.remove(&id) {
            Some(file) => file.marks,
            None => BTreeMap::new(alloc),
        }
    }

    /// Keeps how far a message was read, and the offsets of the marks of recipients that came into
    /// memory. Where memory is wanting, some of it is forgotten.
    pub fn keep(&mut self, alloc: Global, id: Id, progress: Progress, taken: &Batch)
        ensures { IsPutIn id progress taken.now.items self.old self.new }
    {
        let mut marks = self.release_marks(alloc, id);
        keep_marks(&mut marks, taken);
        let _ = self.files.insert(id, KeptFile { progress, marks });
    }
}
