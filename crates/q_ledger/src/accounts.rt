//! The accounts of jobs: how many deliveries each began since its admission, and what it was charged
//! (SCHEDULER_README, delivery slots); and how much came and began in this life.
ghost use Rattle.std.specs.Prelude.{◌≡◌, ◌<◌, [], filter, find, length, not, OnOk, position, vec_capacity, vec_len};
ghost use Rattle.std.specs.Option.{option_copied};
ghost use Rattle.q_bare.specs.Counts.{Counts, counts_after};
ghost use Rattle.q_model.specs.Ids.{id_eq};
ghost use Rattle.q_ledger.specs.Beside.{AreAccounts};
ghost use Rattle.q_ledger.specs.Counted.{charged_in, charged_jobs, is_of, raised, started_jobs, starts_in, with_charge, with_start};
ghost use Rattle.q_ledger.specs.Accounting.{AreFew, HasChanged, HasRoom, IsChargedWithin};

use crate::ids::same_id;
use q_model::{Entry, Id, NoMemory};
use std::alloc::Global;

/// What a message has begun at a transport, and what was charged to it there. One without an account
/// has begun nothing, and was charged nothing.
#[derive(Clone, Copy, Debug)]
pub(crate) struct Account {
    pub(crate) id: Id,
    pub(crate) transport: u8,
    pub(crate) starts: u64,
    pub(crate) charged: u64,
}

/// What the entries of this life count to.
#[derive(Debug, Drop)]
pub(crate) struct Accounts {
    /// Deliveries begun in this life.
    pub(crate) starts: u64,
    /// Messages that came in this life.
    pub(crate) arrivals: u64,
    pub(crate) jobs: Vec<Account>,
}

fn is_of(account: &Account, id: Id, transport: u8) -> bool
    ensures { result ≡ is_of id transport account.now }
{
    same_id(account.id, id) && account.transport == transport
}

/// Whether the account is of another message.
fn is_of_another(account: &Account, id: Id) -> bool
    ensures { result ≡ not (id_eq account.now.id id) }
{
    !same_id(account.id, id)
}

/// The message has no account any more.
fn forget(jobs: &mut Vec<Account>, id: Id)
    ensures { jobs.new.items ≡ filter (λ a. not (id_eq a.id id)) jobs.old.items }
{
    jobs.retain(|account| is_of_another(account, id));
}

/// The place of the job's account.
fn place_of(jobs: &[Account], id: Id, transport: u8) -> Option<usize>
    ensures { result ≡ position (is_of id transport) jobs.now }
{
    jobs.iter()
        .position(|account| is_of(account, id, transport))
}

/// The job of this account has begun one delivery more.
fn add_start(jobs: &mut Vec<Account>, place: usize)
    requires { place < length jobs.old.items }
    ensures { HasChanged with_start place jobs.old.items jobs.new.items }
{
    let account = &mut jobs[place];
    account.starts = account.starts.saturating_add(1);
}

/// So much more is charged to the job of this account.
fn add_charge(jobs: &mut Vec<Account>, place: usize, need: u64)
    requires { place < length jobs.old.items }
    ensures { HasChanged (with_charge need) place jobs.old.items jobs.new.items }
{
    let account = &mut jobs[place];
    account.charged = account.charged.saturating_add(need);
}

/// A delivery of the job begins.
fn note_start(jobs: &mut Vec<Account>, id: Id, transport: u8)
    ensures { vec_len jobs.old < vec_capacity jobs.old
        → jobs.new.items ≡ started_jobs id transport jobs.old.items }
{
    match place_of(jobs, id, transport) {
        Some(place) => add_start(jobs, place),
        None => {
            let _ = jobs.push(Account {
                id,
                transport,
                starts: 1,
                charged: 0,
            });
        }
    }
}

/// So much more is charged to the job.
fn note_charge(jobs: &mut Vec<Account>, id: Id, transport: u8, need: u64)
    ensures { vec_len jobs.old < vec_capacity jobs.old
        → jobs.new.items ≡ charged_jobs id transport need jobs.old.items }
{
    match place_of(jobs, id, transport) {
        Some(place) => add_charge(jobs, place, need),
        None => {
            let _ = jobs.push(Account {
                id,
                transport,
                starts: 0,
                charged: need,
            });
        }
    }
}

impl Accounts {
    pub(crate) fn new(alloc: Global) -> Accounts
        ensures starts { result.starts ≡ 0 }
        ensures arrivals { result.arrivals ≡ 0 }
        ensures jobs { result.jobs.items ≡ [] }
    {
        Accounts {
            starts: 0,
            arrivals: 0,
            jobs: Vec::new(alloc),
        }
    }

    fn account(&self, id: Id, transport: u8) -> Option<&Account>
        ensures { option_copied result ≡ find (is_of id transport) self.now.jobs.items }
    {
        self.jobs
            .iter()
            .find(|account| is_of(account, id, transport))
    }

    /// The deliveries that the job has begun since its admission.
    pub(crate) fn starts_of(&self, id: Id, transport: u8) -> u64
        ensures { result ≡ starts_in self.now id transport }
    {
        match self.account(id, transport) {
            Some(account) => account.starts,
            None => 0,
        }
    }

    /// The slots charged to the job since its admission.
    pub(crate) fn charged(&self, id: Id, transport: u8) -> u64
        ensures { result ≡ charged_in self.now id transport }
    {
        match self.account(id, transport) {
            Some(account) => account.charged,
            None => 0,
        }
    }

    /// Makes room for one account more.
    pub(crate) fn reserve(&mut self) -> Result<(), NoMemory>
        ensures room { OnOk result (HasRoom self.new) }
        ensures starts { self.new.starts ≡ self.old.starts }
        ensures arrivals { self.new.arrivals ≡ self.old.arrivals }
        ensures jobs { self.new.jobs.items ≡ self.old.jobs.items }
    {
        self.jobs.reserve(1)?;
        Ok(())
    }

    /// Nothing was counted yet.
    fn clear(&mut self)
        ensures starts { self.new.starts ≡ 0 }
        ensures arrivals { self.new.arrivals ≡ 0 }
        ensures jobs { self.new.jobs.items ≡ [] }
    {
        self.starts = 0;
        self.arrivals = 0;
        self.jobs.clear();
    }

    /// The message comes into memory anew.
    fn begin(&mut self, id: Id)
        ensures starts { self.new.starts ≡ self.old.starts }
        ensures arrivals { self.new.arrivals ≡ self.old.arrivals }
        ensures jobs { self.new.jobs.items ≡ filter (λ a. not (id_eq a.id id)) self.old.jobs.items }
    {
        forget(&mut self.jobs, id);
    }

    /// A message comes.
    fn arrive(&mut self)
        ensures starts { self.new.starts ≡ self.old.starts }
        ensures arrivals { self.new.arrivals ≡ raised self.old.arrivals 1 }
        ensures jobs { self.new.jobs.items ≡ self.old.jobs.items }
    {
        self.arrivals = self.arrivals.saturating_add(1);
    }

    /// A delivery of the job begins.
    fn start(&mut self, id: Id, transport: u8)
        ensures starts { self.new.starts ≡ raised self.old.starts 1 }
        ensures arrivals { self.new.arrivals ≡ self.old.arrivals }
        ensures jobs { HasRoom self.old
            → self.new.jobs.items ≡ started_jobs id transport self.old.jobs.items }
    {
        self.starts = self.starts.saturating_add(1);
        note_start(&mut self.jobs, id, transport);
    }

    /// A job with this need preempts the job.
    fn charge(&mut self, id: Id, transport: u8, need: u32)
        ensures starts { self.new.starts ≡ self.old.starts }
        ensures arrivals { self.new.arrivals ≡ self.old.arrivals }
        ensures jobs { HasRoom self.old
            → self.new.jobs.items ≡ charged_jobs id transport need self.old.jobs.items }
    {
        note_charge(&mut self.jobs, id, transport, u64::from(need));
    }

    /// Counts an entry; for a start or a preemption there has to be room.
    pub(crate) fn note(&mut self, entry: &Entry)
        ensures { (c : Counts) → AreAccounts self.old c → AreFew c → IsChargedWithin c entry.now
            → HasRoom self.old → AreAccounts self.new (counts_after entry.now c) }
    {
        match entry {
            Entry::Life { .. } => self.clear(),
            Entry::Arrive { .. } => self.arrive(),
            Entry::Admit { id } => self.begin(*id),
            Entry::Start { id, site, .. } => self.start(*id, site.transport),
            Entry::Preempt {
                parent,
                transport,
                need,
                ..
            } => self.charge(*parent, *transport, *need),
            Entry::At { .. } => {}
            Entry::Back { .. } => {}
            Entry::Load { .. } => {}
            Entry::Reply { .. } => {}
            Entry::Skip { .. } => {}
            Entry::Log { .. } => {}
            Entry::Mark { .. } => {}
            Entry::Sync { .. } => {}
            Entry::Defer { .. } => {}
            Entry::Bounce { .. } => {}
            Entry::Remove { .. } => {}
            Entry::Corrupt { .. } => {}
            Entry::Trigger { .. } => {}
            Entry::End => {}
        }
    }
}
