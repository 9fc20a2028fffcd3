//! The recount of a trace.
ghost use Rattle.std.specs.Prelude.{◌≡◌, ◌++◌, ◌<◌, ◌^◌, [], not, length, List, Ok, OnErr, OnOk, IfOk, false, true, ℕ, ◌∷◌};
ghost use Rattle.q_fronts.specs.Fronts.{IsLedgerAfter};
ghost use Rattle.q_ledger.specs.Beside.{recipients_in};
ghost use Rattle.q_ledger.specs.Holding.{Holds, IsBrokenBy, IsJudgment, TakesOver, goes_on, has_begun};
ghost use Rattle.q_ledger.specs.Rows.{HasTime};
ghost use Rattle.q_ledger.specs.Worlds.{world_of};
ghost use Rattle.q_ledger.specs.declared.recount.Judged.TheVariants.{Broken, Lawful};
ghost use Rattle.q_model.specs.Ledger.{Ledger as LedgerValue};
ghost use Rattle.q_model.specs.Past.{is_end};
ghost use Rattle.q_model.specs.Settings.{World as WorldValue};
ghost use Rattle.q_model.specs.declared.entry.Entry.{Entry as EntryValue};

use crate::accounts::Accounts;
use crate::ledger::Ledger;
use crate::verdict::{first_generation, judge_first, judge_living};
use crate::world::{World, is_in_range};
use q_bare::{
    held_begins, held_goes_on, held_judges, held_rules, next_is_the_same, rows_are_the_same,
};
use q_fronts::{fronts_fit, fronts_open, ledgers_are_one};
use q_laws::next_is_allowed;
use q_model::{Entry, Id, NoMemory};
use q_settings::Params;
use q_transport::Table;
use std::alloc::Global;
use std::marker::Model;

/// How an entry is judged. A broken one has the number of the row that doesn't allow it, from 1 to 19,
/// or 20 where it is allowed and isn't what comes next.
#[derive(Clone, Copy, Debug, PartialEq, Eq)]
pub enum Judged {
    Lawful,
    Broken { rule: u8 },
}

/// How far a trace has come.
#[derive(Clone, Copy, Debug, PartialEq, Eq)]
pub(crate) enum Stage {
    /// Before the first life.
    Before,
    Living,
    Ended,
}

/// The ledger of the entries that were lawful so far. A contract sees what it goes by, how far the trace
/// has come, the lists of the ledger, and what the entries of its life count to.
#[derive(Drop)]
pub struct Recount {
    world: World,
    stage: Stage,
    ledger: Ledger,
    accounts: Accounts,
}

impl Model for Recount {
    ghost use Rattle.q_ledger.specs.Holding.{Recounted, goes_on, has_begun};

    ghost Value = { Recounted };

    ghost view = { λ r. record {
      given = r.world;
      begun = has_begun r.stage;
      living = goes_on r.stage;
      state = r.ledger;
      starts = r.accounts.starts;
      arrivals = r.accounts.arrivals;
      jobs = r.accounts.jobs.items;
    } };
}

/// How far the trace has come behind the entry.
fn stage_after(entry: &Entry) -> Stage
    ensures begun { has_begun result ≡ true }
    ensures living { goes_on result ≡ not (is_end entry.now) }
{
    match entry {
        Entry::End => Stage::Ended,
        _ => Stage::Living,
    }
}

impl Recount {
    /// Before the first entry of a trace, whose first life may have any generation.
    pub fn new(alloc: Global, params: &Params, table: Table) -> Recount
        ensures given { result.given ≡ record { settings = params.now; contents = table } }
        ensures holds { Holds (world_of result.given) result [] }
    {
        fronts_open();
        is_in_range(params);
        Recount {
            world: World {
                params: *params,
                table,
            },
            stage: Stage::Before,
            ledger: Ledger::on_empty_spool(alloc, 0),
            accounts: Accounts::new(alloc),
        }
    }

    /// The table that it goes by.
    pub fn table(&self) -> &Table
        ensures { result.now ≡ self.now.given.contents }
    {
        &self.world.table
    }

    /// How many recipients the message has; none where it isn't in the book.
    pub fn recipients(&self, id: Id) -> usize
        ensures { (w : WorldValue) (es : List EntryValue) (l : LedgerValue) → Holds w self.now es
            → IsLedgerAfter w es l → result ≡ recipients_in l id }
    {
        ledgers_are_one();
        self.ledger.recipients_of(id) as usize
    }

    fn judge(&self, alloc: Global, entry: &Entry) -> Result<Judged, NoMemory>
        ensures { IfOk result (IsJudgment self.now entry.now) }
    {
        fronts_open();
        fronts_fit();
        held_judges();
        held_rules();
        match self.stage {
            Stage::Before => Ok(judge_first(entry)),
            Stage::Living => judge_living(alloc, &self.world, &self.ledger, &self.accounts, entry),
            Stage::Ended => Ok(Judged::Broken { rule: 19 }),
        }
    }

    /// Takes the life over with which a run begins.
    fn take_first(&mut self, alloc: Global, entry: &Entry) -> Result<(), NoMemory>
        requires { HasTime entry.now }
        ensures ok { self.old.begun ≡ false → OnOk result (TakesOver self.old entry.now self.new) }
        ensures err { OnErr result (self.new ≡ self.old) }
        ensures given { self.new.given ≡ self.old.given }
    {
        fronts_open();
        held_begins();
        let generation = first_generation(entry);
        let mut ledger = Ledger::on_empty_spool(alloc, generation.saturating_sub(1));
        ledger.take(alloc, &self.world, entry)?;
        self.ledger = ledger;
        self.accounts = Accounts::new(alloc);
        self.stage = Stage::Living;
        Ok(())
    }

    /// Takes an entry over that goes on the run.
    fn take_next(&mut self, alloc: Global, entry: &Entry) -> Result<(), NoMemory>
        requires { HasTime entry.now }
        ensures ok { self.old.begun ≡ true → OnOk result (TakesOver self.old entry.now self.new) }
        ensures err { OnErr result (self.new ≡ self.old) }
        ensures given { self.new.given ≡ self.old.given }
    {
        fronts_fit();
        held_judges();
        held_goes_on();
        next_is_allowed();
        next_is_the_same();
        rows_are_the_same();
        self.ledger.charge_fits(&self.world, entry);
        self.accounts.reserve()?;
        self.ledger.take(alloc, &self.world, entry)?;
        self.accounts.note(entry);
        self.stage = stage_after(entry);
        Ok(())
    }

    fn take(&mut self, alloc: Global, entry: &Entry) -> Result<(), NoMemory>
        requires { HasTime entry.now }
        ensures ok { OnOk result (TakesOver self.old entry.now self.new) }
        ensures err { OnErr result (self.new ≡ self.old) }
        ensures given { self.new.given ≡ self.old.given }
    {
        match self.stage {
            Stage::Before => self.take_first(alloc, entry),
            Stage::Living => self.take_next(alloc, entry),
            Stage::Ended => self.take_next(alloc, entry),
        }
    }

    /// Judges the entry that comes next, and takes it over where it is lawful. A broken entry, and want
    /// of memory, change nothing.
    pub fn step(&mut self, alloc: Global, entry: &Entry) -> Result<Judged, NoMemory>
        requires { HasTime entry.now }
        ensures given { self.new.given ≡ self.old.given }
        // A lawful entry goes on the run, and what is held behind it is what the run is with it.
        ensures lawful { (w : WorldValue) (es : List EntryValue) → Holds w self.old es
            → length es < 2 ^ 60 → result ≡ Ok Lawful → Holds w self.new (es ++ entry.now ∷ []) }
        // A broken one goes on no run, and has the rule that it breaks.
        ensures broken { (w : WorldValue) (es : List EntryValue) (rule : ℕ) → Holds w self.old es
            → length es < 2 ^ 60 → result ≡ Ok (Broken rule) → IsBrokenBy w es entry.now rule }
        ensures stays { (result ≡ Ok Lawful → ⊥) → self.new ≡ self.old }
    {
        match self.judge(alloc, entry)? {
            Judged::Lawful => {
                self.take(alloc, entry)?;
                Ok(Judged::Lawful)
            }
            Judged::Broken { rule } => Ok(Judged::Broken { rule }),
        }
    }
}
