//! What holds of every ledger of a life, over the definitions alone. Each law is the contract of a
//! function with nothing to do.
#![tactic(auto)]

ghost use Rattle.std.specs.Prelude.{◌≡◌, Some, true};
ghost use Rattle.q_laws.specs.Consistency.{IsBookConsistent, IsConsistent, IsUsable};
ghost use Rattle.q_laws.specs.Laws.{AlongLife, AlongRun, next_life, OfConsistent, OfEntries, OnBooks, opened_ledger, OfBeginnings};
ghost use Rattle.q_laws.specs.Resting.{GoesOneByOne, KeepsApart};
ghost use Rattle.q_laws.specs.SitesConsistency.{IsSitesConsistent};
ghost use Rattle.q_laws.specs.Traces.{IsWithinLimits};
ghost use Rattle.q_model.specs.declared.entry.Entry.{Entry};
ghost use Rattle.q_model.specs.Ledger.{Ledger};
ghost use Rattle.q_model.specs.Next.{next};
ghost use Rattle.q_model.specs.Orderly.{is_lawful, is_orderly};
ghost use Rattle.q_model.specs.Past.{is_living};
ghost use Rattle.q_model.specs.Settings.{World};
ghost use Rattle.q_model.specs.Step.{after, allowed};

/// A life begins consistently on each orderly book whose ids are distinct, where the settings let
/// messages be read and marks be synced.
pub fn begins()
    ensures { OnBooks is_orderly (λ w mode book. IsConsistent w (opened_ledger w mode book)) }
{}

/// The next life begins consistently, whatever became of the messages in memory.
pub fn restarts()
    ensures { (w : World) → (l : Ledger) → IsUsable w → IsBookConsistent l
        → IsConsistent w (next_life w l) }
{}

/// The next decision of a life is allowed.
pub fn next_is_allowed()
    ensures { OfConsistent (λ w l. (e : Entry) → is_living l ≡ true → next w l ≡ Some e
        → allowed w l e ≡ true) }
{}

/// Each entry that comes from outside and is allowed, and each next decision, keeps a ledger
/// consistent.
pub fn stays_consistent()
    ensures { OfEntries (λ w l e. IsConsistent w (after w l e)) }
{}

/// After each entry of a run from a consistent ledger the ledger is consistent.
pub fn runs_stay_consistent()
    ensures { OfConsistent (λ w l. AlongRun w l IsConsistent) }
{}

/// Such an entry of a consistent ledger keeps a lawful book lawful.
pub fn stays_lawful()
    ensures { OfEntries (λ w l e. is_lawful l.book ≡ true → is_lawful (after w l e).book ≡ true) }
{}

/// A life begins with nothing known of sites, which is consistent where the settings let
/// windows be open.
pub fn sites_begin()
    ensures { OfBeginnings IsSitesConsistent }
{}

/// Each entry of a consistent ledger keeps what fits together of its sites.
pub fn sites_stay_consistent()
    ensures { OfEntries (λ w l e. IsSitesConsistent w l → IsSitesConsistent w (after w l e)) }
{}

/// Where there is a delay between deliveries, at most one to each site is in flight.
pub fn goes_one_by_one()
    ensures { (w : World) → (l : Ledger) → IsSitesConsistent w l → GoesOneByOne w l }
{}

/// After the reply to a delivery the next one to its site begins that delay later or more, in the
/// same life, unless the site was forgotten.
pub fn keeps_apart()
    ensures { OfConsistent KeepsApart }
{}

/// After each entry of a run on a lawful book the book is lawful.
pub fn runs_stay_lawful()
    ensures { OnBooks is_lawful (λ w mode book. AlongLife w mode book
        (λ v l. is_lawful l.book ≡ true)) }
{}

/// After each entry of a run on an orderly book the messages and the recipients in memory are
/// within their limits.
pub fn stays_within_limits()
    ensures { OnBooks is_orderly (λ w mode book. AlongLife w mode book IsWithinLimits) }
{}
