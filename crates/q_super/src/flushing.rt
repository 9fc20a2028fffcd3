//! Deferred messages for one domain, which come in anew (postqueue(1), -s).
ghost use Rattle.std.specs.Prelude.{◌≡◌, ◌++◌, ◌∷◌, [], bytes_eq, filter, if◌then◌else◌, IfOk, IsErrOf, IsTrue, List, map, OnOk, true, ℕ};
ghost use Rattle.std.specs.List.{AllByRecursion};
ghost use Rattle.q_host.specs.Calls.{Stays};
ghost use Rattle.q_host.specs.Faults.{DiskCause};
ghost use Rattle.q_model.specs.Book.{Book};
ghost use Rattle.q_model.specs.FilesStand.{Stands};
ghost use Rattle.q_model.specs.Message.{Message};
ghost use Rattle.q_model.specs.Texts.{lower};
ghost use Rattle.q_model.specs.ToolSteps.{may_steps};
ghost use Rattle.q_pending.specs.Readings.{IsPendingAhead, IsReading};
ghost use Rattle.q_super.specs.Deeds.{flush_deeds, flushed, is_file_for, moved_count, steps_in};
ghost use Rattle.q_super.specs.Domains.{has_in_domain, is_in_domain};
ghost use Rattle.q_super.specs.Finding.{IsSource};
ghost use Rattle.q_super.specs.Moves.{stands_there};
ghost use Rattle.q_super.specs.Names.{AreSources};
ghost use Rattle.q_super.specs.Plays.{HaltsDeeds, OnBook, PlaysDeeds};
ghost use Rattle.q_super.specs.Refusals.{EachFault, ToolCause};
ghost use Rattle.q_super.specs.declared.acts.Act.TheVariants as acts;
ghost use Rattle.q_super.specs.declared.error.SuperError.TheVariants as errors;

use crate::acts::Act;
use crate::error::SuperError;
use crate::expiring::pending_of;
use crate::moving::move_each;
use crate::standing::Standing;
use crate::taking::taken;
use q_host::{Host, HostError};
use q_model::{Address, Hop, NoMemory, Place, split_domain};
use q_pending::Pending;
use std::alloc::Global;

/// Whether two domains are the same, in whatever case.
#[tactic(auto, using(crate::proofs::DomainTests::compared))]
fn are_same(one: &[u8], other: &[u8]) -> bool
    ensures { result ≡ bytes_eq (map lower one.now) (map lower other.now) }
{
    one.eq_ignore_ascii_case(other)
}

/// Whether the address is in the domain, in whatever case.
fn is_in_domain(address: &Address, domain: &Hop) -> bool
    ensures { result ≡ is_in_domain domain.now address.now }
{
    let own = split_domain(address);
    are_same(own.bytes(), domain.bytes())
}

/// Whether a recipient that the reader gives is in the domain.
fn has_in_domain<H: Host>(
    host: &mut H,
    reader: &mut Pending,
    domain: &Hop,
) -> Result<bool, HostError>
    requires { IsTrue H.tells → IsReading (H.view host.old).files reader.old }
    ensures has { IfOk result (λ has. IsTrue H.tells → (m : Message) → (positions : List ℕ)
        → IsPendingAhead (H.view host.old).files m reader.old positions
        → has ≡ has_in_domain domain.now m positions) }
    ensures stays { IsTrue H.tells → Stays (H.view host.old) (H.view host.new) }
    ensures cause { DiskCause (H.faults host.old) (H.faults host.new) result }
{
    loop {
        let Some(taken) = reader.next(host)? else {
            return Ok(false);
        };
        if is_in_domain(&taken.address, domain) {
            return Ok(true);
        }
    }
}

/// Whether the file is that of a message with a pending recipient in the domain.
fn is_for<H: Host>(
    alloc: Global,
    host: &mut H,
    file: Standing,
    domain: &Hop,
) -> Result<bool, HostError>
    requires { IsSource acts.Requeue file.id file.place }
    ensures selects { IfOk result (λ is. IsTrue H.tells → (b : Book)
        → Stands (H.view host.old).files b → stands_there b file ≡ true
        → is ≡ is_file_for domain.now b file) }
    ensures stays { IsTrue H.tells → Stays (H.view host.old) (H.view host.new) }
    ensures cause { DiskCause (H.faults host.old) (H.faults host.new) result }
{
    match pending_of(alloc, host, file)? {
        Some(mut reader) => has_in_domain(host, &mut reader, domain),
        None => Ok(false),
    }
}

/// Adds the file, if it is one that is wanted.
fn add_if(found: &mut Vec<Standing>, file: Standing, wanted: bool) -> Result<(), NoMemory>
    ensures { OnOk result (found.new.items
        ≡ found.old.items ++ (if wanted then file ∷ [] else [])) }
{
    if wanted {
        found.push(file)?;
        return Ok(());
    }
    Ok(())
}

/// Those of the files that are for the domain.
fn select<H: Host>(
    alloc: Global,
    host: &mut H,
    files: &[Standing],
    domain: &Hop,
) -> Result<Vec<Standing>, HostError>
    requires { AreSources acts.Requeue files.now }
    ensures sources { IfOk result (λ found. AreSources acts.Requeue found.items) }
    ensures selected { IfOk result (λ found. IsTrue H.tells → (b : Book)
        → Stands (H.view host.old).files b → AllByRecursion (λ s. stands_there b s ≡ true) files.now
        → found.items ≡ filter (is_file_for domain.now b) files.now) }
    ensures stays { IsTrue H.tells → Stays (H.view host.old) (H.view host.new) }
    ensures cause { DiskCause (H.faults host.old) (H.faults host.new) result }
{
    let mut found = Vec::new(alloc);
    for file in files {
        let wanted = is_for(alloc, host, *file, domain)?;
        add_if(&mut found, *file, wanted)?;
    }
    Ok(found)
}

/// The files of deferred messages with a pending recipient in the domain, in the order of their
/// names.
fn flushed<H: Host>(alloc: Global, host: &mut H, domain: &Hop) -> Result<Vec<Standing>, HostError>
    ensures sources { IfOk result (λ found. AreSources acts.Requeue found.items) }
    ensures flushed { IfOk result (λ found. IsTrue H.tells → (b : Book)
        → Stands (H.view host.old).files b → found.items ≡ flushed domain.now b) }
    ensures stays { IsTrue H.tells → Stays (H.view host.old) (H.view host.new) }
    ensures cause { DiskCause (H.faults host.old) (H.faults host.new) result }
{
    let deferred = taken(alloc, host, Act::Requeue)?;
    select(alloc, host, deferred.as_slice(), domain)
}

/// Moves to incoming each deferred message with a pending recipient in the domain, in whatever case,
/// and tells `flush ID` of it, in the order of the files' names. Answers how many were moved, at most
/// 2^32 - 1. Files that are no queue files are passed over.
///
/// `Absent` never comes. In memory are the ids and places of all deferred messages.
pub fn flush<H: Host>(alloc: Global, host: &mut H, domain: &Hop) -> Result<u32, SuperError>
    ensures ok { IfOk result (λ count. IsTrue H.tells → OnBook (H.view host.old) (λ b.
        (count ≡ moved_count (flushed domain.now b))
        × PlaysDeeds b (flush_deeds domain.now b) (H.view host.old) (H.view host.new))) }
    ensures err { EachFault result (λ error. IsTrue H.tells → OnBook (H.view host.old) (λ b.
        HaltsDeeds b (flush_deeds domain.now b) error (H.view host.old) (H.view host.new))) }
    ensures may { IsTrue H.tells → OnBook (H.view host.old) (λ b.
        may_steps b (steps_in (flush_deeds domain.now b)) ≡ true) }
    ensures never_absent { IsErrOf result errors.Absent → ⊥ }
    ensures cause { ToolCause (H.faults host.old) (H.faults host.new) result }
{
    let found = flushed(alloc, host, domain)?;
    let count = move_each(alloc, host, b"flush", found.as_slice(), Place::Incoming)?;
    Ok(count)
}
