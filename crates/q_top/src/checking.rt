//! `check`: what is wrong with the spool and the files of conf.
ghost use Rattle.std.specs.Prelude.{◌≡◌, ◌≢◌, false, List, Option, ℕ};
ghost use Rattle.q_host.specs.View.{Told};
ghost use Rattle.q_replay.specs.Spools.{Serves};
ghost use Rattle.q_top.specs.Causes.{HasHostCause};
ghost use Rattle.q_top.specs.Looks.{Checks};
ghost use Rattle.q_top.specs.Named.{IsNamed};
ghost use Rattle.q_top.specs.Statuses.{check_status, found_status, is_unreadable};

use crate::status::{Status, input_of, telling_status};
use q_check::{Found, tell_check};
use q_host::{Host, HostError};
use std::alloc::Global;

/// How a command ends that found this.
fn found_status(found: Found) -> Status
    ensures exact { result ≡ found_status found }
    ensures no_source { result ≢ Status.Source }
    ensures no_usage { result ≢ Status.Usage }
    ensures no_door { result ≢ Status.Door }
    ensures no_rests { (n : ℕ) → result ≢ Status.Unfinished n }
{
    match found {
        Found::Nothing => Status::Done,
        Found::BadConf { file, line } => Status::BadInput {
            file: input_of(file),
            line,
        },
        Found::Damaged { area, name } => Status::Damaged { area, name },
    }
}

/// How a command ends that told what is wrong.
fn check_status(told: Result<Found, HostError>) -> Status
    ensures exact { result ≡ check_status told }
    ensures no_source { result ≢ Status.Source }
    ensures no_usage { result ≢ Status.Usage }
    ensures no_door { result ≢ Status.Door }
    ensures no_rests { (n : ℕ) → result ≢ Status.Unfinished n }
{
    match told {
        Ok(found) => found_status(found),
        Err(error) => telling_status(Err(error)),
    }
}

/// Tells what is wrong with the spool and the files of conf.
pub(crate) fn check_spool<H: Host>(alloc: Global, host: &mut H) -> Status
    ensures checks { Told H.tells H.view host.old host.new (λ u v. Checks u v result) }
    ensures serves { Told H.tells H.view host.old host.new (Serves false) }
    ensures readable { is_unreadable result ≡ false }
    ensures named { (text : Option (List ℕ)) → IsNamed (λ r. ⊥) text result }
    ensures host { HasHostCause (H.faults host.old) (H.faults host.new) result }
    ensures no_source { result ≢ Status.Source }
    ensures no_usage { result ≢ Status.Usage }
    ensures no_door { result ≢ Status.Door }
    ensures no_rests { (n : ℕ) → result ≢ Status.Unfinished n }
{
    check_status(tell_check(alloc, host))
}
