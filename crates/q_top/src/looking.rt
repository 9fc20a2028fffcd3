//! `params` and `route`: what the files of conf say.
ghost use Rattle.std.specs.Prelude.{◌≡◌, ◌≢◌, false, List, Option, ℕ};
ghost use Rattle.q_host.specs.View.{Told};
ghost use Rattle.q_replay.specs.Spools.{Serves};
ghost use Rattle.q_top.specs.Causes.{HasHostCause};
ghost use Rattle.q_top.specs.Looks.{TellsParameters, TellsWays};
ghost use Rattle.q_top.specs.Named.{IsNamed};
ghost use Rattle.q_top.specs.Statuses.{is_unreadable, look_status};

use crate::status::{Status, input_of};
use q_conf_texts::{LookError, tell_params, tell_routes};
use q_host::Host;
use q_model::{Address, Sequence};
use std::alloc::Global;

/// How a command ends that tells what the files of conf say.
fn look_status(told: Result<(), LookError>) -> Status
    ensures exact { result ≡ look_status told }
    ensures no_source { result ≢ Status.Source }
    ensures no_usage { result ≢ Status.Usage }
    ensures no_door { result ≢ Status.Door }
    ensures no_rests { (n : ℕ) → result ≢ Status.Unfinished n }
{
    match told {
        Ok(()) => Status::Done,
        Err(LookError::Disk) => Status::Disk,
        Err(LookError::Tell) => Status::Tell,
        Err(LookError::NoMemory) => Status::NoMemory,
        Err(LookError::BadLine { file, line }) => Status::BadInput {
            file: input_of(file),
            line,
        },
    }
}

/// Tells the parameters in force.
pub(crate) fn tell_parameters<H: Host>(alloc: Global, host: &mut H) -> Status
    ensures tells { Told H.tells H.view host.old host.new (λ u v. TellsParameters u v result) }
    ensures serves { Told H.tells H.view host.old host.new (Serves false) }
    ensures readable { is_unreadable result ≡ false }
    ensures named { (text : Option (List ℕ)) → IsNamed (λ r. ⊥) text result }
    ensures host { HasHostCause (H.faults host.old) (H.faults host.new) result }
    ensures no_source { result ≢ Status.Source }
    ensures no_usage { result ≢ Status.Usage }
    ensures no_door { result ≢ Status.Door }
    ensures no_rests { (n : ℕ) → result ≢ Status.Unfinished n }
{
    look_status(tell_params(alloc, host))
}

/// Tells where the mail to these addresses goes.
pub(crate) fn tell_ways<H: Host>(
    alloc: Global,
    host: &mut H,
    addresses: &Sequence<Address>,
) -> Status
    ensures tells { Told H.tells H.view host.old host.new (λ u v.
        TellsWays addresses.now u v result) }
    ensures serves { Told H.tells H.view host.old host.new (Serves false) }
    ensures readable { is_unreadable result ≡ false }
    ensures named { (text : Option (List ℕ)) → IsNamed (λ r. ⊥) text result }
    ensures host { HasHostCause (H.faults host.old) (H.faults host.new) result }
    ensures no_source { result ≢ Status.Source }
    ensures no_usage { result ≢ Status.Usage }
    ensures no_door { result ≢ Status.Door }
    ensures no_rests { (n : ℕ) → result ≢ Status.Unfinished n }
{
    look_status(tell_routes(alloc, host, addresses.as_slice()))
}
