//! `show`: one message.
ghost use Rattle.std.specs.Prelude.{◌≡◌, ◌≢◌, false, List, Option, ℕ};
ghost use Rattle.q_host.specs.View.{Told};
ghost use Rattle.q_replay.specs.Spools.{Serves};
ghost use Rattle.q_top.specs.Causes.{HasHostCause};
ghost use Rattle.q_top.specs.Looks.{Shows};
ghost use Rattle.q_top.specs.Named.{IsNamed};
ghost use Rattle.q_top.specs.Statuses.{is_unreadable, show_status};
ghost use Rattle.q_words.specs.declared.request.Request.TheVariants as requests;

use crate::status::{Status, telling_status};
use q_host::{Host, HostError};
use q_model::Id;
use q_show::tell_message;
use std::alloc::Global;

/// How a command ends that told a message, if there is one.
fn show_status(told: Result<bool, HostError>) -> Status
    ensures exact { result ≡ show_status told }
    ensures no_source { result ≢ Status.Source }
    ensures no_usage { result ≢ Status.Usage }
    ensures no_door { result ≢ Status.Door }
    ensures no_rests { (n : ℕ) → result ≢ Status.Unfinished n }
{
    match told {
        Ok(true) => Status::Done,
        Ok(false) => Status::Absent,
        Err(error) => telling_status(Err(error)),
    }
}

/// Tells the message of an id.
pub(crate) fn show_message<H: Host>(alloc: Global, host: &mut H, id: Id) -> Status
    ensures shows { Told H.tells H.view host.old host.new (λ u v. Shows id u v result) }
    ensures serves { Told H.tells H.view host.old host.new (Serves false) }
    ensures readable { is_unreadable result ≡ false }
    ensures named { (text : Option (List ℕ)) → IsNamed (λ r. r ≡ requests.Show id) text result }
    ensures host { HasHostCause (H.faults host.old) (H.faults host.new) result }
    ensures no_source { result ≢ Status.Source }
    ensures no_usage { result ≢ Status.Usage }
    ensures no_door { result ≢ Status.Door }
    ensures no_rests { (n : ℕ) → result ≢ Status.Unfinished n }
{
    show_status(tell_message(alloc, host, id))
}
