//! `queue`, `json`, `status` and `qshape`: what the queues hold.
ghost use Rattle.q_host.specs.View.{Told};
ghost use Rattle.q_shape.specs.Buckets.{IsShape};
ghost use Rattle.q_replay.specs.Spools.{Serves};
ghost use Rattle.q_top.specs.Causes.{HasHostCause};
ghost use Rattle.q_top.specs.Statuses.{names_fault, is_unreadable};
ghost use Rattle.q_top.specs.Courses.{Moments};
ghost use Rattle.q_top.specs.Tellings.{Lists, ListsJson, TellsAges, TellsFigures};
ghost use Rattle.std.specs.Prelude.{◌≢◌, ℕ, ◌≡◌, false};

use crate::status::{Status, telling_status};
use q_ages::tell_ages;
use q_host::Host;
use q_listing::tell_listing;
use q_shape::TableRequest;
use q_stream::Clock;
use q_views::{tell_json, tell_status};
use std::alloc::Global;

/// Tells the listing of the queues.
pub(crate) fn list_queues<H: Host>(alloc: Global, host: &mut H) -> Status
    ensures lists { Told H.tells H.view host.old host.new (λ u v. Lists u v result) }
    ensures serves { Told H.tells H.view host.old host.new (Serves false) }
    ensures readable { is_unreadable result ≡ false }
    ensures faultless { names_fault result ≡ false }
    ensures host { HasHostCause (H.faults host.old) (H.faults host.new) result }
    ensures no_source { result ≢ Status.Source }
    ensures no_usage { result ≢ Status.Usage }
    ensures no_door { result ≢ Status.Door }
    ensures no_rests { (n : ℕ) → result ≢ Status.Unfinished n }
{
    telling_status(tell_listing(alloc, host))
}

/// Tells the listing of the queues as JSON lines.
pub(crate) fn list_json<H: Host>(alloc: Global, host: &mut H) -> Status
    ensures lists { Told H.tells H.view host.old host.new (λ u v. ListsJson u v result) }
    ensures serves { Told H.tells H.view host.old host.new (Serves false) }
    ensures readable { is_unreadable result ≡ false }
    ensures faultless { names_fault result ≡ false }
    ensures host { HasHostCause (H.faults host.old) (H.faults host.new) result }
    ensures no_source { result ≢ Status.Source }
    ensures no_usage { result ≢ Status.Usage }
    ensures no_door { result ≢ Status.Door }
    ensures no_rests { (n : ℕ) → result ≢ Status.Unfinished n }
{
    telling_status(tell_json(alloc, host))
}

/// Tells figures of the spool.
pub(crate) fn tell_figures<H: Host>(alloc: Global, host: &mut H) -> Status
    ensures figures { Told H.tells H.view host.old host.new (λ u v. TellsFigures u v result) }
    ensures serves { Told H.tells H.view host.old host.new (Serves false) }
    ensures readable { is_unreadable result ≡ false }
    ensures faultless { names_fault result ≡ false }
    ensures host { HasHostCause (H.faults host.old) (H.faults host.new) result }
    ensures no_source { result ≢ Status.Source }
    ensures no_usage { result ≢ Status.Usage }
    ensures no_door { result ≢ Status.Door }
    ensures no_rests { (n : ℕ) → result ≢ Status.Unfinished n }
{
    telling_status(tell_status(alloc, host))
}

/// Tells the table of ages at the clock's moment.
pub(crate) fn table_ages<H: Host, C: Clock>(
    alloc: Global,
    host: &mut H,
    clock: &mut C,
    request: &TableRequest,
) -> Status
    requires { IsShape request.now.shape }
    ensures tells { Told H.tells H.view host.old host.new (λ u v. TellsAges request.now
        (record { before = C.given clock.old; after = C.given clock.new }) u v result) }
    ensures serves { Told H.tells H.view host.old host.new (Serves false) }
    ensures readable { is_unreadable result ≡ false }
    ensures faultless { names_fault result ≡ false }
    ensures host { HasHostCause (H.faults host.old) (H.faults host.new) result }
    ensures no_source { result ≢ Status.Source }
    ensures no_usage { result ≢ Status.Usage }
    ensures no_door { result ≢ Status.Door }
    ensures no_rests { (n : ℕ) → result ≢ Status.Unfinished n }
{
    let now = clock.now();
    telling_status(tell_ages(alloc, host, now, request))
}
