//! `submit`: an intake life that takes one message.
ghost use Rattle.std.specs.Prelude.{◌≡◌, ◌≢◌, ◌≤◌, IsTrue, ℕ, Some, false, true};
ghost use Rattle.q_events.specs.Forms.{IsMailInForm};
ghost use Rattle.q_host.specs.View.{Told};
ghost use Rattle.q_replay.specs.ReplayEnds.{IsFitSpool};
ghost use Rattle.q_replay.specs.Spools.{Serves};
ghost use Rattle.q_stream.specs.Clocks.{last_moment};
ghost use Rattle.q_top.specs.Causes.{HasHostCause, HasSourceCause};
ghost use Rattle.q_top.specs.Named.{IsNamed};
ghost use Rattle.q_top.specs.Statuses.{content_status, is_unreadable};
ghost use Rattle.q_top.specs.Courses.{Moments, Texts};
ghost use Rattle.q_top.specs.Lives.{SubmitsAt, Submits};
ghost use Rattle.q_words.specs.declared.request.Request.TheVariants.{Submit};

use crate::status::{Status, conf_status, status_of};
use q_conf::read_conf;
use q_host::Host;
use q_input::{InputError, read_all};
use q_model::{Address, Addresses, Bound, MOST_MAIL_BYTES, Moment};
use q_replay::{Letter, submit};
use q_stream::{Clock, Source};
use std::alloc::Global;

/// How a command ends that has no content.
fn content_status(error: InputError) -> Status
    ensures exact { result ≡ content_status error }
    ensures no_usage { result ≢ Status.Usage }
    ensures no_door { result ≢ Status.Door }
    ensures no_rests { (n : ℕ) → result ≢ Status.Unfinished n }
{
    match error {
        InputError::TooLong => Status::Limit {
            bound: Bound::Content,
        },
        InputError::Source => Status::Source,
        InputError::NoMemory => Status::NoMemory,
    }
}

/// Reads the files of conf, and submits a message at a moment.
fn submit_letter<H: Host>(alloc: Global, host: &mut H, moment: Moment, letter: Letter) -> Status
    requires moment { moment ≤ last_moment }
    requires form { IsMailInForm letter.sender letter.to }
    requires spool { IsTrue H.tells → IsFitSpool (H.view host.old) }
    ensures submits { Told H.tells H.view host.old host.new (λ u v.
        SubmitsAt moment letter u v result) }
    ensures serves { Told H.tells H.view host.old host.new (Serves true) }
    ensures readable { IsTrue H.tells → is_unreadable result ≡ false }
    ensures named { IsNamed (λ r. r ≡ Submit letter.sender letter.to) (Some letter.content) result }
    ensures host { HasHostCause (H.faults host.old) (H.faults host.new) result }
    ensures no_source { result ≢ Status.Source }
    ensures no_usage { result ≢ Status.Usage }
    ensures no_door { result ≢ Status.Door }
    ensures no_rests { (n : ℕ) → result ≢ Status.Unfinished n }
{
    match read_conf(alloc, host) {
        Ok(conf) => status_of(submit(alloc, host, conf.params, conf.table, moment, letter)),
        Err(error) => conf_status(error),
    }
}

/// Reads the content of a message from the source, and submits it at the clock's moment.
pub(crate) fn submit_content<H: Host, S: Source, C: Clock>(
    alloc: Global,
    source: &mut S,
    host: &mut H,
    clock: &mut C,
    sender: Option<Address>,
    to: Addresses,
) -> Status
    requires form { IsMailInForm sender to }
    requires spool { IsTrue H.tells → IsFitSpool (H.view host.old) }
    ensures submits { Told H.tells H.view host.old host.new (λ u v. Submits sender to
        (record { before = S.left source.old; after = S.left source.new })
        (record { before = C.given clock.old; after = C.given clock.new }) u v result) }
    ensures serves { Told H.tells H.view host.old host.new (Serves true) }
    ensures readable { IsTrue H.tells → is_unreadable result ≡ false }
    ensures named { IsNamed (λ r. r ≡ Submit sender to) (S.left source.old) result }
    ensures host { HasHostCause (H.faults host.old) (H.faults host.new) result }
    ensures source { HasSourceCause (S.faults source.old) (S.faults source.new) result }
    ensures no_usage { result ≢ Status.Usage }
    ensures no_door { result ≢ Status.Door }
    ensures no_rests { (n : ℕ) → result ≢ Status.Unfinished n }
{
    match read_all(alloc, source, MOST_MAIL_BYTES as usize) {
        Ok(content) => {
            let letter = Letter {
                sender,
                to,
                content,
            };
            let moment = clock.now();
            submit_letter(alloc, host, moment, letter)
        }
        Err(error) => content_status(error),
    }
}
