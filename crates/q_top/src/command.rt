//! A command, from its words to its status.
ghost use Rattle.std.specs.Prelude.{◌≡◌, ◌≢◌, IsTrue, false, true, ℕ};
ghost use Rattle.q_host.specs.View.{Told};
ghost use Rattle.q_replay.specs.ReplayEnds.{IsFitSpool};
ghost use Rattle.q_replay.specs.Spools.{Serves};
ghost use Rattle.q_top.specs.Causes.{HasDoorCause, HasHostCause, HasSourceCause};
ghost use Rattle.q_top.specs.Courses.{Connections, Entrances, Moments, Texts};
ghost use Rattle.q_top.specs.Qmgr.{asks_clock, AsksFor, AsksToJudge, Does, GaveAllRests, HasForm, LeavesAlone, may_blame, MayCarryOut, NeedsMoreRests, RefusesWords, runs_lives, takes_input, texts_of, uses_connections, uses_door, words_status};
ghost use Rattle.q_top.specs.Named.{IsNamed};
ghost use Rattle.q_top.specs.Statuses.{names_fault, is_unreadable};
ghost use Rattle.q_words.specs.Requests.{IsRequest};
ghost use Rattle.q_words.specs.Usages.{is_usage};

use crate::auditing::audit_source;
use crate::checking::check_spool;
use crate::draining::drain_spool;
use crate::listening::listen_spool;
use crate::loading::tell_load;
use crate::looking::{tell_parameters, tell_ways};
use crate::replaying::replay_list;
use crate::showing::show_message;
use crate::status::Status;
use crate::submitting::submit_content;
use crate::telling::{list_json, list_queues, table_ages, tell_figures};
use crate::tooling::use_tool;
use q_door::Door;
use q_host::Host;
use q_link::{Hops, Link};
use q_stream::{Clock, Source};
use q_words::{Request, WordsError, read_words};
use std::alloc::Global;

/// The status of words that are refused, or that memory is wanting for.
fn words_status(error: WordsError) -> Status
    ensures exact { result ≡ words_status error }
    ensures no_door { result ≢ Status.Door }
{
    match error {
        WordsError::NoMemory => Status::NoMemory,
        _ => Status::Usage,
    }
}

/// Carries out what the words ask for.
fn carry_out<L: Link, K: Link, H: Host, S: Source, C: Clock, N: Hops<Link = L>, D: Door<Link = K>>(
    alloc: Global,
    request: Request,
    source: &mut S,
    host: &mut H,
    clock: &mut C,
    hops: &mut N,
    door: &mut D,
) -> Status
    requires form { HasForm request }
    requires spool { IsTrue H.tells → IsFitSpool (H.view host.old) }
    ensures does { Told H.tells H.view host.old host.new (Does request
        (record { before = S.left source.old; after = S.left source.new })
        (record { before = C.given clock.old; after = C.given clock.new })
        (record { before = N.view hops.old; after = N.view hops.new })
        (record { before = D.view door.old; after = D.view door.new }) result) }
    ensures serves { Told H.tells H.view host.old host.new (Serves (runs_lives request)) }
    ensures readable { IsTrue H.tells → is_unreadable result ≡ false }
    ensures named { IsNamed (λ r. r ≡ request) (S.left source.old) result }
    ensures host { HasHostCause (H.faults host.old) (H.faults host.new) result }
    ensures source { HasSourceCause (S.faults source.old) (S.faults source.new) result }
    ensures door { HasDoorCause (D.view door.old).door_faults (D.view door.new).door_faults result }
    ensures source_stays { takes_input request ≡ false → source.new ≡ source.old }
    ensures clock_stays { asks_clock request ≡ false → clock.new ≡ clock.old }
    ensures connections_stay { uses_connections request ≡ false → hops.new ≡ hops.old }
    ensures door_stays { uses_door request ≡ false → door.new ≡ door.old }
    ensures blames { names_fault result ≡ true → may_blame request ≡ true }
    ensures no_usage { result ≢ Status.Usage }
    ensures unfinished { (n : ℕ) → result ≡ Status.Unfinished n → GaveAllRests request n
        (record { before = N.view hops.old; after = N.view hops.new })
        (record { before = D.view door.old; after = D.view door.new }) }
    ensures few { (n : ℕ) → result ≡ Status.Unfinished n
        → NeedsMoreRests request n (N.view hops.old) (D.view door.old) }
{
    match request {
        Request::Replay => replay_list(alloc, source, host),
        Request::Submit { sender, to } => submit_content(alloc, source, host, clock, sender, to),
        Request::Drain { rests } => drain_spool(alloc, host, clock, hops, rests),
        Request::Listen { port, count, rests } => {
            listen_spool(alloc, host, clock, door, port, count, rests)
        }
        Request::Qshape(table) => table_ages(alloc, host, clock, &table),
        Request::Queue => list_queues(alloc, host),
        Request::Load { mails } => tell_load(alloc, host, mails),
        Request::Tool(tool) => use_tool(alloc, source, host, clock, tool),
        Request::Json => list_json(alloc, host),
        Request::Status => tell_figures(alloc, host),
        Request::Show(id) => show_message(alloc, host, id),
        Request::Params => tell_parameters(alloc, host),
        Request::Route(addresses) => tell_ways(alloc, host, &addresses),
        Request::Check => check_spool(alloc, host),
        Request::Audit => audit_source(alloc, source, host),
    }
}

/// Runs a command on the spool of a host.
///
/// `replay` reads the files `params` and `transport` of conf, then an event list from the source,
/// and takes its events through lives on the spool; each line of the trace is told after the disk
/// holds what it says. `submit SENDER RECIPIENT..` reads a message's content from the source, then
/// the files of conf, and takes the message in at the clock's moment. `drain` reads the files of
/// conf, and begins a life that delivers by SMTP (RFC 5321) until no delivery is in flight.
/// `listen` reads the files of conf, and begins a life that takes mail by SMTP at a port, over so
/// many connections one behind the other; a message is acknowledged only when its `arrive` line was
/// told. `hold`, `release` and `requeue`, each with an id, `ALL` or `-`, `expire` with an id or `-`, and
/// `flush` with a domain read ids from the source, where the word is `-`, and the files of conf, run an
/// intake life with the clock's moment alone, and then move messages or give them up; of each they tell
/// the line `WORD ID`, behind what the disk holds of it. A missing file of conf says as much as an empty
/// one. `queue` tells the listing of the queues, `json` the same as JSON lines, `qshape` the ages of
/// their mail, `status` figures, and `show` one message; `params` tells the parameters in force, `route`
/// where mail goes, and `check` what is wrong. `audit` reads the files of conf and a trace from the source,
/// judges each line, and tells whether all are lawful and how far preemption delayed each job. These begin
/// no life and change nothing. `load` reads no conf and opens no spool: it runs a generated load on a host in memory
/// of its own, and tells a summary.
///
/// `Usage` comes for words that are none of a command. Of `submit`, `Limit` of content comes next.
/// Then `BadInput` names the first fault of the parameters, then of the table; `Damaged` the file
/// for which the spool can't be opened, and `Limit` of generation says that no life is left: in all
/// these nothing is changed or told. Of an event list `BadInput` names the first line that is none
/// of one or whose event can't be taken, or the one behind the last where `end` is missing, and of a trace
/// the first that is none of one; `Limit`
/// says which limit an event passes, of a drain that no number is left for a delivery, and of
/// `listen` that no serial is left for a message. `Disk`, `Tell`, `Source` and `Door` come where
/// the host, the source or the door failed, `NoMemory` where memory ran out. `Unfinished` comes
/// where a drain or `listen` has given all rests that its words allow, and needs another. `Absent`
/// comes, behind the life's lines, where a tool names a message that stands nowhere where the act takes
/// messages from, or that can't be given up since its file is no queue file; where it names several, the
/// others were acted on. To `show` it comes where nothing stands under the id.
/// `Unreadable` names a queue file of a life that can't be read any longer. What was told before a
/// refusal stands on disk. With `Done` the deferral log of each message that `replay` admitted, and
/// didn't remove since, reads as its delays since the last admission.
pub fn qmgr<L: Link, K: Link, H: Host, S: Source, C: Clock, N: Hops<Link = L>, D: Door<Link = K>>(
    alloc: Global,
    words: &[String],
    source: &mut S,
    host: &mut H,
    clock: &mut C,
    hops: &mut N,
    door: &mut D,
) -> Status
    // Where the host tells its files, they stand for an orderly book, or show a damage.
    requires spool { IsTrue H.tells → IsFitSpool (H.view host.old) }
    // Words are refused that break the form of their command, and nothing else is.
    ensures usage { is_usage (texts_of words.now) ≡ true
        → RefusesWords host.old host.new source.old source.new clock.old clock.new
        hops.old hops.new door.old door.new result }
    ensures only_usage { result ≡ Status.Usage → is_usage (texts_of words.now) ≡ true }
    // Else the command that they ask for is carried out as its definition says.
    ensures carries_out { is_usage (texts_of words.now) ≡ false
        → Told H.tells H.view host.old host.new (MayCarryOut (texts_of words.now)
        (record { before = S.left source.old; after = S.left source.new })
        (record { before = C.given clock.old; after = C.given clock.new })
        (record { before = N.view hops.old; after = N.view hops.new })
        (record { before = D.view door.old; after = D.view door.new }) result) }
    // Only replay, submit, audit and tools that list ids take from the source, none but submit, drain, listen,
    // the tools and qshape asks the clock, none but drain uses connections, and none but listen the door.
    ensures alone { is_usage (texts_of words.now) ≡ false → LeavesAlone (texts_of words.now)
        source.old source.new clock.old clock.new hops.old hops.new door.old door.new }
    // Only drain and listen are left unfinished, and only where all rests were given that the words say.
    ensures unfinished { (n : ℕ) → result ≡ Status.Unfinished n → AsksFor (texts_of words.now)
        (λ request. GaveAllRests request n
        (record { before = N.view hops.old; after = N.view hops.new })
        (record { before = D.view door.old; after = D.view door.new })) }
    // They aren't where these are as many as the links may answer `NotYet`.
    ensures few { (n : ℕ) → result ≡ Status.Unfinished n → AsksFor (texts_of words.now)
        (λ request. NeedsMoreRests request n (N.view hops.old) (D.view door.old)) }
    // The input, the spool, one of its files, what is asked of it and limits are at fault for commands
    // alone that run lives or judge what they look at.
    ensures blames { names_fault result ≡ true → AsksToJudge (texts_of words.now) }
    // Of every host: a line of conf, a damage, and that no generation is left, are what some texts and
    // files show; a line of an event list or of ids is at fault, and a limit passed, by what the words
    // ask for and, where the source tells, by its text; so it is with those of a trace.
    ensures named { IsNamed (IsRequest (texts_of words.now)) (S.left source.old) result }
    // Where the host tells its files, each queue file can be read.
    ensures readable { IsTrue H.tells → is_unreadable result ≡ false }
    // A fault comes only where its count rose, and a command is done only where its source never failed.
    ensures host { HasHostCause (H.faults host.old) (H.faults host.new) result }
    ensures source { HasSourceCause (S.faults source.old) (S.faults source.new) result }
    ensures door { HasDoorCause (D.view door.old).door_faults (D.view door.new).door_faults result }
{
    match read_words(alloc, words) {
        Ok(request) => carry_out(alloc, request, source, host, clock, hops, door),
        Err(error) => words_status(error),
    }
}
