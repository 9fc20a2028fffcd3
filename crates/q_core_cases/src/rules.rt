//! The rules on a core that begins a life, and what the clock, the triggers and looks lead to.
ghost use Rattle.q_core.specs.Facts.{IsDated};

use q_core::laws::{n1, n2, n3, n4, n5, n6, n7, n8};
use q_core::{Core, Decision, FileFacts, Found, Heard};
use q_model::{Id, LAST_MOMENT, Mode, Moment, Place, Trigger};
use q_settings::Params;
use std::alloc::Global;

/// Puts a value in a box.
fn boxed<T: Drop>(alloc: Global, value: T) -> Option<Box<T>> {
    match Box::new(alloc, value) {
        Ok(made) => Some(made),
        Err(_) => None,
    }
}

/// Whether a fresh core looks at active, and at incoming where it delivers, and does nothing else.
fn only_looks(core: &Core, delivers: bool) -> bool {
    let looks_at_active = match n5(core) {
        Some(Decision::LookActive) => true,
        _ => false,
    };
    let looks_at_incoming = match n6(core) {
        Some(Decision::LookIncoming) => true,
        _ => false,
    };
    looks_at_active && looks_at_incoming == delivers
}

/// Whether none of the rules that need a message in memory applies.
fn rests(core: &Core) -> bool {
    let settles = n1(core).is_some() || n2(core).is_some() || n3(core).is_some();
    let moves = n4(core).is_some() || n7(core).is_some() || n8(core).is_some();
    !settles && !moves
}

/// A name for each decision of these tests: the look at active, at incoming, at deferred up to a
/// moment, an admission and none.
fn shown(decision: Option<Decision>) -> u64 {
    match decision {
        Some(Decision::LookActive) => 1,
        Some(Decision::LookIncoming) => 2,
        Some(Decision::LookDeferred { until, .. }) => until,
        Some(Decision::Admit { id, .. }) => 100 + u64::from(id.serial),
        Some(_) => 3,
        None => 0,
    }
}

/// A message that stands alone in incoming.
fn message(serial: u32) -> Found
    ensures { IsDated result }
{
    let id = Id {
        generation: 1,
        serial,
        bounce: false,
    };
    let file = FileFacts {
        arrival: 0,
        null_sender: false,
        recipients: 1,
        marked: 0,
        failures: 0,
        unmarked: None,
        bounced: false,
        alone: true,
    };
    Found::Whole { id, due: 0, file }
}

/// A core at the beginning of a life, in a box: a test lets it go at each assertion.
fn fresh_core(alloc: Global, transports: u8, mode: Mode) -> Option<Box<Core>> {
    let core = Core::new(alloc, Params::defaults(), transports, mode).ok()?;
    boxed(alloc, core)
}

#[test]
fn a_fresh_core_only_looks(rt: HostRuntime) {
    let rows = [(1, Mode::Deliver, true), (20, Mode::Intake, false)];
    for (transports, mode, delivers) in rows {
        let Some(core) = fresh_core(rt.alloc(), transports, mode) else {
            assert!(rt; false);
            return;
        };
        assert!(rt; only_looks(&core, delivers));
        assert!(rt; rests(&core) && core.decision().is_none());
        assert!(rt; core.now() == 0 && core.last_number() == 0);
        assert!(rt; core.flight(1).is_none() && core.entry_positions(1).is_none());
    }
}

/// Hears an event that is no reply, where that is allowed.
fn hears(core: &mut Core, heard: Heard<'_>) -> bool {
    let unfit = match heard {
        Heard::At { moment } => moment > LAST_MOMENT,
        Heard::Reply { .. } => true,
        _ => false,
    };
    if unfit || !core.is_answered() || !core.is_looked_at() {
        return false;
    }
    core.event(heard);
    true
}

fn at(core: &mut Core, moment: Moment) -> bool {
    hears(core, Heard::At { moment })
}

fn trigger(core: &mut Core, kind: Trigger) -> bool {
    hears(core, Heard::Trigger { kind })
}

/// Takes the next decision, and gives its name.
fn decides(core: &mut Core) -> Option<u64> {
    if !core.is_answered() {
        return None;
    }
    Some(shown(core.next_decision()))
}

/// Answers the look that is wanted next.
fn finds(core: &mut Core, found: Found) -> bool
    requires { IsDated found }
{
    if decides(core).is_none() || !core.is_looking() {
        return false;
    }
    core.found(found);
    true
}

#[test]
fn looks_lead_to_an_admission(rt: HostRuntime) {
    let alloc = rt.alloc();
    let Some(mut core) = fresh_core(alloc, 1, Mode::Deliver) else {
        assert!(rt; false);
        return;
    };
    assert!(rt; at(&mut core, 1_000) && shown(core.decision()) == 1_000);
    assert!(rt; finds(&mut core, Found::Nothing) && shown(core.decision()) == 1);
    assert!(rt; finds(&mut core, Found::Nothing) && shown(core.decision()) == 2);
    assert!(rt; finds(&mut core, message(7)) && shown(core.decision()) == 107);
    assert!(rt; trigger(&mut core, Trigger::A) && trigger(&mut core, Trigger::D));
    assert!(rt; shown(core.decision()) == 999_999_999_999);
    assert!(rt; finds(&mut core, Found::Nothing));
    assert!(rt; trigger(&mut core, Trigger::F) && at(&mut core, 1_299));
    assert!(rt; shown(core.decision()) == 107);
    assert!(rt; at(&mut core, 1_300) && shown(core.decision()) == 1_300);
}

/// Whether the message is in active and goes to corrupt next.
fn goes_to_corrupt(core: &Core, serial: u32) -> bool {
    match core.decision() {
        Some(Decision::Corrupt { id, place }) => id.serial == serial && place == Place::Active,
        _ => false,
    }
}

/// Answers the read that waits: a record can't be read.
fn reads_no_record(core: &mut Core, serial: u32) -> bool {
    if !core.is_reading() {
        return false;
    }
    let id = Id {
        generation: 1,
        serial,
        bounce: false,
    };
    core.found(Found::Damaged {
        id,
        due: 0,
        alone: true,
    });
    true
}

#[test]
fn a_message_that_cannot_be_read_goes_to_corrupt(rt: HostRuntime) {
    let alloc = rt.alloc();
    let Some(mut core) = fresh_core(alloc, 1, Mode::Deliver) else {
        assert!(rt; false);
        return;
    };
    assert!(rt; at(&mut core, 1_000) && finds(&mut core, Found::Nothing));
    assert!(rt; finds(&mut core, Found::Nothing) && finds(&mut core, message(7)));
    assert!(rt; decides(&mut core) == Some(107));
    assert!(rt; finds(&mut core, Found::Nothing));
    assert!(rt; decides(&mut core) == Some(3) && reads_no_record(&mut core, 7));
    assert!(rt; goes_to_corrupt(&core, 7) && decides(&mut core) == Some(3));
    assert!(rt; shown(core.decision()) == 1);
}
