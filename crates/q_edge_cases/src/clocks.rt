//! Clocks over a list, over the machine's and over one that fails, call by call.
use q_model::Moment;
use q_stream::{Clock, MemClock, RealClock};
use std::alloc::Global;
use std::cell::Cell;
use std::io;
use std::process::Abort;
use std::test::Fail;
use std::time::Duration;

const LAST: Moment = 999_990_000_000;

fn gives(rt: &impl Abort, clock: &mut impl Clock, moments: &[Moment]) {
    for (call, moment) in moments.iter().enumerate() {
        assert_eq!(rt; clock.now(), *moment, "call {call}");
    }
}

// What a clock over a list gives.
fn row(rt: &impl Abort, alloc: Global, listed: &[Moment], given: &[Moment]) -> Result<(), Fail> {
    let mut clock = MemClock::new(alloc, listed)?;
    gives(rt, &mut clock, given);
    Ok(())
}

#[test]
fn last_of_a_list_stays(rt: HostRuntime) -> Result<(), Fail> {
    let rows: [(&[Moment], &[Moment]); 4] = [
        (&[], &[0, 0]),
        (&[7], &[7, 7, 7]),
        // A clock may go back.
        (&[7, 3, 9], &[7, 3, 9, 9]),
        (&[LAST + 1, u64::MAX, LAST, 5], &[LAST, LAST, LAST, 5]),
    ];
    for (listed, given) in rows {
        row(&rt, rt.alloc(), listed, given)?;
    }
    Ok(())
}

// A machine's clock that shows these seconds, or fails.
#[derive(Drop)]
struct Shown {
    seconds: Cell<Option<u64>>,
}

impl std::time::Clock for Shown {
    fn monotonic(&self) -> io::Result<Duration> {
        self.since_1970()
    }

    fn since_1970(&self) -> io::Result<Duration> {
        match self.seconds.get() {
            Some(seconds) => Ok(Duration::from_secs(seconds)),
            None => Err(io::Error::from(io::ErrorKind::Other)),
        }
    }
}

#[test]
fn machine_clock(rt: HostRuntime) {
    // The start of 2020: a machine that runs this shows a later moment.
    let mut clock = RealClock::new(rt);
    let first = clock.now();
    assert!(rt; first > 1_577_836_800);
    assert!(rt; clock.now() >= first);
    let shown = Shown {
        seconds: Cell::new(None),
    };
    let mut clock = RealClock::new(&shown);
    gives(&rt, &mut clock, &[0]);
    shown.seconds.set(Some(1_700_000_000));
    gives(&rt, &mut clock, &[1_700_000_000]);
    shown.seconds.set(None);
    gives(&rt, &mut clock, &[1_700_000_000]);
    shown.seconds.set(Some(LAST + 1));
    gives(&rt, &mut clock, &[LAST]);
}
