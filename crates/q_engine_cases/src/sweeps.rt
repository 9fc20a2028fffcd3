//! Sessions that are open together.
use crate::drive::{Stop, params_of, table_of};
use crate::pairs::PairedHops;
use q_drain::{Drained, drain};
use q_engine::begin;
use q_model::{Area, Mode};
use q_silent_host::{FILE, FIRST, SECOND, SilentHost, name};
use q_stream::MemClock;
use std::alloc::Global;
use std::test::Fail;

/// How many rests are enough.
const RESTS: u64 = 100;

/// The queue file of a mail at 1000 from a@x.example to d@z.example, without content.
const TO_Z: &[u8] = b"C\x00\x00\x00\x0c\x00\x00\x00\x01\x00\x00\x00\x01\x00\x00\x00\x00\
    T\x00\x00\x00\x08\x00\x00\x00\x00\x00\x00\x03\xe8\
    S\x00\x00\x00\x0ba@x.example\
    R\x00\x00\x00\x0cPd@z.example\
    N\x00\x00\x00\x00\
    E\x00\x00\x00\x00";

const TABLE: &str = "\
y.example smtp:[127.0.0.1]:2525
z.example smtp:[127.0.0.2]:2525
";

const TOLD: &str = "\
life 1
at 1000
admit 00000001-00000001
admit 00000001-00000002
load 00000001-00000001 0 1
load 00000001-00000002 0 1
start 1 00000001-00000001 smtp [127.0.0.1]:2525 0
start 2 00000001-00000002 smtp [127.0.0.2]:2525 0
";

/// Drains a life on the host. Whether no delivery is left in flight.
fn drained(alloc: Global, host: &mut SilentHost, hops: &mut PairedHops) -> Result<bool, Stop> {
    let params = params_of("")?;
    let table = table_of(alloc, TABLE)?;
    let engine = begin(alloc, host, params, table, Mode::Deliver)?;
    let mut clock = MemClock::new(alloc, &[1000])?;
    match drain(alloc, engine, host, &mut clock, hops, RESTS)? {
        Drained::Quiet { engine } => {
            engine.finish(alloc, host)?;
            Ok(true)
        }
        Drained::Unfinished { .. } => Ok(false),
    }
}

// Each server goes on only when the other one was written to, so neither session would come to its
// end without the other. Both come to it, since each sweep polls both.
#[test]
fn servers_that_wait_for_each_other(rt: HostRuntime) -> Result<(), Fail> {
    let alloc = rt.alloc();
    let mut host = SilentHost::new(alloc);
    let mut hops = PairedHops::new(alloc)?;
    host.put(Area::Incoming, name(FIRST)?, FILE)?;
    host.put(Area::Incoming, name(SECOND)?, TO_Z)?;
    assert!(rt; drained(alloc, &mut host, &mut hops) == Ok(true));
    assert_eq!(rt;
        host.told().strip_prefix(TOLD),
        Some(
            "\
reply 2 up ok
mark 00000001-00000002 0
sync 00000001-00000002
remove 00000001-00000002
reply 1 up ok
mark 00000001-00000001 0
sync 00000001-00000001
remove 00000001-00000001
end
"
        )
    );
    Ok(())
}
