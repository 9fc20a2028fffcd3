//! Names and bytes of files on a spool.
use crate::silent_host::SilentHost;
use q_model::{Area, Name};
use std::test::Fail;

/// The first message of the first life.
pub const FIRST: &str = "00000001-00000001";

/// The second one.
pub const SECOND: &str = "00000001-00000002";

/// The bounce of the first one.
pub const BOUNCE: &str = "00000001-00000001b";

/// The file of a mail at 1000 from a@x.example to b@y.example, without content; its mark byte is the
/// one at place 51.
pub const FILE: &[u8] = b"C\x00\x00\x00\x0c\x00\x00\x00\x01\x00\x00\x00\x01\x00\x00\x00\x00\
    T\x00\x00\x00\x08\x00\x00\x00\x00\x00\x00\x03\xe8\
    S\x00\x00\x00\x0ba@x.example\
    R\x00\x00\x00\x0cPb@y.example\
    N\x00\x00\x00\x00\
    E\x00\x00\x00\x00";

/// The areas of queues.
const QUEUES: [Area; 5] = [
    Area::Incoming,
    Area::Active,
    Area::Deferred,
    Area::Hold,
    Area::Corrupt,
];

pub fn name(text: &str) -> Result<Name, Fail> {
    Ok(Name::new(text.as_bytes()).ok_or("no name")?)
}

/// In how many queues a file of this name stands.
pub fn places(host: &SilentHost, text: &str) -> Result<u32, Fail> {
    let name = name(text)?;
    let mut count: u32 = 0;
    for area in QUEUES {
        if host.file(area, name).is_some() {
            count = count.saturating_add(1);
        }
    }
    Ok(count)
}
