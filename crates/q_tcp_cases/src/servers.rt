//! Servers on free ports of 127.0.0.1, in the process of the test.
ghost use Rattle.std.specs.Prelude.{◌≡◌, false, IfOk};
ghost use Rattle.q_link.specs.declared.usage.Usage.TheVariants.{Open};

use q_link::Hops;
use q_model::Hop;
use q_tcp_hops::{TcpHops, TcpLink};
use std::alloc::Global;
use std::net::{Ipv4Addr, TcpListener, TcpStream};
use std::test::Fail;

/// How many rests a server is given to answer, each of ten milliseconds at most.
pub(crate) const RESTS: u32 = 500;

/// A port on which a server listens, and the next hop that names it.
#[derive(Drop)]
pub(crate) struct Listening {
    pub(crate) listener: TcpListener,
    pub(crate) hop: Hop,
}

pub(crate) fn listen(rt: HostRuntime) -> Result<Listening, Fail> {
    let listener = TcpListener::bind(&rt, (Ipv4Addr::LOCALHOST, 0u16))?;
    let port = listener.local_addr()?.port();
    let text = format!(in rt.alloc(); "[127.0.0.1]:{port}")?;
    let hop = Hop::new(text.as_bytes()).ok_or("no next hop")?;
    Ok(Listening { listener, hop })
}

/// A port that nobody has.
pub(crate) fn free_port(rt: HostRuntime) -> Result<u16, Fail> {
    let listener = TcpListener::bind(&rt, (Ipv4Addr::LOCALHOST, 0u16))?;
    Ok(listener.local_addr()?.port())
}

/// A link to a server, and the server's side of it.
#[derive(Drop)]
pub(crate) struct Joined {
    pub(crate) link: TcpLink,
    pub(crate) stream: TcpStream,
}

pub(crate) fn join(
    alloc: Global,
    hops: &mut TcpHops<HostRuntime>,
    listening: &Listening,
) -> Result<Joined, Fail>
    ensures { IfOk result (λ joined. (joined.link.ended ≡ false) × (joined.link.usage ≡ Open)) }
{
    let Ok(link) = hops.connect(alloc, &listening.hop) else {
        return Err(Fail::from("no link"));
    };
    let (stream, _) = listening.listener.accept()?;
    Ok(Joined { link, stream })
}
