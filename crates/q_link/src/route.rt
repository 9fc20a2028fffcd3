//! The addresses of next hops, read from `[a.b.c.d]:port`. Nothing here is an error to call: a next
//! hop of another form has no address.
ghost use Rattle.std.specs.Prelude.{◌≡◌, ◌∷◌, [], is_some, option_map};
ghost use Rattle.std.specs.Net.Addr.{ipv4_octets};
ghost use Rattle.q_numbers.specs.Pieces.{each_some};
ghost use Rattle.q_link.specs.Addresses.{route_at};
ghost use Rattle.q_link.specs.Routes.{has_route, host_and_port, host_of, octet_of, port_of, route_of};

use q_model::Hop;
use q_numbers::{cut, read_number32};
use std::net::{Ipv4Addr, SocketAddrV4};

fn read_octet(text: &[u8]) -> Option<u8>
    ensures { result ≡ octet_of text.now }
{
    let number = read_number32(text, 0, 255)?;
    Some(number as u8)
}

fn read_octets(a: &[u8], b: &[u8], c: &[u8], d: &[u8]) -> Option<Ipv4Addr>
    ensures { option_map ipv4_octets result
        ≡ each_some octet_of (a.now ∷ b.now ∷ c.now ∷ d.now ∷ []) }
{
    let a = read_octet(a)?;
    let b = read_octet(b)?;
    let c = read_octet(c)?;
    let d = read_octet(d)?;
    Some(Ipv4Addr::new(a, b, c, d))
}

// Four numbers, between which stand dots.
fn read_host(text: &[u8]) -> Option<Ipv4Addr>
    ensures { option_map ipv4_octets result ≡ host_of text.now }
{
    let (a, rest) = cut(text, b'.')?;
    let (b, rest) = cut(rest, b'.')?;
    let (c, d) = cut(rest, b'.')?;
    read_octets(a, b, c, d)
}

// A port behind its colon.
fn read_port(text: &[u8]) -> Option<u16>
    ensures { result ≡ port_of text.now }
{
    match text {
        [b':', digits @ ..] => {
            let port = read_number32(digits, 1, 65535)?;
            Some(port as u16)
        }
        _ => None,
    }
}

fn read_host_and_port(host: &[u8], port: &[u8]) -> Option<SocketAddrV4>
    ensures { option_map route_at result ≡ host_and_port (host.now, port.now) }
{
    let host = read_host(host)?;
    let port = read_port(port)?;
    Some(SocketAddrV4::new(host, port))
}

fn read_route(text: &[u8]) -> Option<SocketAddrV4>
    ensures { option_map route_at result ≡ route_of text.now }
{
    match text {
        [b'[', inside @ ..] => {
            let (host, port) = cut(inside, b']')?;
            read_host_and_port(host, port)
        }
        _ => None,
    }
}

/// The address that a next hop names as `[a.b.c.d]:port`, with four numbers up to 255 and a port
/// from 1 to 65535, all without leading zeros; `None` where it has another form.
pub fn address_of(hop: &Hop) -> Option<SocketAddrV4>
    ensures route { is_some result ≡ has_route hop.now }
    ensures address { option_map route_at result ≡ route_of hop.now }
{
    read_route(hop.bytes())
}
