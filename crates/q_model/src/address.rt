//! Mail addresses.
ghost use Rattle.std.specs.Prelude.{◌≡◌, ◌≤◌, [], length, Some, None, if◌then◌else◌, true};
ghost use Rattle.std.specs.List.{list_all};
ghost use Rattle.q_model.specs.Texts.{is_address, is_address_byte, domain_from, domain_of};

use crate::hop::Hop;
use crate::padded::Padded;
use std::marker::Model;

/// A mail address: 3 to 254 printable ASCII bytes without space, comma, `<` or `>`, with at least
/// one byte on each side of the last `@` (RFC 5321, section 4.1.2, without quoted strings). A
/// contract sees it as the list of its bytes.
#[derive(Clone, Copy, Debug, PartialEq, Eq, PartialOrd, Ord)]
pub struct Address {
    text: Padded<254>,
}

impl Model for Address {
    ghost use Rattle.std.specs.Prelude.{List, ℕ, ◌≡◌, true};
    ghost use Rattle.q_model.specs.Texts.{is_address};

    ghost Value = { List ℕ };

    ghost view = { λ a. a.text };

    ghost invariant = { λ a. is_address a.text ≡ true };

    ghost inverse = { λ v. record { text = v } };
}

fn is_address_byte(b: u8) -> bool
    ensures { result ≡ is_address_byte b }
{
    b > 32 && b < 127 && b != b',' && b != b'<' && b != b'>'
}

/// The bytes behind the last `@`; none where there is no `@`.
fn domain(bytes: &[u8]) -> &[u8]
    ensures domain { result.now ≡ domain_from bytes.now [] }
    ensures short { length result.now ≤ length bytes.now }
{
    let mut found = &bytes[bytes.len()..];
    let mut rest = bytes;
    while let [b, others @ ..] = rest {
        if *b == b'@' {
            found = others;
        }
        rest = others;
    }
    found
}

fn has_address_bytes(bytes: &[u8]) -> bool
    ensures { result ≡ list_all is_address_byte bytes.now }
{
    bytes.iter().all(|b| is_address_byte(*b))
}

fn is_address(bytes: &[u8]) -> bool
    ensures { result ≡ is_address bytes.now }
{
    let host = domain(bytes);
    let long = bytes.len() >= 3;
    let short = bytes.len() <= 254;
    let printable = has_address_bytes(bytes);
    let with_host = !host.is_empty();
    let with_user = host.len() + 1 < bytes.len();
    long & short & printable & with_host & with_user
}

impl Address {
    /// The address of these bytes, where they have its form.
    pub fn new(bytes: &[u8]) -> Option<Address>
        ensures { result ≡ (if is_address bytes.now then Some bytes.now else None) }
    {
        if !is_address(bytes) {
            return None;
        }
        Some(Address {
            text: Padded::new(bytes),
        })
    }

    pub fn bytes(&self) -> &[u8]
        ensures same { result.now ≡ self.now }
        ensures form { is_address self.now ≡ true }
    {
        self.text.bytes()
    }
}

/// The next hop of an address that no table routes: its domain in lower case.
pub fn split_domain(address: &Address) -> Hop
    ensures { result ≡ domain_of address.now }
{
    Hop::lowered(domain(address.bytes()))
}
