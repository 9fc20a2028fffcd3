//! Next hops.
ghost use Rattle.std.specs.Prelude.{map, ◌≡◌, Some, None, if◌then◌else◌, true};
ghost use Rattle.std.specs.List.{list_all};
ghost use Rattle.q_model.specs.Texts.{is_hop, is_hop_byte, lower};

use crate::padded::Padded;
use std::marker::Model;

/// The next hop of a delivery, or the name of a transport: 1 to 255 printable ASCII bytes
/// without a space (transport(5)). A contract sees it as the list of its bytes.
#[derive(Clone, Copy, Debug, PartialEq, Eq, PartialOrd, Ord)]
pub struct Hop {
    text: Padded<255>,
}

impl Model for Hop {
    ghost use Rattle.std.specs.Prelude.{List, ℕ, ◌≡◌, true};
    ghost use Rattle.q_model.specs.Texts.{is_hop};

    ghost Value = { List ℕ };

    ghost view = { λ h. h.text };

    ghost invariant = { λ h. is_hop h.text ≡ true };

    ghost inverse = { λ v. record { text = v } };
}

fn has_hop_bytes(bytes: &[u8]) -> bool
    ensures { result ≡ list_all is_hop_byte bytes.now }
{
    bytes.iter().all(|b| *b > 32 && *b < 127)
}

fn is_hop(bytes: &[u8]) -> bool
    ensures { result ≡ is_hop bytes.now }
{
    let filled = !bytes.is_empty();
    let short = bytes.len() <= 255;
    let printable = has_hop_bytes(bytes);
    filled & short & printable
}

impl Hop {
    /// The next hop of these bytes, where they have its form.
    pub fn new(bytes: &[u8]) -> Option<Hop>
        ensures { result ≡ (if is_hop bytes.now then Some bytes.now else None) }
    {
        if !is_hop(bytes) {
            return None;
        }
        Some(Hop {
            text: Padded::new(bytes),
        })
    }

    /// These bytes in lower case.
    pub(crate) fn lowered(bytes: &[u8]) -> Hop
        requires { is_hop (map lower bytes.now) ≡ true }
        ensures { result ≡ map lower bytes.now }
    {
        Hop {
            text: Padded::lowered(bytes),
        }
    }

    pub fn bytes(&self) -> &[u8]
        ensures same { result.now ≡ self.now }
        ensures form { is_hop self.now ≡ true }
    {
        self.text.bytes()
    }
}
