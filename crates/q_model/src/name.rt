//! Names of files in a spool.
ghost use Rattle.std.specs.Prelude.{◌≡◌, Some, None, if◌then◌else◌, true};
ghost use Rattle.std.specs.List.{list_all};
ghost use Rattle.q_model.specs.Texts.{is_name, is_name_byte};

use crate::padded::Padded;
use std::fmt;
use std::marker::Model;

/// The name of a file: 1 to 40 bytes of `a-z`, `0-9` and `-`, ordered by bytes. A contract sees
/// it as the list of its bytes.
#[derive(Clone, Copy, Debug, PartialEq, Eq, PartialOrd, Ord)]
pub struct Name {
    text: Padded<40>,
}

impl Model for Name {
    ghost use Rattle.std.specs.Prelude.{List, ℕ, ◌≡◌, true};
    ghost use Rattle.q_model.specs.Texts.{is_name};

    ghost Value = { List ℕ };

    ghost view = { λ n. n.text };

    ghost invariant = { λ n. is_name n.text ≡ true };

    ghost inverse = { λ v. record { text = v } };
}

fn is_name_byte(byte: u8) -> bool
    ensures { result ≡ is_name_byte byte }
{
    byte.is_ascii_lowercase() || byte.is_ascii_digit() || byte == b'-'
}

fn has_name_bytes(bytes: &[u8]) -> bool
    ensures { result ≡ list_all is_name_byte bytes.now }
{
    bytes.iter().all(|b| is_name_byte(*b))
}

fn is_name(bytes: &[u8]) -> bool
    ensures { result ≡ is_name bytes.now }
{
    let filled = !bytes.is_empty();
    let short = bytes.len() <= 40;
    let lawful = has_name_bytes(bytes);
    filled & short & lawful
}

impl Name {
    /// The name of these bytes, where they have its form.
    pub fn new(bytes: &[u8]) -> Option<Name>
        ensures { result ≡ (if is_name bytes.now then Some bytes.now else None) }
    {
        if !is_name(bytes) {
            return None;
        }
        Some(Name {
            text: Padded::new(bytes),
        })
    }

    /// The name with this text.
    pub(crate) fn from_text(text: Padded<40>) -> Name
        requires { is_name text ≡ true }
        ensures { result ≡ text }
    {
        Name { text }
    }

    pub fn bytes(&self) -> &[u8]
        ensures same { result.now ≡ self.now }
        ensures form { is_name self.now ≡ true }
    {
        self.text.bytes()
    }
}

impl fmt::Display for Name {
    fn fmt<W: fmt::Write>(&self, f: &mut fmt::Formatter<W>) -> fmt::Result {
        for byte in self.bytes() {
            f.write_char(*byte as char)?;
        }
        Ok(())
    }
}
