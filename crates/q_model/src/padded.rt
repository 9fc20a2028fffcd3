//! Short texts in arrays of fixed length, so that names and addresses are `Copy`.
ghost use Rattle.std.specs.Prelude.{◌≡◌, ◌≤◌, ◌+◌, ◌++◌, length, drop, take, map};
ghost use Rattle.q_model.specs.Texts.{lower};

use std::cmp::Ordering;
use std::marker::Model;

/// A text of at most N bytes, with zeros behind it. A contract sees it as the list of its bytes,
/// and order and equality are those of the bytes.
#[derive(Clone, Copy, Debug)]
pub(crate) struct Padded<const N: usize> {
    bytes: [u8; N],
    len: usize,
}

impl<const N: usize> Model for Padded<N> {
    ghost use Rattle.std.specs.Prelude.{List, ℕ, take, length};
    ghost use Rattle.q_model.specs.Padded.{padded, IsPadded, bytes_back, len_back};

    ghost Value = { List ℕ };

    ghost view = { λ p. take p.len p.bytes };

    ghost invariant = { λ p. IsPadded N p.len p.bytes };

    ghost inverse = { λ v. record { bytes = padded N v; len = length v } };

    ghost inverse_ok = { λ p h i. record {
      bytes = bytes_back N p.len p.bytes h i;
      len = len_back N p.len p.bytes h i;
    } };
}

impl<const N: usize> PartialEq for Padded<N> {
    ghost use Rattle.std.specs.Prelude.{nat_eq};
    ghost use Rattle.std.specs.Cmp.Lexicographic.{pointwise, nat_list_eq_equiv};
    ghost use Rattle.std.specs.Cmp.{partial_equiv_from_equiv};

    ghost eq = { pointwise nat_eq };

    ghost laws = { partial_equiv_from_equiv nat_list_eq_equiv };

    fn eq(&self, other: &Padded<N>) -> bool {
        self.bytes() == other.bytes()
    }
}

impl<const N: usize> Eq for Padded<N> {
    ghost use Rattle.std.specs.Cmp.Lexicographic.{nat_list_eq_equiv};

    ghost laws = { nat_list_eq_equiv };
}

impl<const N: usize> PartialOrd for Padded<N> {
    ghost use Rattle.std.specs.Prelude.{Some};
    ghost use Rattle.std.specs.Ordering.{nat_cmp};
    ghost use Rattle.std.specs.Cmp.Lexicographic.{slice_cmp, texts_po};

    ghost partial_cmp = { λ a b. Some (slice_cmp nat_cmp a b) };

    ghost laws = { texts_po };

    fn partial_cmp(&self, other: &Padded<N>) -> Option<Ordering> {
        Some(self.cmp(other))
    }
}

impl<const N: usize> Ord for Padded<N> {
    ghost use Rattle.std.specs.Prelude.{refl};
    ghost use Rattle.std.specs.Ordering.{nat_cmp};
    ghost use Rattle.std.specs.Cmp.Lexicographic.{slice_cmp, nat_list_cmp_total, texts_ties};

    ghost cmp = { slice_cmp nat_cmp };

    ghost total = { nat_list_cmp_total };

    ghost matches_partial_cmp = { λ a b. refl };

    ghost matches_eq = { texts_ties };

    fn cmp(&self, other: &Padded<N>) -> Ordering {
        self.bytes().cmp(other.bytes())
    }
}

impl<const N: usize> Padded<N> {
    pub(crate) fn new(bytes: &[u8]) -> Padded<N>
        requires { length bytes.now ≤ N }
        ensures { result ≡ bytes.now }
    {
        let mut array = [0; N];
        let (front, _) = array.split_at_mut(bytes.len());
        front.copy_from_slice(bytes);
        Padded {
            bytes: array,
            len: bytes.len(),
        }
    }

    /// The same text in lower case.
    pub(crate) fn lowered(bytes: &[u8]) -> Padded<N>
        requires { length bytes.now ≤ N }
        ensures { result ≡ map lower bytes.now }
    {
        let mut text = Padded::new(bytes);
        lower_all(&mut text.bytes, bytes.len());
        text
    }

    pub(crate) fn bytes(&self) -> &[u8]
        ensures { result.now ≡ self.now }
    {
        &self.bytes[..self.len]
    }

    /// Adds bytes at the end.
    pub(crate) fn append(&mut self, bytes: &[u8])
        requires { length self.old + length bytes.now ≤ N }
        ensures { self.new ≡ self.old ++ bytes.now }
    {
        write_at(&mut self.bytes, self.len, bytes);
        self.len += bytes.len();
    }
}

/// Writes a text over the bytes from a place on.
fn write_at(bytes: &mut [u8], at: usize, text: &[u8])
    requires { at + length text.now ≤ length bytes.old }
    ensures { bytes.new ≡ take at bytes.old ++ text.now ++ drop (at + length text.now) bytes.old }
{
    bytes[at..at + text.len()].copy_from_slice(text);
}

fn lower(byte: u8) -> u8
    ensures { result ≡ lower byte }
{
    byte.to_ascii_lowercase()
}

/// Puts the first bytes in lower case.
fn lower_all(bytes: &mut [u8], count: usize)
    requires { count ≤ length bytes.old }
    ensures { bytes.new ≡ map lower (take count bytes.old) ++ drop count bytes.old }
{
    for i in 0..count {
        bytes[i] = lower(bytes[i]);
    }
}
