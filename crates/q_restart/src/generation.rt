//! Generations, and the names that spell them.
ghost use Rattle.std.specs.Prelude.{◌≡◌, ◌<◌, ◌^◌, ℕ, Some, true};
ghost use Rattle.q_model.specs.IdTexts.{hex};
ghost use Rattle.q_model.specs.Texts.{is_name};
ghost use Rattle.q_restart.specs.Generations.{generation_of};

use q_model::{Id, Name, id_name};
use std::str;

/// The name of boot's file: the generation in 8 hexadecimal digits. The name of an id begins with
/// it.
pub(crate) fn generation_name(generation: u32) -> Name
    ensures { result ≡ hex 8 generation }
{
    let name = id_name(Id {
        generation,
        serial: 1,
        bounce: false,
    });
    Name::new(name.bytes().split_at(8).0).unwrap_or(name)
}

/// The number that 8 hexadecimal digits spell; of other bytes any answer.
fn hex_number(digits: &[u8]) -> Option<u32>
    ensures { (n : ℕ) → n < 2 ^ 32 → hex 8 n ≡ digits.now → result ≡ Some n }
{
    let Ok(text) = str::from_utf8(digits) else {
        return None;
    };
    u32::from_str_radix(text, 16).ok()
}

/// The generation that a name spells: 8 hexadecimal digits in lower case, from 1 on.
pub(crate) fn generation_of(name: Name) -> Option<u32>
    ensures spelt { result ≡ generation_of name }
    ensures form { is_name name ≡ true }
{
    let generation = hex_number(name.bytes())?;
    if generation == 0 || generation_name(generation) != name {
        return None;
    }
    Some(generation)
}
