//! The keys of numbers.
ghost use Rattle.std.specs.Prelude.{◌≡◌, ◌<◌, get_or, if◌then◌else◌, length, set, ℕ};
ghost use Rattle.q_least.specs.Keys.{no_key};
ghost use Rattle.q_marked.specs.Sound.{ranked_key};

use q_least::Least;
use q_ranks::Ranked;

/// Gives the number its rank as its key where it is to be marked, else none.
pub(crate) fn set_mark(keys: &mut Least, order: &Ranked, number: u32, marked: bool)
    requires { number < length keys.old }
    ensures { keys.new ≡ set keys.old number
        (if marked then get_or order.now.ranks number 0 else no_key) }
{
    if marked {
        keys.set(number, order.rank(number));
    } else {
        keys.set(number, Least::NONE);
    }
}

/// Gives the number its rank anew, where it has a key.
fn key_anew(keys: &mut Least, order: &Ranked, number: u32)
    requires { number < length keys.old }
    ensures { keys.new ≡ set keys.old number
        (ranked_key order.now.ranks number (get_or keys.old number 0)) }
{
    if keys.key(number) != Least::NONE {
        keys.set(number, order.rank(number));
    }
}

/// Gives each of so many numbers that has a key its rank anew.
pub(crate) fn mark_anew(keys: &mut Least, order: &Ranked, numbers: u32)
    requires { length keys.old ≡ numbers }
    ensures each { length keys.new ≡ numbers }
    ensures ranked { (n : ℕ) → n < numbers → get_or keys.new n 0
        ≡ ranked_key order.now.ranks n (get_or keys.old n 0) }
{
    for number in 0..numbers {
        key_anew(keys, order, number);
    }
}
