//! The numbers that a load is made of.
ghost use Rattle.std.specs.Prelude.{◌≡◌};
ghost use Rattle.q_load.specs.Numbers.{next_number};

/// The number behind this one.
pub(crate) fn next_number(number: u32) -> u32
    ensures { result ≡ next_number number }
{
    let product = u64::from(number) * 1_103_515_245;
    ((product + 12_345) % (1 << 31)) as u32
}
