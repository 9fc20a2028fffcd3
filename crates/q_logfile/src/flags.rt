//! Which positions of a message have a record in its failure log, as flags.
ghost use Rattle.std.specs.Prelude.{◌≡◌, IfOk, slice_set, true};
ghost use Rattle.q_logfile.specs.Flags.{AreFlags, flag_at};

use q_model::Failure;
use std::alloc::{AllocError, Global};

/// Sets the flag of the position, where it has one.
fn set_flag(flags: &mut [bool], position: u32)
    ensures { flags.new ≡ slice_set flags.old position true }
{
    let position = position as usize;
    if position < flags.len() {
        flags[position] = true;
    }
}

/// Which positions below `recipients` have a record. Others are passed over.
pub fn flags_of(
    alloc: Global,
    failures: &[Failure],
    recipients: u32,
) -> Result<Vec<bool>, AllocError>
    ensures { IfOk result (λ flags. AreFlags recipients failures.now flags.items) }
{
    let mut flags = vec![in alloc; false; recipients as usize]?;
    for failure in failures {
        set_flag(&mut flags, failure.position);
    }
    Ok(flags)
}

/// Whether the position has its flag.
pub fn is_set(flags: &[bool], position: u32) -> bool
    ensures { result ≡ flag_at flags.now position }
{
    if (position as usize) < flags.len() {
        return flags[position as usize];
    }
    false
}
