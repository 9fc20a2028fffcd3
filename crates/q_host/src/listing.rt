//! Walking over the names of an area, 64 at a time.
ghost use Rattle.std.specs.Prelude.{◌≡◌, ◌<◌, IfNone, IfSome, length, slice_get, Some, true};
ghost use Rattle.q_model.specs.Texts.{is_name};

use q_model::{Name, Names};

/// The name behind which a walk lists on, the last of 64. Where fewer are listed, no name is left.
pub fn last_of_full(names: &Names) -> Option<Name>
    ensures last { IfSome result (λ name. slice_get names.now 63 ≡ Some name) }
    ensures few { IfNone result (length names.now < 64) }
    ensures form { IfSome result (λ name. is_name name ≡ true) }
{
    if names.len() < Names::ROOM {
        return None;
    }
    let last = names.get(Names::ROOM - 1);
    // Any value has this form.
    let _ = last.bytes();
    Some(last)
}
