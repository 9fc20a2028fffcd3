//! The outcomes of the recipients, in room that was reserved for them.
ghost use Rattle.std.specs.Prelude.{◌≡◌, ◌≤◌, [], length, map, vec_capacity};
ghost use Rattle.q_smtp.specs.Codes.{outcome_by, put_off};

use crate::dialogue::outcome_by;
use q_model::Outcome;

/// What the recipients' own codes say, or where these accepted them, the last one.
pub(crate) fn settle(room: &mut Vec<Outcome>, answers: &[u16], last: u16)
    requires empty { room.old.items ≡ [] }
    requires enough { length answers.now ≤ vec_capacity room.old }
    ensures { room.new.items ≡ map (outcome_by last) answers.now }
{
    for code in answers {
        room.push_reserved(outcome_by(last, *code));
    }
}

/// So many recipients are put off, without a code.
pub(crate) fn put_off(room: &mut Vec<Outcome>, count: usize)
    requires empty { room.old.items ≡ [] }
    requires enough { count ≤ vec_capacity room.old }
    ensures { room.new.items ≡ put_off count }
{
    for _ in 0..count {
        room.push_reserved(Outcome::Later(0));
    }
}
