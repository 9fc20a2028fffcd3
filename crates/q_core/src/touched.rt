//! The messages that entries touched since the core was tidied.
ghost use Rattle.std.specs.Prelude.{◌≡◌, ◌==◌, if◌then◌else◌};
ghost use Rattle.q_core.specs.Tidied.{unread_among};
ghost use Rattle.q_pool.specs.Kept.{heads};
ghost use Rattle.q_core.specs.Touched.{touched_with};
ghost use Rattle.q_model.specs.Ids.{id_eq};

use crate::names::same_id;
use crate::tidy::unread;
use q_model::Id;
use q_pool::Pool;
use q_settings::Params;

/// What entries touched: more than one is everything.
#[derive(Debug, Drop)]
pub(crate) enum Touched<T> {
    Nothing,
    One(T),
    Everything,
}

/// The message was touched.
pub(crate) fn touch_message(touched: &mut Touched<Id>, id: Id)
    ensures { touched.new ≡ touched_with id_eq id touched.old }
{
    match touched {
        Touched::Nothing => *touched = Touched::One(id),
        Touched::One(other) => {
            if !same_id(*other, id) {
                *touched = Touched::Everything;
            }
        }
        Touched::Everything => {}
    }
}

/// The message leaves memory: where something of it is unread, its jobs stayed for that.
pub(crate) fn touch_unread(touched: &mut Touched<Id>, admitted: &Pool, id: Id)
    ensures { touched.new ≡ (if unread_among (heads admitted.now.items) id == 0 then touched.old
        else touched_with id_eq id touched.old) }
{
    if unread(admitted, id) != 0 {
        touch_message(touched, id);
    }
}

/// How many dead sites that nothing goes to are remembered.
pub(crate) fn record_limit(params: &Params) -> usize
    ensures { result ≡ params.now.recipient_limit }
{
    params.qmgr_message_recipient_limit as usize
}
