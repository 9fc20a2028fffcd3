//! What a life goes by that takes mail in and delivers none.
ghost use Rattle.std.specs.Prelude.{◌≡◌};
ghost use Rattle.q_replay.specs.IntakeSettings.{intake_settings};
ghost use Rattle.q_settings.specs.Ranges.{IsInRange};

use q_settings::Params;

/// The parameters that an intake life is begun with: the same, with room for one message with one
/// recipient in memory. An intake life admits none, so it does the same by these, and needs neither
/// the memory nor the time that the limits of deliveries ask for.
pub fn intake_params(params: Params) -> Params
    requires range { IsInRange params }
    ensures exact { result ≡ intake_settings params }
    ensures in_range { IsInRange result }
{
    Params {
        qmgr_message_active_limit: 1,
        qmgr_message_recipient_limit: 1,
        qmgr_message_recipient_minimum: 1,
        ..params
    }
}
