//! Telling text.
ghost use Rattle.std.specs.Prelude.{OnErr, OnOk};
ghost use Rattle.q_host.specs.View.{Told};
ghost use Rattle.q_telling.specs.Telling.{OnlyTells, TellingCause, TellsFront, TellsMore};

use q_host::{Host, HostError};

/// Tells these bytes. `Tell` comes where the host failed, and then some first part of them is told.
pub fn tell_text<H: Host>(host: &mut H, text: &[u8]) -> Result<(), HostError>
    ensures told { OnOk result (Told H.tells H.view host.old host.new (TellsMore text.now)) }
    ensures front { OnErr result (Told H.tells H.view host.old host.new (TellsFront text.now)) }
    ensures only { Told H.tells H.view host.old host.new OnlyTells }
    ensures cause { TellingCause (H.faults host.old) (H.faults host.new) result }
{
    host.tell(text)
}
