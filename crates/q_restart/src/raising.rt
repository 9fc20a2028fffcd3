//! Giving a spool its next generation.
ghost use Rattle.std.specs.Prelude.{◌≡◌, ◌+◌, ◌^◌, ◌<◌, IsSome, IsTrue, OnErr, OnOk};
ghost use Rattle.q_host.specs.Calls.{Changes};
ghost use Rattle.q_host.specs.Faults.{DiskCause};
ghost use Rattle.q_host.specs.View.{Told};
ghost use Rattle.q_model.specs.declared.spot.Area.TheVariants as areas;
ghost use Rattle.q_model.specs.IdTexts.{hex};
ghost use Rattle.q_restart.specs.Raises.{MayRaise, raised};

use crate::generation::generation_name;
use q_host::{Host, HostError};
use q_model::Area;

/// Renames boot's file to the generation after this one, or makes the first one after none. No
/// crash leaves boot between the two.
pub(crate) fn raise<H: Host>(host: &mut H, generation: u32) -> Result<(), HostError>
    requires fits { generation + 1 < 2 ^ 32 }
    requires there { IsTrue H.tells → 0 < generation
        → IsSome ((H.view host.old).files areas.Boot (hex 8 generation)) }
    ensures ok { OnOk result (Told H.tells H.view host.old host.new (Changes (raised generation))) }
    ensures err { OnErr result (Told H.tells H.view host.old host.new (MayRaise generation)) }
    ensures cause { DiskCause (H.faults host.old) (H.faults host.new) result }
{
    let next = generation_name(generation + 1);
    if generation == 0 {
        return host.create(Area::Boot, next);
    }
    host.rename(Area::Boot, generation_name(generation), Area::Boot, next)
}
