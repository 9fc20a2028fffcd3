//! What a recount goes by.
ghost use Rattle.q_settings.specs.Ranges.{IsInRange};

use q_settings::Params;
use q_transport::Table;
use std::marker::Model;

/// Parameters and transport table. A contract sees them as their record, and
/// `world_of` it is the world of the rules.
#[derive(Drop)]
pub(crate) struct World {
    pub(crate) params: Params,
    pub(crate) table: Table,
}

impl Model for World {
    ghost use Rattle.q_ledger.specs.Worlds.{Given};

    ghost Value = { Given };

    ghost view = { λ w. record { settings = w.params; contents = w.table } };
}

/// Each number of a set of parameters is in its range.
pub(crate) fn is_in_range(params: &Params)
    ensures { IsInRange params.now }
{
    let _least = params.mark_sync_limit;
}
