//! When dead sites are alive again (SCHEDULER_README; qmgr(8), the trigger F).
ghost use Rattle.std.specs.Prelude.{◌≡◌, ◌≤◌, filter, map};
ghost use Rattle.q_dest.specs.Dests.{is_kept, revived_when_dead, woken_when_due};

use crate::sites::Sites;
use q_model::Moment;
use q_settings::Params;

impl Sites {
    /// The dead sites whose time has come are alive again, and the rests that are over end; those of
    /// these sites that are unused then, alive and don't rest are forgotten.
    pub fn wake_due(&mut self, params: &Params, moment: Moment)
        requires { moment ≤ 999990000000 }
        ensures { self.new ≡ record self.old
            { items = filter is_kept (map (woken_when_due params.now moment) self.old.items) } }
    {
        while let Some(found) = self.table.first_due(moment) {
            self.stand_apart();
            self.renew(found.site(), &found, found.woken(params, moment));
        }
        self.stand_apart();
    }

    /// All dead sites are alive again; those of them that are unused are forgotten.
    pub fn revive_all(&mut self, params: &Params)
        ensures { self.new ≡ record self.old
            { items = filter is_kept (map (revived_when_dead params.now) self.old.items) } }
    {
        while let Some(found) = self.table.first_dead() {
            self.stand_apart();
            self.renew(found.site(), &found, found.revived(params));
        }
        self.stand_apart();
    }
}
