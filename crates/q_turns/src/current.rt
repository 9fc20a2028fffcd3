//! The job that is sent something next.
ghost use Rattle.std.specs.Prelude.{◌≡◌, find};
ghost use Rattle.std.specs.Option.{option_copied};
ghost use Rattle.q_turns.specs.Suspending.{HaveNoSpace};
ghost use Rattle.q_turns.specs.Turns.{is_able, line_at};

use crate::heading::sent_in;
use crate::laning::class_in;
use crate::turns::Turns;
use q_dest::Sites;
use q_jobs::Job;

impl Turns {
    /// The first job of the transport of which a row may be sent to its site. The heads of the
    /// transport are asked in their order, so the walk passes only sites that are full and aren't
    /// suspended.
    pub fn current(&self, transport: usize, sites: &Sites) -> Option<&Job>
        requires { HaveNoSpace sites.now.items self.now.suspended }
        ensures { option_copied result
            ≡ find (λ j. is_able sites.now.items self.now.peers transport j.id)
            (line_at transport self.now.lines) }
    {
        let line = self.lines.get(transport)?;
        line.stand_apart();
        self.peers.stand_apart();
        self.lanes.stand_apart();
        self.heads.stand_sorted();
        let class = class_in(false, transport as u32);
        let mut at = self.heads.first(class);
        while let Some(head) = at {
            if let Some(id) = sent_in(&self.peers, head.item, sites) {
                return line.job(id);
            }
            at = self.heads.behind(&head);
        }
        None
    }
}
