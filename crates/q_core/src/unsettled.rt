//! Outcomes that aren't on disk yet, and rows that can't be sent.
ghost use Rattle.std.specs.Prelude.{◌≡◌, find, option_map};
ghost use Rattle.q_core.specs.Held.{have_space, is_dead_in};
ghost use Rattle.q_positions.specs.Rows.{row_shown};
ghost use Rattle.q_core.specs.Rules.{decision_of, first_need_in, next_skip_in, next_skip_number};

use crate::decision::Decision;
use crate::state::Core;
use q_model::{Failure, Need, Unsettled};
use q_positions::RowRef;

/// What an outcome needs first: a record of its failure, or its mark.
fn needed(row: &Unsettled) -> Decision
    ensures { result ≡ decision_of row.now }
{
    match row.need {
        Need::Log { why, code } => Decision::Log {
            id: row.id,
            failure: Failure {
                position: row.position,
                why,
                code,
            },
        },
        Need::Mark => Decision::Mark {
            id: row.id,
            position: row.position,
        },
    }
}

impl Core {
    pub(crate) fn first_need(&self) -> Option<Decision>
        ensures { result ≡ first_need_in self.now }
    {
        match self.unsettled.first() {
            Some(row) => Some(needed(row)),
            None => None,
        }
    }

    /// Whether outcomes of so many recipients have space beside those that are to be settled. Those
    /// of recipients in memory have it, as long as these are within their limit.
    pub(crate) fn has_space(&self, recipients: &[u32]) -> bool
        ensures { result ≡ have_space self.now recipients.now }
    {
        self.unsettled.stand_within();
        let spare = self.unsettled.spare() as usize;
        recipients.len() <= spare
    }

    /// The first waiting row whose site is dead.
    fn first_dead(&self) -> Option<RowRef<'_>>
        ensures { option_map row_shown result
            ≡ find (λ r. is_dead_in self.now r.site) self.now.waiting }
    {
        self.waiting.stand_apart();
        match self.waiting.first_held() {
            Some(number) => self.waiting.get(number),
            None => None,
        }
    }

    /// The number of the row that is put off next.
    pub(crate) fn next_skip_number(&self) -> u32
        ensures { result ≡ next_skip_number self.now }
    {
        if self.skips < u32::MAX {
            self.skips + 1
        } else {
            1
        }
    }

    pub(crate) fn next_skip(&self) -> Option<Decision>
        ensures { result ≡ next_skip_in self.now }
    {
        match self.first_dead() {
            Some(row) => Some(Decision::Skip {
                id: row.id,
                site: *row.site,
                entry: self.next_skip_number(),
            }),
            None => None,
        }
    }
}
