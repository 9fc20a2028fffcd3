//! The parameters of a queue manager.
ghost use Rattle.std.specs.Prelude.{◌≡◌, ◌≤◌};
ghost use Rattle.q_model.specs.Settings.{defaults, window_limit};
ghost use Rattle.q_settings.specs.Ranges.{IsInRange};

use q_feedback::Feedback;
use std::marker::Model;

/// The parameters, under their names in postconf(5); `mark_sync_limit` is this program's own: how
/// many marks of one message may wait for a sync. Times are in seconds. A contract sees them as
/// the record of settings that the rules go by, and every value is in the ranges.
#[derive(Clone, Copy, Debug)]
pub struct Params {
    pub qmgr_message_active_limit: u32,
    pub qmgr_message_recipient_limit: u32,
    pub qmgr_message_recipient_minimum: u32,
    pub initial_destination_concurrency: u32,
    pub default_destination_concurrency_limit: u32,
    pub default_destination_recipient_limit: u32,
    pub default_destination_concurrency_positive_feedback: Feedback,
    pub default_destination_concurrency_negative_feedback: Feedback,
    pub default_destination_concurrency_failed_cohort_limit: u32,
    pub default_process_limit: u32,
    pub default_delivery_slot_cost: u32,
    pub default_delivery_slot_loan: u32,
    pub default_delivery_slot_discount: u32,
    pub default_minimum_delivery_slots: u32,
    pub queue_run_delay: u32,
    pub minimal_backoff_time: u32,
    pub maximal_backoff_time: u32,
    pub maximal_queue_lifetime: u32,
    pub bounce_queue_lifetime: u32,
    pub mark_sync_limit: u32,
    pub default_destination_rate_delay: u32,
}

impl Model for Params {
    ghost use Rattle.q_model.specs.Settings.{Settings};

    ghost Value = { Settings };

    ghost use Rattle.q_settings.specs.Fields.{settings_of};
    ghost use Rattle.q_settings.specs.Ranges.{IsInRange};

    ghost view = { settings_of };

    ghost invariant = { λ p. IsInRange (settings_of p) };

    ghost inverse = { λ s. record {
      qmgr_message_active_limit = s.active_limit;
      qmgr_message_recipient_limit = s.recipient_limit;
      qmgr_message_recipient_minimum = s.recipient_minimum;
      initial_destination_concurrency = s.initial_concurrency;
      default_destination_concurrency_limit = s.concurrency_limit;
      default_destination_recipient_limit = s.entry_limit;
      default_destination_concurrency_positive_feedback = s.positive;
      default_destination_concurrency_negative_feedback = s.negative;
      default_destination_concurrency_failed_cohort_limit = s.cohort_limit;
      default_process_limit = s.process_limit;
      default_delivery_slot_cost = s.slot_cost;
      default_delivery_slot_loan = s.slot_loan;
      default_delivery_slot_discount = s.slot_discount;
      default_minimum_delivery_slots = s.minimum_slots;
      queue_run_delay = s.run_delay;
      minimal_backoff_time = s.minimal_backoff;
      maximal_backoff_time = s.maximal_backoff;
      maximal_queue_lifetime = s.lifetime;
      bounce_queue_lifetime = s.bounce_lifetime;
      mark_sync_limit = s.mark_sync_limit;
      default_destination_rate_delay = s.rate_delay;
    } };
}

impl Params {
    /// What no window passes: the concurrency limit, or 1 where deliveries to a site keep a delay
    /// between them.
    pub fn window_limit(&self) -> u32
        ensures exact { result ≡ window_limit self.now }
        ensures some { 1 ≤ result }
        ensures few { result ≤ 40 }
    {
        if self.default_destination_rate_delay == 0 {
            self.default_destination_concurrency_limit
        } else {
            1
        }
    }

    /// The defaults of postconf(5).
    pub fn defaults() -> Params
        ensures exact { result ≡ defaults }
        ensures in_range { IsInRange result }
    {
        Params {
            qmgr_message_active_limit: 20_000,
            qmgr_message_recipient_limit: 20_000,
            qmgr_message_recipient_minimum: 10,
            initial_destination_concurrency: 5,
            default_destination_concurrency_limit: 20,
            default_destination_recipient_limit: 50,
            default_destination_concurrency_positive_feedback: Feedback::one(),
            default_destination_concurrency_negative_feedback: Feedback::one(),
            default_destination_concurrency_failed_cohort_limit: 1,
            default_process_limit: 100,
            default_delivery_slot_cost: 5,
            default_delivery_slot_loan: 3,
            default_delivery_slot_discount: 50,
            default_minimum_delivery_slots: 3,
            queue_run_delay: 300,
            minimal_backoff_time: 300,
            maximal_backoff_time: 4_000,
            maximal_queue_lifetime: 432_000,
            bounce_queue_lifetime: 432_000,
            mark_sync_limit: 1,
            default_destination_rate_delay: 0,
        }
    }
}
