//! The names of parameters.
ghost use Rattle.std.specs.Prelude.{◌≡◌, ◌<◌, bytes_eq, find};
ghost use Rattle.q_params.specs.Parameters.{all_parameters, name_of, place_of};

/// A parameter that a file may set.
#[derive(Clone, Copy, Debug, PartialEq, Eq)]
pub enum Parameter {
    ActiveLimit,
    RecipientLimit,
    RecipientMinimum,
    InitialConcurrency,
    ConcurrencyLimit,
    EntryLimit,
    PositiveFeedback,
    NegativeFeedback,
    FailedCohortLimit,
    ProcessLimit,
    SlotCost,
    SlotLoan,
    SlotDiscount,
    MinimumSlots,
    QueueRunDelay,
    MinimalBackoff,
    MaximalBackoff,
    QueueLifetime,
    BounceLifetime,
    MarkSyncLimit,
    RateDelay,
}

impl Parameter {
    /// How many parameters there are.
    pub const COUNT: usize = 21;

    /// All of them: those of memory, of windows, of scheduling, of times and of marks, and the delay
    /// between deliveries.
    pub const ALL: [Parameter; Parameter::COUNT] = [
        Parameter::ActiveLimit,
        Parameter::RecipientLimit,
        Parameter::RecipientMinimum,
        Parameter::InitialConcurrency,
        Parameter::ConcurrencyLimit,
        Parameter::EntryLimit,
        Parameter::PositiveFeedback,
        Parameter::NegativeFeedback,
        Parameter::FailedCohortLimit,
        Parameter::ProcessLimit,
        Parameter::SlotCost,
        Parameter::SlotLoan,
        Parameter::SlotDiscount,
        Parameter::MinimumSlots,
        Parameter::QueueRunDelay,
        Parameter::MinimalBackoff,
        Parameter::MaximalBackoff,
        Parameter::QueueLifetime,
        Parameter::BounceLifetime,
        Parameter::MarkSyncLimit,
        Parameter::RateDelay,
    ];

    /// Its name in postconf(5).
    pub fn name(self) -> &'static [u8]
        ensures { result.now ≡ name_of self }
    {
        match self {
            Parameter::ActiveLimit => b"qmgr_message_active_limit",
            Parameter::RecipientLimit => b"qmgr_message_recipient_limit",
            Parameter::RecipientMinimum => b"qmgr_message_recipient_minimum",
            Parameter::InitialConcurrency => b"initial_destination_concurrency",
            Parameter::ConcurrencyLimit => b"default_destination_concurrency_limit",
            Parameter::EntryLimit => b"default_destination_recipient_limit",
            Parameter::PositiveFeedback => b"default_destination_concurrency_positive_feedback",
            Parameter::NegativeFeedback => b"default_destination_concurrency_negative_feedback",
            Parameter::FailedCohortLimit => b"default_destination_concurrency_failed_cohort_limit",
            Parameter::ProcessLimit => b"default_process_limit",
            Parameter::SlotCost => b"default_delivery_slot_cost",
            Parameter::SlotLoan => b"default_delivery_slot_loan",
            Parameter::SlotDiscount => b"default_delivery_slot_discount",
            Parameter::MinimumSlots => b"default_minimum_delivery_slots",
            Parameter::QueueRunDelay => b"queue_run_delay",
            Parameter::MinimalBackoff => b"minimal_backoff_time",
            Parameter::MaximalBackoff => b"maximal_backoff_time",
            Parameter::QueueLifetime => b"maximal_queue_lifetime",
            Parameter::BounceLifetime => b"bounce_queue_lifetime",
            Parameter::MarkSyncLimit => b"mark_sync_limit",
            Parameter::RateDelay => b"default_destination_rate_delay",
        }
    }

    /// Its number in this list, from 0.
    pub(crate) fn place(self) -> usize
        ensures exact { result ≡ place_of self }
        ensures within { result < 21 }
    {
        self as usize
    }

    /// The parameter of this name.
    pub(crate) fn named(name: &[u8]) -> Option<Parameter>
        ensures { result ≡ find (λ p. bytes_eq (name_of p) name.now) all_parameters }
    {
        Parameter::ALL.iter().copied().find(|p| p.name() == name)
    }
}
