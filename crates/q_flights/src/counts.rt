//! Counts of the deliveries at each transport.
ghost use Rattle.std.specs.Prelude.{◌≡◌, ◌≤◌, ◌<◌, ◌+◌, ◌-◌, ◌^◌, slice_index_or, slice_set};

/// A count for each number of a transport.
pub(crate) type Counts = [u32; 256];

/// One delivery more is at the transport.
pub(crate) fn count_begun(counts: &mut Counts, transport: u8)
    requires { slice_index_or counts.old transport 0 < 2 ^ 32 - 1 }
    ensures { counts.new ≡ slice_set counts.old transport
        (slice_index_or counts.old transport 0 + 1) }
{
    counts[usize::from(transport)] += 1;
}

/// One delivery less is at the transport.
pub(crate) fn count_ended(counts: &mut Counts, transport: u8)
    requires { 1 ≤ slice_index_or counts.old transport 0 }
    ensures { counts.new ≡ slice_set counts.old transport
        (slice_index_or counts.old transport 0 - 1) }
{
    counts[usize::from(transport)] -= 1;
}
