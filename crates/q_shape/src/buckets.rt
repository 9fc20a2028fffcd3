//! The limits of the buckets, and the bucket of an age.
ghost use Rattle.std.specs.Prelude.{◌≡◌, ◌≤◌, ◌<◌, ◌*◌, ◌^◌, ◌==◌, ℕ};
ghost use Rattle.q_shape.specs.Buckets.{IsShape, is_in, limit_of};

use crate::options::ShapeOptions;

const SECONDS: u64 = 60;

/// The limit of a bucket in minutes. The last one has none of its own.
pub(crate) fn limit_of(options: &ShapeOptions, bucket: u8) -> u64
    requires shape { IsShape options.now }
    requires few { bucket < 20 }
    ensures limit { result ≡ limit_of options.now bucket }
    ensures small { result ≤ 10000 * 2 ^ 19 }
{
    let minutes = u64::from(options.minutes);
    if options.linear {
        minutes * (u64::from(bucket) + 1)
    } else {
        minutes * 2_u64.pow(u32::from(bucket))
    }
}

/// The bucket to which an age in seconds belongs.
pub(crate) fn bucket_of(options: &ShapeOptions, age: u64) -> u8
    requires { IsShape options.now }
    ensures there { result < options.now.buckets }
    ensures alone { (i : ℕ) → i < options.now.buckets → is_in options.now i age ≡ (i == result) }
{
    let last = options.buckets - 1;
    for bucket in 0..last {
        if age < SECONDS * limit_of(options, bucket) {
            return bucket;
        }
    }
    last
}
