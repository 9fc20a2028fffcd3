//! How many links may be open at once: each takes a descriptor, and so do the files of the spool.
use libc::types::rlimit;
use libc::{RLIMIT_NOFILE, getrlimit};

/// How many descriptors are kept for all else: standard streams, folders and files of the spool, its
/// lock, a listener, and those that tell which links are ready.
const KEPT: u64 = 32;

/// The most links at once, by the files that the process may have open; no bound where the system
/// doesn't say.
pub(crate) fn most_links() -> usize {
    let mut limit = rlimit {
        rlim_cur: 0,
        rlim_max: 0,
    };
    if getrlimit(RLIMIT_NOFILE, &mut limit) != 0 {
        return usize::MAX;
    }
    usize::try_from(limit.rlim_cur.saturating_sub(KEPT)).unwrap_or(usize::MAX)
}
