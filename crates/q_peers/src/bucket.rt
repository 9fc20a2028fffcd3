//! Buckets of peers, which are messages at sites, and of sites.
ghost use Rattle.std.specs.Prelude.{◌≡◌, ◌≤◌, ◌<◌, ◌%◌};
ghost use Rattle.q_peers.specs.Buckets.{hash_with, peer_hash, site_hash};

use q_model::{Id, Site};

/// A prime, and the greatest number of 31 bits.
const MODULUS: u64 = 2_147_483_647;

fn hash_with(hash: u64, byte: u8) -> u64
    requires { hash < MODULUS }
    ensures is { result ≡ hash_with hash byte }
    ensures below { result < MODULUS }
{
    (hash * 31 + u64::from(byte)) % MODULUS
}

/// The hash of a site's transport and next hop.
pub fn site_hash(site: &Site) -> u32
    ensures { result ≡ site_hash site.now }
{
    let mut hash = u64::from(site.transport);
    for byte in site.hop.bytes() {
        hash = hash_with(hash, *byte);
    }
    hash as u32
}

/// A number that is taken from a message and a site.
pub fn peer_hash(id: Id, site: &Site) -> u32
    ensures { result ≡ peer_hash id site.now }
{
    ((u64::from(site_hash(site)) * 31 + u64::from(id.serial)) % MODULUS) as u32
}

/// The bucket of a message at a site, of so many.
pub(crate) fn peer_bucket(id: Id, site: &Site, buckets: u32) -> u32
    requires { 1 ≤ buckets }
    ensures is { result ≡ peer_hash id site.now % buckets }
    ensures below { result < buckets }
{
    peer_hash(id, site) % buckets
}

/// The bucket of a site, of so many.
pub(crate) fn site_bucket(site: &Site, buckets: u32) -> u32
    requires { 1 ≤ buckets }
    ensures is { result ≡ site_hash site.now % buckets }
    ensures below { result < buckets }
{
    site_hash(site) % buckets
}
