//! Which entry of a transport table decides where an address goes.
ghost use Rattle.std.specs.Prelude.{◌≡◌, ◌∷◌, map, option_copied, option_map, true};
ghost use Rattle.q_model.specs.Lists.{first_some};
ghost use Rattle.q_model.specs.Texts.{domain_of, is_hop, lower};
ghost use Rattle.q_transport.specs.Entries.{target_at, target_of};
ghost use Rattle.q_transport.specs.Routing.{deciding, parents};

use crate::entries::{Entries, Target};
use q_model::{Address, Hop};

/// By an address, which is looked up in lower case.
fn by_address<'a>(entries: &'a Entries, address: &Address) -> Option<&'a Target>
    ensures { option_copied result ≡ target_at entries.now (map lower address.now) }
{
    let text = address.bytes();
    let mut buffer = [0; 254];
    let (key, _) = buffer.split_at_mut(text.len());
    key.copy_from_slice(text);
    key.make_ascii_lowercase();
    entries.get(key)
}

/// By the nearest parent of a domain that has an entry.
fn by_parent<'a>(entries: &'a Entries, domain: &[u8]) -> Option<&'a Target>
    ensures { option_copied result ≡ first_some (target_at entries.now) (parents domain.now) }
{
    let mut rest = domain;
    while let [b, others @ ..] = rest {
        if *b == b'.' {
            if let Some(found) = entries.get(rest) {
                return Some(found);
            }
        }
        rest = others;
    }
    None
}

/// By a domain or else its nearest parent that has an entry.
fn by_domain<'a>(entries: &'a Entries, domain: &[u8]) -> Option<&'a Target>
    ensures { option_copied result ≡ first_some (target_at entries.now)
        (domain.now ∷ parents domain.now) }
{
    if let Some(found) = entries.get(domain) {
        return Some(found);
    }
    by_parent(entries, domain)
}

/// Where an address goes by the entry that decides.
pub(crate) fn deciding<'a>(
    entries: &'a Entries,
    address: &Address,
    domain: &Hop,
) -> Option<&'a Target>
    requires { domain.now ≡ domain_of address.now }
    ensures exact { option_copied result ≡ option_map target_of (deciding entries.now address.now) }
    ensures form { is_hop domain.now ≡ true }
{
    let domain = domain.bytes();
    if let Some(found) = by_address(entries, address) {
        return Some(found);
    }
    if let Some(found) = by_domain(entries, domain) {
        return Some(found);
    }
    entries.get(b"*")
}
