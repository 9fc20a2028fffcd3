//! Walks along a list of numbers.
ghost use Rattle.std.specs.Prelude.{◌≡◌, find, IfSome, true};
ghost use Rattle.q_chains.specs.Lists.{stands};
ghost use Rattle.q_model.specs.Ids.{id_eq};
ghost use Rattle.q_model.specs.Sites.{site_eq};
ghost use Rattle.q_peers.specs.Numbered.{is_at, is_for};
ghost use Rattle.q_chains.specs.Onward.{from_on};
ghost use Rattle.q_chains.specs.Slots.{passes};

use q_chains::Chains;
use q_model::{Id, Site};
use q_positions::Slots;

fn same_id(a: Id, b: Id) -> bool
    ensures { result ≡ id_eq a b }
{
    a == b
}

fn same_site(a: &Site, b: &Site) -> bool
    ensures { result ≡ site_eq a.now b.now }
{
    a.transport == b.transport && a.hop.bytes() == b.hop.bytes()
}

/// Whether the row of the number goes to the site.
fn is_row_at(rows: &Slots, number: u32, site: &Site) -> bool
    ensures { result ≡ passes (is_at site.now) rows.now.rows number }
{
    match rows.get(number) {
        Some(row) => same_site(row.site, site),
        None => false,
    }
}

/// Whether it is of the message, and goes to the site.
fn is_row_for(rows: &Slots, number: u32, id: Id, site: &Site) -> bool
    ensures { result ≡ passes (is_for id site.now) rows.now.rows number }
{
    match rows.get(number) {
        Some(row) => same_id(row.id, id) && same_site(row.site, site),
        None => false,
    }
}

/// The first number whose row goes to the site, from this one on in its list.
pub(crate) fn first_at_from(
    rows: &Slots,
    lists: &Chains,
    from: Option<u32>,
    site: &Site,
) -> Option<u32>
    requires { IfSome from (λ number. stands number lists.now.lists ≡ true) }
    ensures { result
        ≡ find (passes (is_at site.now) rows.now.rows) (from_on from lists.now.lists) }
{
    let mut at = from;
    while let Some(number) = at {
        if is_row_at(rows, number, site) {
            return Some(number);
        }
        at = lists.next(number);
    }
    None
}

/// The first number whose row is of the message and goes to the site, from this one on in its list.
pub(crate) fn first_for_from(
    rows: &Slots,
    lists: &Chains,
    from: Option<u32>,
    id: Id,
    site: &Site,
) -> Option<u32>
    requires { IfSome from (λ number. stands number lists.now.lists ≡ true) }
    ensures { result
        ≡ find (passes (is_for id site.now) rows.now.rows) (from_on from lists.now.lists) }
{
    let mut at = from;
    while let Some(number) = at {
        if is_row_for(rows, number, id, site) {
            return Some(number);
        }
        at = lists.next(number);
    }
    None
}
