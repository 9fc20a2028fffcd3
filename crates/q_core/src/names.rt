//! Equality of ids and sites.
ghost use Rattle.std.specs.Prelude.{◌≡◌};
ghost use Rattle.q_model.specs.Sites.{site_eq};
ghost use Rattle.q_model.specs.Ids.{id_eq};

use q_model::{Id, Site};

pub(crate) fn same_id(a: Id, b: Id) -> bool
    ensures { result ≡ id_eq a b }
{
    a == b
}

pub(crate) fn same_site(a: &Site, b: &Site) -> bool
    ensures { result ≡ site_eq a.now b.now }
{
    a.transport == b.transport && a.hop.bytes() == b.hop.bytes()
}
