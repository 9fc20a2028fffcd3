//! What the bodies of a queue file's records say.
ghost use Rattle.std.specs.Prelude.{◌≡◌};
ghost use Rattle.q_model.specs.QueueFile.{arrival_of, content_limit, counts_of, is_other, is_version, original_of, recipient_of, sender_of};

use q_model::{
    Address, LAST_MOMENT, MOST_CONTENT_BYTES, MOST_FIRST_CONTENT_BYTES, MOST_RECIPIENTS, Moment,
};
use std::marker::Model;

/// The first version of the format, in which nothing stands of original addresses.
pub(crate) const FIRST_VERSION: u32 = 1;

/// The version of new files.
pub(crate) const NEW_VERSION: u32 = 2;

/// The mark byte of a recipient that is done. Every other byte is that of a pending one.
const DONE: u8 = b'D';

/// What a file says of sizes.
#[derive(Clone, Copy, Debug, PartialEq, Eq)]
pub(crate) struct Counts {
    pub(crate) version: u32,
    pub(crate) recipients: u32,
    pub(crate) content: u32,
}

impl Model for Counts {
    ghost use Rattle.q_model.specs.QueueFile.{Counts as CountsValue};

    ghost Value = { CountsValue };

    ghost view = { λ c. record { version = c.version; recipients = c.recipients; content = c.content } };

    ghost inverse = { λ v. record { version = v.version; recipients = v.recipients; content = v.content } };
}

/// A recipient as a file says it.
#[derive(Clone, Copy, Debug, PartialEq, Eq)]
pub(crate) struct Recipient {
    pub(crate) address: Address,
    pub(crate) original: Option<Address>,
    pub(crate) marked: bool,
}

impl Model for Recipient {
    ghost use Rattle.q_model.specs.QueueFile.{FileRecipient};

    ghost Value = { FileRecipient };

    ghost view = { λ r. record { address = r.address; original = r.original; marked = r.marked } };

    ghost inverse = { λ v. record { address = v.address; original = v.original; marked = v.marked } };
}

fn is_version(version: u32) -> bool
    ensures { result ≡ is_version version }
{
    version == FIRST_VERSION || version == NEW_VERSION
}

fn content_limit(version: u32) -> u32
    ensures { result ≡ content_limit version }
{
    if version == FIRST_VERSION {
        return MOST_FIRST_CONTENT_BYTES;
    }
    MOST_CONTENT_BYTES
}

/// The counts in the body of a `C`, of which the version is known and the limits are kept.
pub(crate) fn counts_in(body: &[u8]) -> Option<Counts>
    ensures { result ≡ counts_of body.now }
{
    if body.len() != 12 {
        return None;
    }
    let version = u32::from_be_bytes([body[0], body[1], body[2], body[3]]);
    let recipients = u32::from_be_bytes([body[4], body[5], body[6], body[7]]);
    let content = u32::from_be_bytes([body[8], body[9], body[10], body[11]]);
    let within_limits = recipients >= 1
        && recipients <= MOST_RECIPIENTS
        && content <= content_limit(version);
    if !is_version(version) || !within_limits {
        return None;
    }
    Some(Counts {
        version,
        recipients,
        content,
    })
}

pub(crate) fn arrival_in(body: &[u8]) -> Option<Moment>
    ensures { result ≡ arrival_of body.now }
{
    let [a, b, c, d, e, f, g, h] = body else {
        return None;
    };
    let arrival = u64::from_be_bytes([*a, *b, *c, *d, *e, *f, *g, *h]);
    if arrival > LAST_MOMENT {
        return None;
    }
    Some(arrival)
}

/// The sender; `Some(None)` is the null sender.
pub(crate) fn sender_in(body: &[u8]) -> Option<Option<Address>>
    ensures { result ≡ sender_of body.now }
{
    if body.is_empty() {
        return Some(None);
    }
    Some(Some(Address::new(body)?))
}

/// The original address in the body of an `O`; `Some(None)` is none.
pub(crate) fn original_in(body: &[u8]) -> Option<Option<Address>>
    ensures { result ≡ original_of body.now }
{
    sender_in(body)
}

/// Whether it is another one than the address.
fn is_other(address: &Address, original: &Option<Address>) -> bool
    ensures { result ≡ is_other address.now original.now }
{
    match original {
        Some(original) => original.bytes() != address.bytes(),
        None => true,
    }
}

/// The recipient in the body of an `R`, behind an `O` with this original address.
pub(crate) fn recipient_in(original: Option<Address>, body: &[u8]) -> Option<Recipient>
    ensures { result ≡ recipient_of original body.now }
{
    let [mark, address @ ..] = body else {
        return None;
    };
    let address = Address::new(address)?;
    if !is_other(&address, &original) {
        return None;
    }
    Some(Recipient {
        address,
        original,
        marked: *mark == DONE,
    })
}
