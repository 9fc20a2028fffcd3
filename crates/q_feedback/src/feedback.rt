//! Feedbacks.
ghost use Rattle.std.specs.Prelude.{◌≡◌, ◌≤◌, ◌*◌, false, IfSome};
ghost use Rattle.q_feedback.specs.FeedbackForms.{IsFeedback};
ghost use Rattle.q_feedback.specs.FeedbackTexts.{feedback_of, fraction, per_window, whole};
ghost use Rattle.q_model.specs.Feedbacks.{amount, parts, unit};

use q_numbers::{cut, read_number};
use std::marker::Model;

/// The least common multiple of 1 to 40, so that each window divides it.
const PARTS: u64 = 5_342_931_457_063_200;

/// What stands behind the slash of a feedback that is over the window.
const PER_WINDOW: &[u8] = b"concurrency";

/// What one reply adds to the feedback of a concurrency window: a fraction from 0 to 1 whose
/// denominator is at most 100, or 0 or 1 over the window (postconf(5):
/// default_destination_concurrency_positive_feedback). A contract sees it as the record of its
/// numerator, its denominator, and whether it is over the window.
#[derive(Clone, Copy, Debug, PartialEq, Eq)]
pub struct Feedback {
    numerator: u8,
    denominator: u8,
    by_window: bool,
}

impl Model for Feedback {
    ghost use Rattle.q_model.specs.Settings.{Feedback as FeedbackValue};

    ghost Value = { FeedbackValue };

    ghost use Rattle.q_feedback.specs.FeedbackForms.{IsFeedback};

    ghost view = { λ f. record {
      numerator = f.numerator;
      denominator = f.denominator;
      by_window = f.by_window;
    } };

    ghost invariant = { λ f. IsFeedback (record {
      numerator = f.numerator;
      denominator = f.denominator;
      by_window = f.by_window;
    }) };

    ghost inverse = { λ v. record {
      numerator = v.numerator;
      denominator = v.denominator;
      by_window = v.by_window;
    } };
}

/// `p`, which is 0 or 1.
fn whole(text: &[u8]) -> Option<Feedback>
    ensures exact { result ≡ whole text.now }
    ensures form { IfSome result IsFeedback }
{
    let numerator = read_number(text, 0, 1)?;
    Some(Feedback {
        numerator: numerator as u8,
        denominator: 1,
        by_window: false,
    })
}

/// `p/concurrency`, where p is 0 or 1.
fn per_window(front: &[u8]) -> Option<Feedback>
    ensures exact { result ≡ per_window front.now }
    ensures form { IfSome result IsFeedback }
{
    let numerator = read_number(front, 0, 1)?;
    Some(Feedback {
        numerator: numerator as u8,
        denominator: 1,
        by_window: true,
    })
}

/// `p/q`, where q is from 1 to 100 and p from 0 to q.
fn fraction(front: &[u8], back: &[u8]) -> Option<Feedback>
    ensures exact { result ≡ fraction front.now back.now }
    ensures form { IfSome result IsFeedback }
{
    let denominator = read_number(back, 1, 100)?;
    let numerator = read_number(front, 0, denominator)?;
    Some(Feedback {
        numerator: numerator as u8,
        denominator: denominator as u8,
        by_window: false,
    })
}

impl Feedback {
    /// One, which is the default of postconf(5).
    pub fn one() -> Feedback
        ensures exact { result ≡ record { numerator = 1; denominator = 1; by_window = false } }
        ensures form { IsFeedback result }
    {
        Feedback {
            numerator: 1,
            denominator: 1,
            by_window: false,
        }
    }

    /// The feedback that a text writes: `p` or `p/concurrency` with p 0 or 1, or `p/q` with q
    /// from 1 to 100 and p from 0 to q. Numbers have neither a sign nor leading zeros.
    pub fn parse(text: &[u8]) -> Option<Feedback>
        ensures exact { result ≡ feedback_of text.now }
        ensures form { IfSome result IsFeedback }
    {
        let Some((front, back)) = cut(text, b'/') else {
            return whole(text);
        };
        if back == PER_WINDOW {
            per_window(front)
        } else {
            fraction(front, back)
        }
    }

    /// How many units one reply adds at this window.
    pub fn amount(&self, window: u8) -> u64
        requires low { 1 ≤ window }
        requires high { window ≤ 40 }
        ensures exact { result ≡ amount self.now window }
        ensures within { result ≤ unit self.now }
    {
        let numerator = u64::from(self.numerator);
        if self.by_window {
            numerator * (PARTS / u64::from(window))
        } else {
            numerator * PARTS
        }
    }

    /// How many units make 1.
    pub fn units(&self) -> u64
        ensures exact { result ≡ unit self.now }
        ensures low { parts ≤ result }
        ensures high { result ≤ 100 * parts }
    {
        u64::from(self.denominator) * PARTS
    }
}
