//! Words that name queues.
ghost use Rattle.std.specs.Prelude.{◌≡◌, bytes_eq, map};
ghost use Rattle.std.specs.List.{list_all, list_any};
ghost use Rattle.q_words.specs.Requests.{is_queue, queues_of};

use q_model::Queues;

fn is_queue(word: &str) -> bool
    ensures { result ≡ is_queue word.now }
{
    word == "incoming" || word == "active" || word == "deferred" || word == "hold"
}

/// Whether each word names a queue.
pub(crate) fn are_queues(words: &[&str]) -> bool
    ensures { result ≡ list_all (λ w. is_queue w.now) words.now }
{
    words.iter().all(|word| is_queue(word))
}

fn names(words: &[&str], queue: &str) -> bool
    ensures { result ≡ list_any (λ w. bytes_eq queue.now w.now) words.now }
{
    words.iter().any(|word| queue == *word)
}

/// The queues that the words name; incoming and active where there are none.
pub(crate) fn queues_of(words: &[&str]) -> Queues
    ensures { result ≡ queues_of (map (λ w. w.now) words.now) }
{
    if words.is_empty() {
        return Queues {
            incoming: true,
            active: true,
            deferred: false,
            hold: false,
        };
    }
    Queues {
        incoming: names(words, "incoming"),
        active: names(words, "active"),
        deferred: names(words, "deferred"),
        hold: names(words, "hold"),
    }
}
