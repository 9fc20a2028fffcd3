//! Which word of a command is none that it takes.
use q_model::Address;
use q_text::read_sender;
use q_words::WordsError;
use std::alloc::{AllocError, Global};

// The address that this word should be, counted from 1 where it is a recipient.
fn address_text(alloc: Global, number: usize, word: &str) -> Result<String, AllocError> {
    if number == 0 {
        format!(in alloc; "sender, {word:?}, is no address")
    } else {
        format!(in alloc; "recipient {number}, {word:?}, is no address")
    }
}

fn is_address(number: usize, word: &str) -> bool {
    if number == 0 {
        return read_sender(word.as_bytes()).is_some();
    }
    Address::new(word.as_bytes()).is_some()
}

// The word of `submit` that is no address.
fn no_address(alloc: Global, words: &[String]) -> Option<String> {
    let addresses = words.iter().skip(1).filter(|word| word.as_str() != "--");
    for (number, word) in addresses.enumerate() {
        if !is_address(number, word.as_str()) {
            return address_text(alloc, number, word.as_str()).ok();
        }
    }
    None
}

// The word of `route` that is no address.
fn no_route(alloc: Global, words: &[String]) -> Option<String> {
    let mut addresses = words.iter().skip(1).filter(|word| word.as_str() != "--");
    let word = addresses.find(|word| Address::new(word.as_bytes()).is_none())?;
    format!(in alloc; "{:?} is no address", word.as_str()).ok()
}

fn is_queue(word: &str) -> bool {
    matches!(word, "incoming" | "active" | "deferred" | "hold")
}

// The word of `qshape` that is no queue, and no option or its number.
fn no_queue(alloc: Global, words: &[String]) -> Option<String> {
    for word in words.iter().skip(1) {
        let text = word.as_str();
        if !is_queue(text) && !text.starts_with("-") && text.parse::<u32>().is_err() {
            return format!(in alloc; "{text:?} is no queue").ok();
        }
    }
    None
}

// The word of a command that takes one, and what it is.
fn no_word(alloc: Global, words: &[String], what: &str) -> Option<String> {
    let word = words.iter().skip(1).find(|word| word.as_str() != "--")?;
    format!(in alloc; "{:?} is {what}", word.as_str()).ok()
}

/// Which word of a command is refused, where the refusal doesn't say it.
pub(crate) fn cause_in_words(
    alloc: Global,
    words: &[String],
    error: &WordsError,
) -> Option<String> {
    match error {
        WordsError::NoAddress => no_address(alloc, words),
        WordsError::NoQueue => no_queue(alloc, words),
        WordsError::NoTarget => no_word(alloc, words, "neither an id nor ALL, nor -"),
        WordsError::NoChosen => no_word(alloc, words, "neither an id nor -"),
        WordsError::NoId => no_word(alloc, words, "no id"),
        WordsError::NoRoute => no_route(alloc, words),
        WordsError::NoDomain => no_word(alloc, words, "no domain"),
        WordsError::NoCommand => {
            let word = words.first()?;
            format!(in alloc; "{:?} is no command", word.as_str()).ok()
        }
        _ => None,
    }
}
