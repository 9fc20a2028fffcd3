//! Why words are refused.
ghost use Rattle.std.specs.Prelude.{◌≢◌};
ghost use Rattle.clap.specs.Words.{kind_of};
ghost use Rattle.clap.specs.declared.error.kind.ErrorKind.TheVariants.{OutOfMemory};
ghost use Rattle.q_words.specs.Usages.{IsUsageError};

use clap::error::ErrorKind;
use q_model::NoMemory;
use thiserror::Error;

/// Why the words of a command are refused, or want of memory. `Display` is a text for the user.
#[derive(Debug, Drop, Error)]
pub enum WordsError {
    #[error("no memory")]
    NoMemory,
    #[error("error: the first word is none of replay, submit, drain, listen, hold, release, requeue, expire, flush, queue, json, qshape, status, show, params, route, check, audit, load")]
    NoCommand,
    /// clap's reason, and the usage of the command.
    #[error("{0}")]
    Refused(clap::Error),
    #[error("error: a word is no address\n\nUsage: submit <SENDER> <RECIPIENT>...")]
    NoAddress,
    #[error("error: a word is none of incoming, active, deferred, hold\n\nUsage: qshape [OPTIONS] [QUEUE]...")]
    NoQueue,
    #[error("error: the word is neither the id of a message nor ALL, nor - for ids from the input")]
    NoTarget,
    #[error("error: the word is neither the id of a message nor - for ids from the input\n\nUsage: expire <ID>")]
    NoChosen,
    #[error("error: the word is no id of a message\n\nUsage: show <ID>")]
    NoId,
    #[error("error: a word is no address\n\nUsage: route <ADDRESS>...")]
    NoRoute,
    #[error("error: the word is no domain\n\nUsage: flush <DOMAIN>")]
    NoDomain,
}

impl From<NoMemory> for WordsError {
    ghost use Rattle.std.specs.Prelude.{◌≡◌};
    ghost use Rattle.q_words.specs.declared.error.WordsError.TheVariants.{NoMemory as OfMemory};

    ghost from_gives = { λ _ e. e ≡ OfMemory };

    fn from(_: NoMemory) -> Self {
        WordsError::NoMemory
    }
}

/// What clap's error is to the reader of words.
pub(crate) fn refused(error: clap::Error) -> WordsError
    ensures { IsUsageError result → kind_of error ≢ OutOfMemory }
{
    match error.kind() {
        ErrorKind::OutOfMemory => WordsError::NoMemory,
        _ => WordsError::Refused(error),
    }
}
