//! The words in front of a command: what the program itself is asked for.

/// The most seconds that a lock is waited for.
const MOST_WAIT: u32 = 1_000_000_000;

/// What stands in front of the folder.
#[derive(Clone, Copy, Default)]
pub(crate) struct Options {
    /// How many seconds the lock of the spool is waited for.
    pub(crate) wait: u32,
    /// Whether each change of a folder is made durable by itself.
    pub(crate) syncs_each: bool,
}

/// What the words of the program ask for.
pub(crate) enum Call<'a> {
    Help,
    Version,
    /// Run the command of these words on the spool in a folder.
    Run {
        options: Options,
        folder: &'a String,
        words: &'a [String],
    },
    /// They ask for nothing, and why.
    Wrong(&'static str),
}

// The seconds that a word says.
fn seconds(word: &str) -> Option<u32> {
    let wait = word.parse::<u32>().ok()?;
    (wait <= MOST_WAIT).then_some(wait)
}

// A folder and the words of a command.
fn run_on(options: Options, words: &[String]) -> Call<'_> {
    match words.split_first() {
        None => Call::Wrong("no folder of a spool is named"),
        Some((folder, _)) if folder.as_str().starts_with("-") => {
            Call::Wrong("there is no such option")
        }
        Some((folder, words)) => Call::Run {
            options,
            folder,
            words,
        },
    }
}

// The words behind `-w`, and how long they say that the lock is waited for.
fn wait_in(words: &[String]) -> Result<(u32, &[String]), Call<'_>> {
    let Some((word, words)) = words.split_first() else {
        return Err(Call::Wrong("-w wants a number of seconds"));
    };
    match seconds(word.as_str()) {
        Some(wait) => Ok((wait, words)),
        None => Err(Call::Wrong("-w wants a number of seconds, at most 1000000000")),
    }
}

// The options in front of a folder, each of which may stand once or more, and what is behind them.
fn read_options(words: &[String]) -> Call<'_> {
    let mut options = Options::default();
    let mut left = words;
    for _ in 0..words.len() {
        match left.split_first() {
            Some((word, behind)) if word.as_str() == "-s" => {
                options.syncs_each = true;
                left = behind;
            }
            Some((word, behind)) if word.as_str() == "-w" => match wait_in(behind) {
                Ok((wait, behind)) => {
                    options.wait = wait;
                    left = behind;
                }
                Err(wrong) => return wrong,
            },
            _ => break,
        }
    }
    run_on(options, left)
}

/// What the words of the program ask for.
pub(crate) fn read_call(words: &[String]) -> Call<'_> {
    match words {
        [word] => match word.as_str() {
            "--help" | "-h" | "help" => Call::Help,
            "--version" | "-V" => Call::Version,
            _ => read_options(words),
        },
        _ => read_options(words),
    }
}
