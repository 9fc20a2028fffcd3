//! Why a line of a file of conf is refused, in words that name what stands in it. The file is read
//! once more for that, so where it was changed meanwhile nothing is said.
use crate::running::Host;
use q_host::read_file;
use q_model::{Area, Name};
use q_numbers::cut;
use q_params::{ParamCause, ParamError, read_params};
use q_text::{first_line, is_text, trim, trim_start};
use q_transport::{TableError, read_table};
use std::alloc::{AllocError, Global};

/// A parameter of a pair: its name, its default, and the value that fits to each of the other.
struct Bound {
    name: &'static str,
    default: &'static str,
    widest: &'static str,
}

/// Two parameters of which one may not be above the other.
struct Pair {
    low: Bound,
    high: Bound,
}

const PAIRS: [Pair; 2] = [
    Pair {
        low: Bound {
            name: "qmgr_message_recipient_minimum",
            default: "10",
            widest: "1",
        },
        high: Bound {
            name: "qmgr_message_recipient_limit",
            default: "20000",
            widest: "100000",
        },
    },
    Pair {
        low: Bound {
            name: "minimal_backoff_time",
            default: "300",
            widest: "1",
        },
        high: Bound {
            name: "maximal_backoff_time",
            default: "4000",
            widest: "9999999",
        },
    },
];

/// All bytes of a file of conf.
pub(crate) fn conf_file(alloc: Global, host: &mut Host<'_>, name: &[u8]) -> Option<Vec<u8>> {
    read_file(alloc, host, Area::Conf, Name::new(name)?).ok()
}

/// The line of this number, counted from 1.
fn line_at(bytes: &[u8], number: u64) -> &[u8] {
    let mut left = bytes;
    for _ in 1..number {
        left = first_line(left).1;
    }
    first_line(left).0
}

/// A name and its value.
fn setting(line: &[u8]) -> (&[u8], &[u8]) {
    match cut(line, b'=') {
        Some((name, value)) => (trim(name), trim(value)),
        None => (trim(line), b""),
    }
}

/// Whether a line has a value that its parameter takes, where the other of its pair doesn't matter.
fn is_in_range(alloc: Global, line: &[u8], other: &Bound) -> Result<bool, AllocError> {
    let (shown, name, value) = (line.escape_ascii(), other.name, other.widest);
    let text = format!(in alloc; "{name} = {value}\n{shown}\n")?;
    Ok(read_params(text.as_bytes()).is_ok())
}

/// The value that a file sets a parameter to.
fn value_in<'a>(bytes: &'a [u8], parameter: &str) -> Option<&'a [u8]> {
    for line in bytes.split(|byte| *byte == b'\n') {
        let (name, value) = setting(line);
        if name == parameter.as_bytes() {
            return Some(value);
        }
    }
    None
}

/// That a value doesn't fit to that of the other parameter, in this sense.
fn disagrees(
    alloc: Global,
    bytes: &[u8],
    line: &[u8],
    sense: &str,
    other: &Bound,
) -> Result<String, AllocError> {
    let (name, value) = setting(line);
    let (text, said) = (name.escape_ascii(), value.escape_ascii());
    match value_in(bytes, other.name) {
        Some(value) => {
            let want = value.escape_ascii();
            format!(in alloc; "{text}: {said} is {sense} {}, {want}", other.name)
        }
        None => format!(in alloc;
            "{text}: {said} is {sense} {}, {}",
            other.name, other.default
        ),
    }
}

/// What is wrong with a value: it is none of its parameter, or two parameters disagree.
fn bad_value(alloc: Global, bytes: &[u8], line: &[u8]) -> Result<String, AllocError> {
    let (name, value) = setting(line);
    for pair in &PAIRS {
        if name == pair.low.name.as_bytes() && is_in_range(alloc, line, &pair.high)? {
            return disagrees(alloc, bytes, line, "above", &pair.high);
        }
        if name == pair.high.name.as_bytes() && is_in_range(alloc, line, &pair.low)? {
            return disagrees(alloc, bytes, line, "below", &pair.low);
        }
    }
    let (text, said) = (name.escape_ascii(), value.escape_ascii());
    format!(in alloc; "{text}: {said} is no value of it")
}

/// Why no text stands in a line.
fn no_text(alloc: Global, line: &[u8]) -> Result<String, AllocError> {
    if line.ends_with(b"\r") {
        return format!(in alloc; "a CR at the end of the line");
    }
    format!(in alloc; "a byte that is neither printable ASCII nor a tab")
}

/// Why a line of the parameters is refused.
fn parameter_cause(
    alloc: Global,
    bytes: &[u8],
    line: &[u8],
    cause: ParamCause,
) -> Result<String, AllocError> {
    let name = setting(line).0.escape_ascii();
    match cause {
        ParamCause::NotText => no_text(alloc, line),
        ParamCause::NoEquals => format!(in alloc; "{name}: no equals sign"),
        ParamCause::UnknownName => format!(in alloc; "{name}: no such parameter"),
        ParamCause::Twice => format!(in alloc; "{name}: set by an earlier line"),
        ParamCause::BadValue => bad_value(alloc, bytes, line),
    }
}

/// Why the parameters of the spool are refused.
pub(crate) fn cause_in_params(alloc: Global, host: &mut Host<'_>) -> Option<String> {
    let bytes = conf_file(alloc, host, b"params")?;
    match read_params(bytes.as_slice()) {
        Ok(_) => None,
        Err(ParamError { line, cause }) => {
            let bytes = bytes.as_slice();
            parameter_cause(alloc, bytes, line_at(bytes, line), cause).ok()
        }
    }
}

/// The pattern of a line of the table, and what stands behind it.
pub(crate) fn pattern(line: &[u8]) -> (&[u8], &[u8]) {
    let at = line.iter().position(|byte| matches!(*byte, b' ' | b'\t'));
    match at {
        Some(at) => {
            let (pattern, behind) = line.split_at(at);
            (pattern, trim_start(behind))
        }
        None => (line, b""),
    }
}

/// Why a line of the table has not its form.
fn bad_line(alloc: Global, line: &[u8]) -> Result<String, AllocError> {
    let (text, behind) = pattern(line);
    if !is_text(line) {
        return no_text(alloc, line);
    }
    if text.is_empty() {
        return format!(in alloc; "a blank in front of the pattern");
    }
    let (text, shown) = (text.escape_ascii(), behind.escape_ascii());
    match cut(behind, b':') {
        None => format!(in alloc; "{text}: no transport:nexthop behind it"),
        Some(_) => format!(in alloc; "{text}: {shown} is no transport:nexthop"),
    }
}

/// Why a line of the table is refused.
fn table_cause(alloc: Global, bytes: &[u8], error: TableError) -> Result<String, AllocError> {
    match error {
        TableError::NoMemory => Err(AllocError),
        TableError::BadLine { line } => bad_line(alloc, line_at(bytes, line)),
        TableError::Twice { line } => {
            let text = pattern(line_at(bytes, line)).0.escape_ascii();
            format!(in alloc; "{text}: an earlier line has this pattern")
        }
        TableError::TooMany { .. } => {
            format!(in alloc; "more than 10000 lines, or a 21st transport")
        }
    }
}

/// Why the transport table of the spool is refused.
pub(crate) fn cause_in_table(alloc: Global, host: &mut Host<'_>) -> Option<String> {
    let bytes = conf_file(alloc, host, b"transport")?;
    match read_table(alloc, bytes.as_slice()) {
        Ok(_) => None,
        Err(error) => table_cause(alloc, bytes.as_slice(), error).ok(),
    }
}
