//! Text as it is shown: the same at each run.
use anyhow::Result;
use std::alloc::Global;

/// A number of so many digits or more is a moment.
const MOMENT_DIGITS: usize = 9;

/// A number behind this word is one of a process.
const PROCESS: &str = "process ";

/// A number behind this is a port.
const HOST: &str = "[127.0.0.1]:";

// Adds a number to what is shown.
fn add_number(shown: &mut String, digits: &str) -> Result<()> {
    if digits.len() >= MOMENT_DIGITS {
        shown.push_str("MOMENT")?;
    } else if shown.as_str().ends_with(PROCESS) && !digits.is_empty() {
        shown.push('N')?;
    } else if shown.as_str().ends_with(HOST) && !digits.is_empty() {
        shown.push_str("PORT")?;
    } else {
        shown.push_str(digits)?;
    }
    Ok(())
}

/// A line as it is shown.
pub(crate) fn shown(alloc: Global, line: &str) -> Result<String> {
    let mut shown = String::new(alloc);
    let mut digits = String::new(alloc);
    for char in line.chars() {
        if char.is_ascii_digit() {
            digits.push(char)?;
        } else {
            add_number(&mut shown, digits.as_str())?;
            digits.clear();
            shown.push(char)?;
        }
    }
    add_number(&mut shown, digits.as_str())?;
    Ok(shown)
}

/// A line that tells a moment of now.
const NOW: &str = "at MOMENT";

/// Shows each line of a text behind a mark. Of the moments of now that a life tells only the first is
/// shown: how many there are is a matter of the machine.
pub(crate) fn show(rt: HostRuntime, mark: &str, text: &[u8]) -> Result<()> {
    let text = str::from_utf8(text)?;
    let mut is_timed = false;
    for line in text.lines() {
        let line = shown(rt.alloc(), line)?;
        let is_now = line.as_str() == NOW;
        if !is_now || !is_timed {
            println!(rt; "{mark}{line}")?;
        }
        is_timed = is_now || is_timed && !line.as_str().starts_with("life ");
    }
    Ok(())
}
