//! Lines on standard error. What can't be written there is told nowhere.
use std::fmt::Display;

/// Says a text, each line behind the name of the program. Empty lines are left out.
pub(crate) fn say<D: Display + Drop>(rt: HostRuntime, text: D) {
    let Ok(text) = format!(in rt.alloc(); "{text}") else {
        let _ = eprintln!(rt; "qmgr: no memory");
        return;
    };
    for line in text.as_str().lines() {
        if !line.is_empty() {
            let _ = eprintln!(rt; "qmgr: {line}");
        }
    }
}
