//! Next hops of the transport table that no connection can be opened to.
use crate::conf_causes::{conf_file, pattern};
use crate::running::Host;
use crate::saying::say;
use q_link::address_of;
use q_model::Hop;
use q_numbers::cut;
use q_text::is_passed_over;

/// How many lines are named.
const MOST: usize = 5;

/// The next hop of a line, where it can't be reached.
fn unreachable_hop(line: &[u8]) -> Option<&[u8]> {
    if is_passed_over(line) {
        return None;
    }
    let (_, hop) = cut(pattern(line).1, b':')?;
    match Hop::new(hop) {
        Some(name) if address_of(&name).is_some() => None,
        _ => Some(hop),
    }
}

fn warn(rt: HostRuntime, number: usize, hop: &[u8]) {
    if hop.is_empty() {
        let why = "no next hop, and a recipient's domain can't be reached";
        return say(rt, format_args!("transport line {number}: {why}"));
    }
    let hop = hop.escape_ascii();
    let why = "can't be reached, it isn't [a.b.c.d]:port";
    say(
        rt,
        format_args!("transport line {number}: the next hop {hop} {why}"),
    )
}

/// Warns of the lines of the table whose next hop can't be reached.
pub(crate) fn warn_of_routes(rt: HostRuntime, host: &mut Host<'_>) {
    let Some(bytes) = conf_file(rt.alloc(), host, b"transport") else {
        return;
    };
    let mut found: usize = 0;
    for (place, line) in bytes.split(|byte| *byte == b'\n').enumerate() {
        if let Some(hop) = unreachable_hop(line) {
            found = found.saturating_add(1);
            if found <= MOST {
                warn(rt, place.saturating_add(1), hop);
            }
        }
    }
    if found > MOST {
        let others = found - MOST;
        say(
            rt,
            format_args!("transport: {others} more lines have a next hop that can't be reached"),
        );
    }
}
