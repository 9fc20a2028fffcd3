//! Which messages have to stand on a spool, by the lines that were told, and the line that is due next.
use crate::flaw::Flaw;
use crate::places::{QUEUES, name_of};
use crate::snapshot::Snapshot;
use q_model::Area;
use q_silent_host::SilentHost;
use std::alloc::{AllocError, Global};

/// What a line says of a message.
#[derive(Clone, Copy, PartialEq, Eq)]
enum Says {
    Comes,
    Goes,
    Nothing,
}

/// What a line says of the message of an id. One comes by its `arrive` line, a bounce by the `bounce`
/// line of the message that it is of, and each goes by its `remove` line.
fn says_of(line: &str, id: &str) -> Says {
    let mut words = line.split(' ');
    let word = words.next();
    let named = words.next();
    match word {
        Some("arrive") if named == Some(id) => Says::Comes,
        Some("remove") if named == Some(id) => Says::Goes,
        Some("bounce") if named == id.strip_suffix('b') => Says::Comes,
        _ => Says::Nothing,
    }
}

/// Whether the message of an id has come and hasn't gone, by these lines.
fn is_left(lines: &str, id: &str) -> bool {
    let mut left = false;
    for line in lines.lines() {
        match says_of(line, id) {
            Says::Comes => left = true,
            Says::Goes => left = false,
            Says::Nothing => {}
        }
    }
    left
}

/// The moment for which a line defers the message of an id.
fn due_of<'a>(line: &'a str, id: &str) -> Option<&'a str> {
    let (named, due) = line.strip_prefix("defer ")?.split_once(' ')?;
    if named == id { Some(due) } else { None }
}

fn is_deferred(alloc: Global, host: &SilentHost, id: &str, due: &str) -> Result<bool, Flaw> {
    let text = format!(in alloc; "{due:0>12}-{id}")?;
    Ok(host.file(Area::Deferred, name_of(text.as_str())?).is_some())
}

/// The moments for which lines defer the message of an id, each once.
fn dues_of<'a>(alloc: Global, lines: &'a str, id: &str) -> Result<Vec<&'a str>, AllocError> {
    let mut dues = Vec::new(alloc);
    for line in lines.lines() {
        if let Some(due) = due_of(line, id) {
            if !dues.iter().any(|known| *known == due) {
                dues.push(due)?;
            }
        }
    }
    Ok(dues)
}

/// In how many queues the message of an id stands. In deferred it stands for one of the moments for
/// which lines defer it.
fn places_of(alloc: Global, host: &SilentHost, id: &str, lines: &str) -> Result<u64, Flaw> {
    let name = name_of(id)?;
    let mut count: u64 = 0;
    for area in QUEUES {
        count = count.saturating_add(u64::from(host.file(area, name).is_some()));
    }
    for due in dues_of(alloc, lines, id)? {
        let there = is_deferred(alloc, host, id, due)?;
        count = count.saturating_add(u64::from(there));
    }
    Ok(count)
}

/// The ids of the messages that lines name.
fn ids_of(alloc: Global, lines: &str) -> Result<Vec<String>, AllocError> {
    let mut ids = Vec::new(alloc);
    for line in lines.lines() {
        let mut words = line.split(' ');
        match (words.next(), words.next()) {
            (Some("arrive"), Some(id)) => ids.push(id.to_string(alloc)?)?,
            (Some("bounce"), Some(id)) => ids.push(format!(in alloc; "{id}b")?)?,
            _ => {}
        }
    }
    Ok(ids)
}

/// A line that was due at a stop may be carried out, and is never told then.
fn may_differ(due: &str, id: &str) -> bool {
    says_of(due, id) != Says::Nothing
}

/// Each file of incoming and active is of a message that a line names.
fn none_untold(alloc: Global, left: &Snapshot, lines: &str) -> Result<(), Flaw> {
    let ids = ids_of(alloc, lines)?;
    for file in &left.files {
        if file.spot.area == Area::Incoming || file.spot.area == Area::Active {
            let name = file.spot.name;
            if !ids.iter().any(|id| id.as_bytes() == name.bytes()) {
                let text = format!(in alloc; "{name}")?;
                return missed(alloc, text.as_str(), 1, lines);
            }
        }
    }
    Ok(())
}

fn missed(alloc: Global, id: &str, places: u64, told: &str) -> Result<(), Flaw> {
    let came = format!(in alloc; "{told}{id} stands {places} times\n")?;
    let wanted = format!(in alloc; "{id} stands once, or is gone by a line\n")?;
    Err(Flaw::Differs {
        wanted: Vec::from_slice(alloc, wanted.as_bytes())?,
        came: Vec::from_slice(alloc, came.as_bytes())?,
    })
}

/// The lines that were due at the stop of a command, and of the life behind it, if that was stopped.
#[derive(Clone, Copy)]
pub(crate) struct Due<'a> {
    pub(crate) first: &'a str,
    pub(crate) second: &'a str,
}

/// The line that was due next behind the told ones.
pub(crate) fn line_due<'a>(whole: &'a str, told: &str) -> &'a str {
    match whole.strip_prefix(told) {
        Some(rest) => rest.lines().next().unwrap_or(""),
        None => "",
    }
}

/// Each message that was told of stands once where the told lines say that it came and not that it
/// went, and else nowhere. Where a line that was due at a stop says one of both, either may be so.
pub(crate) fn judge_standing(alloc: Global, left: &Snapshot, due: Due<'_>) -> Result<(), Flaw> {
    let told = left.told.as_str();
    let host = left.host(alloc)?;
    let lines = format!(in alloc; "{told}{}\n{}\n", due.first, due.second)?;
    for id in ids_of(alloc, lines.as_str())? {
        let id = id.as_str();
        let places = places_of(alloc, &host, id, lines.as_str())?;
        let wanted = u64::from(is_left(told, id));
        let excused = may_differ(due.first, id) || may_differ(due.second, id);
        let differs = places != wanted && !excused;
        if differs || places > 1 {
            return missed(alloc, id, places, told);
        }
    }
    none_untold(alloc, left, lines.as_str())
}
