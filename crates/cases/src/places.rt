//! Places in a spool, and numbers, as a page writes them.
use crate::flaw::Flaw;
use q_model::{Area, Name, Spot};
use std::alloc::Global;

/// The areas of queues.
pub(crate) const QUEUES: [Area; 5] = [
    Area::Incoming,
    Area::Active,
    Area::Deferred,
    Area::Hold,
    Area::Corrupt,
];

fn area_of(folder: &str) -> Option<Area> {
    Area::ALL
        .iter()
        .copied()
        .find(|area| area.folder() == folder)
}

fn spot_in(text: &str) -> Option<Spot> {
    let (folder, name) = text.split_once('/')?;
    Some(Spot {
        area: area_of(folder)?,
        name: Name::new(name.as_bytes())?,
    })
}

/// The place that is written as its folder, a slash and its name.
pub(crate) fn spot_of(text: &str) -> Result<Spot, Flaw> {
    spot_in(text).ok_or(Flaw::NoStep("no place of a spool"))
}

pub(crate) fn name_of(text: &str) -> Result<Name, Flaw> {
    Name::new(text.as_bytes()).ok_or(Flaw::NoStep("no name of a file"))
}

pub(crate) fn number_of(text: &str) -> Result<u64, Flaw> {
    match text.parse::<u64>() {
        Ok(number) => Ok(number),
        Err(_) => Err(Flaw::NoStep("no number")),
    }
}

/// The numbers between blanks.
pub(crate) fn numbers_of(alloc: Global, text: &str) -> Result<Vec<u64>, Flaw> {
    let mut numbers = Vec::new(alloc);
    for word in text.split_whitespace() {
        numbers.push(number_of(word)?)?;
    }
    Ok(numbers)
}
