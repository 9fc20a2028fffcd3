//! The lines of the text.
ghost use Rattle.std.specs.Prelude.{◌≡◌, ◌++◌, flat_map, OnOk};
ghost use Rattle.q_check.specs.Checks.{bad_line, text_of_damage};
ghost use Rattle.q_check.specs.Lines.{conf_line, conf_name, fault_text, file_line, hop_text, refusal};

use q_conf::ConfFile;
use q_model::{Area, Name, NoMemory, Spot};
use std::alloc::Global;

/// The name of a file of conf.
pub(crate) fn conf_name(file: ConfFile) -> &'static [u8]
    ensures { result.now ≡ conf_name file }
{
    match file {
        ConfFile::Parameters => b"params",
        ConfFile::Table => b"transport",
    }
}

pub(crate) fn add(text: &mut Vec<u8>, bytes: &[u8]) -> Result<(), NoMemory>
    ensures { OnOk result (text.new.items ≡ text.old.items ++ bytes.now) }
{
    text.extend_from_slice(bytes)?;
    Ok(())
}

/// Of a line at fault.
fn fault_text() -> &'static [u8]
    ensures { result.now ≡ fault_text }
{
    b"bad line"
}

/// Of an entry of the transport table whose next hop has no route.
pub(crate) fn hop_text() -> &'static [u8]
    ensures { result.now ≡ hop_text }
{
    b"the next hop can't be reached"
}

/// Of a damage for which no life can begin.
fn refusal() -> &'static [u8]
    ensures { result.now ≡ refusal }
{
    b"the spool can't be opened"
}

/// Adds a line on a line of a file of conf.
pub(crate) fn add_conf_line(
    alloc: Global,
    text: &mut Vec<u8>,
    file: ConfFile,
    line: u64,
    what: &[u8],
) -> Result<(), NoMemory>
    ensures { OnOk result (text.new.items ≡ text.old.items ++ conf_line file line what.now) }
{
    add(text, conf_name(file))?;
    add(text, b" line ")?;
    add(text, line.to_string(alloc)?.as_bytes())?;
    add(text, b": ")?;
    add(text, what)?;
    add(text, b"\n")
}

/// Adds those of several lines at fault.
pub(crate) fn add_bad_lines(
    alloc: Global,
    text: &mut Vec<u8>,
    file: ConfFile,
    lines: &[u64],
) -> Result<(), NoMemory>
    ensures { OnOk result (text.new.items ≡ text.old.items ++ flat_map (bad_line file) lines.now) }
{
    for line in lines {
        add_conf_line(alloc, text, file, *line, fault_text())?;
    }
    Ok(())
}

/// Adds a line on a file.
pub(crate) fn add_file_line(
    text: &mut Vec<u8>,
    area: Area,
    name: &Name,
    what: &[u8],
) -> Result<(), NoMemory>
    ensures { OnOk result (text.new.items ≡ text.old.items ++ file_line area name.now what.now) }
{
    add(text, area.folder().as_bytes())?;
    add(text, b"/")?;
    add(text, name.bytes())?;
    add(text, b": ")?;
    add(text, what)?;
    add(text, b"\n")
}

/// Adds the line of a damage, if there is one.
pub(crate) fn add_damage(text: &mut Vec<u8>, damage: &Option<Spot>) -> Result<(), NoMemory>
    ensures { OnOk result (text.new.items ≡ text.old.items ++ text_of_damage damage.now) }
{
    match damage {
        Some(spot) => add_file_line(text, spot.area, &spot.name, refusal()),
        None => Ok(()),
    }
}
