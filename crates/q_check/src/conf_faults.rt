//! The lines of a file of conf that are at fault. Each is found by reading the file again, with the
//! lines blank that were found before, so what is a fault is said by the readers alone.
ghost use Rattle.std.specs.Prelude.{◌≡◌, IfOk};
ghost use Rattle.q_check.specs.Faults.{behind, blanked, fault_in, faults, shown};
ghost use Rattle.q_conf.specs.declared.error.ConfFile.TheVariants as conf_files;

use q_conf::ConfFile;
use q_model::NoMemory;
use q_params::read_params;
use q_transport::{TableError, read_table};
use std::alloc::Global;

/// How many lines of a file are told.
const MOST: u64 = 100;

/// The line of the parameters for which a life is refused.
fn fault_of_params(bytes: &[u8]) -> Option<u64>
    ensures { result ≡ fault_in conf_files.Parameters bytes.now }
{
    match read_params(bytes) {
        Ok(_) => None,
        Err(error) => Some(error.line),
    }
}

/// The line of the table for which a life is refused.
fn fault_of_table(alloc: Global, bytes: &[u8]) -> Result<Option<u64>, NoMemory>
    ensures { IfOk result (λ line. line ≡ fault_in conf_files.Table bytes.now) }
{
    match read_table(alloc, bytes) {
        Ok(_) => Ok(None),
        Err(TableError::NoMemory) => Err(NoMemory),
        Err(TableError::BadLine { line }) => Ok(Some(line)),
        Err(TableError::Twice { line }) => Ok(Some(line)),
        Err(TableError::TooMany { line }) => Ok(Some(line)),
    }
}

/// The line for which a life is refused.
pub(crate) fn fault_in(alloc: Global, file: ConfFile, bytes: &[u8]) -> Result<Option<u64>, NoMemory>
    ensures { IfOk result (λ line. line ≡ fault_in file bytes.now) }
{
    match file {
        ConfFile::Parameters => Ok(fault_of_params(bytes)),
        ConfFile::Table => fault_of_table(alloc, bytes),
    }
}

/// A byte, which is a space where it stands in the line that is to be blank.
fn shown(line: u64, byte: u8) -> u8
    ensures { result ≡ shown line byte }
{
    if byte == b'\n' {
        return byte;
    }
    if line == 1 { b' ' } else { byte }
}

/// The number of the line that is to be blank, counted from behind this byte.
fn behind(line: u64, byte: u8) -> u64
    ensures { result ≡ behind line byte }
{
    if byte == b'\n' {
        line.saturating_sub(1)
    } else {
        line
    }
}

/// A file in which this line, counted from 1, is blank.
fn blanked(alloc: Global, line: u64, bytes: &[u8]) -> Result<Vec<u8>, NoMemory>
    ensures { IfOk result (λ text. text.items ≡ blanked line bytes.now) }
{
    let mut text = Vec::new(alloc);
    let mut left = line;
    for byte in bytes {
        text.push(shown(left, *byte))?;
        left = behind(left, *byte);
    }
    Ok(text)
}

/// The first lines at fault, a hundred at most.
pub(crate) fn faults(alloc: Global, file: ConfFile, bytes: &[u8]) -> Result<Vec<u64>, NoMemory>
    ensures { IfOk result (λ lines. lines.items ≡ faults file 100 bytes.now) }
{
    let mut rest = Vec::new(alloc);
    rest.extend_from_slice(bytes)?;
    let mut lines = Vec::new(alloc);
    let mut left = MOST;
    while left > 0 {
        let line = match fault_in(alloc, file, rest.as_slice())? {
            Some(line) => line,
            None => return Ok(lines),
        };
        lines.push(line)?;
        rest = blanked(alloc, line, rest.as_slice())?;
        left -= 1;
    }
    Ok(lines)
}
