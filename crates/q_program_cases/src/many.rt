//! What a case puts into its room in great number.
use anyhow::Result;
use std::alloc::Global;
use std::fs;
use std::fs::OpenOptions;
use std::io::Write;

/// The bytes that hexadecimal digits say, two each.
fn bytes_of(alloc: Global, digits: &str) -> Result<Vec<u8>> {
    let mut bytes = Vec::new(alloc);
    for pair in digits.as_bytes().chunks_exact(2) {
        bytes.push(u8::from_str_radix(str::from_utf8(pair)?, 16)?)?;
    }
    Ok(bytes)
}

/// Adds bytes so many times to a file, which is made where it is missing.
pub(crate) fn add_bytes(rt: HostRuntime, path: &str, count: u32, digits: &str) -> Result<()> {
    let bytes = bytes_of(rt.alloc(), digits)?;
    let mut all = Vec::new(rt.alloc());
    for _ in 0..count {
        all.extend_from_slice(&bytes)?;
    }
    let mut how = OpenOptions::new();
    let mut file = how.append(true).create(true).open(&rt, path)?;
    Ok(file.write_all(&all)?)
}

/// Makes so many empty files, each with a number behind this path.
pub(crate) fn make_files(rt: HostRuntime, path: &str, count: u32) -> Result<()> {
    for number in 0..count {
        let name = format!(in rt.alloc(); "{path}{number}")?;
        fs::write(&rt, &name, "")?;
    }
    Ok(())
}
