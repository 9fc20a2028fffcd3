//! A folder of its own for each case, and a port.
use anyhow::Result;
use std::net::{Ipv4Addr, TcpListener};
use std::{env, fs, process};

/// A port that was free a moment ago.
pub(crate) fn free_port(rt: HostRuntime) -> Result<u16> {
    let listener = TcpListener::bind(&rt, (Ipv4Addr::LOCALHOST, 0u16))?;
    Ok(listener.local_addr()?.port())
}

/// A folder that no other process uses, and a port.
#[derive(Drop)]
pub(crate) struct Room {
    rt: HostRuntime,
    pub(crate) path: String,
    pub(crate) port: u16,
}

impl Room {
    /// A folder that is empty.
    pub(crate) fn new(rt: HostRuntime) -> Result<Room> {
        let above = env::temp_dir(&rt)?;
        let number = process::id(rt.process());
        let path = format!(in rt.alloc(); "{}/q_program_cases-{number}", above.as_str())?;
        fs::create_dir(&rt, &path)?;
        let port = free_port(rt)?;
        Ok(Room { rt, path, port })
    }

    /// The path of what stands in it under a name; one that begins with a slash stands elsewhere.
    pub(crate) fn inside(&self, name: &str) -> Result<String> {
        if name.starts_with("/") {
            return Ok(format!(in self.rt.alloc(); "{name}")?);
        }
        Ok(format!(in self.rt.alloc(); "{}/{name}", self.path)?)
    }

    /// Takes the folder away with all that stands in it.
    pub(crate) fn leave(self) -> Result<()> {
        Ok(fs::remove_dir_all(&self.rt, &self.path)?)
    }
}
