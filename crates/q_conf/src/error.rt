//! Why the files of conf can't be gone by.
ghost use Rattle.std.specs.Prelude.{◌≢◌};
ghost use Rattle.q_conf.specs.Confs.{IsRefusal};
ghost use Rattle.q_host.specs.declared.error.HostError.TheVariants as faults;

use q_host::HostError;
use thiserror::Error;

/// A file of area conf.
#[derive(Clone, Copy, Debug, PartialEq, Eq)]
pub enum ConfFile {
    /// The parameters, in the file `params`.
    Parameters,
    /// The transport table, in the file `transport`.
    Table,
}

/// Why the files of conf can't be gone by.
#[derive(Clone, Copy, Debug, PartialEq, Eq, Error)]
pub enum ConfError {
    #[error("disk fault")]
    Disk,
    #[error("no memory")]
    NoMemory,
    /// This line of the file, counted from 1, breaks its form.
    #[error("line {line}: bad line")]
    BadLine { file: ConfFile, line: u64 },
}

/// The refusal of a host that only reads, which never tells.
pub(crate) fn host_error(error: HostError) -> ConfError
    requires { error ≢ faults.Tell }
    ensures { IsRefusal error result }
{
    match error {
        HostError::Disk => ConfError::Disk,
        HostError::NoMemory => ConfError::NoMemory,
        HostError::Tell => unreachable!(),
    }
}
