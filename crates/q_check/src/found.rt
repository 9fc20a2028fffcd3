//! The worst of what was found.
ghost use Rattle.std.specs.Prelude.{◌≡◌};
ghost use Rattle.q_check.specs.Worst.{worse_of, worst_of};

use q_conf::ConfFile;
use q_model::{Area, Name, Spot};

/// The worst of what was found: that for which a life on the spool would be refused first.
#[derive(Clone, Copy, Debug, PartialEq, Eq)]
pub enum Found {
    /// Nothing for which a life would be refused, but perhaps that every generation was used.
    Nothing,
    /// This line of the file, counted from 1, breaks its form.
    BadConf { file: ConfFile, line: u64 },
    /// The files contradict one another, and this one is named (`OpenError` of q_restart).
    Damaged { area: Area, name: Name },
}

/// A fault of the table, else a damage.
fn worse_of(table: Option<u64>, damage: &Option<Spot>) -> Found
    ensures { result ≡ worse_of table damage.now }
{
    if let Some(line) = table {
        return Found::BadConf {
            file: ConfFile::Table,
            line,
        };
    }
    match damage {
        Some(spot) => Found::Damaged {
            area: spot.area,
            name: spot.name,
        },
        None => Found::Nothing,
    }
}

/// A fault of the parameters, else one of the table, else a damage.
pub(crate) fn worst_of(params: Option<u64>, table: Option<u64>, damage: &Option<Spot>) -> Found
    ensures { result ≡ worst_of params table damage.now }
{
    if let Some(line) = params {
        return Found::BadConf {
            file: ConfFile::Parameters,
            line,
        };
    }
    worse_of(table, damage)
}
