//! Telling what the files of conf say.
ghost use Rattle.std.specs.Prelude.{◌≡◌, [], codes, IfErr, Ok};
ghost use Rattle.q_conf.specs.declared.error.ConfFile.TheVariants as files;
ghost use Rattle.q_conf_texts.specs.Deciding.{NamesDecidingLine};
ghost use Rattle.q_conf_texts.specs.InForce.{TellsValuesInForce};
ghost use Rattle.q_conf_texts.specs.Params.{params_text};
ghost use Rattle.q_conf_texts.specs.Tellings.{GivesTable, IsFaultIn, LookCause, params_said, routes_said, TellsParams, TellsRoutes};
ghost use Rattle.q_host.specs.View.{Told};
ghost use Rattle.q_model.specs.Settings.{defaults};
ghost use Rattle.q_params.specs.ParameterFile.{settings_of_file};

use crate::error::LookError;
use crate::params::params_text;
use crate::routes::routes_text;
use q_conf::ConfFile;
use q_host::{Host, read_file};
use q_model::{Address, Area, Name};
use q_params::read_params;
use q_telling::tell_text;
use q_transport::{Table, TableError, read_table};
use std::alloc::Global;

/// What is told says what holds. The lines that are told where there is no parameter file are a file
/// that says the same (`defaults`); of each file without fault the values that are told are those in
/// force (`values`); and the line that is named beside an address is that of the entry that decides
/// where its mail goes (`lines`). The call does nothing.
pub fn tellings_hold()
    ensures defaults { settings_of_file (params_text []) ≡ Ok defaults }
    ensures values { TellsValuesInForce }
    ensures lines { NamesDecidingLine }
{}

/// The name of the parameter file.
fn params_name() -> Name
    ensures { result ≡ codes "params" }
{
    let Some(name) = Name::new(b"params") else {
        unreachable!()
    };
    name
}

/// The name of the file of the transport table.
fn table_name() -> Name
    ensures { result ≡ codes "transport" }
{
    let Some(name) = Name::new(b"transport") else {
        unreachable!()
    };
    name
}

/// The table that these bytes say.
fn table(alloc: Global, bytes: &[u8]) -> Result<Table, LookError>
    ensures exact { GivesTable result (routes_said bytes.now) }
{
    let line = match read_table(alloc, bytes) {
        Ok(table) => return Ok(table),
        Err(TableError::NoMemory) => return Err(LookError::NoMemory),
        Err(TableError::BadLine { line }) => line,
        Err(TableError::Twice { line }) => line,
        Err(TableError::TooMany { line }) => line,
    };
    Err(LookError::BadLine {
        file: ConfFile::Table,
        line,
    })
}

/// Tells a line for each parameter: `NAME = VALUE`, and behind a value that a line of the file sets
/// ` (line N, default VALUE)`. The value is the text that stands in the line.
///
/// `BadLine` names the first fault of the parameter file; then nothing is told. `Disk` and `Tell` come
/// where the host failed, `NoMemory` where memory ran out.
pub fn tell_params<H: Host>(alloc: Global, host: &mut H) -> Result<(), LookError>
    ensures told { Told H.tells H.view host.old host.new (λ u v. TellsParams u v result) }
    ensures named { IfErr result (IsFaultIn files.Parameters params_said) }
    ensures cause { LookCause (H.faults host.old) (H.faults host.new) result }
{
    let bytes = read_file(alloc, host, Area::Conf, params_name())?;
    if let Err(error) = read_params(bytes.as_slice()) {
        return Err(LookError::BadLine {
            file: ConfFile::Parameters,
            line: error.line,
        });
    }
    let text = params_text(alloc, bytes.as_slice())?;
    tell_text(host, text.as_slice())?;
    Ok(())
}

/// Tells where the mail to each address goes: `ADDRESS TRANSPORT:NEXTHOP (line N)`, with `no line` where no
/// entry of the table decides, and `, can't be reached` where the next hop isn't `[a.b.c.d]:port`.
///
/// `BadLine` names the first fault of the table; then nothing is told. `Disk` and `Tell` come where the
/// host failed, `NoMemory` where memory ran out.
pub fn tell_routes<H: Host>(
    alloc: Global,
    host: &mut H,
    addresses: &[Address],
) -> Result<(), LookError>
    ensures told { Told H.tells H.view host.old host.new (λ u v. TellsRoutes addresses.now u v result) }
    ensures named { IfErr result (IsFaultIn files.Table routes_said) }
    ensures cause { LookCause (H.faults host.old) (H.faults host.new) result }
{
    let bytes = read_file(alloc, host, Area::Conf, table_name())?;
    let table = table(alloc, bytes.as_slice())?;
    let text = routes_text(alloc, &table, bytes.as_slice(), addresses)?;
    tell_text(host, text.as_slice())?;
    Ok(())
}
