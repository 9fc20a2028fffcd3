//! What a command goes by: the parameters and the transport table, read from the files `params` and
//! `transport` of area conf (postconf(5), transport(5)). A missing file says as much as an empty one.
//!
//! It is an error where a line of one of them breaks its form: the parameters are read first, and
//! the first faulty line is named. Nothing is written.
ghost use Rattle.std.specs.Prelude.{◌≡◌, ◌≤◌, codes, IfErr, IfOk, IsTrue, Err};
ghost use Rattle.q_host.specs.Calls.{Stays};
ghost use Rattle.q_model.specs.FaultCounts.{Rose};
ghost use Rattle.q_params.specs.ParameterFile.{settings_of_file as params_of};
ghost use Rattle.q_settings.specs.Ranges.{IsInRange};
ghost use Rattle.q_transport.specs.TableFile.{table_of_file as contents_of};
ghost use Rattle.q_conf.specs.Confs.{conf_of, goes_by, IsConfFault, IsFaultOfSome, SaySo, world_of};
ghost use Rattle.q_conf.specs.ConfReads.{GivesParams, GivesTable};

use crate::error::{ConfError, ConfFile, host_error};
use q_host::{Host, read_file};
use q_model::{Area, Name};
use q_params::read_params;
use q_settings::Params;
use q_transport::{Table, TableError, read_table};
use std::alloc::Global;

/// The parameters and the table; `world_of` them is what the ledger goes by.
#[derive(Drop)]
pub struct Conf {
    pub params: Params,
    pub table: Table,
}

/// The name of the parameter file.
fn params_name() -> Name
    ensures { result ≡ codes "params" }
{
    let Some(name) = Name::new(b"params") else {
        unreachable!()
    };
    name
}

/// The name of the file of the transport table.
fn table_name() -> Name
    ensures { result ≡ codes "transport" }
{
    let Some(name) = Name::new(b"transport") else {
        unreachable!()
    };
    name
}

/// The parameters that these bytes say.
fn params(bytes: &[u8]) -> Result<Params, ConfError>
    ensures exact { GivesParams result (params_of bytes.now) }
    ensures range { IfOk result IsInRange }
{
    match read_params(bytes) {
        Ok(params) => Ok(params),
        Err(error) => Err(ConfError::BadLine {
            file: ConfFile::Parameters,
            line: error.line,
        }),
    }
}

/// The table that these bytes say.
fn table(alloc: Global, bytes: &[u8]) -> Result<Table, ConfError>
    ensures exact { GivesTable result (contents_of bytes.now) }
{
    let line = match read_table(alloc, bytes) {
        Ok(table) => return Ok(table),
        Err(TableError::NoMemory) => return Err(ConfError::NoMemory),
        Err(TableError::BadLine { line }) => line,
        Err(TableError::Twice { line }) => line,
        Err(TableError::TooMany { line }) => line,
    };
    Err(ConfError::BadLine {
        file: ConfFile::Table,
        line,
    })
}

/// The parameters and the table of a host; where a file is missing, the defaults and a table
/// without lines. The parameters are read first.
pub fn read_conf<H: Host>(alloc: Global, host: &mut H) -> Result<Conf, ConfError>
    ensures exact { IfOk result (λ conf. IsTrue H.tells
        → conf_of (H.view host.old).files ≡ goes_by (world_of conf)) }
    ensures range { IfOk result (λ conf. IsInRange (world_of conf).settings) }
    ensures fault { IfErr result (λ error. IsConfFault H.tells
        (conf_of (H.view host.old).files) error) }
    // Of every host: what it goes by, or the line at fault, is what some texts say.
    ensures some { IfOk result (λ conf. SaySo (goes_by (world_of conf))) }
    ensures some_fault { IfErr result IsFaultOfSome }
    ensures stays { IsTrue H.tells → Stays (H.view host.old) (H.view host.new) }
    ensures disk_later { (H.faults host.old).disk ≤ (H.faults host.new).disk }
    ensures tell_later { (H.faults host.old).tell ≤ (H.faults host.new).tell }
    ensures disk { result ≡ Err ConfError.Disk → Rose (H.faults host.old).disk
        (H.faults host.new).disk }
{
    let bytes = match read_file(alloc, host, Area::Conf, params_name()) {
        Ok(bytes) => bytes,
        Err(error) => return Err(host_error(error)),
    };
    let params = match params(bytes.as_slice()) {
        Ok(params) => params,
        Err(error) => return Err(error),
    };
    let bytes = match read_file(alloc, host, Area::Conf, table_name()) {
        Ok(bytes) => bytes,
        Err(error) => return Err(host_error(error)),
    };
    match table(alloc, bytes.as_slice()) {
        Ok(table) => Ok(Conf { params, table }),
        Err(error) => Err(error),
    }
}
