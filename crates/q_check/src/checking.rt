//! Telling all that is wrong with a spool.
ghost use Rattle.std.specs.Prelude.{◌≡◌, ◌++◌, [], codes, IfOk, IfSome, IsTrue, List, OnErr, OnOk, slice_get, ℕ};
ghost use Rattle.q_check.specs.Checks.{bad_lines, conf_text, IsCheckText, IsFilesText};
ghost use Rattle.q_check.specs.Lines.{conf_name};
ghost use Rattle.q_check.specs.NextHops.{hop_lines};
ghost use Rattle.q_check.specs.SpoolDamages.{IsDamageOfSome};
ghost use Rattle.q_check.specs.Worst.{AreFaultsIn, AreFaultsOfSome, IsFoundIn, IsFoundOfSome};
ghost use Rattle.q_check.specs.Faults.{fault_in};
ghost use Rattle.q_conf.specs.Confs.{conf_bytes};
ghost use Rattle.q_host.specs.Calls.{Stays};
ghost use Rattle.q_host.specs.Faults.{DiskCause};
ghost use Rattle.q_host.specs.View.{Told};
ghost use Rattle.q_telling.specs.Telling.{OnlyTells, TellingCause, TellsFront, TellsMore};

use crate::conf_faults::faults;
use crate::copies::damage_of;
use crate::found::{Found, worst_of};
use crate::lines::{add, add_bad_lines, add_damage, conf_name};
use crate::next_hops::hop_lines;
use crate::queues::{Look, add_queue, add_queues};
use q_conf::ConfFile;
use q_host::{Host, HostError, read_file};
use q_model::{Area, Name, Spot};
use q_telling::tell_text;
use std::alloc::Global;

/// The queues, in the order in which they are gone through.
const QUEUES: [Area; 5] = [
    Area::Incoming,
    Area::Active,
    Area::Deferred,
    Area::Hold,
    Area::Corrupt,
];

/// The name of a file of conf.
fn file_name(file: ConfFile) -> Name
    ensures { result ≡ conf_name file }
{
    let Some(name) = Name::new(conf_name(file)) else {
        unreachable!()
    };
    name
}

/// The first of these lines.
fn first_of(lines: &[u64]) -> Option<u64>
    ensures { result ≡ slice_get lines.now 0 }
{
    lines.first().copied()
}

/// Adds the lines at fault of a file of conf, and answers the first of them.
fn add_conf<H: Host>(
    alloc: Global,
    host: &mut H,
    file: ConfFile,
    text: &mut Vec<u8>,
) -> Result<Option<u64>, HostError>
    ensures added { OnOk result (IsTrue H.tells → text.new.items
        ≡ text.old.items ++ bad_lines file (conf_bytes (H.view host.old).files (conf_name file))) }
    ensures first { IfOk result (λ line. IsTrue H.tells
        → line ≡ fault_in file (conf_bytes (H.view host.old).files (conf_name file))) }
    // Of every host: some bytes have this fault.
    ensures some { IfOk result (λ line. (bytes : List ℕ) × (line ≡ fault_in file bytes)) }
    ensures stays { IsTrue H.tells → Stays (H.view host.old) (H.view host.new) }
    ensures cause { DiskCause (H.faults host.old) (H.faults host.new) result }
{
    let bytes = read_file(alloc, host, Area::Conf, file_name(file))?;
    let lines = faults(alloc, file, bytes.as_slice())?;
    add_bad_lines(alloc, text, file, lines.as_slice())?;
    Ok(first_of(lines.as_slice()))
}

/// Adds the entries of the transport table whose next hop can't be reached.
fn add_hops<H: Host>(alloc: Global, host: &mut H, text: &mut Vec<u8>) -> Result<(), HostError>
    ensures added { OnOk result (IsTrue H.tells → text.new.items
        ≡ text.old.items ++ hop_lines (conf_bytes (H.view host.old).files (codes "transport"))) }
    ensures stays { IsTrue H.tells → Stays (H.view host.old) (H.view host.new) }
    ensures cause { DiskCause (H.faults host.old) (H.faults host.new) result }
{
    let bytes = read_file(alloc, host, Area::Conf, file_name(ConfFile::Table))?;
    let lines = hop_lines(alloc, bytes.as_slice())?;
    add(text, lines.as_slice())?;
    Ok(())
}

/// The lines of the files of conf for which a life is refused.
#[derive(Clone, Copy, Debug)]
struct ConfFaults {
    params: Option<u64>,
    table: Option<u64>,
}

/// Adds what is wrong with the files of conf.
fn add_conf_files<H: Host>(
    alloc: Global,
    host: &mut H,
    text: &mut Vec<u8>,
) -> Result<ConfFaults, HostError>
    ensures added { OnOk result (IsTrue H.tells
        → text.new.items ≡ text.old.items ++ conf_text (H.view host.old).files) }
    ensures faults { IfOk result (λ lines. IsTrue H.tells
        → AreFaultsIn (H.view host.old).files lines.params lines.table) }
    ensures some { IfOk result (λ lines. AreFaultsOfSome lines.params lines.table) }
    ensures stays { IsTrue H.tells → Stays (H.view host.old) (H.view host.new) }
    ensures cause { DiskCause (H.faults host.old) (H.faults host.new) result }
{
    let params = add_conf(alloc, host, ConfFile::Parameters, text)?;
    let table = add_conf(alloc, host, ConfFile::Table, text)?;
    add_hops(alloc, host, text)?;
    Ok(ConfFaults { params, table })
}

/// Adds what is wrong with the other files, and answers their damage.
fn add_files<H: Host>(
    alloc: Global,
    host: &mut H,
    text: &mut Vec<u8>,
) -> Result<Option<Spot>, HostError>
    ensures added { IfOk result (λ damage. IsTrue H.tells → (lines : List ℕ)
        × IsFilesText (H.view host.old).files damage lines
        × (text.new.items ≡ text.old.items ++ lines)) }
    ensures some { IfOk result (λ damage. IfSome damage IsDamageOfSome) }
    ensures stays { IsTrue H.tells → Stays (H.view host.old) (H.view host.new) }
    ensures cause { DiskCause (H.faults host.old) (H.faults host.new) result }
{
    add_queues(alloc, host, text, Look::PassedOver, &QUEUES)?;
    add_queue(alloc, host, text, Look::Damaged, Area::Corrupt)?;
    let damage = damage_of(alloc, host)?;
    add_damage(text, &damage)?;
    Ok(damage)
}

/// Adds all that is wrong with a spool to no text.
fn add_all<H: Host>(alloc: Global, host: &mut H, text: &mut Vec<u8>) -> Result<Found, HostError>
    requires { text.old.items ≡ [] }
    ensures text { OnOk result (IsTrue H.tells
        → IsCheckText (H.view host.old).files text.new.items) }
    ensures found { IfOk result (λ found. IsTrue H.tells
        → IsFoundIn (H.view host.old).files found) }
    ensures named { IfOk result IsFoundOfSome }
    ensures stays { IsTrue H.tells → Stays (H.view host.old) (H.view host.new) }
    ensures cause { DiskCause (H.faults host.old) (H.faults host.new) result }
{
    let lines = add_conf_files(alloc, host, text)?;
    let damage = add_files(alloc, host, text)?;
    Ok(worst_of(lines.params, lines.table, &damage))
}

/// Tells all that is wrong with a spool: of each file of conf the first hundred lines at fault, the
/// entries of the transport table whose next hop can't be reached, the files of queues that no message
/// has, the messages in corrupt, and the damage for which no life can begin. The answer is the worst of
/// it; next hops, files that are passed over and messages in corrupt are none. No file is changed.
///
/// In memory are a file of conf, all names of the queues, and the text.
pub fn tell_check<H: Host>(alloc: Global, host: &mut H) -> Result<Found, HostError>
    ensures told { OnOk result (IsTrue H.tells → (text : List ℕ)
        × IsCheckText (H.view host.old).files text
        × TellsMore text (H.view host.old) (H.view host.new)) }
    ensures front { OnErr result (IsTrue H.tells → (text : List ℕ)
        → IsCheckText (H.view host.old).files text
        → TellsFront text (H.view host.old) (H.view host.new)) }
    ensures only { Told H.tells H.view host.old host.new OnlyTells }
    ensures found { IfOk result (λ found. IsTrue H.tells
        → IsFoundIn (H.view host.old).files found) }
    // The same of every host, by some texts and names.
    ensures named { IfOk result IsFoundOfSome }
    ensures cause { TellingCause (H.faults host.old) (H.faults host.new) result }
{
    let mut text = Vec::new(alloc);
    let found = add_all(alloc, host, &mut text)?;
    tell_text(host, text.as_slice())?;
    Ok(found)
}
