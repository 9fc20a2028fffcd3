//! Files that move from one queue to another, each told once it is done.
ghost use Rattle.std.specs.Prelude.{◌≡◌, ◌+◌, ◌-◌, ◌^◌, false, if◌then◌else◌, IfOk, IsTrue, min, OnErr, OnOk, true};
ghost use Rattle.std.specs.List.{AllByRecursion};
ghost use Rattle.q_books.specs.HostStands.{HostStands, TakesBy, TriesBy};
ghost use Rattle.q_host.specs.Calls.{Stays};
ghost use Rattle.q_host.specs.Faults.{DiskCause};
ghost use Rattle.q_model.specs.Book.{Book};
ghost use Rattle.q_model.specs.SpoolFiles.{IsPlace};
ghost use Rattle.q_super.specs.Deeds.{moved_count, moving, moving_each};
ghost use Rattle.q_super.specs.Moves.{AreThere, is_file, MayMove, MovesFile, stands_there};
ghost use Rattle.q_super.specs.Plays.{HaltsDeeds, PlaysDeeds};
ghost use Rattle.q_super.specs.Refusals.{EachError, HostCause};

use crate::lines::tell_line;
use crate::standing::Standing;
use q_books::file_spot;
use q_host::{Host, HostError};
use q_model::Place;
use std::alloc::Global;

/// Moves a file, of a message or damaged, to another queue by one rename.
pub(crate) fn move_file<H: Host>(host: &mut H, from: Standing, to: Place) -> Result<(), HostError>
    requires allowed { MayMove from to }
    requires there { IsTrue H.tells → is_file (H.view host.old).files from ≡ true }
    ensures ok { OnOk result (TakesBy (MovesFile from to) H.tells H.view host.old host.new) }
    ensures err { OnErr result (TriesBy (MovesFile from to) H.tells H.view host.old host.new) }
    ensures cause { DiskCause (H.faults host.old) (H.faults host.new) result }
{
    let here = file_spot(from.place, from.id);
    let there = file_spot(to, from.id);
    host.rename(here.area, here.name, there.area, there.name)
}

/// Whether the file stands where it was found. Another process may have taken it away since.
pub(crate) fn is_there<H: Host>(host: &mut H, file: Standing) -> Result<bool, HostError>
    requires { IsPlace file.place }
    ensures there { IfOk result (λ there. IsTrue H.tells
        → is_file (H.view host.old).files file ≡ there) }
    ensures stays { IsTrue H.tells → Stays (H.view host.old) (H.view host.new) }
    ensures cause { DiskCause (H.faults host.old) (H.faults host.new) result }
{
    let spot = file_spot(file.place, file.id);
    host.has(spot.area, spot.name)
}

/// Moves a file and tells its line. `false` where it doesn't stand there any more; nothing is done
/// then.
pub(crate) fn move_told<H: Host>(
    alloc: Global,
    host: &mut H,
    word: &[u8],
    from: Standing,
    to: Place,
) -> Result<bool, HostError>
    requires { MayMove from to }
    ensures ok { IfOk result (λ moved. IsTrue H.tells → (b : Book) → HostStands (H.view host.old) b
        → stands_there b from ≡ true → (moved ≡ true)
        × PlaysDeeds b (moving word.now to from.id) (H.view host.old) (H.view host.new)) }
    ensures gone { IfOk result (λ moved. moved ≡ false → IsTrue H.tells
        → (is_file (H.view host.old).files from ≡ false)
        × Stays (H.view host.old) (H.view host.new)) }
    ensures err { EachError result (λ error. IsTrue H.tells → (b : Book)
        → HostStands (H.view host.old) b → stands_there b from ≡ true
        → HaltsDeeds b (moving word.now to from.id) error (H.view host.old) (H.view host.new)) }
    ensures cause { HostCause (H.faults host.old) (H.faults host.new) result }
{
    if !is_there(host, from)? {
        return Ok(false);
    }
    move_file(host, from, to)?;
    tell_line(alloc, host, word, from.id)?;
    Ok(true)
}

/// The count with one more, if it moved. It stays at its last value.
fn counted(count: u32, moved: bool) -> u32
    ensures { result ≡ (if moved then min (count + 1) (2 ^ 32 - 1) else count) }
{
    if moved {
        return count.saturating_add(1);
    }
    count
}

/// Moves these files and tells the line of each, and says how many were there.
pub(crate) fn move_each<H: Host>(
    alloc: Global,
    host: &mut H,
    word: &[u8],
    files: &[Standing],
    to: Place,
) -> Result<u32, HostError>
    requires { AllByRecursion (λ from. MayMove from to) files.now }
    ensures ok { IfOk result (λ count. IsTrue H.tells → (b : Book)
        → HostStands (H.view host.old) b → AreThere b files.now
        → (count ≡ moved_count files.now)
        × PlaysDeeds b (moving_each word.now to files.now) (H.view host.old) (H.view host.new)) }
    ensures err { EachError result (λ error. IsTrue H.tells → (b : Book)
        → HostStands (H.view host.old) b → AreThere b files.now
        → HaltsDeeds b (moving_each word.now to files.now) error
        (H.view host.old) (H.view host.new)) }
    ensures cause { HostCause (H.faults host.old) (H.faults host.new) result }
{
    let mut count: u32 = 0;
    for from in files {
        let moved = move_told(alloc, host, word, *from, to)?;
        count = counted(count, moved);
    }
    Ok(count)
}
