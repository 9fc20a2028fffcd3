//! The generation of a spool.
ghost use Rattle.std.specs.Prelude.{◌≡◌, ◌<◌, ◌^◌, IfOk, IsTrue, ℕ};
ghost use Rattle.q_host.specs.Calls.{Stays};
ghost use Rattle.q_host.specs.Faults.{DiskCause};
ghost use Rattle.q_model.specs.Book.{Book};
ghost use Rattle.q_model.specs.FilesStand.{Stands};
ghost use Rattle.q_model.specs.IdTexts.{hex};
ghost use Rattle.q_views.specs.Generations.{IsFirstGeneration};

use q_host::{Host, HostError};
use q_model::{Area, Name, Names};
use std::alloc::Global;
use std::str;

/// The number that 8 hexadecimal digits spell; of other bytes any answer.
fn hex_number(digits: &[u8]) -> Option<u32>
    ensures { (n : ℕ) → n < 2 ^ 32 → hex 8 n ≡ digits.now → result ≡ Some n }
{
    let Ok(text) = str::from_utf8(digits) else {
        return None;
    };
    u32::from_str_radix(text, 16).ok()
}

/// The generation that the first of boot's names spells; 0 where there is none.
fn first_generation(names: &[Name]) -> u32
    ensures { IsFirstGeneration names.now result }
{
    match names.first() {
        Some(name) => hex_number(name.bytes()).unwrap_or(0),
        None => 0,
    }
}

/// The generation of the last life; 0 before the first, and where boot has other names.
pub(crate) fn last_generation<H: Host>(alloc: Global, host: &mut H) -> Result<u32, HostError>
    ensures generation { IfOk result (λ generation. IsTrue H.tells → (b : Book)
        → Stands (H.view host.old).files b → generation ≡ b.generation) }
    ensures stays { IsTrue H.tells → Stays (H.view host.old) (H.view host.new) }
    ensures cause { DiskCause (H.faults host.old) (H.faults host.new) result }
{
    let mut names = Names::new(alloc)?;
    host.list_after(Area::Boot, None, &mut names)?;
    Ok(first_generation(names.as_slice()))
}
