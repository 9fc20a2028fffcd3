//! The lines that tools tell.
ghost use Rattle.std.specs.Prelude.{◌≡◌, ◌∷◌, [], IfOk, IsTrue, OnOk};
ghost use Rattle.q_books.specs.HostStands.{HostStands};
ghost use Rattle.q_host.specs.Faults.{TellCause};
ghost use Rattle.q_model.specs.Book.{Book};
ghost use Rattle.q_super.specs.Deeds.{line_of, tells};
ghost use Rattle.q_super.specs.Plays.{HaltsDeeds, PlaysDeeds};
ghost use Rattle.q_super.specs.Refusals.{EachError};

use q_host::{Host, HostError};
use q_model::{Id, NoMemory, id_name};
use std::alloc::Global;

/// The word of an act, an id, and LF.
fn line_of(alloc: Global, word: &[u8], id: Id) -> Result<Vec<u8>, NoMemory>
    ensures { IfOk result (λ line. line.items ≡ line_of word.now id) }
{
    let mut line = Vec::new(alloc);
    line.extend_from_slice(word)?;
    line.push(b' ')?;
    line.extend_from_slice(id_name(id).bytes())?;
    line.push(b'\n')?;
    Ok(line)
}

/// Tells the line of a message whose steps are done. Memory for it is asked for before anything of
/// it is told.
pub(crate) fn tell_line<H: Host>(
    alloc: Global,
    host: &mut H,
    word: &[u8],
    id: Id,
) -> Result<(), HostError>
    ensures ok { OnOk result (IsTrue H.tells → (b : Book) → HostStands (H.view host.old) b
        → PlaysDeeds b (tells (line_of word.now id) ∷ []) (H.view host.old) (H.view host.new)) }
    ensures err { EachError result (λ error. IsTrue H.tells → (b : Book)
        → HostStands (H.view host.old) b → HaltsDeeds b (tells (line_of word.now id) ∷ []) error
        (H.view host.old) (H.view host.new)) }
    ensures cause { TellCause (H.faults host.old) (H.faults host.new) result }
{
    let Ok(line) = line_of(alloc, word, id) else {
        return Err(HostError::NoMemory);
    };
    host.tell(line.as_slice())
}
