//! What the words of a queue tool say to do, and what they leave to the input.
ghost use Rattle.std.specs.Prelude.{◌≡◌};
ghost use Rattle.q_top.specs.Tools.{IsWork, work_of, work_on, work_with};

use q_model::Hop;
use q_tools::{Act, Task};
use q_words::{Chosen, Target, ToolRequest};

/// What the words of a queue tool say to do.
#[derive(Debug, Drop)]
pub(crate) enum Work {
    /// All is said.
    Ready(Task),
    /// The act, with the messages whose ids the source names.
    Listed(Act),
}

/// The act, with the messages that are named.
fn work_on(act: Act, chosen: Chosen) -> Work
    ensures { result ≡ work_on act chosen }
{
    match chosen {
        Chosen::One(id) => Work::Ready(Task::One { act, id }),
        Chosen::Listed => Work::Listed(act),
    }
}

/// The act, with those or with all.
fn work_with(act: Act, target: Target) -> Work
    ensures { result ≡ work_with act target }
{
    match target {
        Target::All => Work::Ready(Task::All { act }),
        Target::Only(chosen) => work_on(act, chosen),
    }
}

/// What the tool is to do.
pub(crate) fn work_of(tool: ToolRequest) -> Work
    ensures exact { result ≡ work_of tool }
    ensures form { IsWork result }
{
    match tool {
        ToolRequest::Hold(target) => work_with(Act::Hold, target),
        ToolRequest::Release(target) => work_with(Act::Release, target),
        ToolRequest::Requeue(target) => work_with(Act::Requeue, target),
        ToolRequest::Expire(chosen) => work_on(Act::Expire, chosen),
        ToolRequest::Flush(domain) => Work::Ready(Task::Flush { domain }),
    }
}
