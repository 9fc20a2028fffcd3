//! The commands that show a spool without a network.
use crate::command::Command;

pub(crate) const STORY: [Command; 4] = [
    Command {
        shown: "echo Hello | qmgr spool submit ann@x.example bob@y.example eve@z.example",
        words: &["submit", "ann@x.example", "bob@y.example", "eve@z.example"],
        input: "Hello\n",
        moment: 1000,
    },
    Command {
        shown: "qmgr spool replay < events",
        words: &["replay"],
        input: EVENTS,
        moment: 1000,
    },
    Command {
        shown: "qmgr spool queue",
        words: &["queue"],
        input: "",
        moment: 1500,
    },
    Command {
        shown: "qmgr spool qshape deferred",
        words: &["qshape", "deferred"],
        input: "",
        moment: 1500,
    },
];

/// The first delivery fails for good, the second is put off and succeeds in the end; then comes the
/// bounce, and a message whose destination can't be reached.
const EVENTS: &str = "\
at 1100
reply 1 up never:550
reply 2 up later:451
at 1400
reply 3 up ok
reply 4 up ok
mail cat@x.example dan@y.example
reply 5 down later
end
";
