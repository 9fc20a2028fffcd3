//! The words by which lines begin.
ghost use Rattle.std.specs.Prelude.{◌≡◌};
ghost use Rattle.q_trace.specs.Bodies.{kind_of};
ghost use Rattle.q_trace.specs.Kinds.{word_of};

/// The kind of an entry, `Entry::End` aside, whose line is one word.
#[derive(Clone, Copy, Debug, PartialEq, Eq)]
pub(crate) enum Kind {
    Life,
    At,
    Arrive,
    Back,
    Admit,
    Load,
    Start,
    Preempt,
    Reply,
    Skip,
    Log,
    Mark,
    Sync,
    Defer,
    Bounce,
    Remove,
    Corrupt,
    Trigger,
}

impl Kind {
    const ALL: [Kind; 18] = [
        Kind::Life,
        Kind::At,
        Kind::Arrive,
        Kind::Back,
        Kind::Admit,
        Kind::Load,
        Kind::Start,
        Kind::Preempt,
        Kind::Reply,
        Kind::Skip,
        Kind::Log,
        Kind::Mark,
        Kind::Sync,
        Kind::Defer,
        Kind::Bounce,
        Kind::Remove,
        Kind::Corrupt,
        Kind::Trigger,
    ];

    fn word(self) -> &'static [u8]
        ensures { result.now ≡ word_of self }
    {
        match self {
            Kind::Life => b"life",
            Kind::At => b"at",
            Kind::Arrive => b"arrive",
            Kind::Back => b"back",
            Kind::Admit => b"admit",
            Kind::Load => b"load",
            Kind::Start => b"start",
            Kind::Preempt => b"preempt",
            Kind::Reply => b"reply",
            Kind::Skip => b"skip",
            Kind::Log => b"log",
            Kind::Mark => b"mark",
            Kind::Sync => b"sync",
            Kind::Defer => b"defer",
            Kind::Bounce => b"bounce",
            Kind::Remove => b"remove",
            Kind::Corrupt => b"corrupt",
            Kind::Trigger => b"trigger",
        }
    }

    /// The kind whose lines begin with this word.
    #[tactic(auto, unfolding(crate::specs::Bodies::kind_of))]
    pub(crate) fn named(word: &[u8]) -> Option<Kind>
        ensures { result ≡ kind_of word.now }
    {
        Kind::ALL.iter().copied().find(|kind| kind.word() == word)
    }
}
