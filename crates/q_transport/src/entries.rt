//! The entries of a transport table.
ghost use Rattle.std.specs.Prelude.{◌≡◌, ◌++◌, ◌∷◌, [], IfErr, length, None, OnErr, OnOk, option_copied};
ghost use Rattle.q_transport.specs.Contents.{rule_of_pattern, rule_from};
ghost use Rattle.q_transport.specs.Entries.{target_at};

use crate::error::TableError;
use indexmap::IndexMap;
use q_model::Hop;
use std::alloc::Global;
use std::marker::Model;

/// Where the addresses of a pattern go: the number of a transport, and a next hop; none is the
/// domain of the recipient.
#[derive(Clone, Copy, Debug)]
pub(crate) struct Target {
    pub(crate) transport: u8,
    pub(crate) hop: Option<Hop>,
}

/// Entries, each found by its pattern without a walk. A contract sees them in order of their
/// lines.
#[derive(Debug, Drop)]
pub(crate) struct Entries {
    targets: IndexMap<Vec<u8>, Target>,
}

impl Model for Entries {
    ghost use Rattle.std.specs.Prelude.{List};
    ghost use Rattle.q_transport.specs.Contents.{Rule};
    ghost use Rattle.q_transport.specs.Entries.{rules_of};

    ghost Value = { List Rule };

    ghost view = { λ e. rules_of e.targets.entries };
}

impl Entries {
    pub(crate) fn new(alloc: Global) -> Entries
        ensures { result ≡ [] }
    {
        Entries {
            targets: IndexMap::new(alloc),
        }
    }

    pub(crate) fn len(&self) -> usize
        ensures { result ≡ length self.now }
    {
        self.targets.len()
    }

    /// Where the addresses of a pattern go.
    pub(crate) fn get(&self, pattern: &[u8]) -> Option<&Target>
        ensures { option_copied result ≡ target_at self.now pattern.now }
    {
        self.targets.get(pattern)
    }

    /// Adds an entry, whose pattern none has so far.
    pub(crate) fn push(&mut self, pattern: Vec<u8>, target: Target) -> Result<(), TableError>
        requires { rule_of_pattern self.old pattern.items ≡ None }
        ensures ok { OnOk result (self.new
            ≡ self.old ++ rule_from pattern.items target.transport target.hop ∷ []) }
        ensures same { OnErr result (self.new ≡ self.old) }
        ensures err { IfErr result (λ e. e ≡ TableError.NoMemory) }
    {
        self.targets.insert(pattern, target)?;
        Ok(())
    }
}
