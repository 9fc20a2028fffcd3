//! What is told of a load.
ghost use Rattle.std.specs.Prelude.{◌≡◌, ◌++◌, IfOk, OnOk};
ghost use Rattle.q_load.specs.SummaryTexts.{count_line, summary_text};

use q_model::NoMemory;
use std::alloc::Global;

/// What is counted of a load.
#[derive(Clone, Copy, Debug, PartialEq, Eq)]
pub struct Summary {
    /// The mails that came.
    pub messages: u32,
    /// Their recipients.
    pub recipients: u64,
    /// The deliveries that began.
    pub starts: u64,
    /// How often a job went before another, up to 2^64 - 1.
    pub preempts: u64,
    /// The messages that are left in the end.
    pub left: u128,
}

fn add(text: &mut Vec<u8>, bytes: &[u8]) -> Result<(), NoMemory>
    ensures { OnOk result (text.new.items ≡ text.old.items ++ bytes.now) }
{
    text.extend_from_slice(bytes)?;
    Ok(())
}

fn add_count(alloc: Global, text: &mut Vec<u8>, word: &[u8], count: u128) -> Result<(), NoMemory>
    ensures { OnOk result (text.new.items ≡ text.old.items ++ count_line word.now count) }
{
    let digits = count.to_string(alloc)?;
    add(text, word)?;
    add(text, b" ")?;
    add(text, digits.as_bytes())?;
    add(text, b"\n")
}

impl Summary {
    /// Its five lines.
    pub fn text(&self, alloc: Global) -> Result<Vec<u8>, NoMemory>
        ensures { IfOk result (λ text. text.items ≡ summary_text self.now) }
    {
        let mut text = Vec::new(alloc);
        add_count(alloc, &mut text, b"messages", u128::from(self.messages))?;
        add_count(alloc, &mut text, b"recipients", u128::from(self.recipients))?;
        add_count(alloc, &mut text, b"starts", u128::from(self.starts))?;
        add_count(alloc, &mut text, b"preempts", u128::from(self.preempts))?;
        add_count(alloc, &mut text, b"left", self.left)?;
        Ok(text)
    }
}
