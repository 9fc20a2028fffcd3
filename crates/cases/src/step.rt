//! The steps of a page, each a line with the lines below it that begin with a bar.
use std::alloc::{AllocError, Global};

/// The word of a step that names the sizes of pieces.
pub(crate) const PIECES: &str = "pieces";

/// A step: what its line says, and what stands below it.
#[derive(Drop)]
pub(crate) struct Step<'a> {
    /// The number of its line, from 1 on.
    pub(crate) number: usize,
    line: &'a str,
    /// The lines below, without their bars.
    pub(crate) below: Vec<&'a str>,
}

impl<'a> Step<'a> {
    /// The first word of its line.
    pub(crate) fn word(&self) -> &'a str {
        match self.line.split_once(' ') {
            Some((word, _)) => word,
            None => self.line,
        }
    }

    /// What its line says behind the first word.
    pub(crate) fn rest(&self) -> &'a str {
        match self.line.split_once(' ') {
            Some((_, rest)) => rest,
            None => "",
        }
    }
}

/// A line below a step, without its bar and the blank behind that.
fn behind_bar(line: &str) -> Option<&str> {
    let text = line.strip_prefix('|')?;
    match text.strip_prefix(' ') {
        Some(text) => Some(text),
        None => Some(text),
    }
}

/// Adds what a line says. Empty lines, and those that begin with `#`, say nothing.
fn add_line<'a>(
    alloc: Global,
    steps: &mut Vec<Step<'a>>,
    number: usize,
    line: &'a str,
) -> Result<(), AllocError> {
    if let Some(text) = behind_bar(line) {
        if let Some(step) = steps.last_mut() {
            step.below.push(text)?;
        }
        return Ok(());
    }
    if !line.is_empty() && !line.starts_with('#') {
        steps.push(Step {
            number,
            line,
            below: Vec::new(alloc),
        })?;
    }
    Ok(())
}

/// The steps of a page.
pub(crate) fn steps_of(alloc: Global, page: &str) -> Result<Vec<Step<'_>>, AllocError> {
    let mut steps = Vec::new(alloc);
    for (i, line) in page.lines().enumerate() {
        add_line(alloc, &mut steps, i.saturating_add(1), line)?;
    }
    Ok(steps)
}
