//! Texts, and their changes.

use anyhow::bail;
use std::alloc::{AllocError, Global};

/// What is in a text, and what stands in its place.
pub type Change = (String, String);

/// A text, and the changes of it that are remembered.
#[derive(Drop)]
pub struct Text {
    text: String,
    pub changes: Vec<Change>,
}

impl Text {
    /// A text without a change that is remembered.
    pub fn new(alloc: Global, text: &str) -> Result<Text, AllocError> {
        Ok(Text {
            text: String::from_str(alloc, text)?,
            changes: Vec::new(alloc),
        })
    }

    /// Adds a line. O(n).
    pub fn add_line(&mut self, alloc: Global, line: &str) -> Result<(), AllocError> {
        let line = line.replace(alloc, "\\n", "\n")?;
        self.text.push_str(line.as_str())?;
        self.text.push('\n')
    }

    /// Adds a comment, with which the text has so many octets, if it had fewer.
    pub fn fill(&mut self, octets: usize) -> Result<(), AllocError> {
        self.text.push('#')?;
        for _ in self.text.len()..octets {
            self.text.push('-')?;
        }
        Ok(())
    }

    /// The text with a change. The error is a change of what isn't there, or want of memory. O(n).
    pub fn with(&self, alloc: Global, change: &Change) -> anyhow::Result<String> {
        let (old, new) = change;
        match self.text.as_str().split_once(old.as_str()) {
            Some((front, behind)) => Ok(format!(in alloc; "{front}{new}{behind}")?),
            None => bail!("not in the text: {old}"),
        }
    }
}

/// The change that is written `OLD => NEW`, or none that changes anything where nothing is written.
pub fn change_of(alloc: Global, written: &str) -> Result<Change, AllocError> {
    let (old, new) = written.split_once("=>").unwrap_or(("", ""));
    let old = old.trim().replace(alloc, "\\n", "\n")?;
    let new = new.trim().replace(alloc, "\\n", "\n")?;
    Ok((old, new))
}
