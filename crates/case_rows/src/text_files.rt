// The files that rows have set.
use crate::spelling::{first_word, spelled};
use anyhow::{Result, bail};
use std::alloc::Global;

/// The files that rows have set.
#[derive(Drop)]
pub struct TextFiles {
    files: Vec<(String, String)>,
}

impl TextFiles {
    /// No file.
    pub fn new(alloc: Global) -> TextFiles {
        TextFiles {
            files: Vec::new(alloc),
        }
    }

    /// Sets a file: its name and its text. Of two with one name, the last counts.
    ///
    /// # Errors
    ///
    /// A text that isn't spelled right, and want of memory.
    pub fn set(&mut self, alloc: Global, row: &str) -> Result<String> {
        let (name, text) = first_word(row);
        self.files
            .push((String::from_str(alloc, name)?, spelled(alloc, text)?))?;
        Ok(format!(in alloc; "file {row}")?)
    }

    /// The text of this name that was set last, if there is one.
    pub fn find(&self, name: &str) -> Option<&str> {
        for file in self.files.iter().rev() {
            if file.0.as_str() == name {
                return Some(file.1.as_str());
            }
        }
        None
    }

    /// The text of this name.
    ///
    /// # Errors
    ///
    /// A name of no file.
    pub fn text(&self, name: &str) -> Result<&[u8]> {
        match self.find(name) {
            Some(text) => Ok(text.as_bytes()),
            None => bail!("no file: {name}"),
        }
    }
}
