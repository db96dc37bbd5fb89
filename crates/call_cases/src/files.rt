// The files that rows have set.
use crate::outside::{Failing, Outside};
use anyhow::{Result, bail};
use case_rows::{TextFiles, bytes_of, first_word};
use std::alloc::{AllocError, Global};
use std::mem;

/// The files that rows have set, and what another process gives and what fails in the next call.
#[derive(Drop)]
pub struct Files {
    texts: TextFiles,
    pieces: Vec<Vec<u8>>,
    failing: Failing,
}

impl Files {
    /// No file, nothing that another process gives and nothing that fails.
    pub fn new(alloc: Global) -> Files {
        Files {
            texts: TextFiles::new(alloc),
            pieces: Vec::new(alloc),
            failing: Failing::Nothing,
        }
    }

    /// Sets a file: its name and its text. Of two with one name, the last counts.
    ///
    /// # Errors
    ///
    /// A text that isn't spelled right, and want of memory.
    pub fn set(&mut self, alloc: Global, row: &str) -> Result<String> {
        self.texts.set(alloc, row)
    }

    /// Sets what another process gives in the next call: pieces in hexadecimal, with `|` between them.
    ///
    /// # Errors
    ///
    /// Pieces that aren't such, and want of memory.
    pub fn give(&mut self, alloc: Global, row: &str) -> Result<String> {
        for piece in row.split("|") {
            self.pieces.push(bytes_of(alloc, piece)?)?;
        }
        Ok(format!(in alloc; "link {row}")?)
    }

    /// Sets what fails in the next call: `folder`, `out` or `report`, of which the first call fails, or `link` and the number
    /// of its call, from 1.
    ///
    /// # Errors
    ///
    /// Other words, and want of memory.
    pub fn fail(&mut self, alloc: Global, row: &str) -> Result<String> {
        let (what, number) = first_word(row);
        self.failing = match what {
            "folder" => Failing::Folder,
            "out" => Failing::Out,
            "report" => Failing::Report,
            "link" => Failing::Link(number.parse::<u64>()?),
            _ => bail!("nothing of the outside: {what}"),
        };
        Ok(format!(in alloc; "failing {row}")?)
    }

    /// What a call with these words reaches: the files that they name, and what rows have set for the next call.
    ///
    /// # Errors
    ///
    /// Want of memory.
    pub fn outside(&mut self, alloc: Global, words: &[&str]) -> Result<Outside, AllocError> {
        let none = Vec::new(alloc);
        self.outside_with(alloc, words, none)
    }

    /// The same, with this text as the file `program`.
    ///
    /// # Errors
    ///
    /// Want of memory.
    pub fn outside_of(
        &mut self,
        alloc: Global,
        words: &[&str],
        text: &str,
    ) -> Result<Outside, AllocError> {
        let mut files = Vec::new(alloc);
        files.push(file_of(alloc, "program", text)?)?;
        self.outside_with(alloc, words, files)
    }

    // The same, with these files before the others.
    fn outside_with(
        &mut self,
        alloc: Global,
        words: &[&str],
        first: Vec<(String, Vec<u8>)>,
    ) -> Result<Outside, AllocError> {
        let mut files = first;
        self.add_named(alloc, words, &mut files)?;
        let pieces = mem::replace(&mut self.pieces, Vec::new(alloc));
        let failing = self.failing;
        self.failing = Failing::Nothing;
        Outside::new(alloc, files, pieces, failing)
    }

    /// The files that these words name.
    ///
    /// # Errors
    ///
    /// Want of memory.
    pub fn named(
        &self,
        alloc: Global,
        words: &[&str],
    ) -> Result<Vec<(String, Vec<u8>)>, AllocError> {
        let mut files = Vec::new(alloc);
        self.add_named(alloc, words, &mut files)?;
        Ok(files)
    }

    fn add_named(
        &self,
        alloc: Global,
        words: &[&str],
        files: &mut Vec<(String, Vec<u8>)>,
    ) -> Result<(), AllocError> {
        for word in words {
            if let Some(text) = self.texts.find(*word) {
                files.push(file_of(alloc, *word, text)?)?;
            }
        }
        Ok(())
    }

    /// The pieces that another process gives in the next call.
    ///
    /// # Errors
    ///
    /// Want of memory.
    pub fn pieces(&self, alloc: Global) -> Result<Vec<Vec<u8>>, AllocError> {
        let mut pieces = Vec::new(alloc);
        for piece in self.pieces.as_slice() {
            pieces.push(Vec::from_slice(alloc, piece)?)?;
        }
        Ok(pieces)
    }

    /// The next call has no other process that gives something.
    pub fn forget_pieces(&mut self, alloc: Global) {
        self.pieces = Vec::new(alloc);
    }
}

/// A file of this name with this text.
///
/// # Errors
///
/// Want of memory.
pub fn file_of(alloc: Global, name: &str, text: &str) -> Result<(String, Vec<u8>), AllocError> {
    let bytes = Vec::from_slice(alloc, text.as_bytes())?;
    Ok((String::from_str(alloc, name)?, bytes))
}
