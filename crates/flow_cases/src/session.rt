// The files that rows have set, and what each row shows.
use crate::audited::{audited, audited_at_once};
use crate::explained::{explained, pair_explained};
use crate::outlined::outlined;
use crate::paths::paths;
use crate::pictured::pictured;
use crate::threads::at_once;
use anyhow::{Result, bail};
use case_rows::{Shows, TextFiles, first_word};
use std::alloc::Global;
use std::thread::Threads;

/// The files that rows have set.
#[derive(Drop)]
pub struct Session {
    files: TextFiles,
}

impl Session {
    /// No file is set.
    pub fn new(alloc: Global) -> Session {
        Session {
            files: TextFiles::new(alloc),
        }
    }
}

impl Shows for Session {
    fn begin_list(&mut self, alloc: Global) {
        self.files = TextFiles::new(alloc);
    }

    fn shown<R: Threads + Sync>(&mut self, rt: &R, alloc: Global, row: &str) -> Result<String> {
        let (word, rest) = first_word(row);
        match word {
            "file" => self.files.set(alloc, rest),
            "paths" => paths(alloc, rest),
            "threads" => at_once(rt, alloc, rest),
            "explain" => explained(rt, alloc, rest),
            "explain_pair" => pair_explained(rt, alloc, &self.files, rest),
            "picture" => pictured(rt, alloc, rest),
            "outline" => outlined(rt, alloc, rest),
            "audit" => audited(rt, alloc, rest),
            "audit_threads" => audited_at_once(rt, alloc, rest),
            _ => bail!("no such row"),
        }
    }
}
