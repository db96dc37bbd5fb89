// What each row shows.
use crate::halves::halves;
use crate::texts::texts;
use anyhow::{Result, bail};
use case_rows::{Shows, first_word};
use std::alloc::Global;
use std::thread::Threads;

/// Rows that set nothing.
#[derive(Drop)]
pub struct Session;

impl Shows for Session {
    fn begin_list(&mut self, _alloc: Global) {}

    fn shown<R: Threads + Sync>(&mut self, rt: &R, alloc: Global, row: &str) -> Result<String> {
        let (word, rest) = first_word(row);
        match word {
            "halves" => halves(rt, alloc, rest),
            "texts" => texts(rt, alloc, rest, true),
            "readings" => texts(rt, alloc, rest, false),
            _ => bail!("no such row"),
        }
    }
}
