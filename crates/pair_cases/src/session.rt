// The texts that rows have set, and what each row shows.
use crate::hostile::hostile;
use crate::hubs::hub;
use crate::slaves::slave;
use crate::streams::{cuts, firsts};
use crate::supervised::{failing, supervised};
use crate::texts::Texts;
use anyhow::{Result, bail};
use case_rows::{Shows, first_word};
use std::alloc::Global;
use std::thread::Threads;

/// The texts that rows have set.
#[derive(Drop)]
pub struct Session {
    texts: Texts,
}

impl Session {
    /// No text is set.
    pub fn new(alloc: Global) -> Session {
        Session {
            texts: Texts::new(alloc),
        }
    }
}

impl Shows for Session {
    fn begin_list(&mut self, alloc: Global) {
        self.texts = Texts::new(alloc);
    }

    fn shown<R: Threads + Sync>(&mut self, rt: &R, alloc: Global, row: &str) -> Result<String> {
        let (word, rest) = first_word(row);
        match word {
            "file" => self.texts.set(alloc, rest),
            "supervise" => supervised(rt, alloc, &self.texts, rest),
            "failing" => failing(rt, alloc, &self.texts, rest),
            "cuts" => cuts(rt, alloc, &self.texts, rest),
            "firsts" => firsts(rt, alloc, &self.texts, rest),
            "slave" => slave(rt, alloc, &self.texts, rest),
            "hostile" => hostile(rt, alloc, rest),
            "hub" => hub(rt, alloc, &self.texts, rest),
            _ => bail!("no such row"),
        }
    }
}
