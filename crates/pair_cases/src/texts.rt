// The texts of a pair.
ghost use Rattle.std.specs.Prelude.{IfOk};
ghost use Rattle.pair_texts.specs.Seen.{HasPair, texts_with};

use anyhow::{Result, bail};
use case_rows::{Silent, first_word, spelled};
use pair_texts::{Beside, Pair, begin};
use stages::Stop;
use std::alloc::Global;
use std::thread::Threads;

/// The texts that rows have set.
#[derive(Drop)]
pub struct Texts {
    program: String,
    host: String,
    policy: String,
    input: String,
}

impl Texts {
    /// All are empty.
    pub fn new(alloc: Global) -> Texts {
        Texts {
            program: String::new(alloc),
            host: String::new(alloc),
            policy: String::new(alloc),
            input: String::new(alloc),
        }
    }

    /// Sets the text of a name: `program`, `host`, `policy` or `input`.
    ///
    /// # Errors
    ///
    /// Another name, a text that isn't spelled right, and want of memory.
    pub fn set(&mut self, alloc: Global, row: &str) -> Result<String> {
        let (name, text) = first_word(row);
        let text = spelled(alloc, text)?;
        match name {
            "program" => self.program = text,
            "host" => self.host = text,
            "policy" => self.policy = text,
            "input" => self.input = text,
            _ => bail!("no text of a pair: {name}"),
        }
        Ok(format!(in alloc; "file {row}")?)
    }

    /// The program.
    pub fn program(&self) -> &[u8] {
        self.program.as_bytes()
    }

    /// The other texts, with so many turns.
    pub fn beside(&self, turns: u32) -> Beside<'_> {
        Beside {
            host: self.host.as_bytes(),
            policy: self.policy.as_bytes(),
            input: self.input.as_bytes(),
            turns,
        }
    }
}

/// What a program starts from with these texts beside it.
///
/// # Errors
///
/// Texts with faults, and want of memory.
pub fn pair_of<R: Threads + Sync>(
    rt: &R,
    alloc: Global,
    program: &[u8],
    beside: Beside<'_>,
) -> Result<Pair>
    ensures { IfOk result (HasPair (texts_with program.now beside.entry) beside.entry.turns) }
{
    match begin(rt, alloc, program, beside, &Silent) {
        Ok(pair) => Ok(pair),
        Err(Stop::Refused(_)) => bail!("the texts have faults"),
        Err(Stop::Memory) => bail!("out of memory"),
    }
}
