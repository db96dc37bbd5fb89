// What the rows of a list have set so far, and what each row shows.
use crate::boot_rows::boot;
use crate::copies::copied;
use crate::frames::{cuts, frames, payload};
use crate::hosts::{called, given, parted, read_table};
use crate::numbers::reckoned;
use crate::objects::{choosers, folder, link, sink};
use crate::policies::{decided, read_text};
use crate::programs::{Around, judged};
use crate::stores::{memory, names, store};
use crate::tokens::{strange_bytes, told};
use crate::typed::typed;
use anyhow::{Context, Result, bail};
use case_rows::{Shows, first_word, spelled};
use front_end::read_program;
use host_table::Host;
use policy::Policy;
use std::alloc::Global;
use std::thread::Threads;
use typed_tree::Typed;

/// What rows have set: what stands before a body, and the program, policy and hosts that were read last.
#[derive(Drop)]
pub struct Session {
    before: String,
    program: Option<Typed>,
    policy: Option<Policy>,
    host: Option<Host>,
}

impl Shows for Session {
    fn begin_list(&mut self, alloc: Global) {
        *self = Session::new(alloc);
    }

    fn shown<R: Threads + Sync>(&mut self, _rt: &R, alloc: Global, row: &str) -> Result<String> {
        let (word, rest) = first_word(row);
        match word {
            "lex" => told(alloc, rest),
            "bytes" => strange_bytes(alloc),
            "typed" => typed(alloc, rest),
            "binary" | "unary" | "convert" | "promote" | "usual" => reckoned(alloc, row),
            "before" => self.set_before(alloc, rest),
            "program" | "item" | "body" => self.judge(alloc, word, rest),
            "functions" => self.set_program(alloc, row, rest),
            "policy" | "decide" => self.ask_policy(alloc, row, word, rest),
            "host" | "input" | "call" | "part" => self.ask_host(alloc, row, word, rest),
            _ => stored(alloc, word, rest),
        }
    }
}

impl Session {
    /// Nothing is set.
    pub fn new(alloc: Global) -> Session {
        Session {
            before: String::new(alloc),
            program: None,
            policy: None,
            host: None,
        }
    }

    // What stands before a body from now on.
    fn set_before(&mut self, alloc: Global, rest: &str) -> Result<String> {
        self.before = format!(in alloc; "{rest} ")?;
        Ok(format!(in alloc; "before {rest}")?)
    }

    // A row with a program's text, whole or in part.
    fn judge(&mut self, alloc: Global, word: &str, rest: &str) -> Result<String> {
        let around = around(word, self.before.as_str());
        let judged = judged(alloc, rest, around)?;
        Ok(format!(in alloc; "{word} {judged}")?)
    }

    // The program that policies and host tables are read for from now on.
    fn set_program(&mut self, alloc: Global, row: &str, rest: &str) -> Result<String> {
        self.program = Some(program_of(alloc, rest)?);
        Ok(String::from_str(alloc, row)?)
    }

    // A row on a policy: its text, or a call.
    fn ask_policy(&mut self, alloc: Global, row: &str, word: &str, rest: &str) -> Result<String> {
        let program = self.program.as_ref().context("no program")?;
        let answer = if word == "policy" {
            read_text(alloc, program, &mut self.policy, rest)?
        } else {
            let policy = self.policy.as_mut().context("no policy")?;
            decided(alloc, program, policy, rest)?
        };
        Ok(format!(in alloc; "{row} => {answer}")?)
    }

    // A row on hosts: their table, their input, a call, or a part of them.
    fn ask_host(&mut self, alloc: Global, row: &str, word: &str, rest: &str) -> Result<String> {
        let program = self.program.as_ref().context("no program")?;
        let answer = if word == "host" {
            read_table(alloc, program, &mut self.host, rest)?
        } else {
            let host = self.host.as_mut().context("no hosts")?;
            asked(alloc, program, host, word, rest)?
        };
        Ok(format!(in alloc; "{row} => {answer}")?)
    }
}

// What hosts that were read answer to a row.
fn asked(
    alloc: Global,
    program: &Typed,
    host: &mut Host,
    word: &str,
    rest: &str,
) -> Result<String> {
    match word {
        "input" => given(alloc, host, rest),
        "call" => called(alloc, program, host, rest),
        "part" => parted(alloc, program, host, rest),
        _ => bail!("no such row"),
    }
}

// What a row on memory or on the wire shows, which needs nothing that other rows have set.
fn stored(alloc: Global, word: &str, rest: &str) -> Result<String> {
    match word {
        "frames" => frames(alloc, rest),
        "payload" => payload(alloc, rest),
        "cuts" => cuts(alloc, rest),
        "boot" => boot(alloc, rest),
        "copied" => copied(alloc, rest),
        "folder" => folder(alloc),
        "link" => link(alloc),
        "sink" => sink(alloc),
        "choosers" => choosers(alloc),
        "names" => names(alloc),
        "store" => store(alloc),
        "memory" => memory(alloc),
        _ => bail!("no such row"),
    }
}

// The program that a row spells.
fn program_of(alloc: Global, rest: &str) -> Result<Typed> {
    let text = spelled(alloc, rest)?;
    match read_program(alloc, text.as_bytes()) {
        Ok(program) => Ok(program),
        Err(_) => bail!("the program has a fault"),
    }
}

// What stands before and behind the text of a row with this word.
fn around<'a>(word: &str, before: &'a str) -> Around<'a> {
    match word {
        "item" => Around {
            before: "",
            after: " int main(void) { }",
        },
        "body" => Around {
            before,
            after: " }",
        },
        _ => Around {
            before: "",
            after: "",
        },
    }
}
