// Several sessions under answers of a chooser that are written down.
use crate::calls::words_of;
use crate::files::Files;
use anyhow::{Result, bail};
use case_rows::{Silent, first_word};
use pt_base::{Chooser, Who};
use std::alloc::Global;
use std::thread::Threads;

// A chooser that gives these answers over and over, and counts how often it was asked. It tells nothing of them.
#[derive(Drop)]
struct Round {
    answers: Vec<Who>,
    asked: usize,
}

impl Chooser for Round {
    ghost use Rattle.std.specs.Prelude.{None};

    ghost answers = { λ _. None };

    fn next(&mut self) -> Who {
        let many = self.answers.len();
        if many == 0 {
            return Who::Parent;
        }
        let place = self.asked % many;
        self.asked = self.asked.saturating_add(1);
        match self.answers.get(place) {
            Some(who) => *who,
            None => Who::Parent,
        }
    }
}

// The answers that a word spells: a letter each, `p` for Slave, which passes on, and `g` for Parent, which lets go on.
fn answers_of(alloc: Global, word: &str) -> Result<Vec<Who>> {
    let mut answers = Vec::new(alloc);
    for letter in word.chars() {
        let answer = match letter {
            'p' => Who::Slave,
            'g' => Who::Parent,
            _ => bail!("no answer: {letter}"),
        };
        answers.push(answer)?;
    }
    Ok(answers)
}

/// Makes the call with the row's words behind the answers that a chooser gives over and over, and tells how often it was
/// asked, too.
///
/// # Errors
///
/// Other answers, and want of memory.
pub fn turns<R: Threads + Sync>(
    rt: &R,
    alloc: Global,
    files: &mut Files,
    row: &str,
) -> Result<String> {
    let (word, rest) = first_word(row);
    let answers = answers_of(alloc, word)?;
    let mut chooser = Round { answers, asked: 0 };
    let words = words_of(alloc, rest)?;
    let mut outside = files.outside(alloc, &words)?;
    let mut told = format!(in alloc; "turns {row}")?;
    let status = outside.call(rt, alloc, &words, &mut chooser, &Silent);
    outside.push_ending(&mut told, status)?;
    write!(told, ", {} answers", chooser.asked)?;
    Ok(told)
}
