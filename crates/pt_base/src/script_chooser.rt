// Choosers in memory.
ghost use Rattle.std.specs.Prelude.{◌≡◌, ◌+◌, ℕ, true};
ghost use Rattle.pt_base.specs.Turns.{script, script_left, turn, turn_of};

use crate::{Chooser, Who};

/// A chooser that gives listed answers, then Parent for ever.
#[derive(Drop)]
pub struct ScriptChooser {
    answers: Vec<Who>,
    at: usize,
}

impl ScriptChooser {
    /// Gives these answers in order, then Parent for ever.
    pub fn new(answers: Vec<Who>) -> Self
        ensures { (k : ℕ) → script_left result k ≡ script answers.items k }
    {
        ScriptChooser { answers, at: 0 }
    }
}

impl Chooser for ScriptChooser {
    ghost use Rattle.std.specs.Prelude.{Some};
    ghost use Rattle.pt_base.specs.Turns.{script_left};

    ghost answers = { λ s. Some (script_left s) };

    fn next(&mut self) -> Who {
        match self.answers.get(self.at) {
            Some(who) => {
                self.at += 1;
                *who
            }
            None => Who::Parent,
        }
    }
}

/// A chooser that alternates: Slave, Parent, Slave and so on.
#[derive(Drop)]
pub struct Alternate {
    slave_next: bool,
}

impl Alternate {
    /// Begins with Slave.
    pub fn new() -> Self
        ensures { (k : ℕ) → turn_of result k ≡ turn true k }
    {
        Alternate { slave_next: true }
    }
}

impl Chooser for Alternate {
    ghost use Rattle.std.specs.Prelude.{Some};
    ghost use Rattle.pt_base.specs.Turns.{turn_of};

    ghost answers = { λ s. Some (turn_of s) };

    fn next(&mut self) -> Who {
        let who = if self.slave_next {
            Who::Slave
        } else {
            Who::Parent
        };
        self.slave_next = !self.slave_next;
        who
    }
}
