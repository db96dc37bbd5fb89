// Sets of numbers.
use std::alloc::{AllocError, Global};
use std::marker::Model;

/// A set of numbers below a bound: for each of them, whether it is in the set.
#[derive(Drop)]
pub(crate) struct NumberSet {
    truths: Vec<bool>,
}

impl Model for NumberSet {
    ghost use Rattle.std.specs.Prelude.{Bool, List};

    ghost Value = { List Bool };

    ghost view = { λ s. s.truths.items };
}

impl NumberSet {
    ghost use Rattle.std.specs.Prelude.{◌≡◌, false, true, IfOk, map, replicate, slice_set};
    ghost use Rattle.reach.specs.Tables.{set_all};
    ghost use Rattle.splitter.specs.Sets.{is_set};

    /// None of the numbers below this one.
    pub(crate) fn none(alloc: Global, bound: usize) -> Result<NumberSet, AllocError>
        ensures { IfOk result (λ s. s ≡ replicate bound false) }
    {
        Ok(NumberSet {
            truths: vec![in alloc; false; bound]?,
        })
    }

    /// Whether the number is in the set.
    pub(crate) fn has(&self, number: u32) -> bool
        ensures { result ≡ is_set self.now number }
    {
        match self.truths.get(number as usize) {
            Some(truth) => *truth,
            None => false,
        }
    }

    /// Adds a number, where it is below the bound.
    pub(crate) fn add(&mut self, number: u32)
        ensures { self.new ≡ slice_set self.old number true }
    {
        let place = number as usize;
        if place < self.truths.len() {
            self.truths[place] = true;
        }
    }
}
