// What was asked already of the leaves behind slots.
use indexmap::IndexSet;
use std::alloc::{AllocError, Global};

/// A question: which leaf of an object of this struct, that begins at this slot, is the first privileged one
/// under no marked field.
#[derive(Clone, Copy, PartialEq, Eq, Hash)]
pub(crate) struct Asked {
    pub start: u64,
    pub structure: u32,
}

/// The questions that were asked, and their answers in the same order.
#[derive(Drop)]
pub(crate) struct Memo {
    pub asked: IndexSet<Asked>,
    pub answers: Vec<Option<u64>>,
}

impl Memo {
    ghost use Rattle.std.specs.Prelude.{IfOk, IfSome, OnOk};
    ghost use Rattle.flow_rules.specs.declared.memo.Asked.{Asked};
    ghost use Rattle.flow_rules.specs.Memory as is;
    ghost use Rattle.flow_rules.specs.Memory.{Knows};
    ghost use Rattle.flow_rules.specs.Secrets.{Flows};

    /// Nothing was asked.
    pub fn none(alloc: Global) -> Memo
        ensures { (p : Flows) → Knows p result }
    {
        Memo {
            asked: IndexSet::new(alloc),
            answers: Vec::new(alloc),
        }
    }

    /// The answer to a question, if it was asked before; else its answer is to be learned next.
    pub fn answer(&mut self, asked: Asked) -> Result<Option<Option<u64>>, AllocError>
        ensures known { IfOk result (λ o. IfSome o (λ s. (p : Flows) → Knows p self.old → is.Answers p asked s × Knows p self.new)) }
        ensures new { IfOk result (λ o. (p : Flows) → Knows p self.old → is.IsLeft p o self.new asked) }
    {
        let (index, is_new) = self.asked.insert_full(asked)?;
        if is_new {
            return Ok(None);
        }
        match self.answers.get(index) {
            Some(answer) => Ok(Some(*answer)),
            None => Ok(None),
        }
    }

    /// Learns the answer to the question that was asked last.
    pub fn learn(&mut self, answer: Option<u64>) -> Result<(), AllocError>
        ensures { (p : Flows) (x : Asked) → is.WantsAnswer p self.old x → is.Answers p x answer → OnOk result (Knows p self.new) }
    {
        self.answers.push(answer)?;
        Ok(())
    }
}
