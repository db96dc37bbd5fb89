// A row of a table.
use pt_base::Listed;
use std::alloc::{AllocError, Global};

/// A list of numbers.
pub type Numbers = Listed<i128>;

/// A row of a table: what it answers where a call has these arguments.
pub struct Row {
    pub args: Numbers,
    pub result: i128,
}

impl Drop for Row {
    fn drop(self) {
        let Row {
            args: _args,
            result: _,
        } = self;
    }
}

impl Row {
    ghost use Rattle.std.specs.Prelude.{◌≡◌, IfOk};

    // A row that is equal to this one.
    pub(crate) fn copy(&self, alloc: Global) -> Result<Row, AllocError>
        ensures { IfOk result (λ r. r ≡ self.now) }
    {
        Ok(Row {
            args: self.args.copy(alloc)?,
            result: self.result,
        })
    }
}
