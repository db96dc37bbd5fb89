// The rows of a table.
use crate::row::Row;
use crate::row_index::index_of;
use std::alloc::{AllocError, Global};
use std::collections::BTreeMap;
use std::marker::Model;

/// The rows of a table, in order. Contracts see it as their list. A call's row is found by its
/// arguments, without a walk over the rows.
pub struct Rows {
    rows: Vec<Row>,
    // The result of the first row with these arguments.
    first: BTreeMap<Vec<i128>, i128>,
}

impl Drop for Rows {
    fn drop(self) {
        let Rows {
            rows: _rows,
            first: _first,
        } = self;
    }
}

impl Model for Rows {
    ghost use Rattle.std.specs.Prelude.{List};
    ghost use Rattle.pt_tree.specs.declared.row.Row.{Row};

    ghost Value = { List Row };

    ghost use Rattle.pt_tree.specs.RowIndex.{IsIndexOf};

    ghost view = { λ r. r.rows.items };

    ghost invariant = { λ r. IsIndexOf r.first.entries r.rows.items };
}

impl Rows {
    ghost use Rattle.std.specs.Prelude.{◌≡◌, IfOk};
    ghost use Rattle.pt_tree.specs.HostStep.{first_result};

    /// These rows.
    pub fn new(alloc: Global, rows: Vec<Row>) -> Result<Rows, AllocError>
        ensures { IfOk result (λ r. r ≡ rows.items) }
    {
        let first = index_of(alloc, rows.as_slice())?;
        Ok(Rows { rows, first })
    }

    /// Lends the rows.
    pub fn as_slice(&self) -> &[Row]
        ensures { result.now ≡ self.now }
    {
        self.rows.as_slice()
    }

    /// The result of the first row with these arguments.
    pub fn result(&self, args: &[i128]) -> Option<i128>
        ensures { result ≡ first_result self.now args.now }
    {
        self.first.get(args).copied()
    }

    /// Rows that are equal to these.
    pub fn copy(&self, alloc: Global) -> Result<Rows, AllocError>
        ensures { IfOk result (λ r. r ≡ self.now) }
    {
        let mut rows = Vec::with_capacity(alloc, self.rows.len())?;
        for row in &self.rows {
            rows.push(row.copy(alloc)?)?;
        }
        Rows::new(alloc, rows)
    }
}
