// The results of rows by their arguments.
ghost use Rattle.std.specs.Prelude.{IfOk};
ghost use Rattle.pt_tree.specs.RowIndex.{IsIndexOf};

use crate::row::Row;
use std::alloc::{AllocError, Global};
use std::collections::BTreeMap;

/// The result of the first row with each list of arguments.
pub(crate) fn index_of(alloc: Global, rows: &[Row]) -> Result<BTreeMap<Vec<i128>, i128>, AllocError>
    ensures { IfOk result (λ m. IsIndexOf m.entries rows.now) }
{
    let mut index = BTreeMap::new(alloc);
    let mut at = rows.len();
    while at > 0 {
        at -= 1;
        let row = &rows[at];
        let args = Vec::from_slice(alloc, row.args.as_slice())?;
        index.insert(args, row.result)?;
    }
    Ok(index)
}
