// What stands for a host: how it answers a call.
use crate::row::Numbers;
use crate::rows::Rows;
use pt_base::Bytes;
use std::alloc::{AllocError, Global};

/// How a host answers its calls.
pub enum HostModel {
    /// By the first row with the call's arguments, else by `other`.
    Table {
        rows: Rows,
        other: i128,
    },
    /// By the values one after the other, whatever the arguments, then by `other` for ever. `next`
    /// is the place of the next one.
    Feed {
        values: Numbers,
        other: i128,
        next: u64,
    },
    /// By the bytes of the input one after the other, then by -1 for ever. `next` is the place of
    /// the next one.
    Input {
        next: u64,
    },
    /// It has no result, and writes a byte for each argument: its low 8 bits.
    Bytes,
    /// It has no result, and writes its name, each argument in decimal with a space before it, and
    /// a line feed.
    Line {
        name: Bytes,
    },
}

impl Drop for HostModel {
    fn drop(self) {
        match self {
            HostModel::Table {
                rows: _rows,
                other: _,
            } => {}
            HostModel::Feed {
                values: _values,
                other: _,
                next: _,
            } => {}
            HostModel::Input { next: _ } => {}
            HostModel::Bytes => {}
            HostModel::Line { name: _name } => {}
        }
    }
}

impl HostModel {
    ghost use Rattle.std.specs.Prelude.{◌≡◌, IfOk};

    /// A model that is equal to this one.
    pub fn copy(&self, alloc: Global) -> Result<HostModel, AllocError>
        ensures { IfOk result (λ m. m ≡ self.now) }
    {
        match self {
            HostModel::Table { rows, other } => Ok(HostModel::Table {
                rows: rows.copy(alloc)?,
                other: *other,
            }),
            HostModel::Feed {
                values,
                other,
                next,
            } => Ok(HostModel::Feed {
                values: values.copy(alloc)?,
                other: *other,
                next: *next,
            }),
            HostModel::Input { next } => Ok(HostModel::Input { next: *next }),
            HostModel::Bytes => Ok(HostModel::Bytes),
            HostModel::Line { name } => Ok(HostModel::Line {
                name: name.copy(alloc)?,
            }),
        }
    }
}
