// Globals.
use pt_base::GlobalId;
use typed_tree::{Cells, Var};

/// A global with the values that it starts with.
pub struct GlobalVar {
    pub id: GlobalId,
    pub var: Var,
    pub cells: Cells,
}

impl Drop for GlobalVar {
    fn drop(self) {
        let GlobalVar {
            id: _,
            var: _var,
            cells: _cells,
        } = self;
    }
}
