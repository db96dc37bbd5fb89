// Which globals are well formed.
ghost use Rattle.std.specs.Prelude.{◌≡◌, map};
ghost use Rattle.std.specs.List.{list_all};
ghost use Rattle.pt_core.specs.CodeTree.{view_global};
ghost use Rattle.pt_core.specs.WellFormed as well;

use crate::candidate::Candidate;
use crate::objects::{cells_fit, is_small};
use crate::structs::is_plain;
use pt_core::GlobalVar;

// The most cells of all globals together.
const MOST_CELLS: usize = 1_048_576;

/// Whether each global is no pointer, has at most 65,536 cells and one number in range for each
/// integer of its type.
pub(crate) fn globals_fit(candidate: &Candidate<'_>, globals: &[GlobalVar]) -> bool
    ensures { result ≡ list_all (well.global_fits candidate.now.boot.now.structs) (map view_global globals.now) }
{
    for global in globals {
        if !global_fits(candidate, global) {
            return false;
        }
    }
    true
}

fn global_fits(candidate: &Candidate<'_>, global: &GlobalVar) -> bool
    ensures { result ≡ well.global_fits candidate.now.boot.now.structs (view_global global.now) }
{
    let ty = global.var.ty;
    is_plain(candidate.boot.structs.as_slice().len(), ty)
        && is_small(candidate, ty)
        && cells_fit(candidate, ty, global.cells.as_slice())
}

/// Whether all globals together have at most 1,048,576 cells.
pub(crate) fn are_small(globals: &[GlobalVar]) -> bool
    ensures { result ≡ well.are_small (map view_global globals.now) }
{
    let mut left = MOST_CELLS;
    for global in globals {
        let cells = global.cells.as_slice().len();
        if cells > left {
            return false;
        }
        left -= cells;
    }
    true
}
