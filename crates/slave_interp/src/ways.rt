// Which way calls go.
ghost use Rattle.std.specs.Prelude.{◌≡◌, List, true};
ghost use Rattle.std.specs.List.{list_any};
ghost use Rattle.block_memory.specs.declared.cell.Cell.{Cell};
ghost use Rattle.pt_core.specs.Steps as steps;
ghost use Rattle.core_machine.specs.Gates.{way_of};
ghost use Rattle.pair_meaning.specs.SlaveRun as s;

use block_memory::Cell;
use core_machine::Way;
use host_models::is_mixed;
use pt_tree::Signature;

/// The way of a call of what has this signature.
pub(crate) fn way_by(signature: &Signature, args: &[Cell]) -> Way
    ensures { way_of result ≡ s.way_by signature.now args.now }
{
    if signature.privileged {
        Way::Away
    } else if !signature.host {
        Way::Enters
    } else if is_mixed(signature) && any_handle(args) {
        Way::Away
    } else {
        Way::Here
    }
}

/// Whether it is a function of the slave.
#[inline(always)]
pub(crate) fn is_own(signature: &Signature) -> bool
    ensures { result ≡ true → (args : List Cell) → s.way_by signature.now args ≡ steps.enters }
{
    !signature.privileged && !signature.host
}

// Whether one of them is a handle.
fn any_handle(args: &[Cell]) -> bool
    ensures { result ≡ list_any s.is_handle args.now }
{
    args.iter().any(|cell| is_handle(*cell))
}

fn is_handle(cell: Cell) -> bool
    ensures { result ≡ s.is_handle cell }
{
    matches!(cell, Cell::Sealed(_))
}
