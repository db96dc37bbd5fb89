// The numbers that values stand for.
ghost use Rattle.std.specs.Prelude.{◌≡◌};
ghost use Rattle.pt_core.specs.CoreRun.{status_of};
ghost use Rattle.pt_core.specs.Values.{number_in};

use block_memory::Cell;
use pt_base::IntType;
use pt_int::convert;

/// The number that a cell stands for: 0 for a pointer or a handle.
pub fn number(cell: Cell) -> i128
    ensures { result ≡ number_in cell }
{
    match cell {
        Cell::Int(number) => number,
        Cell::Ptr(_) | Cell::Sealed(_) => 0,
    }
}

/// What main gives, as an int.
pub fn status(value: Option<Cell>) -> i32
    ensures { result ≡ status_of value }
{
    match value {
        Some(cell) => convert(number(cell), IntType::Int) as i32,
        None => 0,
    }
}
