// What is computed with pointers.
ghost use Rattle.std.specs.Prelude.{◌≡◌, ◌&&◌, nat_eq, pos};
ghost use Rattle.runs.specs.Pointers.{are_equal, cell_at as cell_pointed_at, compared as compared_targets, difference as difference_of, directed, if_ok, indices_of, moved as moved_target, moved_index, up_to as up_to_count};
ghost use Rattle.block_memory.specs.Blocks.{is_same_name as are_same};
ghost use Rattle.pt_core.specs.Values.{at_span, pointed, target_of};
ghost use Rattle.core_code.specs.Answers.{IsAnswer};
ghost use Rattle.core_code.specs.Code.{behind as behind_of};

use crate::cells::is_same_name;
use crate::fault::Fault;
use block_memory::{BlockName, Cell, CellAt, Pointer};
use pt_base::{Span, Trap};
use pt_int::BinOp;

/// The pointer moved by an amount, downwards where `back` holds (C99 6.5.6p8).
pub fn moved(span: Span, back: bool, amount: i128, cell: Cell) -> Result<Cell, Fault>
    ensures { IsAnswer result (pointed (at_span span (moved_target (directed back amount) (target_of cell)))) }
{
    match cell {
        Cell::Int(_) | Cell::Ptr(Pointer::Null) | Cell::Sealed(_) => {
            Err(Fault::Trapped(Trap::Null, span))
        }
        Cell::Ptr(
            Pointer::At {
                block,
                base,
                count,
                index,
            },
        ) => match index_after(count, index, back, amount) {
            Some(index) => Ok(Cell::Ptr(Pointer::At {
                block,
                base,
                count,
                index,
            })),
            None => Err(Fault::Trapped(Trap::PtrRange, span)),
        },
    }
}

/// So many cells behind where a pointer points whose elements have so many cells (C99 6.5.3.2p4).
pub fn behind(span: Span, size: Option<u64>, offset: u32, cell: Cell) -> Result<CellAt, Fault>
    ensures { IsAnswer result (behind_of size offset span cell) }
{
    let Some(size) = size else {
        return Ok(CellAt {
            block: BlockName::Global(0),
            cell: offset,
        });
    };
    match cell {
        Cell::Int(_) | Cell::Ptr(Pointer::Null) | Cell::Sealed(_) => {
            Err(Fault::Trapped(Trap::Null, span))
        }
        Cell::Ptr(
            Pointer::At {
                block,
                base,
                count,
                index,
            },
        ) => {
            if index < count {
                let cell = u128::from(base) + u128::from(index) * u128::from(size);
                match u32::try_from(cell + u128::from(offset)) {
                    Ok(cell) => Ok(CellAt { block, cell }),
                    Err(_) => Err(Fault::Memory),
                }
            } else {
                Err(Fault::Trapped(Trap::Bounds, span))
            }
        }
    }
}

/// A comparison of pointers to elements of so many cells.
///
/// Errors: PtrCompare where they are ordered and aren't into one array (C99 6.5.8p5).
pub fn compared(op: BinOp, size: u64, a: Cell, b: Cell) -> Result<bool, Trap>
    ensures { result ≡ compared_targets are_same op size (target_of a) (target_of b) }
{
    let holds = match op {
        BinOp::Eq => are_one(size, a, b),
        BinOp::Ne => !are_one(size, a, b),
        BinOp::Lt => {
            let (i, j) = indices(a, b)?;
            i < j
        }
        BinOp::Gt => {
            let (i, j) = indices(a, b)?;
            j < i
        }
        BinOp::Le => {
            let (i, j) = indices(a, b)?;
            i <= j
        }
        BinOp::Ge => {
            let (i, j) = indices(a, b)?;
            j <= i
        }
        _ => false,
    };
    Ok(holds)
}

/// How many elements the first is past the second (C99 6.5.6p9).
pub fn difference(a: Cell, b: Cell) -> Result<i128, Trap>
    ensures { result ≡ difference_of are_same (target_of a) (target_of b) }
{
    let (i, j) = indices(a, b)?;
    Ok(i128::from(i) - i128::from(j))
}

// Whether two pointers are equal: both null, or both to one cell of one block (C99 6.5.9p6). What is
// no pointer counts as null.
fn are_one(size: u64, a: Cell, b: Cell) -> bool
    ensures { result ≡ are_equal are_same size (target_of a) (target_of b) }
{
    match (a, b) {
        (
            Cell::Ptr(
                Pointer::At {
                    block,
                    base,
                    count: _,
                    index,
                },
            ),
            Cell::Ptr(
                Pointer::At {
                    block: other_block,
                    base: other_base,
                    count: _,
                    index: other_index,
                },
            ),
        ) => {
            is_same_name(block, other_block)
                && cell_pointed(size, base, index) == cell_pointed(size, other_base, other_index)
        }
        (Cell::Ptr(Pointer::At { .. }), _) | (_, Cell::Ptr(Pointer::At { .. })) => false,
        _ => true,
    }
}

// The indices of two pointers into one array.
fn indices(a: Cell, b: Cell) -> Result<(u32, u32), Trap>
    ensures { if_ok result (λ p. (pos p.0, pos p.1)) ≡ indices_of are_same (target_of a) (target_of b) }
{
    match (a, b) {
        (
            Cell::Ptr(
                Pointer::At {
                    block,
                    base,
                    count,
                    index,
                },
            ),
            Cell::Ptr(
                Pointer::At {
                    block: other_block,
                    base: other_base,
                    count: other_count,
                    index: other_index,
                },
            ),
        ) => {
            if is_same_name(block, other_block) && base == other_base && count == other_count {
                Ok((index, other_index))
            } else {
                Err(Trap::PtrCompare)
            }
        }
        _ => Err(Trap::PtrCompare),
    }
}

// The cell that a pointer points to.
fn cell_pointed(size: u64, base: u32, index: u32) -> u128
    ensures { result ≡ cell_pointed_at size base index }
{
    u128::from(base) + u128::from(index) * u128::from(size)
}

// The index moved by an amount, as far as one past the last element.
fn index_after(count: u32, index: u32, back: bool, amount: i128) -> Option<u32>
    ensures { result ≡ moved_index count index (directed back amount) }
{
    let start = i128::from(index);
    let end = if back {
        start.checked_sub(amount)
    } else {
        start.checked_add(amount)
    };
    match end {
        Some(end) => up_to(count, end),
        None => None,
    }
}

// `n`, where it is from 0 to the count.
fn up_to(count: u32, n: i128) -> Option<u32>
    ensures { result ≡ up_to_count count n }
{
    if 0 <= n && n <= i128::from(count) {
        Some(n as u32)
    } else {
        None
    }
}
