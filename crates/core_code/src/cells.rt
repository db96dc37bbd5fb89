// What is computed with cells.
ghost use Rattle.std.specs.Prelude.{◌≡◌, ◌&&◌, nat_eq};
ghost use Rattle.pt_int.specs.Conversion.{conv};
ghost use Rattle.pt_int.specs.Operator.{binary_of, unary_of};
ghost use Rattle.block_memory.specs.Blocks.{is_same_name as are_same};
ghost use Rattle.machine_memory.specs.Memory.{blocks_of};
ghost use Rattle.pt_core.specs.Values.{at_span, converted as converted_cell, number_in, numbered, right_operand, told, unary_operand};
ghost use Rattle.core_code.specs.Answers.{IsAnswer};
ghost use Rattle.core_code.specs.Code.{cell_of, first_of};

use crate::fault::Fault;
use block_memory::{BlockName, Cell, CellAt, Pointer};
use machine_memory::MachineMemory;
use pt_base::{IntType, Span, Trap};
use pt_int::{BinOp, UnOp, binary, convert, unary};

/// The number that a cell stands for where one is wanted: 0 for a pointer or a handle.
#[inline]
pub fn number(cell: Cell) -> i128
    ensures { result ≡ number_in cell }
{
    match cell {
        Cell::Int(v) => v,
        Cell::Ptr(_) | Cell::Sealed(_) => 0,
    }
}

/// A conversion to an integer type; a handle passes one to its own type.
pub fn converted(same: bool, to: IntType, cell: Cell) -> Cell
    ensures { result ≡ converted_cell same to cell }
{
    match cell {
        Cell::Int(v) => Cell::Int(convert(v, to)),
        Cell::Ptr(_) => Cell::Int(0),
        Cell::Sealed(_) => { if same { cell } else { Cell::Int(0) } }
    }
}

/// An operator before its operand.
#[tactic(auto, unfolding(pt_int::specs::Operator::unary_of))]
pub fn of_one(op: UnOp, ty: IntType, a: Cell) -> Result<i128, Trap>
    ensures { result ≡ unary_of op ty (unary_operand op ty a) }
{
    match op {
        UnOp::Not => Ok(i128::from(number(a) == 0)),
        UnOp::Minus => unary(UnOp::Minus, ty, convert(number(a), ty)),
        UnOp::Plus => unary(UnOp::Plus, ty, convert(number(a), ty)),
        UnOp::Flip => unary(UnOp::Flip, ty, convert(number(a), ty)),
    }
}

/// An operator between two integers.
pub fn of_two(op: BinOp, ty: IntType, a: Cell, b: Cell) -> Result<i128, Trap>
    ensures { result ≡ binary_of op ty (conv ty (number_in a)) (right_operand op ty b) }
{
    let left = convert(number(a), ty);
    if op.is_shift() {
        binary(op, ty, left, number(b))
    } else {
        let right = convert(number(b), ty);
        binary(op, ty, left, right)
    }
}

/// Whether both names are one.
pub fn is_same_name(a: BlockName, b: BlockName) -> bool
    ensures { result ≡ are_same a b }
{
    match (a, b) {
        (
            BlockName::Local { depth, var },
            BlockName::Local {
                depth: other_depth,
                var: other_var,
            },
        ) => depth == other_depth && var == other_var,
        (BlockName::Global(g), BlockName::Global(other)) => g == other,
        (BlockName::Received(k), BlockName::Received(other)) => k == other,
        _ => false,
    }
}

/// What stands in a cell; 0 where none is there.
#[inline(always)]
pub fn cell_at(memory: &MachineMemory, at: CellAt) -> Cell
    ensures { result ≡ cell_of (blocks_of memory.now) at }
{
    memory.cell(at)
}

/// An array as a pointer to its first element; null where it is no array.
pub fn first(count: Option<u32>, at: CellAt) -> Cell
    ensures { result ≡ first_of count at }
{
    match count {
        Some(count) => Cell::Ptr(Pointer::At {
            block: at.block,
            base: at.cell,
            count,
            index: 0,
        }),
        None => Cell::Ptr(Pointer::Null),
    }
}

/// A number, or its trap at this place of the text.
#[inline]
pub fn number_at(span: Span, answer: Result<i128, Trap>) -> Result<Cell, Fault>
    ensures { IsAnswer result (numbered (at_span span answer)) }
{
    match answer {
        Ok(v) => Ok(Cell::Int(v)),
        Err(trap) => Err(Fault::Trapped(trap, span)),
    }
}

/// A truth as a number, or its trap at this place of the text.
#[inline]
pub fn truth_at(span: Span, answer: Result<bool, Trap>) -> Result<Cell, Fault>
    ensures { IsAnswer result (told (at_span span answer)) }
{
    match answer {
        Ok(holds) => Ok(Cell::Int(i128::from(holds))),
        Err(trap) => Err(Fault::Trapped(trap, span)),
    }
}
