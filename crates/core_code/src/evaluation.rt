// The values of expressions and the cells of places, from code whose types are settled.
//
// A function pays at entry for the room of all its arms. So each kind of expression that needs room
// has a function of its own, which isn't put into its caller.
ghost use Rattle.std.specs.Prelude.{◌≡◌, Ok, true};
ghost use Rattle.block_memory.specs.declared.cell.BlockName.TheVariants as block;
ghost use Rattle.machine_memory.specs.Memory.{blocks_of};
ghost use Rattle.core_code.specs.Answers.{IsAnswer};
ghost use Rattle.core_code.specs.Code.{cell_of, code_value, code_place};
ghost use Rattle.core_code.specs.Kinds.{is_binary, is_compare, is_convert, is_deref, is_diff, is_move, is_unary};
ghost use Rattle.core_code.specs.declared.code.ValueCode.TheVariants as code;

use crate::cells::{cell_at, converted, first, number, number_at, of_one, of_two, truth_at};
use crate::code::{PlaceCode, ValueCode};
use crate::fault::Fault;
use crate::pointers::{behind, compared, difference, moved};
use block_memory::{BlockName, Cell, CellAt, Pointer};
use machine_memory::MachineMemory;

/// The value of an expression of the function that was entered at this depth.
#[cycle(evaluation)]
pub fn value(code: &ValueCode, memory: &MachineMemory, depth: u32) -> Result<Cell, Fault>
    ensures { IsAnswer result (code_value code.now depth (blocks_of memory.now)) }
{
    match code {
        ValueCode::Const { value } => Ok(Cell::Int(*value)),
        ValueCode::Read {
            place: PlaceCode::Local { var, offset },
        } => { value_of_local(*var, *offset, memory, depth) }
        ValueCode::Read {
            place: PlaceCode::Global { number, offset },
        } => { value_of_global(*number, *offset, memory) }
        ValueCode::Read { place } => value_behind(place, memory, depth),
        ValueCode::Unary { .. } => value_of_unary(code, memory, depth),
        ValueCode::Binary { .. } => value_of_binary(code, memory, depth),
        ValueCode::Convert { .. } => value_converted(code, memory, depth),
        ValueCode::Null => Ok(Cell::Ptr(Pointer::Null)),
        ValueCode::Addr { place } => pointer_to(place, Some(1), memory, depth),
        ValueCode::Decay { place, count } => pointer_to(place, *count, memory, depth),
        ValueCode::Move { .. } => pointer_moved(code, memory, depth),
        ValueCode::Compare { .. } => pointers_compared(code, memory, depth),
        ValueCode::Diff { .. } => pointers_apart(code, memory, depth),
    }
}

/// The first cell of an object.
#[cycle(evaluation)]
pub fn location(code: &PlaceCode, memory: &MachineMemory, depth: u32) -> Result<CellAt, Fault>
    ensures { IsAnswer result (code_place code.now depth (blocks_of memory.now)) }
{
    match code {
        PlaceCode::Local { var, offset } => Ok(CellAt {
            block: BlockName::Local { depth, var: *var },
            cell: *offset,
        }),
        PlaceCode::Global { number, offset } => Ok(CellAt {
            block: BlockName::Global(*number),
            cell: *offset,
        }),
        PlaceCode::Deref { .. } => location_behind(code, memory, depth),
    }
}

// The first cell of an object behind a pointer.
#[inline(never)]
#[cycle(evaluation)]
fn location_behind(code: &PlaceCode, memory: &MachineMemory, depth: u32) -> Result<CellAt, Fault>
    requires { is_deref code.now ≡ true }
    ensures { IsAnswer result (code_place code.now depth (blocks_of memory.now)) }
{
    let PlaceCode::Deref {
        pointer,
        size,
        offset,
        span,
    } = code
    else {
        unreachable!()
    };
    let x = value(pointer, memory, depth)?;
    behind(*span, *size, *offset, x)
}

// What stands in a cell of a variable.
#[inline(never)]
fn value_of_local(var: u32, offset: u32, memory: &MachineMemory, depth: u32) -> Result<Cell, Fault>
    ensures { IsAnswer result (Ok (cell_of (blocks_of memory.now) (record { block = block.Local depth var; cell = offset }))) }
{
    let block = BlockName::Local { depth, var };
    let at = CellAt {
        block,
        cell: offset,
    };
    Ok(cell_at(memory, at))
}

// What stands in a cell of a global.
#[inline(never)]
fn value_of_global(number: u32, offset: u32, memory: &MachineMemory) -> Result<Cell, Fault>
    ensures { IsAnswer result (Ok (cell_of (blocks_of memory.now) (record { block = block.Global number; cell = offset }))) }
{
    let block = BlockName::Global(number);
    let at = CellAt {
        block,
        cell: offset,
    };
    Ok(cell_at(memory, at))
}

// What stands in the cell behind a pointer.
#[inline(never)]
#[cycle(evaluation)]
fn value_behind(place: &PlaceCode, memory: &MachineMemory, depth: u32) -> Result<Cell, Fault>
    requires { is_deref place.now ≡ true }
    ensures { IsAnswer result (code_value (code.Read place.now) depth (blocks_of memory.now)) }
{
    let at = location_behind(place, memory, depth)?;
    Ok(cell_at(memory, at))
}

// A pointer to the first of so many elements in a place; null where there is no count.
#[inline(never)]
#[cycle(evaluation)]
fn pointer_to(
    place: &PlaceCode,
    count: Option<u32>,
    memory: &MachineMemory,
    depth: u32,
) -> Result<Cell, Fault>
    ensures { IsAnswer result (code_value (code.Decay place.now count) depth (blocks_of memory.now)) }
{
    let at = location(place, memory, depth)?;
    Ok(first(count, at))
}

// The value of an operator before its operand.
#[inline(never)]
#[cycle(evaluation)]
fn value_of_unary(code: &ValueCode, memory: &MachineMemory, depth: u32) -> Result<Cell, Fault>
    requires { is_unary code.now ≡ true }
    ensures { IsAnswer result (code_value code.now depth (blocks_of memory.now)) }
{
    let ValueCode::Unary { op, ty, a, span } = code else {
        unreachable!()
    };
    let x = value(a, memory, depth)?;
    number_at(*span, of_one(*op, *ty, x))
}

// The value of an operator between two integers.
#[inline(never)]
#[cycle(evaluation)]
fn value_of_binary(code: &ValueCode, memory: &MachineMemory, depth: u32) -> Result<Cell, Fault>
    requires { is_binary code.now ≡ true }
    ensures { IsAnswer result (code_value code.now depth (blocks_of memory.now)) }
{
    let ValueCode::Binary { op, ty, a, b, span } = code else {
        unreachable!()
    };
    let x = value(a, memory, depth)?;
    let y = value(b, memory, depth)?;
    number_at(*span, of_two(*op, *ty, x, y))
}

// A value converted to an integer type.
#[inline(never)]
#[cycle(evaluation)]
fn value_converted(code: &ValueCode, memory: &MachineMemory, depth: u32) -> Result<Cell, Fault>
    requires { is_convert code.now ≡ true }
    ensures { IsAnswer result (code_value code.now depth (blocks_of memory.now)) }
{
    let ValueCode::Convert { same, to, a } = code else {
        unreachable!()
    };
    let x = value(a, memory, depth)?;
    Ok(converted(*same, *to, x))
}

// A pointer moved by a number of elements.
#[inline(never)]
#[cycle(evaluation)]
fn pointer_moved(code: &ValueCode, memory: &MachineMemory, depth: u32) -> Result<Cell, Fault>
    requires { is_move code.now ≡ true }
    ensures { IsAnswer result (code_value code.now depth (blocks_of memory.now)) }
{
    let ValueCode::Move {
        pointer,
        by,
        back,
        span,
    } = code
    else {
        unreachable!()
    };
    let x = value(pointer, memory, depth)?;
    let y = value(by, memory, depth)?;
    moved(*span, *back, number(y), x)
}

// A comparison of pointers, as a number.
#[inline(never)]
#[cycle(evaluation)]
fn pointers_compared(code: &ValueCode, memory: &MachineMemory, depth: u32) -> Result<Cell, Fault>
    requires { is_compare code.now ≡ true }
    ensures { IsAnswer result (code_value code.now depth (blocks_of memory.now)) }
{
    let ValueCode::Compare {
        op,
        size,
        a,
        b,
        span,
    } = code
    else {
        unreachable!()
    };
    let x = value(a, memory, depth)?;
    let y = value(b, memory, depth)?;
    truth_at(*span, compared(*op, *size, x, y))
}

// How many elements one pointer is past another.
#[inline(never)]
#[cycle(evaluation)]
fn pointers_apart(code: &ValueCode, memory: &MachineMemory, depth: u32) -> Result<Cell, Fault>
    requires { is_diff code.now ≡ true }
    ensures { IsAnswer result (code_value code.now depth (blocks_of memory.now)) }
{
    let ValueCode::Diff { a, b, span } = code else {
        unreachable!()
    };
    let x = value(a, memory, depth)?;
    let y = value(b, memory, depth)?;
    number_at(*span, difference(x, y))
}
