// Handles, the store of the values that they stand for, and blocks of memory.
use anyhow::{Result, bail};
use block_memory::{BlockMemory, BlockName, BlockShape, Cell, CellAt, Pointer};
use case_rows::int_name;
use handle_store::{Names, Store};
use pt_base::{IntType, Listed};
use std::alloc::{AllocError, Global};

/// The first handles that are named.
///
/// # Errors
///
/// Want of memory.
pub fn names(alloc: Global) -> Result<String> {
    let mut names = Names::new();
    let mut told = String::from_str(alloc, "names")?;
    for number in 0..3 {
        if names.count() != number {
            bail!("another count");
        }
        let handle = names.next();
        write!(
            told,
            "\n  handle {}, then {} given",
            handle.number(),
            names.count()
        )?;
    }
    Ok(told)
}

/// A store of two values.
///
/// # Errors
///
/// Want of memory.
pub fn store(alloc: Global) -> Result<String> {
    let mut store = Store::new(alloc);
    let first = store.add(IntType::Char, -128)?;
    let second = store.add(IntType::ULong, 0xffff_ffff_ffff_ffff)?;
    let mut told = String::from_str(alloc, "store")?;
    for number in [first.number(), second.number(), 2] {
        match store.get(number) {
            Some((ty, value)) => write!(told, "\n  handle {number} is {} {value}", int_name(ty))?,
            None => write!(told, "\n  handle {number} is none")?,
        }
    }
    write!(told, "\n  count {}", store.count())?;
    Ok(told)
}

/// Blocks that are entered, written, ended and entered again, and blocks that are put.
///
/// # Errors
///
/// Want of memory.
pub fn memory(alloc: Global) -> Result<String> {
    let mut told = String::from_str(alloc, "memory")?;
    push_frames(alloc, &mut told)?;
    push_puts(alloc, &mut told)?;
    Ok(told)
}

// Variables of a function at depth 7, which is entered twice.
fn push_frames(alloc: Global, told: &mut String) -> Result<(), AllocError> {
    let number = BlockName::Local { depth: 7, var: 0 };
    let pointer = BlockName::Local { depth: 7, var: 1 };
    let ints = Listed::new(Vec::from_slice(alloc, &[IntType::Int, IntType::Char])?);
    let shapes = [BlockShape::Ints(ints), BlockShape::OnePointer];
    let mut memory = BlockMemory::new(alloc);
    memory.enter(7, &shapes)?;
    push_block(told, "entered", &memory, number)?;
    push_block(told, "pointer", &memory, pointer)?;
    let at = CellAt {
        block: number,
        cell: 1,
    };
    if memory.block(number).len() == 2 {
        memory.write(at, Cell::Int(-5));
        push_block(told, "written", &memory, number)?;
        told.push_str("\n  read:")?;
        push_cell(told, &memory.read(at))?;
    }
    memory.leave(7);
    push_block(told, "left", &memory, number)?;
    memory.enter(7, &shapes)?;
    push_block(told, "again", &memory, number)
}

// A global and a block that was received, which is put twice.
fn push_puts(alloc: Global, told: &mut String) -> Result<(), AllocError> {
    let types = [IntType::UChar, IntType::Long];
    let cells = [Cell::Int(1), Cell::Int(2)];
    let mut memory = BlockMemory::new(alloc);
    for name in [BlockName::Global(2), BlockName::Received(0)] {
        memory.put_block(name, &types, &cells)?;
    }
    memory.put_block(BlockName::Received(0), &[IntType::Char], &[Cell::Int(3)])?;
    push_block(told, "received 0", &memory, BlockName::Received(0))?;
    push_block(told, "global 2", &memory, BlockName::Global(2))?;
    push_block(told, "global 1", &memory, BlockName::Global(1))
}

fn push_block(
    told: &mut String,
    title: &str,
    memory: &BlockMemory,
    name: BlockName,
) -> Result<(), AllocError> {
    write!(told, "\n  {title}:")?;
    for cell in memory.block(name) {
        push_cell(told, cell)?;
    }
    let mut before = " of";
    for ty in memory.types(name) {
        write!(told, "{before} {}", int_name(*ty))?;
        before = ",";
    }
    Ok(())
}

fn push_cell(told: &mut String, cell: &Cell) -> Result<(), AllocError> {
    match cell {
        Cell::Int(number) => write!(told, " {number}"),
        Cell::Ptr(Pointer::Null) => told.push_str(" null"),
        Cell::Ptr(Pointer::At { index, .. }) => write!(told, " pointer to {index}"),
        Cell::Sealed(handle) => write!(told, " handle {}", handle.number()),
    }
}
