// What a slave says.

/// A number or a handle.
#[derive(Clone, Copy)]
pub enum Cell {
    Number(i128),
    Handle(u64),
}

/// A cell of a block, with its type.
#[derive(Clone, Copy)]
pub struct Typed {
    pub ty: u8,
    pub cell: Cell,
}

/// A pointer into a block.
#[derive(Clone, Copy)]
pub struct Pointer {
    pub block: u64,
    pub base: u64,
    pub count: u64,
    pub index: u64,
}

/// An argument.
#[derive(Clone, Copy)]
pub enum Arg {
    Cell(Cell),
    Null,
    At(Pointer),
}

/// A call.
#[derive(Drop)]
pub struct Call {
    pub function: u64,
    pub depth: u64,
    pub wants: bool,
    pub args: Vec<Arg>,
    pub blocks: Vec<Vec<Typed>>,
}

/// A message, its turns aside.
#[derive(Drop)]
pub enum Said<'a> {
    Call(Call),
    Emit(&'a [u8]),
    /// With the status as an unsigned number.
    Exit(u64),
    Trap { kind: u8, from: u64, to: u64 },
    Park,
}

/// A message.
#[derive(Drop)]
pub struct Message<'a> {
    pub turns: u64,
    pub said: Said<'a>,
}
