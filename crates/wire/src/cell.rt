// What stands in a cell and what is passed as an argument.

/// A cell as it crosses: a plain number, or the number of a handle that stands for one.
#[derive(Clone, Copy)]
pub enum WireCell {
    /// The number itself.
    Number(i128),
    /// The handle of a number that the monitor keeps.
    Sealed(u64),
}

/// An argument of a call.
#[derive(Clone, Copy)]
pub enum Arg {
    /// A number.
    Number(i128),
    /// The handle of a number that the monitor keeps.
    Sealed(u64),
    /// The null pointer.
    Null,
    /// A pointer into a block of the call: its array begins at cell `base` and has `count` elements,
    /// and it points to the one at `index`.
    At {
        block: u8,
        base: u32,
        count: u32,
        index: u32,
    },
}
