// The ways in which a program's run breaks off.

/// Why a run breaks off at an expression, a call or a closing brace.
#[derive(Clone, Copy, Debug, PartialEq, Eq)]
pub enum Trap {
    /// A signed result doesn't fit its type.
    Overflow,
    /// Division by 0, with `/` or `%`.
    DivZero,
    /// A shift by less than 0, or by as many bits as its promoted left operand has, or more.
    Shift,
    /// A pointer past the last element is dereferenced.
    Bounds,
    /// Access through a null pointer, or a move of one.
    Null,
    /// A move would take a pointer out of its array.
    PtrRange,
    /// Pointers that aren't into one array are ordered or subtracted.
    PtrCompare,
    /// A call would go deeper than 200.
    Depth,
    /// The closing brace of a function that owes a result is reached.
    NoReturn,
}

impl Trap {
    ghost use Rattle.std.specs.Prelude.{◌≡◌};
    ghost use Rattle.pt_base.specs.Traps.{trap_name};

    /// Its name, as reports spell it.
    pub fn name(self) -> &'static str
        ensures { result.now ≡ trap_name self }
    {
        match self {
            Trap::Overflow => "Overflow",
            Trap::DivZero => "DivZero",
            Trap::Shift => "Shift",
            Trap::Bounds => "Bounds",
            Trap::Null => "Null",
            Trap::PtrRange => "PtrRange",
            Trap::PtrCompare => "PtrCompare",
            Trap::Depth => "Depth",
            Trap::NoReturn => "NoReturn",
        }
    }
}
