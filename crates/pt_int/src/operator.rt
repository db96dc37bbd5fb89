// The operators on integers.

/// An operator of two integers.
#[derive(Clone, Copy, Debug, PartialEq, Eq)]
pub enum BinOp {
    /// `*`
    Mul,
    /// `/`
    Div,
    /// `%`
    Rem,
    /// `+`
    Add,
    /// `-`
    Sub,
    /// `<<`
    Shl,
    /// `>>`
    Shr,
    /// `<`
    Lt,
    /// `>`
    Gt,
    /// `<=`
    Le,
    /// `>=`
    Ge,
    /// `==`
    Eq,
    /// `!=`
    Ne,
    /// `&`
    And,
    /// `^`
    Xor,
    /// `|`
    Or,
}

impl BinOp {
    ghost use Rattle.std.specs.Prelude.{◌≡◌};
    ghost use Rattle.pt_int.specs.Operator.{is_shift};

    /// Whether this is `<<` or `>>`, whose right operand has a type of its own.
    pub fn is_shift(self) -> bool
        ensures { result ≡ is_shift self }
    {
        matches!(self, BinOp::Shl | BinOp::Shr)
    }
}

/// An operator of one integer.
#[derive(Clone, Copy, Debug, PartialEq, Eq)]
pub enum UnOp {
    /// `-`
    Minus,
    /// `+`
    Plus,
    /// `~`
    Flip,
    /// `!`
    Not,
}
