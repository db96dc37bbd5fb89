// The operators of a chain.
use crate::expression::TypedExpr;
use crate::types::VarTy;
use pt_base::{IntType, Span};
use pt_int::BinOp;

/// A step from the value so far, with its right operand.
#[cycle(expressions)]
pub struct TypedLink {
    /// All of the chain up to and with this operand.
    pub span: Span,
    /// The type of what the step gives.
    pub ty: VarTy,
    pub step: LinkStep,
    pub operand: TypedExpr,
}

impl Drop for TypedLink {
    #[cycle(expressions)]
    fn drop(self) {
        let TypedLink {
            span: _,
            ty: _,
            step: _,
            operand: _operand,
        } = self;
    }
}

/// An operand of `&&` or `||` behind the first.
#[cycle(expressions)]
pub struct TypedOperand {
    /// All of the chain up to and with this operand.
    pub span: Span,
    pub operand: TypedExpr,
}

impl Drop for TypedOperand {
    #[cycle(expressions)]
    fn drop(self) {
        let TypedOperand {
            span: _,
            operand: _operand,
        } = self;
    }
}

/// How a value is made from the one so far and an operand.
#[derive(Clone, Copy, Debug, PartialEq, Eq)]
pub enum LinkStep {
    /// An operator but a shift, at this type: the integer so far is converted to it, the operand
    /// has it. The result has it too, or is an int where the operator compares.
    Arithmetic(BinOp, IntType),
    /// `<<`, or `>>` where `left` doesn't hold, of the integer so far at its promoted type; the
    /// operand is of any promoted type.
    Shift { left: bool },
    /// The pointer so far, moved by an integer of any type, downwards where `back` holds.
    Move { back: bool },
    /// The operand, a pointer, moved by the integer so far.
    MoveBy,
    /// The pointer so far minus a pointer (C99 6.5.6p9), a long.
    Difference,
    /// A comparison of the pointer so far with a pointer.
    Compare(BinOp),
}

/// An operator that may leave its right operands out (C99 6.5.13, 6.5.14).
#[derive(Clone, Copy, Debug, PartialEq, Eq)]
pub enum LogicalOp {
    /// `&&`
    And,
    /// `||`
    Or,
}
