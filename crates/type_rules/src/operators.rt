// What an operator does with two operands.
#![tactic(auto, unfolding(crate::specs::Operators::binary_rule, crate::specs::Operators::index_rule))]

ghost use Rattle.std.specs.Prelude.{◌≡◌};
ghost use Rattle.type_rules.specs.Operators as is;

use crate::types::{Type, Value, is_same_elem};
use pt_base::IntType;
use pt_int::{promote, usual};
use pt_tree::BinaryOp;

/// What an operator does with two operands.
#[derive(Clone, Copy)]
pub enum Rule {
    /// An operand is of type Bad, which is no fault of the operator.
    Unknown,
    /// A fault: these operands are of a wrong type, one at least.
    Wrong { left: bool, right: bool },
    /// Both are converted to this type, which the result has.
    Arithmetic(IntType),
    /// Both are converted to this type and compared; the result is an `int`.
    Comparison(IntType),
    /// Each is promoted; the left one and the result have this type.
    Shift(IntType),
    /// `&&` or `||`; the result is an `int`.
    Logical,
    /// The left one, a pointer, is moved by the right one, an integer.
    Move,
    /// The right one, a pointer, is moved by the left one, an integer.
    MoveBy,
    /// How many elements a pointer is past another; the result is a `long`.
    Difference,
    /// Two pointers are compared, or one with a null constant; the result is an `int`.
    ComparePointers,
}

/// The fault of operands that don't go together, each of which is possible alone.
pub(crate) const AT_RIGHT: Rule = Rule::Wrong {
    left: false,
    right: true,
};

/// What `left op right` does (C99 6.5.5 to 6.5.14). A wrong operand is one that the operator takes
/// beside no other; where each is possible alone, it is the right one.
pub fn binary_rule(op: BinaryOp, left: Value, right: Value) -> Rule
    ensures { result ≡ is.binary_rule op left right }
{
    judged(
        left.ty.is_bad() || right.ty.is_bad(),
        takes(op, left.ty),
        takes(op, right.ty),
        pair_rule(op, left, right),
    )
}

/// What `left[right]` does (C99 6.5.2.1): a Move or a MoveBy. Of two integers the left one is
/// wrong, of two pointers the right one.
pub fn index_rule(left: Value, right: Value) -> Rule
    ensures { result ≡ is.index_rule left right }
{
    judged(
        left.ty.is_bad() || right.ty.is_bad(),
        left.ty.is_scalar(),
        right.ty.is_scalar(),
        subscript(left.ty, right.ty),
    )
}

/// The type of what the rule gives for these operands; Bad where it gives nothing.
pub fn rule_type(rule: Rule, left: Value, right: Value) -> Type
    ensures { result ≡ is.rule_type rule left right }
{
    match rule {
        Rule::Unknown | Rule::Wrong { .. } => Type::Bad,
        Rule::Arithmetic(t) | Rule::Shift(t) => Type::Int(t),
        Rule::Comparison(_) | Rule::Logical | Rule::ComparePointers => Type::Int(IntType::Int),
        Rule::Move => left.ty,
        Rule::MoveBy => right.ty,
        Rule::Difference => Type::Int(IntType::Long),
    }
}

/// The rule where neither operand is Bad and both are taken, else what is said of those.
fn judged(bad: bool, takes_left: bool, takes_right: bool, rule: Rule) -> Rule
    ensures { result ≡ is.judged bad takes_left takes_right rule }
{
    if bad {
        Rule::Unknown
    } else if takes_left && takes_right {
        rule
    } else {
        Rule::Wrong {
            left: !takes_left,
            right: !takes_right,
        }
    }
}

/// Whether the operator takes an operand of this type, whatever the other one is.
fn takes(op: BinaryOp, ty: Type) -> bool
    ensures { result ≡ is.takes op ty }
{
    match op {
        BinaryOp::Multiply
        | BinaryOp::Divide
        | BinaryOp::Remainder
        | BinaryOp::ShiftLeft
        | BinaryOp::ShiftRight
        | BinaryOp::BitAnd
        | BinaryOp::BitXor
        | BinaryOp::BitOr => ty.is_integer(),
        _ => ty.is_scalar(),
    }
}

/// What the operator does with two operands, each of which it takes.
fn pair_rule(op: BinaryOp, left: Value, right: Value) -> Rule
    ensures { result ≡ is.pair_rule op left right }
{
    match op {
        BinaryOp::Multiply
        | BinaryOp::Divide
        | BinaryOp::Remainder
        | BinaryOp::BitAnd
        | BinaryOp::BitXor
        | BinaryOp::BitOr => arithmetic(left.ty, right.ty),
        BinaryOp::Add => sum(left.ty, right.ty),
        BinaryOp::Subtract => difference(left.ty, right.ty),
        BinaryOp::ShiftLeft | BinaryOp::ShiftRight => shift(left.ty, right.ty),
        BinaryOp::LogicalAnd | BinaryOp::LogicalOr => Rule::Logical,
        _ => comparison(left, right),
    }
}

/// What an operator of integers alone does.
fn arithmetic(left: Type, right: Type) -> Rule
    ensures { result ≡ is.arithmetic left right }
{
    match (left, right) {
        (Type::Int(a), Type::Int(b)) => Rule::Arithmetic(usual(a, b)),
        _ => AT_RIGHT,
    }
}

/// What `<<` and `>>` do.
fn shift(left: Type, right: Type) -> Rule
    ensures { result ≡ is.shift left right }
{
    match (left, right) {
        (Type::Int(a), Type::Int(_)) => Rule::Shift(promote(a)),
        _ => AT_RIGHT,
    }
}

/// What `+` does.
fn sum(left: Type, right: Type) -> Rule
    ensures { result ≡ is.sum left right }
{
    match (left, right) {
        (Type::Int(a), Type::Int(b)) => Rule::Arithmetic(usual(a, b)),
        (Type::Pointer { .. }, Type::Int(_)) => Rule::Move,
        (Type::Int(_), Type::Pointer { .. }) => Rule::MoveBy,
        _ => AT_RIGHT,
    }
}

/// What `-` does.
fn difference(left: Type, right: Type) -> Rule
    ensures { result ≡ is.difference left right }
{
    match (left, right) {
        (Type::Int(a), Type::Int(b)) => Rule::Arithmetic(usual(a, b)),
        (Type::Pointer { .. }, Type::Int(_)) => Rule::Move,
        (Type::Pointer { elem: a, .. }, Type::Pointer { elem: b, .. }) => {
            if is_same_elem(a, b) {
                Rule::Difference
            } else {
                AT_RIGHT
            }
        }
        _ => AT_RIGHT,
    }
}

/// What a comparison does.
fn comparison(left: Value, right: Value) -> Rule
    ensures { result ≡ is.comparison left right }
{
    match (left.ty, right.ty) {
        (Type::Int(a), Type::Int(b)) => Rule::Comparison(usual(a, b)),
        (Type::Pointer { elem: a, .. }, Type::Pointer { elem: b, .. }) => {
            compared(is_same_elem(a, b))
        }
        (Type::Pointer { .. }, Type::Int(_)) => compared(right.null),
        (Type::Int(_), Type::Pointer { .. }) => compared(left.null),
        _ => AT_RIGHT,
    }
}

/// What a comparison of pointers does, that are of one pointee or not.
fn compared(same: bool) -> Rule
    ensures { result ≡ is.pointers same }
{
    if same {
        Rule::ComparePointers
    } else {
        AT_RIGHT
    }
}

/// What a subscript does.
fn subscript(left: Type, right: Type) -> Rule
    ensures { result ≡ is.subscript left right }
{
    match (left, right) {
        (Type::Pointer { .. }, Type::Int(_)) => Rule::Move,
        (Type::Int(_), Type::Pointer { .. }) => Rule::MoveBy,
        (Type::Int(_), Type::Int(_)) => Rule::Wrong {
            left: true,
            right: false,
        },
        _ => AT_RIGHT,
    }
}
