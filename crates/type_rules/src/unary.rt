// What an operator does with one operand.
#![tactic(auto, unfolding(crate::specs::Operators::promoted_rule, crate::specs::Operators::not_rule, crate::specs::Operators::step_rule, crate::specs::Operators::deref_rule))]

ghost use Rattle.std.specs.Prelude.{◌≡◌};
ghost use Rattle.type_rules.specs.Operators as is;

use crate::types::{Type, elem_type};
use pt_base::IntType;
use pt_int::promote;

/// What an operator does with one operand.
#[derive(Clone, Copy)]
pub enum UnaryRule {
    /// The operand is of type Bad, which is no fault of the operator.
    Unknown,
    /// A fault: the operand is of a wrong type.
    Wrong,
    /// The result has this type.
    Gives(Type),
}

/// What `+`, `-` and `~` do with a value of this type: an integer is promoted (C99 6.5.3.3).
pub fn promoted_rule(ty: Type) -> UnaryRule
    ensures { result ≡ is.promoted_rule ty }
{
    match ty {
        Type::Bad => UnaryRule::Unknown,
        Type::Int(t) => UnaryRule::Gives(Type::Int(promote(t))),
        _ => UnaryRule::Wrong,
    }
}

/// What `!` does with a value of this type: of an integer or a pointer it gives an `int`
/// (C99 6.5.3.3p5).
pub fn not_rule(ty: Type) -> UnaryRule
    ensures { result ≡ is.not_rule ty }
{
    match ty {
        Type::Bad => UnaryRule::Unknown,
        Type::Int(_) | Type::Pointer { .. } => UnaryRule::Gives(Type::Int(IntType::Int)),
        _ => UnaryRule::Wrong,
    }
}

/// What `++` and `--`, before or behind it, do with an object of this type: it is an integer or a
/// pointer (C99 6.5.2.4, 6.5.3.1).
pub fn step_rule(ty: Type) -> UnaryRule
    ensures { result ≡ is.step_rule ty }
{
    match ty {
        Type::Bad => UnaryRule::Unknown,
        Type::Int(_) | Type::Pointer { .. } => UnaryRule::Gives(ty),
        _ => UnaryRule::Wrong,
    }
}

/// What `*` and `->` do with a value of this type: of a pointer they give its pointee
/// (C99 6.5.3.2p2, 6.5.2.3p2).
pub fn deref_rule(ty: Type) -> UnaryRule
    ensures { result ≡ is.deref_rule ty }
{
    match ty {
        Type::Bad => UnaryRule::Unknown,
        Type::Pointer { elem, .. } => UnaryRule::Gives(elem_type(elem)),
        _ => UnaryRule::Wrong,
    }
}
