// What an object takes, the arms of a choice, conditions and casts.
#![tactic(auto, unfolding(crate::specs::Conversions::fit_rule, crate::specs::Conversions::compound_rule, crate::specs::Conversions::choice_rule, crate::specs::Conversions::condition_rule, crate::specs::Conversions::cast_rule))]

ghost use Rattle.std.specs.Prelude.{◌≡◌};
ghost use Rattle.type_rules.specs.Conversions as is;

use crate::operators::{AT_RIGHT, Rule, binary_rule, rule_type};
use crate::types::{Type, Value, is_same_elem};
use pt_base::IntType;
use pt_int::usual;
use pt_tree::BinaryOp;

/// How a value fits an object that it is assigned to, or a parameter or result that it is given as.
#[derive(Clone, Copy)]
pub enum Fit {
    /// One of both is of type Bad, which is no fault here.
    Unknown,
    /// A fault: it doesn't.
    Wrong,
    /// An integer that is converted to this type, which may be its own.
    Converts(IntType),
    /// A pointer to the same pointee, to which const may be added.
    Points,
    /// A null constant that becomes a pointer.
    Null,
    /// A struct that is copied.
    Copies,
}

/// What the two arms of a `?:` give.
#[derive(Clone, Copy)]
pub enum ChoiceRule {
    /// An arm is of type Bad, which is no fault here.
    Unknown,
    /// A fault: the last arm doesn't go with the first one.
    Wrong,
    /// Two structs, of one type or not: out of the profile.
    Structs,
    /// A value of this type.
    Gives(Type),
}

/// How a value serves as a condition.
#[derive(Clone, Copy)]
pub enum ConditionRule {
    /// It is of type Bad, which is no fault here.
    Unknown,
    /// A fault: it has no truth value.
    Wrong,
    /// It has a truth value.
    Good,
}

/// What a cast does.
#[derive(Clone, Copy)]
pub enum CastRule {
    /// The type or the operand's type is Bad, which is no fault here.
    Unknown,
    /// A fault: the operand's type isn't cast to this one.
    Wrong,
    /// A cast to a pointer: out of the profile, whatever is cast.
    OutOfProfile,
    /// An integer is converted to this type.
    Converts(IntType),
    /// The value is dropped: a cast to void.
    Discards,
}

/// How a value fits the type `target` of an object, a parameter or a result (C99 6.5.16.1).
pub fn fit_rule(target: Type, value: Value) -> Fit
    ensures { result ≡ is.fit_rule target value }
{
    match (target, value.ty) {
        (Type::Bad, _) | (_, Type::Bad) => Fit::Unknown,
        (Type::Int(t), Type::Int(_)) => Fit::Converts(t),
        (Type::Pointer { elem, fixed }, Type::Pointer { elem: e, fixed: f }) => {
            if is_same_elem(elem, e) && (fixed || !f) {
                Fit::Points
            } else {
                Fit::Wrong
            }
        }
        (Type::Pointer { .. }, Type::Int(_)) if value.null => Fit::Null,
        (Type::Struct(m), Type::Struct(n)) if m == n => Fit::Copies,
        _ => Fit::Wrong,
    }
}

/// What `x op= value` does with an object x of the type `target`, as `x = x op value` would
/// (C99 6.5.16.2): where the result doesn't fit x, the right operand is wrong.
pub fn compound_rule(op: BinaryOp, target: Type, value: Value) -> Rule
    ensures { result ≡ is.compound_rule op target value }
{
    let object = Value {
        ty: target,
        null: false,
    };
    let rule = binary_rule(op, object, value);
    let outcome = Value {
        ty: rule_type(rule, object, value),
        null: false,
    };
    match fit_rule(target, outcome) {
        Fit::Wrong => AT_RIGHT,
        _ => rule,
    }
}

/// What the arms of a `?:` give (C99 6.5.15). Both are integers, or void, or pointers with the
/// same pointee; or a null constant goes with a pointer.
pub fn choice_rule(first: Value, last: Value) -> ChoiceRule
    ensures { result ≡ is.choice_rule first last }
{
    match (first.ty, last.ty) {
        (Type::Bad, _) | (_, Type::Bad) => ChoiceRule::Unknown,
        (Type::Int(a), Type::Int(b)) => ChoiceRule::Gives(Type::Int(usual(a, b))),
        (Type::Pointer { elem, fixed }, Type::Pointer { elem: e, fixed: f }) => {
            if is_same_elem(elem, e) {
                ChoiceRule::Gives(Type::Pointer {
                    elem,
                    fixed: fixed || f,
                })
            } else {
                ChoiceRule::Wrong
            }
        }
        (Type::Pointer { .. }, Type::Int(_)) if last.null => ChoiceRule::Gives(first.ty),
        (Type::Int(_), Type::Pointer { .. }) if first.null => ChoiceRule::Gives(last.ty),
        (Type::Void, Type::Void) => ChoiceRule::Gives(Type::Void),
        (Type::Struct(_), Type::Struct(_)) => ChoiceRule::Structs,
        _ => ChoiceRule::Wrong,
    }
}

/// Whether the value can decide an `if`, a loop or a `?:`, as integers and pointers can.
pub fn condition_rule(value: Value) -> ConditionRule
    ensures { result ≡ is.condition_rule value }
{
    match value.ty {
        Type::Bad => ConditionRule::Unknown,
        Type::Int(_) | Type::Pointer { .. } => ConditionRule::Good,
        _ => ConditionRule::Wrong,
    }
}

/// What a cast of the value to `target` does (C99 6.5.4): an integer goes to an integer type, and
/// anything to void.
pub fn cast_rule(target: Type, value: Value) -> CastRule
    ensures { result ≡ is.cast_rule target value }
{
    match (target, value.ty) {
        (Type::Bad, _) | (_, Type::Bad) => CastRule::Unknown,
        (Type::Void, _) => CastRule::Discards,
        (Type::Pointer { .. }, _) => CastRule::OutOfProfile,
        (Type::Int(t), Type::Int(_)) => CastRule::Converts(t),
        _ => CastRule::Wrong,
    }
}
