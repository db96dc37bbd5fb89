// Operators before one operand, and casts (C99 6.5.3, 6.5.4). `s` is the span of the whole, `at` that
// of the operand, whose own faults are there already.
ghost use Rattle.std.specs.Prelude.{◌≡◌, ◌∷◌, [], IfOk, false};
ghost use Rattle.check_declarations.specs.Faults.{fault_at};
ghost use Rattle.typed_tree.specs.ExpressionTree.{chain, link, link_trees, typed, view_expr, view_form};
ghost use Rattle.check_expressions.specs.Gives.{GivesMade};
ghost use Rattle.check_expressions.specs.Operands as o;
ghost use Rattle.check_expressions.specs.Prefixes as is;
ghost use Rattle.check_expressions.specs.Views.{elaboration, known};

use crate::conversions::as_type;
use crate::faults::{note, note_optional, target_fault};
use crate::operand::{Elaborated, Operand, Placed, var_type};
use check_declarations::{FaultKind, Structs, TypeFault};
use pt_base::{IntType, Span};
use pt_int::UnOp;
use pt_tree::{Elem, PrefixOp};
use std::alloc::{AllocError, Global};
use type_rules::{
    CastRule, Type, UnaryRule, cast_rule, deref_rule, not_rule, promoted_rule, step_rule,
};
use typed_tree::{Form, LinkStep, TypedExpr, TypedLink, VarTy};

/// An operator before its operand.
#[tactic(auto, unfolding(crate::specs::Prefixes::prefixed))]
pub(crate) fn prefixed(
    alloc: Global,
    structs: &Structs,
    op: PrefixOp,
    s: Span,
    operand: Placed,
    faults: &mut Vec<TypeFault>,
) -> Result<Operand, AllocError>
    ensures { GivesMade result faults.old.items faults.new.items (is.prefixed structs.now op s operand.span (known operand.operand)) }
{
    match op {
        PrefixOp::AddressOf => addressed(alloc, s, operand, faults),
        PrefixOp::Dereference => dereferenced(alloc, s, operand, faults),
        PrefixOp::Plus => computed(alloc, UnOp::Plus, s, operand, faults),
        PrefixOp::Minus => computed(alloc, UnOp::Minus, s, operand, faults),
        PrefixOp::Complement => computed(alloc, UnOp::Flip, s, operand, faults),
        PrefixOp::Not => computed(alloc, UnOp::Not, s, operand, faults),
        PrefixOp::Increment => {
            let how = Stepping {
                back: false,
                postfix: false,
            };
            stepped(alloc, structs, s, how, operand, faults)
        }
        PrefixOp::Decrement => {
            let how = Stepping {
                back: true,
                postfix: false,
            };
            stepped(alloc, structs, s, how, operand, faults)
        }
    }
}

/// `+`, `-`, `~` or `!`.
#[tactic(auto, unfolding(crate::specs::Prefixes::computed, crate::specs::Prefixes::computed_by))]
fn computed(
    alloc: Global,
    op: UnOp,
    s: Span,
    operand: Placed,
    faults: &mut Vec<TypeFault>,
) -> Result<Operand, AllocError>
    ensures { GivesMade result faults.old.items faults.new.items (is.computed op s operand.span (known operand.operand)) }
{
    let Placed { span: at, operand } = operand;
    match unary_rule(op, operand.value().ty) {
        UnaryRule::Unknown => Ok(operand.forgotten()),
        UnaryRule::Wrong => refuse(operand, faults, FaultKind::WrongType, at),
        UnaryRule::Gives(ty) => {
            let tree = operand.into_tree(alloc, at)?;
            let tree = unary_operand(alloc, op, ty, tree)?;
            let form = Form::unary(alloc, op, tree)?;
            Ok(valued(s, ty, form))
        }
    }
}

/// A value of this type.
pub(crate) fn valued(s: Span, ty: Type, form: Form) -> Operand
    ensures { known result ≡ o.plain ty (typed s (o.var_type ty) (view_form form)) }
{
    Operand::plain(
        ty,
        TypedExpr {
            span: s,
            ty: var_type(ty),
            form,
        },
    )
}

#[tactic(auto, unfolding(crate::specs::Prefixes::unary_rule_of))]
fn unary_rule(op: UnOp, ty: Type) -> UnaryRule
    ensures { result ≡ is.unary_rule_of op ty }
{
    match op {
        UnOp::Minus | UnOp::Plus | UnOp::Flip => promoted_rule(ty),
        UnOp::Not => not_rule(ty),
    }
}

/// The operand of `!` stays as it is, those of the others are promoted.
#[tactic(auto, unfolding(crate::specs::Prefixes::unary_operand))]
fn unary_operand(
    alloc: Global,
    op: UnOp,
    ty: Type,
    tree: TypedExpr,
) -> Result<TypedExpr, AllocError>
    ensures { IfOk result (λ x. view_expr x ≡ is.unary_operand op ty (view_expr tree)) }
{
    match op {
        UnOp::Minus | UnOp::Plus | UnOp::Flip => as_type(alloc, ty, false, tree),
        UnOp::Not => Ok(tree),
    }
}

/// `*`
#[tactic(auto, unfolding(crate::specs::Prefixes::dereferenced, crate::specs::Prefixes::dereferenced_by, crate::specs::Views::elaboration))]
fn dereferenced(
    alloc: Global,
    s: Span,
    operand: Placed,
    faults: &mut Vec<TypeFault>,
) -> Result<Operand, AllocError>
    ensures { GivesMade result faults.old.items faults.new.items (is.dereferenced s operand.span (known operand.operand)) }
{
    let Placed { span: at, operand } = operand;
    let value = operand.value();
    match deref_rule(value.ty) {
        UnaryRule::Unknown => Ok(operand.forgotten()),
        UnaryRule::Wrong => refuse(operand, faults, FaultKind::WrongType, at),
        UnaryRule::Gives(ty) => {
            let pointer = operand.into_tree(alloc, at)?;
            let fixed = points_to_const(value.ty);
            Ok(Operand::designated(ty, fixed, Elaborated::Pointed(pointer, s)))
        }
    }
}

/// Whether a pointer's pointee is const.
#[tactic(auto, unfolding(crate::specs::Prefixes::points_to_const))]
pub(crate) fn points_to_const(ty: Type) -> bool
    ensures { result ≡ is.points_to_const ty }
{
    match ty {
        Type::Pointer { fixed, .. } => fixed,
        Type::Bad | Type::Void | Type::Int(_) | Type::Struct(_) | Type::Array { .. } => false,
    }
}

/// `&`
#[tactic(auto, unfolding(crate::specs::Prefixes::addressed, crate::specs::Prefixes::addressed_as, crate::specs::Prefixes::address_of_pointer))]
fn addressed(
    alloc: Global,
    s: Span,
    operand: Placed,
    faults: &mut Vec<TypeFault>,
) -> Result<Operand, AllocError>
    ensures { GivesMade result faults.old.items faults.new.items (is.addressed s operand.span (known operand.operand)) }
{
    let Placed { span: at, operand } = operand;
    match operand.ty {
        Type::Bad => Ok(operand.forgotten()),
        Type::Void => refuse(operand, faults, FaultKind::NotLvalue, at),
        Type::Int(t) => address_of(alloc, s, at, Elem::Int(t), operand, faults),
        Type::Struct(n) => address_of(alloc, s, at, Elem::Struct(n), operand, faults),
        Type::Array { .. } => refuse(operand, faults, FaultKind::WrongType, at),
        Type::Pointer { .. } => {
            if operand.designates {
                refuse(operand, faults, FaultKind::OutOfProfile, s)
            } else {
                refuse(operand, faults, FaultKind::NotLvalue, at)
            }
        }
    }
}

/// A faulty expression, with one fault of its own.
pub(crate) fn refused(
    faults: &mut Vec<TypeFault>,
    kind: FaultKind,
    at: Span,
) -> Result<Operand, AllocError>
    ensures { GivesMade result faults.old.items faults.new.items (o.refused (fault_at kind at ∷ [])) }
{
    note(faults, kind, at)?;
    Ok(Operand::faulty())
}

/// A faulty expression in place of this one, with one fault of its own.
pub(crate) fn refuse(
    operand: Operand,
    faults: &mut Vec<TypeFault>,
    kind: FaultKind,
    at: Span,
) -> Result<Operand, AllocError>
    ensures { GivesMade result faults.old.items faults.new.items (o.refused (fault_at kind at ∷ [])) }
{
    let faulty = operand.forgotten();
    note(faults, kind, at)?;
    Ok(faulty)
}

/// The address of an object of this type; what designates none has no address.
#[tactic(auto, unfolding(crate::specs::Prefixes::address_of))]
fn address_of(
    alloc: Global,
    s: Span,
    at: Span,
    elem: Elem,
    operand: Operand,
    faults: &mut Vec<TypeFault>,
) -> Result<Operand, AllocError>
    ensures { GivesMade result faults.old.items faults.new.items (is.address_of s at elem (known operand)) }
{
    if !operand.designates {
        return refuse(operand, faults, FaultKind::NotLvalue, at);
    }
    let fixed = operand.fixed;
    let tree = address_tree(alloc, s, elem, fixed, operand.into_elaborated())?;
    Ok(Operand::plain(Type::Pointer { elem, fixed }, tree))
}

/// The address of an object. `&` of `*` gives the pointer back, and `&` of an element the moved
/// pointer (C99 6.5.3.2p3).
#[tactic(auto, unfolding(crate::specs::Prefixes::address_tree, crate::specs::Operands::root_of, crate::specs::Operands::steps_of, crate::specs::Views::elaboration))]
fn address_tree(
    alloc: Global,
    s: Span,
    elem: Elem,
    fixed: bool,
    tree: Elaborated,
) -> Result<TypedExpr, AllocError>
    ensures { IfOk result (λ x. view_expr x ≡ is.address_tree s elem fixed (elaboration tree)) }
{
    let ty = VarTy::Pointer { elem, fixed };
    match tree {
        Elaborated::Value(value) => {
            let place = Elaborated::Value(value).into_place(alloc)?;
            Ok(pointer_value(s, ty, Form::address(place)))
        }
        Elaborated::Place(place) => Ok(pointer_value(s, ty, Form::address(place))),
        Elaborated::Pointed(pointer, _) => Ok(pointer_value(s, ty, Form::convert(alloc, pointer)?)),
        Elaborated::Moved(mut pointer) => {
            pointer.span = s;
            Ok(pointer)
        }
        Elaborated::Item(array, at, index, span) => {
            let first = pointer_value(at, ty, Form::decay(array));
            moved(alloc, s, ty, first, index, span)
        }
    }
}

fn pointer_value(span: Span, ty: VarTy, form: Form) -> TypedExpr
    ensures { view_expr result ≡ typed span (Some ty) (view_form form) }
{
    TypedExpr {
        span,
        ty: Some(ty),
        form,
    }
}

/// A pointer, moved by an index, as one of this type.
fn moved(
    alloc: Global,
    s: Span,
    ty: VarTy,
    pointer: TypedExpr,
    index: TypedExpr,
    span: Span,
) -> Result<TypedExpr, AllocError>
    ensures { IfOk result (λ x. view_expr x ≡ typed s (Some ty) (chain (view_expr pointer) (link_trees (link span ty (LinkStep.Move false) (view_expr index) ∷ [])))) }
{
    let mut links = Vec::with_capacity(alloc, 1)?;
    links.push(TypedLink {
        span,
        ty,
        step: LinkStep::Move { back: false },
        operand: index,
    })?;
    Ok(pointer_value(s, ty, Form::chain(alloc, pointer, links)?))
}

/// Whether it is `--`, and whether it stands behind its operand.
#[derive(Clone, Copy)]
pub(crate) struct Stepping {
    pub back: bool,
    pub postfix: bool,
}

/// `++` or `--`, before its operand or behind it.
#[tactic(auto, unfolding(crate::specs::Prefixes::stepped, crate::specs::Prefixes::stepped_by, crate::specs::Targets::optional_fault))]
pub(crate) fn stepped(
    alloc: Global,
    structs: &Structs,
    s: Span,
    how: Stepping,
    operand: Placed,
    faults: &mut Vec<TypeFault>,
) -> Result<Operand, AllocError>
    ensures { GivesMade result faults.old.items faults.new.items (is.stepped structs.now s how.back how.postfix operand.span (known operand.operand)) }
{
    let Placed { span: at, operand } = operand;
    let target = target_fault(structs, &operand);
    note_optional(faults, target, at)?;
    match step_rule(operand.ty) {
        UnaryRule::Unknown => Ok(Operand::faulty()),
        UnaryRule::Wrong => {
            note(faults, FaultKind::WrongType, at)?;
            Ok(Operand::faulty())
        }
        UnaryRule::Gives(ty) => match target {
            Some(_) => Ok(Operand::faulty()),
            None => {
                let place = operand.into_elaborated().into_place(alloc)?;
                Ok(valued(s, ty, Form::step(place, at, how.back, how.postfix)))
            }
        },
    }
}

/// A cast to what specifiers with this base type say, to a pointer to it where `pointer` holds.
#[tactic(auto, unfolding(crate::specs::Prefixes::cast_to, crate::specs::Prefixes::cast_by, crate::specs::Operands::var_type))]
pub(crate) fn cast_to(
    alloc: Global,
    pointer: bool,
    base: Type,
    s: Span,
    operand: Placed,
    faults: &mut Vec<TypeFault>,
) -> Result<Operand, AllocError>
    ensures { GivesMade result faults.old.items faults.new.items (is.cast_to pointer base s operand.span (known operand.operand)) }
{
    let Placed { span: at, operand } = operand;
    match cast_rule(cast_target(pointer, base), operand.value()) {
        CastRule::Unknown => Ok(operand.forgotten()),
        CastRule::Wrong => refuse(operand, faults, FaultKind::WrongType, at),
        CastRule::OutOfProfile => refuse(operand, faults, FaultKind::OutOfProfile, s),
        CastRule::Converts(t) => {
            let tree = operand.into_tree(alloc, at)?;
            Ok(valued(s, Type::Int(t), Form::convert(alloc, tree)?))
        }
        CastRule::Discards => {
            let tree = operand.into_tree(alloc, at)?;
            Ok(valued(s, Type::Void, Form::discard(alloc, tree)?))
        }
    }
}

/// What a cast goes to. `*` makes a pointer of any base; which one doesn't matter, since no cast goes
/// to a pointer.
#[tactic(auto, unfolding(crate::specs::Prefixes::cast_target))]
fn cast_target(pointer: bool, base: Type) -> Type
    ensures { result ≡ is.cast_target pointer base }
{
    if !pointer {
        return base;
    }
    match base {
        Type::Bad => Type::Bad,
        Type::Void => Type::Pointer {
            elem: Elem::Int(IntType::Char),
            fixed: false,
        },
        Type::Int(t) => Type::Pointer {
            elem: Elem::Int(t),
            fixed: false,
        },
        Type::Struct(n) => Type::Pointer {
            elem: Elem::Struct(n),
            fixed: false,
        },
        Type::Array { elem, .. } => Type::Pointer { elem, fixed: false },
        Type::Pointer { elem, fixed } => Type::Pointer { elem, fixed },
    }
}
