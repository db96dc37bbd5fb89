// The C trees of expressions and places, made by a loop down their left operands.
ghost use Rattle.std.specs.Prelude.{◌≡◌, ◌<◌, None, Some, IfOk, IfSome, MatchOption, false, if◌then◌else◌, map, option_map};
ghost use Rattle.pt_int.specs.Operator as operator;
ghost use Rattle.pt_tree.specs.declared.operator.BinaryOp.TheVariants as o;
ghost use Rattle.pt_tree.specs.declared.operator.PrefixOp.TheVariants as p;
ghost use Rattle.pt_tree.specs.ExpressionTree as c;
ghost use Rattle.pt_core.specs.declared.expression.Expr.{size-Expr};
ghost use Rattle.pt_core.specs.declared.place.Place.{size-Place};
ghost use Rattle.pt_core.specs.CodeTree.{view_expr, view_place};
ghost use Rattle.pt_core.specs.LeftOperand.{left_of, pointer_in};
ghost use Rattle.pt_core.specs.Types as types;
ghost use Rattle.half_trees.specs.Built as built;
ghost use Rattle.half_trees.specs.Expressions as trees;
ghost use Rattle.half_trees.specs.Names as names;
ghost use Rattle.half_trees.specs.Views.{view_scope};

use crate::built::Built;
use crate::constants::{cast_to, constant_tree, zero_tree};
use crate::half::Scope;
use crate::names::{NOWHERE, global_name, local_name, word};
use crate::operators::{linked, operator_of, prefix_of};
use crate::postfixes::{dots, path_type, pointed, postfixed};
use crate::types::{binary_type, unary_type};
use pt_base::IntType;
use pt_core::{Expr as Code, Place, Root, element_of, pointee_type};
use pt_int::{BinOp, UnOp};
use pt_tree::{BinaryOp, Elem, Expr, PrefixOp};
use std::alloc::{AllocError, Global};
use typed_tree::{StructInfo, VarTy};

// ---- places

// The pointer at which a place begins, where it does.
fn pointer_of(place: &Place) -> Option<&Code>
    ensures is { MatchOption result (pointer_in (view_place place.now) ≡ None) (λ e. pointer_in (view_place place.now) ≡ Some (view_expr e.now)) }
    ensures smaller { IfSome result (λ e. size-Expr e.now < size-Place place.now) }
{
    match &place.root {
        Root::Local(_) | Root::Global(_) => None,
        Root::Deref { pointer, span: _ } => Some(pointer),
    }
}

// An object of this name and type, and the fields of a path from there on.
fn named(
    alloc: Global,
    structs: &[StructInfo],
    ty: VarTy,
    name: Vec<u8>,
    path: &[u32],
) -> Result<Built, AllocError>
    ensures { IfOk result (λ b. built.seen b ≡ (trees.postfixed (c.name (names.word name.items)) (trees.dots structs.now ty path.now), types.path_type structs.now ty path.now)) }
{
    let fields = dots(alloc, structs, ty, path)?;
    let tree = postfixed(alloc, Expr::Name(word(name)), fields)?;
    Ok(Built {
        tree,
        ty: path_type(structs, ty, path),
    })
}

// What a pointer points to, and the fields of a path from there on.
fn through(
    alloc: Global,
    structs: &[StructInfo],
    pointer: Built,
    path: &[u32],
) -> Result<Built, AllocError>
    ensures { IfOk result (λ b. built.seen b ≡ (trees.pointed structs.now (types.pointee_type pointer.ty) (c.view_expr pointer.tree) path.now, types.path_type structs.now (types.pointee_type pointer.ty) path.now)) }
{
    let ty = pointee_type(pointer.ty);
    let tree = pointed(alloc, structs, ty, pointer.tree, path)?;
    Ok(Built {
        tree,
        ty: path_type(structs, ty, path),
    })
}

// A place, by what is built of its pointer.
fn place_on(
    place: &Place,
    alloc: Global,
    scope: &Scope<'_>,
    pointer: Option<Built>,
) -> Result<Built, AllocError>
    requires { option_map built.seen pointer ≡ option_map (built.expression (view_scope scope.now)) (pointer_in (view_place place.now)) }
    ensures { IfOk result (λ b. built.seen b ≡ built.place (view_scope scope.now) (view_place place.now)) }
{
    let structs = scope.half.structs;
    match &place.root {
        Root::Local(v) => {
            let name = local_name(alloc, v.0 as usize)?;
            named(alloc, structs, scope.variable_type(v.0), name, &place.path)
        }
        Root::Global(g) => {
            let name = global_name(alloc, g.0 as usize)?;
            named(alloc, structs, scope.global_type(g.0), name, &place.path)
        }
        Root::Deref { .. } => through(alloc, structs, pointer.unwrap(), &place.path),
    }
}

// ---- operators, by what is built of their operands

// An operator before its operand.
fn prefixed(alloc: Global, op: UnOp, ty: IntType, a: Built) -> Result<Built, AllocError>
    ensures { IfOk result (λ b. built.seen b ≡ (c.prefix names.nowhere (trees.prefix_of op) (c.view_expr a.tree), VarTy.Int (operator.unary_type op ty))) }
{
    Ok(Built {
        tree: Expr::prefixed(alloc, NOWHERE, prefix_of(op), a.tree)?,
        ty: VarTy::Int(unary_type(op, ty)),
    })
}

// An operator between two operands, and the type of what it gives.
fn joined(alloc: Global, op: BinaryOp, ty: VarTy, a: Built, b: Built) -> Result<Built, AllocError>
    ensures { IfOk result (λ x. built.seen x ≡ (trees.linked op (c.view_expr a.tree) (c.view_expr b.tree), ty)) }
{
    Ok(Built {
        tree: linked(alloc, op, a.tree, b.tree)?,
        ty,
    })
}

// A pointer moved by an integer.
fn moved(alloc: Global, a: Built, by: Built, back: bool) -> Result<Built, AllocError>
    ensures { IfOk result (λ x. built.seen x ≡ (trees.linked (if back then o.Subtract else o.Add) (c.view_expr a.tree) (c.view_expr by.tree), a.ty)) }
{
    let op = if back {
        BinaryOp::Subtract
    } else {
        BinaryOp::Add
    };
    let ty = a.ty;
    joined(alloc, op, ty, a, by)
}

// A pointer to an object.
fn addressed(alloc: Global, place: Built) -> Result<Built, AllocError>
    ensures { IfOk result (λ b. built.seen b ≡ (c.prefix names.nowhere p.AddressOf (c.view_expr place.tree), VarTy.Pointer (types.element_of place.ty) false)) }
{
    Ok(Built {
        ty: VarTy::Pointer {
            elem: element_of(place.ty),
            fixed: false,
        },
        tree: Expr::prefixed(alloc, NOWHERE, PrefixOp::AddressOf, place.tree)?,
    })
}

// An array as a pointer to its first element.
fn decayed(place: Built) -> Built
    ensures { built.seen result ≡ (c.view_expr place.tree, VarTy.Pointer (types.element_of place.ty) false) }
{
    Built {
        ty: VarTy::Pointer {
            elem: element_of(place.ty),
            fixed: false,
        },
        tree: place.tree,
    }
}

// A number of a type.
fn number_of(alloc: Global, ty: IntType, value: i128) -> Result<Built, AllocError>
    ensures { IfOk result (λ b. built.seen b ≡ (trees.constant_tree ty value, VarTy.Int ty)) }
{
    Ok(Built {
        tree: constant_tree(alloc, ty, value)?,
        ty: VarTy::Int(ty),
    })
}

// The null pointer.
fn null_of(elem: Elem) -> Built
    ensures { built.seen result ≡ (trees.zero_tree, VarTy.Pointer elem false) }
{
    Built {
        tree: zero_tree(),
        ty: VarTy::Pointer { elem, fixed: false },
    }
}

// An integer, converted.
fn converted(alloc: Global, to: IntType, a: Built) -> Result<Built, AllocError>
    ensures { IfOk result (λ b. built.seen b ≡ (trees.cast_to to (c.view_expr a.tree), VarTy.Int to)) }
{
    Ok(Built {
        tree: cast_to(alloc, to, a.tree)?,
        ty: VarTy::Int(to),
    })
}

// ---- expressions

/// An expression. However long a chain of operators is to the left, it takes no stack.
#[cycle(expressions)]
pub(crate) fn expression(e: &Code, alloc: Global, scope: &Scope<'_>) -> Result<Built, AllocError>
    ensures { IfOk result (λ b. built.seen b ≡ built.expression (view_scope scope.now) (view_expr e.now)) }
{
    let mut above: Vec<&Code> = Vec::new(alloc);
    let mut at = e;
    while let Some(left) = left_operand(at) {
        above.push(at)?;
        at = left;
    }
    let mut whole = built_on(at, alloc, scope, None)?;
    while let Some(next) = above.pop() {
        whole = built_on(next, alloc, scope, Some(whole))?;
    }
    Ok(whole)
}

// The first operand of an expression, or the pointer of its place.
fn left_operand(e: &Code) -> Option<&Code>
    ensures is { MatchOption result (left_of (view_expr e.now) ≡ None) (λ a. left_of (view_expr e.now) ≡ Some (view_expr a.now)) }
    ensures smaller { IfSome result (λ a. size-Expr a.now < size-Expr e.now) }
{
    match e {
        Code::Const { .. } | Code::Null { .. } => None,
        Code::Read { place } | Code::Addr { place } | Code::Decay { place } => pointer_of(place),
        Code::Unary { a, .. } | Code::Convert { a, .. } => Some(a),
        Code::Binary { a, .. } | Code::Compare { a, .. } | Code::Diff { a, .. } => Some(a),
        Code::Move { pointer, .. } => Some(pointer),
    }
}

// An expression, by what is built of its left operand.
#[cycle(expressions)]
fn built_on(
    e: &Code,
    alloc: Global,
    scope: &Scope<'_>,
    left: Option<Built>,
) -> Result<Built, AllocError>
    requires { option_map built.seen left ≡ option_map (built.expression (view_scope scope.now)) (left_of (view_expr e.now)) }
    ensures { IfOk result (λ b. built.seen b ≡ built.expression (view_scope scope.now) (view_expr e.now)) }
{
    match e {
        Code::Const { ty, value } => number_of(alloc, *ty, *value),
        Code::Null { elem } => Ok(null_of(*elem)),
        Code::Read { place } => place_on(place, alloc, scope, left),
        Code::Addr { place } => addressed(alloc, place_on(place, alloc, scope, left)?),
        Code::Decay { place } => Ok(decayed(place_on(place, alloc, scope, left)?)),
        Code::Unary { op, ty, .. } => prefixed(alloc, *op, *ty, left.unwrap()),
        Code::Convert { to, .. } => converted(alloc, *to, left.unwrap()),
        Code::Binary { op, ty, b, .. } => {
            let right = expression(b, alloc, scope)?;
            let ty = VarTy::Int(binary_type(*op, *ty));
            joined(alloc, operator_of(*op), ty, left.unwrap(), right)
        }
        Code::Move { by, back, .. } => {
            let right = expression(by, alloc, scope)?;
            moved(alloc, left.unwrap(), right, *back)
        }
        Code::Compare { op, b, .. } => {
            let right = expression(b, alloc, scope)?;
            joined(
                alloc,
                operator_of(*op),
                VarTy::Int(IntType::Int),
                left.unwrap(),
                right,
            )
        }
        Code::Diff { b, .. } => {
            let right = expression(b, alloc, scope)?;
            joined(
                alloc,
                BinaryOp::Subtract,
                VarTy::Int(IntType::Long),
                left.unwrap(),
                right,
            )
        }
    }
}

/// A place.
pub(crate) fn place(place: &Place, alloc: Global, scope: &Scope<'_>) -> Result<Built, AllocError>
    ensures { IfOk result (λ b. built.seen b ≡ built.place (view_scope scope.now) (view_place place.now)) }
{
    let pointer = match pointer_of(place) {
        Some(pointer) => Some(expression(pointer, alloc, scope)?),
        None => None,
    };
    place_on(place, alloc, scope, pointer)
}
