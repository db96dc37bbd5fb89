// What stands behind operands: the fields of objects and elements of arrays.
ghost use Rattle.std.specs.Prelude.{◌≡◌, ◌++◌, ◌∷◌, [], IfOk, OnOk, ℕ, false, true, get_or, map};
ghost use Rattle.pt_tree.specs.ExpressionTree.{postfix, postfix_trees, view_expr, view_postfix};
ghost use Rattle.pt_core.specs.Types as types;
ghost use Rattle.half_trees.specs.Expressions as trees;
ghost use Rattle.half_trees.specs.Names as names;

use crate::declarations::fields_of;
use crate::names::{NOWHERE, field_name, word};
use pt_base::{IntType, Span};
use pt_tree::{Expr, Postfix, PrefixOp};
use std::alloc::{AllocError, Global};
use typed_tree::{Field, StructInfo, VarTy};

// More postfixes for the parts of an operand with some, of which the operand stays.
fn add_postfixes(
    span: &mut Span,
    operand: &mut Box<Expr>,
    postfixes: &mut Vec<Postfix>,
    more: &mut Vec<Postfix>,
) -> Result<(), AllocError>
    ensures span { span.new ≡ names.nowhere }
    ensures operand { operand.new ≡ operand.old }
    ensures postfixes { OnOk result (postfixes.new.items ≡ postfixes.old.items ++ more.old.items) }
{
    let _operand = operand;
    *span = NOWHERE;
    postfixes.append(more)?;
    Ok(())
}

// The operand's postfixes and more.
fn longer(mut a: Expr, mut more: Vec<Postfix>) -> Result<Expr, AllocError>
    requires { trees.has_postfixes (view_expr a) ≡ true }
    ensures { IfOk result (λ e. view_expr e ≡ trees.extended (view_expr a) (map view_postfix more.items)) }
{
    match &mut a {
        Expr::Postfix(span, operand, postfixes) => {
            add_postfixes(span, operand, postfixes, &mut more)?
        }
        Expr::Name(_)
        | Expr::Constant(_)
        | Expr::Prefix(..)
        | Expr::Cast(..)
        | Expr::Chain(..)
        | Expr::Choice(..)
        | Expr::Assign(..) => unreachable!(),
    }
    Ok(a)
}

/// An operand with what stands behind it, at least one postfix. An operand that has some already is
/// made longer.
pub(crate) fn extended(alloc: Global, a: Expr, more: Vec<Postfix>) -> Result<Expr, AllocError>
    ensures { IfOk result (λ e. view_expr e ≡ trees.extended (view_expr a) (map view_postfix more.items)) }
{
    if matches!(&a, Expr::Postfix(..)) {
        longer(a, more)
    } else {
        Expr::with_postfixes(alloc, NOWHERE, a, more)
    }
}

/// The same, or the operand alone where nothing stands behind it.
pub(crate) fn postfixed(alloc: Global, a: Expr, more: Vec<Postfix>) -> Result<Expr, AllocError>
    ensures { IfOk result (λ e. view_expr e ≡ trees.postfixed (view_expr a) (map view_postfix more.items)) }
{
    if more.is_empty() {
        return Ok(a);
    }
    extended(alloc, a, more)
}

// The fields of an object of this type.
fn fields_in(structs: &[StructInfo], ty: VarTy) -> &[Field]
    ensures { (k : ℕ) → names.field_by result.now k ≡ names.field_name structs.now ty k }
{
    match ty {
        VarTy::Struct(n) => fields_of(structs, n as usize),
        VarTy::Int(_) | VarTy::Array { .. } | VarTy::Pointer { .. } => &[],
    }
}

/// The type of a field of an object of this type.
pub(crate) fn field_type(structs: &[StructInfo], ty: VarTy, k: u32) -> VarTy
    ensures { result ≡ types.field_type structs.now ty k }
{
    match ty {
        VarTy::Struct(n) => type_in(fields_of(structs, n as usize), k),
        VarTy::Int(_) | VarTy::Array { .. } | VarTy::Pointer { .. } => ty,
    }
}

// The type of the field of this number, int where there is none.
fn type_in(fields: &[Field], k: u32) -> VarTy
    ensures { result ≡ (get_or fields.now k (record { name = []; ty = VarTy.Int IntType.Int; marked = false })).ty }
{
    match fields.get(k as usize) {
        Some(field) => field.ty,
        None => VarTy::Int(IntType::Int),
    }
}

/// The type of what a path of fields leads to from an object of this type.
pub(crate) fn path_type(structs: &[StructInfo], ty: VarTy, path: &[u32]) -> VarTy
    ensures { result ≡ types.path_type structs.now ty path.now }
{
    let mut at = ty;
    for k in path {
        at = field_type(structs, at, *k);
    }
    at
}

/// Appends the fields of a path from an object of this type on.
pub(crate) fn push_dots(
    alloc: Global,
    structs: &[StructInfo],
    ty: VarTy,
    path: &[u32],
    postfixes: &mut Vec<Postfix>,
) -> Result<(), AllocError>
    ensures { OnOk result (map view_postfix postfixes.new.items ≡ map view_postfix postfixes.old.items ++ trees.dots structs.now ty path.now) }
{
    let mut at = ty;
    for k in path {
        let name = field_name(alloc, fields_in(structs, at), *k as usize)?;
        postfixes.push(Postfix::Field(NOWHERE, word(name)))?;
        at = field_type(structs, at, *k);
    }
    Ok(())
}

/// The fields of a path from an object of this type on.
pub(crate) fn dots(
    alloc: Global,
    structs: &[StructInfo],
    ty: VarTy,
    path: &[u32],
) -> Result<Vec<Postfix>, AllocError>
    ensures { IfOk result (λ v. map view_postfix v.items ≡ trees.dots structs.now ty path.now) }
{
    let mut postfixes = Vec::new(alloc);
    push_dots(alloc, structs, ty, path, &mut postfixes)?;
    Ok(postfixes)
}

/// What a pointer points to, an object of this type, and the fields of a path from there on.
pub(crate) fn pointed(
    alloc: Global,
    structs: &[StructInfo],
    ty: VarTy,
    a: Expr,
    path: &[u32],
) -> Result<Expr, AllocError>
    ensures { IfOk result (λ e. view_expr e ≡ trees.pointed structs.now ty (view_expr a) path.now) }
{
    match path.split_first() {
        None => Expr::prefixed(alloc, NOWHERE, PrefixOp::Dereference, a),
        Some((k, rest)) => arrow(alloc, structs, ty, a, *k, rest),
    }
}

// A field of what a pointer points to, and the path from there on.
fn arrow(
    alloc: Global,
    structs: &[StructInfo],
    ty: VarTy,
    a: Expr,
    k: u32,
    rest: &[u32],
) -> Result<Expr, AllocError>
    ensures { IfOk result (λ e. view_expr e ≡ trees.pointed structs.now ty (view_expr a) (k ∷ rest.now)) }
{
    let name = field_name(alloc, fields_in(structs, ty), k as usize)?;
    let mut postfixes = Vec::new(alloc);
    postfixes.push(Postfix::Arrow(NOWHERE, word(name)))?;
    push_dots(
        alloc,
        structs,
        field_type(structs, ty, k),
        rest,
        &mut postfixes,
    )?;
    extended(alloc, a, postfixes)
}
