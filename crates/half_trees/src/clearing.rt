// Variables that are cleared, an assignment for each integer in them.
ghost use Rattle.std.specs.Prelude.{◌≡◌, ◌≤◌, ◌<◌, ◌++◌, ◌∷◌, [], IfOk, OnOk, length, map};
ghost use Rattle.pt_tree.specs.ExpressionTree.{view_expr, view_postfix};
ghost use Rattle.pt_tree.specs.StatementTree.{view_stmt};
ghost use Rattle.half_trees.specs.Clearing as clearing;
ghost use Rattle.half_trees.specs.Leaves.{leaves_of};
ghost use Rattle.half_trees.specs.Statements as statements;

use crate::constants::{number, zero_tree};
use crate::declarations::fields_of;
use crate::names::{NOWHERE, field_name, local_name, word};
use crate::postfixes::postfixed;
use crate::step::Step;
use pt_base::IntType;
use pt_tree::{Elem, Expr, Postfix, Stmt};
use std::alloc::{AllocError, Global};
use typed_tree::{StructInfo, VarTy};

/// Appends an assignment.
pub(crate) fn push_store(
    alloc: Global,
    to: Expr,
    value: Expr,
    out: &mut Vec<Stmt>,
) -> Result<(), AllocError>
    ensures { OnOk result (map view_stmt out.new.items ≡ map view_stmt out.old.items ++ statements.evaluated (statements.stored (view_expr to) (view_expr value)) ∷ []) }
{
    let stored = Expr::assigned(alloc, NOWHERE, None, to, value)?;
    out.push(Stmt::Expr(NOWHERE, stored))?;
    Ok(())
}

/// A variable.
pub(crate) fn variable(alloc: Global, v: u32) -> Result<Expr, AllocError>
    ensures { IfOk result (λ e. view_expr e ≡ statements.variable v) }
{
    Ok(Expr::Name(word(local_name(alloc, v as usize)?)))
}

// A step as what stands behind an operand.
fn postfix_of(alloc: Global, structs: &[StructInfo], step: Step) -> Result<Postfix, AllocError>
    ensures { IfOk result (λ p. view_postfix p ≡ clearing.step structs.now step) }
{
    match step {
        Step::Field { structure, field } => {
            let fields = fields_of(structs, structure as usize);
            let name = field_name(alloc, fields, field)?;
            Ok(Postfix::Field(NOWHERE, word(name)))
        }
        Step::Element(n) => Ok(Postfix::Index(NOWHERE, number(IntType::Int, n))),
    }
}

// Steps as what stands behind an operand.
fn postfixes_of(
    alloc: Global,
    structs: &[StructInfo],
    path: &[Step],
) -> Result<Vec<Postfix>, AllocError>
    ensures { IfOk result (λ v. map view_postfix v.items ≡ clearing.steps structs.now path.now) }
{
    let mut postfixes = Vec::with_capacity(alloc, path.len())?;
    for step in path {
        postfixes.push(postfix_of(alloc, structs, *step)?)?;
    }
    Ok(postfixes)
}

// The steps and one more.
fn with_step(alloc: Global, path: &[Step], step: Step) -> Result<Vec<Step>, AllocError>
    ensures { IfOk result (λ v. v.items ≡ path.now ++ step ∷ []) }
{
    let mut longer = Vec::from_slice(alloc, path)?;
    longer.push(step)?;
    Ok(longer)
}

// Appends 0 in the integer to which the steps lead.
fn clear_integer(
    alloc: Global,
    structs: &[StructInfo],
    v: u32,
    path: &[Step],
    out: &mut Vec<Stmt>,
) -> Result<(), AllocError>
    ensures { OnOk result (map view_stmt out.new.items ≡ map view_stmt out.old.items ++ clearing.zeroed v (clearing.steps structs.now path.now) ∷ []) }
{
    let postfixes = postfixes_of(alloc, structs, path)?;
    let to = postfixed(alloc, variable(alloc, v)?, postfixes)?;
    push_store(alloc, to, zero_tree(), out)
}

// Appends 0 in each integer of an object of this type, whose structs are below this number.
#[cycle(objects)]
fn clear_object(
    alloc: Global,
    structs: &[StructInfo],
    below: usize,
    ty: VarTy,
    v: u32,
    path: &[Step],
    out: &mut Vec<Stmt>,
) -> Result<(), AllocError>
    requires { below ≤ length structs.now }
    ensures { OnOk result (map view_stmt out.new.items ≡ map view_stmt out.old.items ++ clearing.cleared_behind v (clearing.steps structs.now path.now) (clearing.object_below structs.now below ty)) }
{
    match ty {
        VarTy::Int(_) => clear_integer(alloc, structs, v, path, out),
        VarTy::Struct(n) => clear_element(alloc, structs, below, Elem::Struct(n), v, path, out),
        VarTy::Array { elem, count } => {
            for n in 0..count {
                let inner = with_step(alloc, path, Step::Element(n))?;
                clear_element(alloc, structs, below, elem, v, &inner, out)?;
            }
            Ok(())
        }
        VarTy::Pointer { .. } => Ok(()),
    }
}

// The same of an element.
#[cycle(objects)]
fn clear_element(
    alloc: Global,
    structs: &[StructInfo],
    below: usize,
    elem: Elem,
    v: u32,
    path: &[Step],
    out: &mut Vec<Stmt>,
) -> Result<(), AllocError>
    requires { below ≤ length structs.now }
    ensures { OnOk result (map view_stmt out.new.items ≡ map view_stmt out.old.items ++ clearing.cleared_behind v (clearing.steps structs.now path.now) (clearing.element_below structs.now below elem)) }
{
    match elem {
        Elem::Int(_) => clear_integer(alloc, structs, v, path, out),
        Elem::Struct(n) => {
            if (n as usize) < below {
                clear_struct(alloc, structs, n, v, path, out)
            } else {
                Ok(())
            }
        }
    }
}

// The same of a struct.
#[cycle(objects)]
fn clear_struct(
    alloc: Global,
    structs: &[StructInfo],
    n: u32,
    v: u32,
    path: &[Step],
    out: &mut Vec<Stmt>,
) -> Result<(), AllocError>
    requires { n < length structs.now }
    ensures { OnOk result (map view_stmt out.new.items ≡ map view_stmt out.old.items ++ clearing.cleared_behind v (clearing.steps structs.now path.now) (clearing.struct_at structs.now n)) }
{
    let fields = fields_of(structs, n as usize);
    for k in 0..fields.len() {
        let step = Step::Field {
            structure: n,
            field: k,
        };
        let inner = with_step(alloc, path, step)?;
        clear_object(alloc, structs, n as usize, fields[k].ty, v, &inner, out)?;
    }
    Ok(())
}

// Appends 0 in each integer of a variable.
fn clear_integers(
    alloc: Global,
    structs: &[StructInfo],
    ty: VarTy,
    v: u32,
    out: &mut Vec<Stmt>,
) -> Result<(), AllocError>
    ensures { OnOk result (map view_stmt out.new.items ≡ map view_stmt out.old.items ++ clearing.cleared_behind v [] (leaves_of structs.now ty)) }
{
    clear_object(alloc, structs, structs.len(), ty, v, &[], out)
}

/// Appends 0 in each integer of a variable, or in the pointer that it is.
pub(crate) fn push_cleared(
    alloc: Global,
    structs: &[StructInfo],
    ty: VarTy,
    v: u32,
    out: &mut Vec<Stmt>,
) -> Result<(), AllocError>
    ensures { OnOk result (map view_stmt out.new.items ≡ map view_stmt out.old.items ++ statements.cleared structs.now ty (statements.variable v)) }
{
    match ty {
        VarTy::Pointer { .. } => push_store(alloc, variable(alloc, v)?, zero_tree(), out),
        VarTy::Int(_) => clear_integers(alloc, structs, ty, v, out),
        VarTy::Struct(_) => clear_integers(alloc, structs, ty, v, out),
        VarTy::Array { .. } => clear_integers(alloc, structs, ty, v, out),
    }
}
