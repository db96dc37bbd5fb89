// The objects that the slave's code uses.
ghost use Rattle.std.specs.Prelude.{◌≡◌, ◌++◌, IfOk, OnOk, suc};
ghost use Rattle.std.specs.List.{flat_map};
ghost use Rattle.sides.specs.Placed.{AreSides};
ghost use Rattle.reach.specs.Contexts.{expr_callees};
ghost use Rattle.typed_tree.specs.ExpressionTree.{view_expr};
ghost use Rattle.typed_tree.specs.TypedView.{view_typed};
ghost use Rattle.usages.specs.Lent.{AreUsages};
ghost use Rattle.flow_picture.specs.Kept as kept;
ghost use Rattle.flow_picture.specs.Objects.{AreNodes, IsObject};

use crate::functions::has_result;
use crate::node::Node;
use crate::order::arrange_nodes;
use pt_base::{FnId, GlobalId};
use reach::function_at;
use sides::Sides;
use std::alloc::{AllocError, Global};
use typed_tree::{Form, Typed, TypedExpr, Var};
use usages::Usages;

// the number behind one; want of memory where 32 bits don't hold it
fn next(number: u32) -> Result<u32, AllocError>
    ensures { IfOk result (λ n. n ≡ suc number) }
{
    match number.checked_add(1) {
        Some(next) => Ok(next),
        None => Err(AllocError),
    }
}

// appends globals
fn push_globals(owned: &[GlobalId], nodes: &mut Vec<Node>) -> Result<(), AllocError>
    ensures { OnOk result (nodes.new.items ≡ nodes.old.items ++ kept.global_nodes owned.now) }
{
    for global in owned {
        nodes.push(Node::Global(global.0))?;
    }
    Ok(())
}

// appends the variables of a function
fn push_variables(function: u32, vars: &[Var], nodes: &mut Vec<Node>) -> Result<(), AllocError>
    ensures { OnOk result (nodes.new.items ≡ nodes.old.items ++ kept.variables_from function 0 vars.now) }
{
    let mut var: u32 = 0;
    for _variable in vars {
        nodes.push(Node::Variable { function, var })?;
        var = next(var)?;
    }
    Ok(())
}

// appends those of the function of this number
fn push_vars_of(t: &Typed, f: FnId, nodes: &mut Vec<Node>) -> Result<(), AllocError>
    ensures { OnOk result (nodes.new.items ≡ nodes.old.items ++ kept.variables_from f.0 0 (kept.vars_of (view_typed t.now) f)) }
{
    match function_at(t, f) {
        Some(function) => push_variables(f.0, function.vars.as_slice(), nodes),
        None => Ok(()),
    }
}

// appends what a function or host returns, if it has a node
fn push_result(t: &Typed, f: FnId, nodes: &mut Vec<Node>) -> Result<(), AllocError>
    ensures { OnOk result (nodes.new.items ≡ nodes.old.items ++ kept.result_nodes (view_typed t.now) f) }
{
    if has_result(t, f) {
        nodes.push(Node::Result(f.0))?;
    }
    Ok(())
}

// appends what the function returns that an expression calls itself
fn push_callee(t: &Typed, e: &TypedExpr, nodes: &mut Vec<Node>) -> Result<(), AllocError>
    ensures { OnOk result (nodes.new.items ≡ nodes.old.items ++ flat_map (kept.result_nodes (view_typed t.now)) (expr_callees (view_expr e.now))) }
{
    if let Form::Call(callee, _) = &e.form {
        push_result(t, *callee, nodes)?;
    }
    Ok(())
}

// appends what functions and hosts return that the body of a function calls
fn push_callees(
    t: &Typed,
    usages: &Usages<'_>,
    f: FnId,
    nodes: &mut Vec<Node>,
) -> Result<(), AllocError>
    requires used { AreUsages (view_typed t.now) usages.now }
    ensures { OnOk result (nodes.new.items ≡ nodes.old.items ++ kept.callee_nodes (view_typed t.now) f) }
{
    let list = usages.of(t, f);
    for usage in list {
        push_callee(t, usage.value, nodes)?;
    }
    Ok(())
}

// appends the objects that a function of the slave adds
fn push_function(
    t: &Typed,
    usages: &Usages<'_>,
    f: FnId,
    nodes: &mut Vec<Node>,
) -> Result<(), AllocError>
    requires used { AreUsages (view_typed t.now) usages.now }
    ensures { OnOk result (nodes.new.items ≡ nodes.old.items ++ kept.function_nodes (view_typed t.now) f) }
{
    push_vars_of(t, f, nodes)?;
    push_result(t, f, nodes)?;
    push_callees(t, usages, f, nodes)
}

// the objects that these functions use, with these globals, as they stand
fn object_nodes(
    alloc: Global,
    t: &Typed,
    usages: &Usages<'_>,
    owned: &[GlobalId],
    slave: &[FnId],
) -> Result<Vec<Node>, AllocError>
    requires used { AreUsages (view_typed t.now) usages.now }
    ensures { IfOk result (λ v. v.items ≡ kept.object_nodes (view_typed t.now) owned.now slave.now) }
{
    let mut nodes = Vec::new(alloc);
    push_globals(owned, &mut nodes)?;
    for f in slave {
        push_function(t, usages, *f, &mut nodes)?;
    }
    Ok(nodes)
}

/// All objects that the slave's code uses, but for what is returned that has no node.
pub(crate) fn objects_of(
    alloc: Global,
    t: &Typed,
    usages: &Usages<'_>,
    sides: &Sides,
) -> Result<Vec<Node>, AllocError>
    requires used { AreUsages (view_typed t.now) usages.now }
    requires sides { AreSides (view_typed t.now) sides.now }
    ensures { IfOk result (λ v. AreNodes (IsObject (view_typed t.now)) v.items) }
{
    let owned = sides.owned.as_slice();
    let slave = sides.slave.as_slice();
    let mut nodes = object_nodes(alloc, t, usages, owned, slave)?;
    arrange_nodes(&mut nodes);
    Ok(nodes)
}
