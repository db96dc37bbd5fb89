// The rule on what is sent to privileged functions as it is.
ghost use Rattle.std.specs.Prelude.{◌≡◌, ◌++◌, Some, IfOk, IfSome, IsTrue, OnOk, map, slice_get, slice_index_or};
ghost use Rattle.sides.specs.Carried as carrying;
ghost use Rattle.sides.specs.LeafTables.{named_struct};
ghost use Rattle.sides.specs.Objects.{variable_objects};
ghost use Rattle.sides.specs.ScopeView.{view_scope};
ghost use Rattle.sides.specs.Slots.{no_slot};
ghost use Rattle.typed_tree.specs.ExpressionTree.{view_expr};
ghost use Rattle.typed_tree.specs.TypedView.{view_typed};
ghost use Rattle.typed_tree.specs.WellFormedExpression.{ty_of};
ghost use Rattle.flow_edges.specs.Edges.{span_of};
ghost use Rattle.flow_rules.specs.declared.rule.Rule.TheVariants.{PrivToPlainParam};
ghost use Rattle.flow_rules.specs.Findings.{found};
ghost use Rattle.flow_rules.specs.FlowsView.{view_flows};
ghost use Rattle.flow_rules.specs.Kept.{first_of, kept, secrets_from, unmarked_leaf, unmarked_slots};
ghost use Rattle.flow_rules.specs.Memory.{Knows};
ghost use Rattle.flow_rules.specs.Secrets as is;

use crate::flows::Flows;
use crate::found::Found;
use crate::memo::{Asked, Memo};
use crate::rule::Rule;
use crate::secrets::{add_at, first_secret, secret_from};
use flow_edges::behind;
use pt_base::FnId;
use sides::{Object, Scope, SlotInfo, carried_slots, leaves_like, struct_of};
use std::alloc::{AllocError, Global};
use typed_tree::{TypedExpr, VarTy};

// whether the slot of this number lies under a marked field
fn is_marked(slots: &[SlotInfo], slot: u64) -> bool
    ensures { result ≡ (slice_index_or slots.now slot no_slot).marked }
{
    match slots.get(slot as usize) {
        Some(info) => info.marked,
        None => false,
    }
}

// adds a leaf, where it isn't marked
fn add_unmarked(marked: bool, leaf: u64, leaves: &mut Vec<u64>) -> Result<(), AllocError>
    ensures { OnOk result (leaves.new.items ≡ leaves.old.items ++ unmarked_leaf marked leaf) }
{
    if !marked {
        leaves.push(leaf)?;
    }
    Ok(())
}

// the leaves that lie under no marked field, of so many of an object that begins at this slot
fn unmarked_behind(
    alloc: Global,
    slots: &[SlotInfo],
    start: u64,
    count: u64,
) -> Result<Vec<u64>, AllocError>
    ensures { IfOk result (λ v. v.items ≡ unmarked_slots slots.now start count) }
{
    let mut leaves = Vec::new(alloc);
    for leaf in 0..count {
        let slot = behind(start, leaf)?;
        let marked = is_marked(slots, slot);
        add_unmarked(marked, leaf, &mut leaves)?;
    }
    Ok(leaves)
}

// whether both are the same type
fn is_same(a: VarTy, b: VarTy) -> bool
    ensures { IsTrue result → a ≡ b }
{
    a == b
}

/// The object of this number, None where there is none.
pub(crate) fn object_at(objects: &[Object], number: usize) -> Option<Object>
    ensures { result ≡ slice_get objects.now number }
{
    objects.get(number).copied()
}

// the object of the parameter k of g, if it has this type
fn parameter_like(flows: &Flows<'_>, g: FnId, k: usize, ty: VarTy) -> Option<Object>
    ensures { IfSome result (λ x. (slice_get (variable_objects (view_typed flows.now.t.now) g.0) k ≡ Some x) × (x.ty ≡ ty)) }
{
    let object = object_at(flows.sides.layout.variables_of(flows.t, g), k)?;
    if is_same(object.ty, ty) {
        Some(object)
    } else {
        None
    }
}

// the same leaves, of a type that isn't the parameter's, which no well formed program has
fn unmarked_of(alloc: Global, flows: &Flows<'_>, ty: VarTy) -> Result<Vec<u64>, AllocError>
    ensures { IfOk result (λ v. v.items ≡ is.unmarked_leaves (view_typed flows.now.t.now).structs (Some ty)) }
{
    let structs = flows.t.structs.as_slice();
    let slots = leaves_like(alloc, structs, ty)?;
    let list = slots.as_slice();
    let count = flows.sides.layout.table.count(ty);
    let leaves = unmarked_behind(alloc, list, 0, count)?;
    Ok(leaves)
}

// the leaves of a value of this type, or of what it points to, that lie under no marked field. The slots of
// the parameter k of g tell them, since an argument has its parameter's type.
fn unmarked_like(
    alloc: Global,
    flows: &Flows<'_>,
    g: FnId,
    k: usize,
    ty: VarTy,
) -> Result<Vec<u64>, AllocError>
    ensures { IfOk result (λ v. v.items ≡ is.unmarked_leaves (view_typed flows.now.t.now).structs (Some ty)) }
{
    let Some(object) = parameter_like(flows, g, k, ty) else {
        return unmarked_of(alloc, flows, ty);
    };
    let slots = flows.sides.slots.as_slice();
    let count = flows.sides.layout.table.count(ty);
    let leaves = unmarked_behind(alloc, slots, object.start, count)?;
    Ok(leaves)
}

// the first privileged slot among them, of what begins at this slot
fn secret_like(
    alloc: Global,
    flows: &Flows<'_>,
    g: FnId,
    k: usize,
    ty: VarTy,
    start: u64,
) -> Result<Option<u64>, AllocError>
    ensures { IfOk result (λ s. s ≡ first_of (secrets_from (view_flows flows.now) (is.unmarked_leaves (view_typed flows.now.t.now).structs (Some ty)) start)) }
{
    let leaves = unmarked_like(alloc, flows, g, k, ty)?;
    secret_from(flows, start, leaves.as_slice())
}

// the same of a type that has the leaves of this struct: what was asked of them isn't looked for again
fn secret_in(
    alloc: Global,
    flows: &Flows<'_>,
    g: FnId,
    k: usize,
    ty: VarTy,
    asked: Asked,
    memo: &mut Memo,
) -> Result<Option<u64>, AllocError>
    requires memo { Knows (view_flows flows.now) memo.old }
    requires named { named_struct ty ≡ Some asked.structure }
    ensures secret { IfOk result (λ s. s ≡ first_of (secrets_from (view_flows flows.now) (is.unmarked_leaves (view_typed flows.now.t.now).structs (Some ty)) asked.start)) }
    ensures memo { OnOk result (Knows (view_flows flows.now) memo.new) }
{
    let known = memo.answer(asked)?;
    if let Some(answer) = known {
        return Ok(answer);
    }
    let secret = secret_like(alloc, flows, g, k, ty, asked.start)?;
    memo.learn(secret)?;
    Ok(secret)
}

// the same of any type
fn secret_at(
    alloc: Global,
    flows: &Flows<'_>,
    g: FnId,
    k: usize,
    ty: VarTy,
    start: u64,
    memo: &mut Memo,
) -> Result<Option<u64>, AllocError>
    requires { Knows (view_flows flows.now) memo.old }
    ensures secret { IfOk result (λ s. s ≡ first_of (secrets_from (view_flows flows.now) (is.unmarked_leaves (view_typed flows.now.t.now).structs (Some ty)) start)) }
    ensures memo { OnOk result (Knows (view_flows flows.now) memo.new) }
{
    let Some(structure) = struct_of(ty) else {
        let secret = secret_like(alloc, flows, g, k, ty, start)?;
        return Ok(secret);
    };
    secret_in(alloc, flows, g, k, ty, Asked { start, structure }, memo)
}

// the same of what begins at one of these slots
#[tactic(auto, using(crate::proofs::SecretLemmas::starts))]
fn first_unmarked(
    alloc: Global,
    flows: &Flows<'_>,
    g: FnId,
    k: usize,
    ty: VarTy,
    starts: &[u64],
    memo: &mut Memo,
) -> Result<Option<u64>, AllocError>
    requires { Knows (view_flows flows.now) memo.old }
    ensures secret { IfOk result (λ s. s ≡ first_of (is.secret_slots (view_flows flows.now) starts.now (is.unmarked_leaves (view_typed flows.now.t.now).structs (Some ty)))) }
    ensures memo { OnOk result (Knows (view_flows flows.now) memo.new) }
{
    for start in starts {
        let secret = secret_at(alloc, flows, g, k, ty, *start, memo)?;
        if secret.is_some() {
            return Ok(secret);
        }
    }
    Ok(None)
}

// the same of a value that may have no type
fn unmarked_secret(
    alloc: Global,
    flows: &Flows<'_>,
    g: FnId,
    k: usize,
    ty: Option<VarTy>,
    starts: &[u64],
    memo: &mut Memo,
) -> Result<Option<u64>, AllocError>
    requires { Knows (view_flows flows.now) memo.old }
    ensures secret { IfOk result (λ s. s ≡ first_of (is.secret_slots (view_flows flows.now) starts.now (is.unmarked_leaves (view_typed flows.now.t.now).structs ty))) }
    ensures memo { OnOk result (Knows (view_flows flows.now) memo.new) }
{
    match ty {
        Some(ty) => first_unmarked(alloc, flows, g, k, ty, starts, memo),
        None => {
            let secret = first_secret(flows, starts, &[])?;
            Ok(secret)
        }
    }
}

/// Adds an argument for the parameter k of g that has, or points to, a privileged leaf under no marked
/// field.
#[tactic(auto, using(crate::proofs::SecretLemmas::kept_found))]
pub(crate) fn add_unmarked_secret(
    alloc: Global,
    flows: &Flows<'_>,
    scope: &Scope<'_>,
    g: FnId,
    k: usize,
    e: &TypedExpr,
    memo: &mut Memo,
    list: &mut Vec<Found>,
) -> Result<(), AllocError>
    requires { Knows (view_flows flows.now) memo.old }
    ensures found { OnOk result (list.new.items ≡ list.old.items ++ map kept (found PrivToPlainParam (span_of (view_expr e.now))
        (is.secret_slots (view_flows flows.now) (carrying.carried (view_scope scope.now) (view_expr e.now))
        (is.unmarked_leaves (view_typed flows.now.t.now).structs (ty_of (view_expr e.now)))))) }
    ensures memo { OnOk result (Knows (view_flows flows.now) memo.new) }
{
    let starts = carried_slots(alloc, scope, e)?;
    let secret = unmarked_secret(alloc, flows, g, k, e.ty, starts.as_slice(), memo)?;
    add_at(Rule::PrivToPlainParam, e.span, secret, list)?;
    Ok(())
}
