// Privileged expressions: those whose value may be a secret.
ghost use Rattle.std.specs.Prelude.{◌≡◌, ◌+◌, ◌++◌, IfOk, OnOk, is_some, map};
ghost use Rattle.std.specs.List.{range_with_len};
ghost use Rattle.sides.specs.Carried as carrying;
ghost use Rattle.sides.specs.Leaves as leaves;
ghost use Rattle.sides.specs.Leaves.{leaf_count};
ghost use Rattle.sides.specs.ScopeView.{view_scope};
ghost use Rattle.typed_tree.specs.ExpressionTree.{view_expr, view_place};
ghost use Rattle.typed_tree.specs.TypeTests.{pointee_of};
ghost use Rattle.flow_edges.specs.Edges.{span_of};
ghost use Rattle.flow_rules.specs.Findings.{found};
ghost use Rattle.flow_rules.specs.FlowsView.{view_flows};
ghost use Rattle.flow_rules.specs.Kept.{first_of, found_at, kept, secrets_from, secrets_in};
ghost use Rattle.flow_rules.specs.Secrets as is;

use crate::flows::Flows;
use crate::found::Found;
use crate::rule::Rule;
use flow_edges::behind;
use pt_base::{Slot, Span};
use sides::{Scope, carried_slots};
use std::alloc::{AllocError, Global};
use typed_tree::{TypedExpr, VarTy};

// whether the slot of this number is privileged; there may be none
fn is_priv(flows: &Flows<'_>, slot: u64) -> bool
    ensures { result ≡ (view_flows flows.now).is_priv slot }
{
    slot < flows.sides.slots.as_slice().len() as u64 && flows.marks.is_priv(Slot(slot))
}

/// The first privileged slot among these leaves of what begins at this slot.
pub(crate) fn secret_from(
    flows: &Flows<'_>,
    start: u64,
    leaves: &[u64],
) -> Result<Option<u64>, AllocError>
    ensures { IfOk result (λ s. s ≡ first_of (secrets_from (view_flows flows.now) leaves.now start)) }
{
    for leaf in leaves {
        let slot = behind(start, *leaf)?;
        if is_priv(flows, slot) {
            return Ok(Some(slot));
        }
    }
    Ok(None)
}

/// The same of what begins at one of these slots.
#[tactic(auto, using(crate::proofs::SecretLemmas::starts))]
pub(crate) fn first_secret(
    flows: &Flows<'_>,
    starts: &[u64],
    leaves: &[u64],
) -> Result<Option<u64>, AllocError>
    ensures { IfOk result (λ s. s ≡ first_of (is.secret_slots (view_flows flows.now) starts.now leaves.now)) }
{
    for start in starts {
        let secret = secret_from(flows, *start, leaves)?;
        if secret.is_some() {
            return Ok(secret);
        }
    }
    Ok(None)
}

/// Adds what is broken where there is a privileged slot.
pub(crate) fn add_at(
    rule: Rule,
    span: Span,
    secret: Option<u64>,
    list: &mut Vec<Found>,
) -> Result<(), AllocError>
    ensures { OnOk result (list.new.items ≡ list.old.items ++ found_at rule span secret) }
{
    match secret {
        Some(slot) => {
            list.push(Found {
                span,
                rule,
                slot: Some(slot),
            })?;
            Ok(())
        }
        None => Ok(()),
    }
}

/// Adds that the rule is broken, where one of these leaves of what begins at one of these slots is
/// privileged.
#[tactic(auto, using(crate::proofs::SecretLemmas::kept_found))]
pub(crate) fn add_secret(
    flows: &Flows<'_>,
    starts: &[u64],
    leaves: &[u64],
    rule: Rule,
    span: Span,
    list: &mut Vec<Found>,
) -> Result<(), AllocError>
    ensures { OnOk result (list.new.items ≡ list.old.items ++ map kept (found rule span (is.secret_slots (view_flows flows.now) starts.now leaves.now))) }
{
    let secret = first_secret(flows, starts, leaves)?;
    add_at(rule, span, secret, list)
}

/// The numbers of so many leaves.
pub(crate) fn all_leaves(alloc: Global, count: u64) -> Result<Vec<u64>, AllocError>
    ensures { IfOk result (λ v. v.items ≡ range_with_len 0 count) }
{
    let mut list = Vec::new(alloc);
    for leaf in 0..count {
        list.push(leaf)?;
    }
    Ok(list)
}

// how many leaves the value of this type has; a pointer by itself is no secret
fn value_leaves(alloc: Global, scope: &Scope<'_>, ty: Option<VarTy>) -> Result<Vec<u64>, AllocError>
    ensures { IfOk result (λ v. v.items ≡ is.value_leaves scope.now.structs.now ty) }
{
    match ty {
        Some(VarTy::Pointer { .. }) | None => Ok(Vec::new(alloc)),
        Some(VarTy::Int(i)) => all_leaves(alloc, scope.table.count(VarTy::Int(i))),
        Some(VarTy::Struct(n)) => all_leaves(alloc, scope.table.count(VarTy::Struct(n))),
        Some(VarTy::Array { elem, count }) => {
            all_leaves(alloc, scope.table.count(VarTy::Array { elem, count }))
        }
    }
}

/// Adds that the rule is broken, where a value of this type is privileged that begins at one of these
/// slots.
pub(crate) fn add_value(
    alloc: Global,
    flows: &Flows<'_>,
    scope: &Scope<'_>,
    starts: &[u64],
    ty: Option<VarTy>,
    rule: Rule,
    span: Span,
    list: &mut Vec<Found>,
) -> Result<(), AllocError>
    ensures { OnOk result (list.new.items ≡ list.old.items ++ map kept (found rule span (is.secret_slots (view_flows flows.now) starts.now (is.value_leaves scope.now.structs.now ty)))) }
{
    let leaves = value_leaves(alloc, scope, ty)?;
    add_secret(flows, starts, leaves.as_slice(), rule, span, list)
}

/// Adds that the rule is broken, where an expression is privileged.
pub(crate) fn add_expression(
    alloc: Global,
    flows: &Flows<'_>,
    scope: &Scope<'_>,
    e: &TypedExpr,
    rule: Rule,
    list: &mut Vec<Found>,
) -> Result<(), AllocError>
    ensures { OnOk result (list.new.items ≡ list.old.items ++ map kept (found rule (span_of (view_expr e.now)) (secrets_in (view_flows flows.now) (view_scope scope.now) (view_expr e.now)))) }
{
    let starts = carried_slots(alloc, scope, e)?;
    add_value(
        alloc,
        flows,
        scope,
        starts.as_slice(),
        e.ty,
        rule,
        e.span,
        list,
    )
}
