// Where secrets begin in the slave's code.
ghost use Rattle.std.specs.Prelude.{◌≡◌, IfOk, OnOk};
ghost use Rattle.pt_base.specs.declared.ids.FnId.{FnId};
ghost use Rattle.typed_tree.specs.ExpressionTree.{view_expr};
ghost use Rattle.typed_tree.specs.TypedView.{view_typed};
ghost use Rattle.sides.specs.Carried.{scope_of};
ghost use Rattle.sides.specs.Layouts.{IsLayout};
ghost use Rattle.sides.specs.Marking as marking;
ghost use Rattle.sides.specs.Outs.{Remembers};
ghost use Rattle.sides.specs.ScopeView.{view_scope};
ghost use Rattle.sides.specs.Seeds as is;
ghost use Rattle.sides.specs.Slots.{slots_of};
ghost use Rattle.reach.specs.Tables.{set_all};
ghost use Rattle.usages.specs.Lent.{AreUsages};

use crate::carried::carried_slots;
use crate::layout::Layout;
use crate::marks::marked_slots;
use crate::outs::{Sealed, add_sealed, out_param};
use crate::scope::Scope;
use crate::slots::SlotInfo;
use indexmap::IndexSet;
use pt_base::FnId;
use std::alloc::{AllocError, Global};
use typed_tree::Typed;
use usages::{How, Usage, Usages};

// adds the slots behind an expression that come back secret to a set, where it is the argument of a
// privileged function
fn add_usage(
    alloc: Global,
    t: &Typed,
    layout: &Layout,
    slots: &[SlotInfo],
    scope: &Scope<'_>,
    usage: &Usage<'_>,
    table: &mut [bool],
    seen: &mut IndexSet<Sealed>,
) -> Result<(), AllocError>
    requires layout { IsLayout (view_typed t.now) layout.now }
    requires slots { slots.now ≡ slots_of (view_typed t.now) }
    requires seen { Remembers slots.now table.old seen.old.keys }
    ensures seen { OnOk result (Remembers slots.now table.new seen.new.keys) }
    ensures table { (f : FnId) → view_scope scope.now ≡ scope_of (view_typed t.now) f.0 →
        OnOk result (table.new ≡ set_all table.old (is.usage_sealed (view_typed t.now) f usage.now.how (view_expr usage.now.value.now))) }
{
    if let How::Passed(callee, number) = usage.how
        && let Some(out) = out_param(t, layout, callee, number)
    {
        let starts = carried_slots(alloc, scope, usage.value)?;
        add_sealed(out, slots, &starts, table, seen)?;
    }
    Ok(())
}

// adds the slots behind the arguments in the body of a function that come back secret to a set
fn add_body(
    alloc: Global,
    t: &Typed,
    usages: &Usages<'_>,
    layout: &Layout,
    slots: &[SlotInfo],
    f: FnId,
    table: &mut [bool],
    seen: &mut IndexSet<Sealed>,
) -> Result<(), AllocError>
    requires used { AreUsages (view_typed t.now) usages.now }
    requires layout { IsLayout (view_typed t.now) layout.now }
    requires slots { slots.now ≡ slots_of (view_typed t.now) }
    requires seen { Remembers slots.now table.old seen.old.keys }
    ensures seen { OnOk result (Remembers slots.now table.new seen.new.keys) }
    ensures table { OnOk result (table.new ≡ set_all table.old (is.sealed_in (view_typed t.now) f)) }
{
    let scope = layout.scope(t, f);
    let list = usages.of(t, f);
    for usage in list {
        add_usage(alloc, t, layout, slots, &scope, usage, table, seen)?;
    }
    Ok(())
}

/// For each slot, whether secrets begin there, where these are the slave's functions and globals.
pub(crate) fn seed_table(
    alloc: Global,
    t: &Typed,
    usages: &Usages<'_>,
    layout: &Layout,
    slots: &[SlotInfo],
    in_slave: &[bool],
    owned: &[bool],
    functions: &[FnId],
) -> Result<Vec<bool>, AllocError>
    requires used { AreUsages (view_typed t.now) usages.now }
    requires layout { IsLayout (view_typed t.now) layout.now }
    requires slots { slots.now ≡ slots_of (view_typed t.now) }
    ensures { IfOk result (λ v. v.items ≡ marking.seed_table (view_typed t.now) in_slave.now owned.now slots.now functions.now) }
{
    let mut table = marked_slots(alloc, t, in_slave, owned, slots)?;
    let mut seen = IndexSet::new(alloc);
    for f in functions {
        add_body(alloc, t, usages, layout, slots, *f, &mut table, &mut seen)?;
    }
    Ok(table)
}
