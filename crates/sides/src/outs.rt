// What comes back from privileged functions through their parameters.
ghost use Rattle.std.specs.Prelude.{◌≡◌, ◌+◌, [], ◌∷◌, Some, IfOk, OnOk, map, slice_get};
ghost use Rattle.std.specs.List.{filter, range_with_len};
ghost use Rattle.typed_tree.specs.TypedTree.{view_function};
ghost use Rattle.typed_tree.specs.TypedView.{view_typed};
ghost use Rattle.sides.specs.Layouts.{IsLayout};
ghost use Rattle.sides.specs.Objects.{variable_objects};
ghost use Rattle.sides.specs.Outs as outs;
ghost use Rattle.sides.specs.Seeds as is;
ghost use Rattle.reach.specs.Tables.{set_all};

use crate::layout::Layout;
use crate::slots::SlotInfo;
use indexmap::IndexSet;
use pt_base::{FnId, sum};
use pt_tree::ParamKind;
use reach::{function_at, set_true};
use std::alloc::AllocError;
use typed_tree::{Typed, TypedFn};

/// A parameter through which a privileged function gives something back.
#[derive(Clone, Copy)]
pub struct Out {
    /// The first of its slots.
    pub first: u64,
    /// How many slots it has.
    pub count: u64,
    /// All that comes back there is secret, not marked leaves alone.
    pub all: bool,
}

/// Whether a function gives something back through a parameter that takes this.
pub fn is_out(kind: ParamKind) -> bool
    ensures { result ≡ is.is_out kind }
{
    match kind {
        ParamKind::Int(_) => false,
        ParamKind::Ptr { fixed, .. } => !fixed,
    }
}

// whether it is marked `priv` and gives something back through its parameter of this number
fn gives_back(function: &TypedFn, parameter: usize) -> bool
    ensures { result ≡ is.gives_back (Some (view_function function.now)) parameter }
{
    match function.signature.params.as_slice().get(parameter) {
        Some(p) => function.signature.privileged && is_out(p.kind),
        None => false,
    }
}

// whether all that it gives back there is secret
fn seals_all(function: &TypedFn, parameter: usize) -> bool
    ensures { result ≡ is.seals_all (Some (view_function function.now)) parameter }
{
    match function.signature.params.as_slice().get(parameter) {
        Some(p) => p.marked && !p.declassify,
        None => false,
    }
}

// the object of a parameter, as one through which something comes back
fn out_at(t: &Typed, layout: &Layout, f: FnId, parameter: usize, all: bool) -> Option<Out>
    requires { IsLayout (view_typed t.now) layout.now }
    ensures { result ≡ outs.out_at (view_typed t.now) all (slice_get (variable_objects (view_typed t.now) f.0) parameter) }
{
    let object = layout.variables_of(t, f).get(parameter)?;
    Some(Out {
        first: object.start,
        count: layout.table.count(object.ty),
        all,
    })
}

/// The parameter of this number of a function, if something comes back through it.
pub(crate) fn out_param(t: &Typed, layout: &Layout, f: FnId, parameter: usize) -> Option<Out>
    requires { IsLayout (view_typed t.now) layout.now }
    ensures { result ≡ outs.out_param (view_typed t.now) f parameter }
{
    let function = function_at(t, f)?;
    if gives_back(function, parameter) {
        out_at(t, layout, f, parameter, seals_all(function, parameter))
    } else {
        None
    }
}

// whether the leaf of this number comes back secret
fn is_back(out: Out, slots: &[SlotInfo], leaf: u64) -> Result<bool, AllocError>
    ensures { IfOk result (λ b. b ≡ outs.is_back out.all out.first slots.now leaf) }
{
    let slot = sum(out.first, leaf)?;
    match slots.get(slot as usize) {
        Some(info) => Ok(out.all || info.marked),
        None => Ok(out.all),
    }
}

// adds the slot so far behind the start to a set, if this leaf comes back secret
fn add_leaf(
    out: Out,
    slots: &[SlotInfo],
    start: u64,
    leaf: u64,
    table: &mut [bool],
) -> Result<(), AllocError>
    ensures { OnOk result (table.new ≡ set_all table.old (map (λ j. start + j) (filter (outs.is_back out.all out.first slots.now) (leaf ∷ [])))) }
{
    if is_back(out, slots, leaf)? {
        let slot = sum(start, leaf)?;
        set_true(table, slot as usize);
    }
    Ok(())
}

// adds the slots behind a start that come back secret to a set
fn add_all(out: Out, slots: &[SlotInfo], start: u64, table: &mut [bool]) -> Result<(), AllocError>
    ensures { OnOk result (table.new ≡ set_all table.old (outs.behind_start slots.now out start)) }
{
    for leaf in 0..out.count {
        add_leaf(out, slots, start, leaf, table)?;
    }
    Ok(())
}

/// Leaves that were added behind a slot: those that come back secret through a parameter.
#[derive(Clone, Copy, PartialEq, Eq, Hash)]
pub struct Sealed {
    /// The slot behind which they were added.
    pub start: u64,
    /// The first of the parameter's slots.
    pub first: u64,
    /// How many slots it has.
    pub count: u64,
    /// All that comes back there is secret.
    pub all: bool,
}

// whether these leaves were not added before; they count as added from now on
fn is_new(sealed: Sealed, seen: &mut IndexSet<Sealed>) -> Result<bool, AllocError>
    ensures { IfOk result (λ b. outs.IsNoted b seen.old.keys seen.new.keys sealed) }
{
    let is_new = seen.insert(sealed)?;
    Ok(is_new)
}

// adds the slots behind a start that come back secret to a set, if they weren't added before
fn add_behind(
    out: Out,
    slots: &[SlotInfo],
    start: u64,
    table: &mut [bool],
    seen: &mut IndexSet<Sealed>,
) -> Result<(), AllocError>
    requires { outs.Remembers slots.now table.old seen.old.keys }
    ensures table { OnOk result (table.new ≡ set_all table.old (outs.behind_start slots.now out start)) }
    ensures seen { OnOk result (outs.Remembers slots.now table.new seen.new.keys) }
{
    let sealed = Sealed {
        start,
        first: out.first,
        count: out.count,
        all: out.all,
    };
    if !is_new(sealed, seen)? {
        return Ok(());
    }
    add_all(out, slots, start, table)?;
    Ok(())
}

/// Adds the slots behind these starts that come back secret to a set. `seen` remembers which were added behind
/// which slot, so that calls with the same argument cost no more than the first, in whatever turn they come.
pub(crate) fn add_sealed(
    out: Out,
    slots: &[SlotInfo],
    starts: &[u64],
    table: &mut [bool],
    seen: &mut IndexSet<Sealed>,
) -> Result<(), AllocError>
    requires { outs.Remembers slots.now table.old seen.old.keys }
    ensures table { OnOk result (table.new ≡ set_all table.old (outs.behind_out slots.now (Some out) starts.now)) }
    ensures seen { OnOk result (outs.Remembers slots.now table.new seen.new.keys) }
{
    for start in starts {
        add_behind(out, slots, *start, table, seen)?;
    }
    Ok(())
}
