// Where the slots of a program's objects begin.
ghost use Rattle.std.specs.Prelude.{◌≡◌, ◌≤◌, ◌^◌, IfOk, length};
ghost use Rattle.typed_tree.specs.TypedView.{view_typed};
ghost use Rattle.sides.specs.Layouts.{IsLayout};
ghost use Rattle.sides.specs.Slots.{slots_of};

use crate::leaf_table::LeafTable;
use crate::objects::{Object, add_functions, add_globals, add_results};
use crate::patterns::patterns;
use crate::room::room_for_slots;
use crate::scope::Scope;
use crate::slots::SlotInfo;
use pt_base::{FnId, Listed};
use std::alloc::{AllocError, Global};
use typed_tree::Typed;

/// Where the slots of a program's objects begin.
#[derive(Drop)]
pub struct Layout {
    pub table: LeafTable,
    pub globals: Vec<Object>,
    /// For each function, its variables.
    pub variables: Vec<Listed<Object>>,
    /// The slot of what the function 0 returns; those of the others follow.
    pub results: u64,
}

impl Layout {
    ghost use Rattle.std.specs.Prelude.{◌≡◌, [], get_or};
    ghost use Rattle.typed_tree.specs.TypedView.{view_typed};
    ghost use Rattle.sides.specs.Carried.{scope_of};
    ghost use Rattle.sides.specs.Layouts.{IsLayout};
    ghost use Rattle.sides.specs.Objects.{variable_objects};
    ghost use Rattle.sides.specs.ScopeView.{view_scope};

    /// The variables of the function of this number as objects, none where there is no such function.
    pub fn variables_of(&self, t: &Typed, f: FnId) -> &[Object]
        requires { IsLayout (view_typed t.now) self.now }
        ensures { result.now ≡ variable_objects (view_typed t.now) f.0 }
    {
        self.objects_at(f.0)
    }

    // the objects at this place, none where there is no such place
    fn objects_at(&self, place: u32) -> &[Object]
        ensures { result.now ≡ get_or self.now.variables.items place [] }
    {
        match self.variables.get(place as usize) {
            Some(objects) => objects.as_slice(),
            None => &[],
        }
    }

    /// What the numbers in the body of the function of this number name.
    pub fn scope<'a>(&'a self, t: &'a Typed, f: FnId) -> Scope<'a>
        requires { IsLayout (view_typed t.now) self.now }
        ensures { view_scope result ≡ scope_of (view_typed t.now) f.0 }
    {
        Scope {
            structs: t.structs.as_slice(),
            table: &self.table,
            globals: self.globals.as_slice(),
            variables: self.variables_of(t, f),
            results: self.results,
        }
    }
}

/// A program's slots, and where those of each object begin.
pub(crate) fn lay_out(alloc: Global, t: &Typed) -> Result<(Layout, Vec<SlotInfo>), AllocError>
    ensures layout { IfOk result (λ p. IsLayout (view_typed t.now) p.0) }
    ensures slots { IfOk result (λ p. p.1.items ≡ slots_of (view_typed t.now)) }
    ensures few { IfOk result (λ p. length p.1.items ≤ 2 ^ 25) }
{
    let structs = t.structs.as_slice();
    let table = LeafTable::new(alloc, structs)?;
    room_for_slots(structs, &table, t)?;
    let mut slots = Vec::new(alloc);
    let patterns = patterns(alloc, t, structs, &table)?;
    let like = patterns.as_slice();
    let globals = add_globals(alloc, structs, like, t.globals.as_slice(), &mut slots)?;
    let variables = add_functions(alloc, structs, like, &t.functions, &mut slots)?;
    let results = slots.len() as u64;
    add_results(alloc, &t.functions, &mut slots)?;
    let layout = Layout {
        table,
        globals,
        variables,
        results,
    };
    Ok((layout, slots))
}

/// The slots of a program alone, each at its number. The only error is want of memory, as that of
/// [`place`](crate::place).
pub fn all_slots(alloc: Global, t: &Typed) -> Result<Listed<SlotInfo>, AllocError>
    ensures { IfOk result (λ s. s ≡ slots_of (view_typed t.now)) }
{
    let (_layout, slots) = lay_out(alloc, t)?;
    Ok(Listed::new(slots))
}
