// Objects, their slots, and where these begin.
ghost use Rattle.std.specs.Prelude.{◌≡◌, ◌++◌, [], ◌∷◌, IfOk, OnOk, length, map};
ghost use Rattle.typed_tree.specs.TypedTree.{view_function};
ghost use Rattle.sides.specs.Leaves as is;
ghost use Rattle.sides.specs.Layouts.{functions_objects};
ghost use Rattle.sides.specs.Objects.{objects_from};
ghost use Rattle.sides.specs.Patterns.{ArePatterns};
ghost use Rattle.sides.specs.Slots.{slot_of, globals_slots, variables_slots, functions_slots, results_slots};

use crate::leaves::add_leaves;
use crate::path::Path;
use crate::patterns::{add_alike, pattern_at};
use crate::slots::{Owner, SlotInfo};
use pt_base::{FnId, GlobalId, Listed, VarId, next_number};
use std::alloc::{AllocError, Global};
use typed_tree::{StructInfo, TypedFn, TypedGlobal, Var, VarTy};

/// An object, by its type and the number of its first slot. The others follow in the order of its
/// leaves.
#[derive(Clone, Copy)]
pub struct Object {
    pub ty: VarTy,
    pub start: u64,
}

// appends the slots of an object, like those of its pattern where it has one
fn add_slots(
    alloc: Global,
    structs: &[StructInfo],
    patterns: &[Listed<SlotInfo>],
    owner: Owner,
    ty: VarTy,
    slots: &mut Vec<SlotInfo>,
) -> Result<(), AllocError>
    requires { ArePatterns structs.now patterns.now }
    ensures { OnOk result (slots.new.items ≡ slots.old.items ++ map (slot_of owner) (is.leaves_of structs.now ty)) }
{
    let pattern = pattern_at(patterns, ty);
    if pattern.is_empty() {
        return add_leaves(alloc, structs, owner, ty, slots);
    }
    add_alike(pattern, owner, slots)
}

// appends the slots of an object: where they begin
fn add_object(
    alloc: Global,
    structs: &[StructInfo],
    patterns: &[Listed<SlotInfo>],
    owner: Owner,
    ty: VarTy,
    slots: &mut Vec<SlotInfo>,
) -> Result<Object, AllocError>
    requires { ArePatterns structs.now patterns.now }
    ensures object { IfOk result (λ o. o ≡ record { ty = ty; start = length slots.old.items }) }
    ensures slots { OnOk result (slots.new.items ≡ slots.old.items ++ map (slot_of owner) (is.leaves_of structs.now ty)) }
{
    let start = slots.len() as u64;
    add_slots(alloc, structs, patterns, owner, ty, slots)?;
    Ok(Object { ty, start })
}

/// Appends the slots of globals: these as objects.
pub(crate) fn add_globals(
    alloc: Global,
    structs: &[StructInfo],
    patterns: &[Listed<SlotInfo>],
    globals: &[TypedGlobal],
    slots: &mut Vec<SlotInfo>,
) -> Result<Vec<Object>, AllocError>
    requires { ArePatterns structs.now patterns.now }
    ensures objects { IfOk result (λ os. os.items ≡ objects_from (is.leaf_count structs.now) (length slots.old.items) (map (λ g. g.var.ty) globals.now)) }
    ensures slots { OnOk result (slots.new.items ≡ slots.old.items ++ globals_slots structs.now 0 globals.now) }
{
    let mut objects = Vec::new(alloc);
    let mut number: u32 = 0;
    for global in globals {
        let owner = Owner::Global(GlobalId(number));
        let ty = global.var.ty;
        objects.push(add_object(alloc, structs, patterns, owner, ty, slots)?)?;
        number = next_number(number)?;
    }
    Ok(objects)
}

// appends the slots of a function's variables: these as objects
fn add_variables(
    alloc: Global,
    structs: &[StructInfo],
    patterns: &[Listed<SlotInfo>],
    function: u32,
    vars: &[Var],
    slots: &mut Vec<SlotInfo>,
) -> Result<Vec<Object>, AllocError>
    requires { ArePatterns structs.now patterns.now }
    ensures objects { IfOk result (λ os. os.items ≡ objects_from (is.leaf_count structs.now) (length slots.old.items) (map (λ x. x.ty) vars.now)) }
    ensures slots { OnOk result (slots.new.items ≡ slots.old.items ++ variables_slots structs.now function 0 vars.now) }
{
    let mut objects = Vec::new(alloc);
    let mut number: u32 = 0;
    for var in vars {
        let owner = Owner::Variable {
            function: FnId(function),
            var: VarId(number),
        };
        objects.push(add_object(alloc, structs, patterns, owner, var.ty, slots)?)?;
        number = next_number(number)?;
    }
    Ok(objects)
}

/// Appends the slots of the variables of functions: these as objects, function by function.
pub(crate) fn add_functions(
    alloc: Global,
    structs: &[StructInfo],
    patterns: &[Listed<SlotInfo>],
    functions: &[TypedFn],
    slots: &mut Vec<SlotInfo>,
) -> Result<Vec<Listed<Object>>, AllocError>
    requires { ArePatterns structs.now patterns.now }
    ensures objects { IfOk result (λ os. os.items ≡ functions_objects (is.leaf_count structs.now) (length slots.old.items) (map view_function functions.now)) }
    ensures slots { OnOk result (slots.new.items ≡ slots.old.items ++ functions_slots structs.now 0 (map view_function functions.now)) }
{
    let mut objects = Vec::new(alloc);
    let mut number: u32 = 0;
    for function in functions {
        let vars = function.vars.as_slice();
        let own = add_variables(alloc, structs, patterns, number, vars, slots)?;
        objects.push(Listed::new(own))?;
        number = next_number(number)?;
    }
    Ok(objects)
}

/// Appends the slots of what functions return.
pub(crate) fn add_results(
    alloc: Global,
    functions: &[TypedFn],
    slots: &mut Vec<SlotInfo>,
) -> Result<(), AllocError>
    ensures { OnOk result (slots.new.items ≡ slots.old.items ++ results_slots 0 (map view_function functions.now)) }
{
    let mut number: u32 = 0;
    for _function in functions {
        slots.push(SlotInfo {
            owner: Owner::Result(FnId(number)),
            path: Path::none(),
            marked: false,
        })?;
        number = next_number(number)?;
    }
    Ok(())
}
