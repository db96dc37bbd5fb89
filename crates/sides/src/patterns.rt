// The slots of one object of each struct, after which those of the others are made.
ghost use Rattle.std.specs.Prelude.{◌≡◌, ◌++◌, IfOk, OnOk, map};
ghost use Rattle.sides.specs.LeafTables.{named_struct};
ghost use Rattle.sides.specs.Patterns.{ArePatterns, IsPattern, pattern_of, with_owner};

use crate::leaf_table::LeafTable;
use crate::leaves::{add_leaves, struct_of};
use crate::room::room_for_paths;
use crate::slots::{Owner, SlotInfo};
use pt_base::{FnId, Listed, next_number};
use reach::set_true;
use std::alloc::{AllocError, Global};
use typed_tree::{StructInfo, Typed, VarTy};

// adds the struct whose leaves an object of this type has to a set
fn add_struct(ty: VarTy, table: &mut [bool]) {
    if let Some(structure) = struct_of(ty) {
        set_true(table, structure as usize);
    }
}

// Which structs have objects. A wrong answer would cost time alone.
fn structs_of_objects(alloc: Global, t: &Typed) -> Result<Vec<bool>, AllocError> {
    let mut table = vec![in alloc; false; t.structs.as_slice().len()]?;
    for global in t.globals.as_slice() {
        add_struct(global.var.ty, &mut table);
    }
    for function in &t.functions {
        for var in function.vars.as_slice() {
            add_struct(var.ty, &mut table);
        }
    }
    Ok(table)
}

// the slots of an object of a struct, or none where there is no need of them
fn pattern(
    alloc: Global,
    structs: &[StructInfo],
    structure: u32,
    needed: bool,
) -> Result<Vec<SlotInfo>, AllocError>
    ensures { IfOk result (λ v. IsPattern structs.now structure v.items) }
{
    let mut slots = Vec::new(alloc);
    if !needed {
        return Ok(slots);
    }
    let owner = Owner::Result(FnId(0));
    add_leaves(alloc, structs, owner, VarTy::Struct(structure), &mut slots)?;
    Ok(slots)
}

// the same of each struct
fn patterns_of(
    alloc: Global,
    structs: &[StructInfo],
    needed: &[bool],
) -> Result<Vec<Listed<SlotInfo>>, AllocError>
    ensures { IfOk result (λ v. ArePatterns structs.now v.items) }
{
    let mut patterns = Vec::new(alloc);
    let mut number: u32 = 0;
    for truth in needed {
        let slots = pattern(alloc, structs, number, *truth)?;
        patterns.push(Listed::new(slots))?;
        number = next_number(number)?;
    }
    Ok(patterns)
}

/// The slots of one object of each struct that has objects: no more than the program has.
pub(crate) fn patterns(
    alloc: Global,
    t: &Typed,
    structs: &[StructInfo],
    table: &LeafTable,
) -> Result<Vec<Listed<SlotInfo>>, AllocError>
    ensures { IfOk result (λ v. ArePatterns structs.now v.items) }
{
    let needed = structs_of_objects(alloc, t)?;
    room_for_paths(alloc, structs, table, &needed)?;
    let patterns = patterns_of(alloc, structs, &needed)?;
    Ok(patterns)
}

/// The pattern of an object of this type, none where it has none.
pub(crate) fn pattern_at(patterns: &[Listed<SlotInfo>], ty: VarTy) -> &[SlotInfo]
    ensures { result.now ≡ pattern_of patterns.now (named_struct ty) }
{
    match struct_of(ty) {
        Some(structure) => match patterns.get(structure as usize) {
            Some(slots) => slots.as_slice(),
            None => &[],
        },
        None => &[],
    }
}

/// Appends slots like these, of another owner.
pub(crate) fn add_alike(
    pattern: &[SlotInfo],
    owner: Owner,
    slots: &mut Vec<SlotInfo>,
) -> Result<(), AllocError>
    ensures { OnOk result (slots.new.items ≡ slots.old.items ++ map (with_owner owner) pattern.now) }
{
    slots.reserve(pattern.len())?;
    for slot in pattern {
        slots.push(SlotInfo {
            owner,
            path: slot.path.share()?,
            marked: slot.marked,
        })?;
    }
    Ok(())
}
