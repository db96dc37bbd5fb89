// The integers of an object, one after the other: a walk through its parts, and theirs, that keeps
// the way to where it is, and so takes no stack however deep structs lie in structs.
ghost use Rattle.std.specs.Prelude.{◌≡◌, ◌<◌, List, false, true, None, Some, IfOk, OnOk, length, slice_get};
ghost use Rattle.typed_tree.specs.declared.types.StructInfo.{StructInfo};
ghost use Rattle.pt_core.specs.CodeTree.{view_place};
ghost use Rattle.lowering.specs.Leaves.{ways_of, at_end_of, stepped_to, to_element};
ghost use Rattle.lowering.specs.Lowered.{temp_place};
ghost use Rattle.lowering.specs.Names.{scope_of};
ghost use Rattle.lowering.specs.Walks.{is_leaf, parts_of, step_at, way_of, ways_left, goes_on, Moves, Stepped, Comes};

use crate::names::Names;
use crate::output::local;
use crate::place::with_field;
use pt_base::{IntType, Span, VarId, next_number};
use pt_core::{Expr, Place, Root};
use pt_tree::Elem;
use std::alloc::{AllocError, Global};
use typed_tree::{VarTy, type_of_elem};

/// An object, or a part of one: its type, and a bound. Structs of this number and above have no
/// parts in it; those of a struct's fields lie below its own.
#[derive(Clone, Copy)]
pub struct Object {
    pub ty: VarTy,
    pub bound: u32,
}

/// An object in which the walk is, and in which of its parts: the number of a field, or of an
/// element.
#[derive(Clone, Copy)]
pub struct Level {
    pub whole: Object,
    pub at: u32,
}

/// Where the walk is: the objects above, the outermost first, and the part of the last of them that
/// is still to be walked through, if it is.
#[derive(Drop)]
pub struct Walk {
    pub levels: Vec<Level>,
    pub here: Option<Object>,
}

impl Walk {
    /// A walk over an object of this type.
    pub fn over(alloc: Global, names: &Names<'_>, ty: VarTy) -> Result<Walk, AllocError>
        ensures { IfOk result (λ w. ways_left (scope_of names.now).structs w ≡ ways_of (scope_of names.now).structs ty) }
    {
        let bound = names.count_of_structs()?;
        Ok(Walk {
            levels: Vec::new(alloc),
            here: Some(Object { ty, bound }),
        })
    }

    /// Goes on to the next integer: false where there is none.
    pub fn to_leaf(&mut self, names: &Names<'_>) -> Result<bool, AllocError>
        ensures { IfOk result (λ found. Comes (scope_of names.now).structs found self.old self.new) }
    {
        while self.goes_on() {
            let found = self.step(names)?;
            if found {
                return Ok(true);
            }
        }
        Ok(false)
    }

    // whether something is left
    fn goes_on(&self) -> bool
        ensures { result ≡ goes_on self.now }
    {
        self.here.is_some() || !self.levels.is_empty()
    }

    // one step: whether it led to an integer
    fn step(&mut self, names: &Names<'_>) -> Result<bool, AllocError>
        requires { goes_on self.old ≡ true }
        ensures { IfOk result (λ found. Stepped (scope_of names.now).structs found self.old self.new) }
    {
        match self.here {
            Some(object) => self.visit(names, object),
            None => {
                self.advance(names)?;
                Ok(false)
            }
        }
    }

    // visits the part that comes next: whether it is an integer
    fn visit(&mut self, names: &Names<'_>, object: Object) -> Result<bool, AllocError>
        requires { self.old.here ≡ Some object }
        ensures { IfOk result (λ found. Stepped (scope_of names.now).structs found self.old self.new) }
    {
        if is_leaf(object.ty) {
            self.here = None;
            return Ok(true);
        }
        self.enter(names, object)?;
        Ok(false)
    }

    // goes on to the first part of this object
    fn enter(&mut self, names: &Names<'_>, whole: Object) -> Result<(), AllocError>
        requires here { self.old.here ≡ Some whole }
        requires parts { is_leaf whole.ty ≡ false }
        ensures { OnOk result (Moves (scope_of names.now).structs self.old self.new) }
    {
        self.levels.push(Level { whole, at: 0 })?;
        self.here = part_at(names, whole, 0);
        Ok(())
    }

    // goes on to the next part of the last object, which is left behind its last part
    fn advance(&mut self, names: &Names<'_>) -> Result<(), AllocError>
        requires here { self.old.here ≡ None }
        requires inside { 0 < length self.old.levels.items }
        ensures { OnOk result (Moves (scope_of names.now).structs self.old self.new) }
    {
        let Some(level) = self.levels.pop() else {
            unreachable!()
        };
        let at = next_number(level.at)?;
        match part_at(names, level.whole, at) {
            Some(object) => {
                self.levels.push(Level {
                    whole: level.whole,
                    at,
                })?;
                self.here = Some(object);
                Ok(())
            }
            None => Ok(()),
        }
    }

    /// The place of the integer to which the walk has come, in this variable. The span is that of
    /// steps to elements, which never trap.
    pub fn place(&self, alloc: Global, span: Span, variable: VarId) -> Result<Place, AllocError>
        ensures { IfOk result (λ p. view_place p ≡ at_end_of span (way_of self.now.levels.items) (temp_place variable.0)) }
    {
        let mut place = local(alloc, variable);
        let levels = self.levels.as_slice();
        for level in levels {
            place = stepped(alloc, span, place, level)?;
        }
        Ok(place)
    }
}

// whether an object is a number or a pointer
fn is_leaf(ty: VarTy) -> bool
    ensures { result ≡ is_leaf ty }
{
    match ty {
        VarTy::Int(_) | VarTy::Pointer { .. } => true,
        VarTy::Struct(_) | VarTy::Array { .. } => false,
    }
}

// the part of this number
fn part_at(names: &Names<'_>, whole: Object, number: u32) -> Option<Object>
    ensures { result ≡ slice_get (parts_of (scope_of names.now).structs whole) number }
{
    match whole.ty {
        VarTy::Int(_) | VarTy::Pointer { .. } => None,
        VarTy::Struct(structure) => field_at(names, whole.bound, structure, number),
        VarTy::Array { elem, count } => element_at(whole.bound, elem, count, number),
    }
}

// the field of this number
fn field_at(names: &Names<'_>, bound: u32, structure: u32, number: u32) -> Option<Object>
    ensures { result ≡ slice_get (parts_of (scope_of names.now).structs (record { ty = VarTy.Struct structure; bound = bound })) number }
{
    if structure >= bound {
        return None;
    }
    match names.fields(structure).get(number as usize) {
        Some(field) => Some(Object {
            ty: field.ty,
            bound: structure,
        }),
        None => None,
    }
}

// the element of this number
fn element_at(bound: u32, elem: Elem, count: u32, number: u32) -> Option<Object>
    ensures { (structs : List StructInfo) → result ≡ slice_get (parts_of structs (record { ty = VarTy.Array elem count; bound = bound })) number }
{
    if number >= count {
        return None;
    }
    Some(Object {
        ty: type_of_elem(elem),
        bound,
    })
}

// a part of an object, at this level
fn stepped(alloc: Global, span: Span, whole: Place, level: &Level) -> Result<Place, AllocError>
    ensures { IfOk result (λ p. view_place p ≡ stepped_to span (view_place whole) (step_at level.now)) }
{
    match level.whole.ty {
        VarTy::Array { .. } => element_place(alloc, span, whole, level.at),
        VarTy::Int(_) | VarTy::Struct(_) | VarTy::Pointer { .. } => with_field(whole, level.at),
    }
}

// an element of an array
fn element_place(alloc: Global, span: Span, array: Place, index: u32) -> Result<Place, AllocError>
    ensures { IfOk result (λ p. view_place p ≡ stepped_to span (view_place array) (to_element index)) }
{
    let by = Expr::Const {
        ty: IntType::Int,
        value: i128::from(index),
    };
    let pointer = Expr::moved(alloc, Expr::decay(array), by, false, span)?;
    Ok(Place {
        root: Root::deref(alloc, pointer, span)?,
        path: Vec::new(alloc),
    })
}
