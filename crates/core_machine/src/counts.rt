// How many integers objects have, counted before they are listed.
ghost use Rattle.std.specs.Prelude.{◌≡◌, ◌≤◌, ◌+◌, ◌*◌, IfOk, length};
ghost use Rattle.std.specs.List.{flat_map};
ghost use Rattle.pt_tree.specs.declared.signature.Elem.TheVariants as e;
ghost use Rattle.typed_tree.specs.Cells.{element_leaves, object_leaves};

use pt_base::{IntType, Listed};
use pt_tree::Elem;
use std::alloc::AllocError;
use typed_tree::{Field, VarTy};

/// The most integers of all structs of a program together. What has more is answered as want of memory,
/// before the integers of the struct that is too large are listed.
pub const MOST_STRUCT_INTEGERS: usize = 67_108_864;

fn sum(a: usize, b: usize) -> Result<usize, AllocError>
    ensures { IfOk result (λ n. n ≡ a + b) }
{
    match a.checked_add(b) {
        Some(n) => Ok(n),
        None => Err(AllocError),
    }
}

fn product(a: usize, b: usize) -> Result<usize, AllocError>
    ensures { IfOk result (λ n. n ≡ a * b) }
{
    match a.checked_mul(b) {
        Some(n) => Ok(n),
        None => Err(AllocError),
    }
}

fn element_count(known: &[Listed<IntType>], elem: Elem) -> usize
    ensures { result ≡ length (element_leaves known.now elem) }
{
    match elem {
        Elem::Int(_) => 1,
        Elem::Struct(n) => struct_count(known, n),
    }
}

fn struct_count(known: &[Listed<IntType>], n: u32) -> usize
    ensures { result ≡ length (element_leaves known.now (e.Struct n)) }
{
    match known.get(n as usize) {
        Some(leaves) => leaves.as_slice().len(),
        None => 0,
    }
}

#[tactic(auto, using(crate::proofs::CountLemmas::repeated_length))]
fn object_count(known: &[Listed<IntType>], ty: VarTy) -> Result<usize, AllocError>
    ensures { IfOk result (λ n. n ≡ length (object_leaves known.now ty)) }
{
    match ty {
        VarTy::Int(_) => Ok(1),
        VarTy::Struct(n) => Ok(struct_count(known, n)),
        VarTy::Array { elem, count } => product(count as usize, element_count(known, elem)),
        VarTy::Pointer { .. } => Ok(0),
    }
}

// How many integers fields have together.
fn fields_count(known: &[Listed<IntType>], fields: &[Field]) -> Result<usize, AllocError>
    ensures { IfOk result (λ n. n ≡ length (flat_map (λ f. object_leaves known.now f.ty) fields.now)) }
{
    let mut count = 0;
    for field in fields {
        count = sum(count, object_count(known, field.ty)?)?;
    }
    Ok(count)
}

/// How many integers fields have together, if they are at most so many.
pub(crate) fn few_integers(
    known: &[Listed<IntType>],
    fields: &[Field],
    most: usize,
) -> Result<usize, AllocError>
    ensures count { IfOk result (λ n. n ≡ length (flat_map (λ f. object_leaves known.now f.ty) fields.now)) }
    ensures few { IfOk result (λ n. n ≤ most) }
{
    let count = fields_count(known, fields)?;
    if count > most {
        return Err(AllocError);
    }
    Ok(count)
}
