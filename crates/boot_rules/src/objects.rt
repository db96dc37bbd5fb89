// Numbers as those of an object's integers.
ghost use Rattle.std.specs.Prelude.{◌≡◌, ◌+◌, ◌*◌, ◌<◌, [], ◌∷◌, All, IfSome};
ghost use Rattle.std.specs.Option.{option_copied};
ghost use Rattle.pt_int.specs.Conversion.{is_in_range};
ghost use Rattle.typed_tree.specs.Cells.{leaves_of, repeated};
ghost use Rattle.typed_tree.specs.Sizes.{fields_of};
ghost use Rattle.typed_tree.specs.WellFormed as well;
ghost use Rattle.typed_tree.specs.declared.types.VarTy.TheVariants.{Struct};
ghost use Rattle.boot_rules.specs.Ranks.{rank};
ghost use Rattle.boot_rules.specs.Walks.{past};

use crate::candidate::Candidate;
use crate::shapes::{is_small as is_small_by, only_at};
use pt_base::IntType;
use pt_int::in_range;
use typed_tree::{Field, StructInfo, VarTy, type_of_elem};

/// Whether an object of this type has at most 65,536 cells.
pub(crate) fn is_small(candidate: &Candidate<'_>, ty: VarTy) -> bool
    ensures { result ≡ well.is_small candidate.now.boot.now.structs ty }
{
    is_small_by(candidate.shapes.as_slice(), ty)
}

/// Whether the cells are one number for each integer of an object of this type, in the range of its
/// type. Structs of one field are passed over at once, so each step but a few takes a number or
/// divides what is left: it takes time linear in the numbers, and stack for as many calls at most.
pub(crate) fn cells_fit(candidate: &Candidate<'_>, ty: VarTy, cells: &[i128]) -> bool
    ensures { result ≡ well.cells_fit (leaves_of candidate.now.boot.now.structs ty) cells.now }
{
    match past_object(candidate, ty, cells) {
        Some(rest) => rest.is_empty(),
        None => false,
    }
}

// The numbers behind those of an object of this type; None where they aren't such.
#[cycle(walk)]
fn past_object<'c>(candidate: &Candidate<'_>, ty: VarTy, cells: &'c [i128]) -> Option<&'c [i128]>
    ensures { option_copied result ≡ past (leaves_of candidate.now.boot.now.structs ty) cells.now }
{
    match ty {
        VarTy::Int(t) => past_integer(t, cells),
        VarTy::Struct(n) => match only_field(candidate, n) {
            Some(whole) => past_object(candidate, whole, cells),
            None => past_fields(candidate, n, cells),
        },
        VarTy::Array { elem, count } => past_items(candidate, type_of_elem(elem), count, cells),
        VarTy::Pointer { .. } => Some(cells),
    }
}

// The same for all fields of a struct.
#[cycle(walk)]
fn past_fields<'c>(candidate: &Candidate<'_>, n: u32, cells: &'c [i128]) -> Option<&'c [i128]>
    ensures { option_copied result ≡ past (leaves_of candidate.now.boot.now.structs (Struct n)) cells.now }
{
    let fields = fields_at(candidate, n);
    let mut rest = cells;
    for field in fields {
        match past_object(candidate, field.ty, rest) {
            Some(after) => rest = after,
            None => return None,
        }
    }
    Some(rest)
}

// The same for so many objects.
#[cycle(walk)]
fn past_items<'c>(
    candidate: &Candidate<'_>,
    item: VarTy,
    count: u32,
    cells: &'c [i128],
) -> Option<&'c [i128]>
    ensures { option_copied result ≡ past (repeated count (leaves_of candidate.now.boot.now.structs item)) cells.now }
{
    let mut rest = cells;
    for _ in 0..count {
        match past_object(candidate, item, rest) {
            Some(after) => rest = after,
            None => return None,
        }
    }
    Some(rest)
}

fn past_integer(t: IntType, cells: &[i128]) -> Option<&[i128]>
    ensures { option_copied result ≡ past (t ∷ []) cells.now }
{
    match cells {
        [] => None,
        [cell, rest @ ..] => {
            if !is_of(t, *cell) {
                return None;
            }
            Some(rest)
        }
    }
}

// Whether the number is one of the type.
fn is_of(t: IntType, number: i128) -> bool
    ensures { result ≡ is_in_range t number }
{
    in_range(t, number)
}

// What a struct comes to where it has one field: it has the same integers, and stands below.
fn only_field(candidate: &Candidate<'_>, n: u32) -> Option<VarTy>
    ensures leaves { IfSome result (λ ty. leaves_of candidate.now.boot.now.structs ty ≡ leaves_of candidate.now.boot.now.structs (Struct n)) }
    ensures below { IfSome result (λ ty. rank ty < rank (Struct n)) }
{
    only_at(candidate.shapes.as_slice(), n)
}

// The fields of a struct, which stand below it; none where there is none of this number.
fn fields_at<'a>(candidate: &Candidate<'a>, n: u32) -> &'a [Field]
    ensures is { result.now ≡ fields_of candidate.now.boot.now.structs n }
    ensures below { All (λ f. rank f.ty < 4 * n + 3) result.now }
{
    struct_fields(candidate.boot.structs.as_slice(), n)
}

fn struct_fields(structs: &[StructInfo], n: u32) -> &[Field]
    ensures { result.now ≡ fields_of structs.now n }
{
    match structs.get(n as usize) {
        Some(info) => info.fields.as_slice(),
        None => &[],
    }
}
