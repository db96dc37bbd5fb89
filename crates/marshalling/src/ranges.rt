// The ranges of a call whose cells come back.
ghost use Rattle.std.specs.Prelude.{◌≡◌, ℕ, false, IsTrue, IfOk, OnOk, length, slice_get};
ghost use Rattle.marshalling.specs.Crossings.{crossing_by, crossing_of, is_secret, leaf_crossing, sealed_if, stronger};
ghost use Rattle.marshalling.specs.Leaves.{has_structs, is_elem, is_pointee, name_earlier, range_leaves};
ghost use Rattle.marshalling.specs.Ranges.{IsRange, crossing_among, crossing_in};

use crate::crossing::Crossing;
use crate::leaf::Leaf;
use crate::leaves::element_cells;
use crate::range::Range;
use pt_tree::{Elem, Param, ParamKind};
use std::alloc::{AllocError, Global};
use typed_tree::StructInfo;
use wire::Arg;

/// The ranges of these arguments whose cells come back.
pub(crate) fn ranges_of(
    alloc: Global,
    structs: &[StructInfo],
    params: &[Param],
    args: &[Arg],
) -> Result<Vec<Range>, AllocError>
    requires { IsTrue (has_structs structs.now params.now) }
    ensures { IfOk result (λ v. crossing_among v.items ≡ crossing_of structs.now params.now args.now) }
{
    let mut ranges = Vec::new(alloc);
    for (i, param) in params.iter().enumerate() {
        if i >= args.len() {
            return Ok(ranges);
        }
        let range = range_of(alloc, structs, param, args[i])?;
        add_range(&mut ranges, range)?;
    }
    Ok(ranges)
}

fn add_range(ranges: &mut Vec<Range>, range: Option<Range>) -> Result<(), AllocError>
    ensures { OnOk result ((crossing : ℕ → ℕ → Crossing) → IsRange range crossing → (k i : ℕ) → crossing_among ranges.new.items k i
        ≡ stronger (crossing_among ranges.old.items k i) (crossing k i)) }
{
    if let Some(range) = range {
        ranges.push(range)?;
    }
    Ok(())
}

// The range of an argument whose cells come back, if there is one.
fn range_of(
    alloc: Global,
    structs: &[StructInfo],
    param: &Param,
    arg: Arg,
) -> Result<Option<Range>, AllocError>
    requires known { IsTrue (is_pointee (length structs.now) param.now.kind) }
    requires earlier { IsTrue (name_earlier 0 structs.now) }
    ensures { IfOk result (λ range. IsRange range (crossing_by structs.now (is_secret param.now) param.now.kind arg)) }
{
    match param.kind {
        ParamKind::Int(_) => Ok(None),
        ParamKind::Ptr { elem, fixed } => {
            if fixed {
                return Ok(None);
            }
            pointed_range(alloc, structs, elem, param.marked && !param.declassify, arg)
        }
    }
}

fn pointed_range(
    alloc: Global,
    structs: &[StructInfo],
    elem: Elem,
    secret: bool,
    arg: Arg,
) -> Result<Option<Range>, AllocError>
    requires known { IsTrue (is_elem (length structs.now) elem) }
    requires earlier { IsTrue (name_earlier 0 structs.now) }
    ensures { IfOk result (λ range. IsRange range (crossing_by structs.now secret (ParamKind.Ptr elem false) arg)) }
{
    match arg {
        Arg::Number(_) | Arg::Sealed(_) | Arg::Null => Ok(None),
        Arg::At {
            block,
            base,
            count,
            ..
        } => Ok(Some(Range {
            block,
            base,
            secret,
            leaves: range_cells(alloc, structs, elem, count)?,
        })),
    }
}

fn range_cells(
    alloc: Global,
    structs: &[StructInfo],
    elem: Elem,
    count: u32,
) -> Result<Vec<Leaf>, AllocError>
    requires known { IsTrue (is_elem (length structs.now) elem) }
    requires earlier { IsTrue (name_earlier 0 structs.now) }
    ensures { IfOk result (λ v. v.items ≡ range_leaves structs.now elem count) }
{
    let element = element_cells(alloc, structs, elem)?;
    let mut leaves = Vec::new(alloc);
    for _ in 0..count {
        leaves.extend_from_slice(element.as_slice())?;
    }
    Ok(leaves)
}

/// How a cell comes back.
pub(crate) fn crossing_at(ranges: &[Range], block: usize, cell: usize) -> Crossing
    ensures { result ≡ crossing_among ranges.now block cell }
{
    let mut crossing = Crossing::Stays;
    for range in ranges {
        crossing = stronger_of(crossing, by_range(range, block, cell));
    }
    crossing
}

fn by_range(range: &Range, block: usize, cell: usize) -> Crossing
    ensures { result ≡ crossing_in range.now block cell }
{
    let base = range.base as usize;
    if range.block as usize == block && base <= cell {
        by_leaf(range.secret, range.leaves.as_slice(), cell - base)
    } else {
        Crossing::Stays
    }
}

fn by_leaf(secret: bool, leaves: &[Leaf], at: usize) -> Crossing
    ensures { result ≡ leaf_crossing secret (slice_get leaves.now at) }
{
    match leaves.get(at).copied() {
        Some(leaf) => sealed_or_plain(leaf.marked || secret),
        None => Crossing::Stays,
    }
}

/// As a handle where it is secret, else as a number.
pub(crate) fn sealed_or_plain(secret: bool) -> Crossing
    ensures { result ≡ sealed_if secret }
{
    if secret {
        Crossing::Sealed
    } else {
        Crossing::Plain
    }
}

fn stronger_of(a: Crossing, b: Crossing) -> Crossing
    ensures { result ≡ stronger a b }
{
    match a {
        Crossing::Sealed => Crossing::Sealed,
        Crossing::Plain => match b {
            Crossing::Sealed => Crossing::Sealed,
            Crossing::Plain | Crossing::Stays => Crossing::Plain,
        },
        Crossing::Stays => b,
    }
}
