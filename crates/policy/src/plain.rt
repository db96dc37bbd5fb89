// The plain numbers of a call: those of integer parameters that aren't marked `priv`.
ghost use Rattle.std.specs.Prelude.{◌≡◌, ◌++◌, IfOk, map, if◌then◌else◌};
ghost use Rattle.std.specs.Option.{option_map};
ghost use Rattle.pt_tree.specs.PlainNumbers.{is_plain};
ghost use Rattle.policy.specs.Plain.{is_seen, plain_place};
ghost use Rattle.policy.specs.ProgramRules.{are_seen, plain_range};

use crate::argument::ArgRange;
use crate::rule::PlainRange;
use pt_tree::{Param, ParamKind};
use std::alloc::{AllocError, Global};

/// Whether a call gives a plain number for the parameter: it takes an integer, and isn't marked.
pub fn is_plain(param: &Param) -> bool
    ensures { result ≡ is_plain param.now.kind param.now.marked }
{
    match param.kind {
        ParamKind::Int(_) => !param.marked,
        ParamKind::Ptr { .. } => false,
    }
}

// Whether a call gives a plain number for the parameter at this place.
fn is_seen(params: &[Param], place: u8) -> bool
    ensures { result ≡ is_seen params.now place }
{
    match params.get(usize::from(place)) {
        Some(param) => is_plain(param),
        None => false,
    }
}

// The place of its argument among the plain numbers.
fn plain_place(params: &[Param], place: u8) -> usize
    ensures { result ≡ plain_place params.now place }
{
    params
        .iter()
        .take(usize::from(place))
        .filter(|param| is_plain(param))
        .count()
}

fn plain_range(params: &[Param], range: &ArgRange) -> PlainRange
    ensures { result ≡ plain_range params.now range.now }
{
    PlainRange {
        place: plain_place(params, range.parameter),
        low: range.low,
        high: range.high,
    }
}

/// The ranges, each for its place among the plain numbers, if calls give a plain number for each.
pub(crate) fn plain_ranges(
    alloc: Global,
    params: &[Param],
    ranges: &[ArgRange],
) -> Result<Option<Vec<PlainRange>>, AllocError>
    ensures { IfOk result (λ o. option_map (λ v. v.items) o ≡
        if are_seen params.now ranges.now then Some (map (plain_range params.now) ranges.now) else None) }
{
    let mut plain = Vec::with_capacity(alloc, ranges.len())?;
    for range in ranges {
        if !is_seen(params, range.parameter) {
            return Ok(None);
        }
        plain.push(plain_range(params, range))?;
    }
    Ok(Some(plain))
}
