// What a model answers.
ghost use Rattle.std.specs.Prelude.{◌≡◌, ◌++◌, ℤ, List, IsOk, IfOk, OnOk, OnErr, None, Some, slice_get, unwrap_or, length};
ghost use Rattle.pt_tree.specs.HostStep.{host_step, place_after, input_result};
ghost use Rattle.host_table.specs.Hosts.{bytes_of, count_of};

use crate::writing::{write_line, write_low_bytes};
use pt_tree::HostModel;
use std::alloc::AllocError;

/// Answers a call and moves the model on. Where memory is wanting the model and `out` stay as they
/// are.
pub(crate) fn answer(
    model: &mut HostModel,
    input: &[u8],
    args: &[i128],
    out: &mut Vec<u8>,
) -> Result<Option<i128>, AllocError>
    ensures result { IfOk result (λ o. o ≡ (host_step input.now model.old args.now).result) }
    ensures out { OnOk result (out.new.items ≡ out.old.items ++ bytes_of (host_step input.now model.old args.now).written) }
    ensures next { OnOk result (model.new ≡ (host_step input.now model.old args.now).next) }
    ensures same_model { OnErr result (model.new ≡ model.old) }
    ensures same_out { OnErr result (out.new.items ≡ out.old.items) }
    ensures takes_none { (host_step input.now model.old args.now).written ≡ None → IsOk result }
{
    let result = result_of(model, input, args, out)?;
    advance(model, input);
    Ok(result)
}

// The result of a call, with what it writes.
fn result_of(
    model: &HostModel,
    input: &[u8],
    args: &[i128],
    out: &mut Vec<u8>,
) -> Result<Option<i128>, AllocError>
    ensures result { IfOk result (λ o. o ≡ (host_step input.now model.now args.now).result) }
    ensures out { OnOk result (out.new.items ≡ out.old.items ++ bytes_of (host_step input.now model.now args.now).written) }
    ensures same_out { OnErr result (out.new.items ≡ out.old.items) }
    ensures takes_none { (host_step input.now model.now args.now).written ≡ None → IsOk result }
{
    match model {
        HostModel::Table { rows, other } => Ok(Some(rows.result(args).unwrap_or(*other))),
        HostModel::Feed {
            values,
            other,
            next,
        } => Ok(Some(value_at(values.as_slice(), *next).unwrap_or(*other))),
        HostModel::Input { next } => Ok(Some(input_at(input, *next))),
        HostModel::Bytes => {
            write_low_bytes(args, out)?;
            Ok(None)
        }
        HostModel::Line { name } => {
            write_line(name.as_slice(), args, out)?;
            Ok(None)
        }
    }
}

// Moves the model on to the next call.
fn advance(model: &mut HostModel, input: &[u8])
    ensures { (args : List ℤ) → model.new ≡ (host_step input.now model.old args).next }
{
    let count = count_of(model, input);
    match model {
        HostModel::Feed { next, .. } => *next = place_after(count, *next),
        HostModel::Input { next } => *next = place_after(count, *next),
        HostModel::Table { .. } | HostModel::Bytes | HostModel::Line { .. } => {}
    }
}

// How many answers the model has before it stays at one.
fn count_of(model: &HostModel, input: &[u8]) -> usize
    ensures { result ≡ count_of model.now (length input.now) }
{
    match model {
        HostModel::Feed { values, .. } => values.as_slice().len(),
        HostModel::Input { .. } => input.len(),
        HostModel::Table { .. } | HostModel::Bytes | HostModel::Line { .. } => 0,
    }
}

// The value at this place.
fn value_at(values: &[i128], next: u64) -> Option<i128>
    ensures { result ≡ slice_get values.now next }
{
    values.get(next as usize).copied()
}

// The byte at this place as a number, -1 past the last.
fn input_at(input: &[u8], next: u64) -> i128
    ensures { result ≡ input_result input.now next }
{
    match input.get(next as usize) {
        Some(byte) => i128::from(*byte),
        None => -1,
    }
}

// The place after this one, and the end of the list at its end.
fn place_after(count: usize, next: u64) -> u64
    ensures { result ≡ place_after count next }
{
    if next < count as u64 { next + 1 } else { next }
}
