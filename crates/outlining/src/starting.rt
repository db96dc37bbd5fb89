// A host table and a policy to start from.
ghost use Rattle.std.specs.Prelude.{◌≡◌, ◌++◌, IfOk, OnOk, codes};
ghost use Rattle.reach.specs.Tables.{item_if};
ghost use Rattle.typed_tree.specs.TypedView.{view_typed};
ghost use Rattle.outlining.specs.Added.{AddsPolicy, AddsTable};
ghost use Rattle.outlining.specs.OutlineTexts as is;

use crate::lines::push_name;
use pt_base::FnId;
use pt_core::Entry;
use starting_texts::{StartingPolicy, StartingTable, starting_policy, starting_table};
use std::alloc::{AllocError, Global};
use typed_tree::Typed;

// appends that no host table fits, for this host
fn push_unfit(t: &Typed, host: FnId, text: &mut Vec<u8>) -> Result<(), AllocError>
    ensures { OnOk result (text.new.items ≡ text.old.items ++ is.unfit_line (is.name_of (view_typed t.now) host.0)) }
{
    text.extend_from_slice(b"no host table fits ")?;
    push_name(t, host, text)?;
    text.extend_from_slice(b", which takes secrets, isn't priv and gives nothing back\n")?;
    Ok(())
}

// appends a host table, and ends its line
fn push_text(bytes: &[u8], text: &mut Vec<u8>) -> Result<(), AllocError>
    ensures { OnOk result (text.new.items ≡ text.old.items ++ (bytes.now ++ codes "\n")) }
{
    text.extend_from_slice(bytes)?;
    text.push(b'\n')?;
    Ok(())
}

// appends a host table, or why there is none
fn push_table_lines(t: &Typed, table: &StartingTable, text: &mut Vec<u8>) -> Result<(), AllocError>
    ensures { OnOk result (text.new.items ≡ text.old.items ++ is.table_lines (view_typed t.now) table.now) }
{
    match table {
        StartingTable::Text(bytes) => push_text(bytes.as_slice(), text),
        StartingTable::NoneFits(host) => push_unfit(t, *host, text),
        StartingTable::TooLong => text.extend_from_slice(b"the host table would be too long\n"),
    }
}

/// Appends a host table to start from.
pub(crate) fn push_table(alloc: Global, t: &Typed, text: &mut Vec<u8>) -> Result<(), AllocError>
    ensures { OnOk result (AddsTable (view_typed t.now) text.old.items text.new.items) }
{
    let table = starting_table(alloc, t)?;
    text.extend_from_slice(b"hosts\n")?;
    push_table_lines(t, &table, text)?;
    Ok(())
}

// whether a function or host is privileged
fn is_guarded(t: &Typed, function: FnId) -> bool
    ensures { result ≡ is.is_guarded (view_typed t.now) function }
{
    match t.signature(function) {
        Some(signature) => signature.privileged,
        None => false,
    }
}

// adds a function or host, where it is privileged
fn add_guarded(t: &Typed, function: FnId, list: &mut Vec<FnId>) -> Result<(), AllocError>
    ensures { OnOk result (list.new.items ≡ list.old.items ++ item_if (is.is_guarded (view_typed t.now) function) function) }
{
    if is_guarded(t, function) {
        list.push(function)?;
    }
    Ok(())
}

// the privileged ones of entries
fn guarded_in(alloc: Global, t: &Typed, entries: &[Entry]) -> Result<Vec<FnId>, AllocError>
    ensures { IfOk result (λ v. v.items ≡ is.guarded_in (view_typed t.now) entries.now) }
{
    let mut list = Vec::new(alloc);
    for entry in entries {
        add_guarded(t, entry.function, &mut list)?;
    }
    Ok(list)
}

// appends a policy, or that there is none
fn push_policy_lines(policy: &StartingPolicy, text: &mut Vec<u8>) -> Result<(), AllocError>
    ensures { OnOk result (text.new.items ≡ text.old.items ++ is.policy_lines policy.now) }
{
    match policy {
        StartingPolicy::Text(bytes) => text.extend_from_slice(bytes.as_slice()),
        StartingPolicy::TooLong => text.extend_from_slice(b"the policy would be too long\n"),
    }
}

/// Appends a policy to start from, for what the slave may ask the monitor for.
pub(crate) fn push_policy(
    alloc: Global,
    t: &Typed,
    entries: &[Entry],
    text: &mut Vec<u8>,
) -> Result<(), AllocError>
    ensures { OnOk result (AddsPolicy (view_typed t.now) (is.guarded_in (view_typed t.now) entries.now) text.old.items text.new.items) }
{
    let guarded = guarded_in(alloc, t, entries)?;
    let policy = starting_policy(alloc, t, guarded.as_slice())?;
    text.extend_from_slice(b"policy\n")?;
    push_policy_lines(&policy, text)?;
    Ok(())
}
