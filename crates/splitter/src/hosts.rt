// The hosts that the slave calls itself, and what it may ask the monitor for.
ghost use Rattle.std.specs.Prelude.{◌≡◌, ◌++◌, IfOk, OnOk, map};
ghost use Rattle.reach.specs.Tables.{item_if, set_all};
ghost use Rattle.typed_tree.specs.TypedView.{view_typed};
ghost use Rattle.splitter.specs.Halves as is;
ghost use Rattle.splitter.specs.Sets.{function_numbers, is_set};

use crate::number_set::NumberSet;
use host_models::is_mixed;
use pt_base::{FnId, Listed, next_number};
use pt_core::Entry;
use pt_tree::Signature;
use std::alloc::{AllocError, Global};
use typed_tree::Typed;

// whether it is a host that the slave calls itself
fn is_slave_host(called: bool, signature: &Signature) -> bool
    ensures { result ≡ is.is_slave_host called signature.now }
{
    signature.host && !signature.privileged && called
}

// whether the slave may ask for it
fn is_entry(called: bool, signature: &Signature) -> bool
    ensures { result ≡ is.is_entry called signature.now }
{
    (signature.privileged || (signature.host && is_mixed(signature))) && called
}

fn add_host(wanted: bool, f: FnId, hosts: &mut Vec<FnId>) -> Result<(), AllocError>
    ensures { OnOk result (function_numbers hosts.new.items ≡ function_numbers hosts.old.items ++ item_if wanted f.0) }
{
    if wanted {
        hosts.push(f)?;
    }
    Ok(())
}

/// The hosts that the slave's functions call and that aren't privileged. The set has what they call.
pub(crate) fn slave_hosts(
    alloc: Global,
    t: &Typed,
    called: &NumberSet,
) -> Result<Listed<FnId>, AllocError>
    ensures { IfOk result (λ hosts. function_numbers hosts ≡ is.slave_hosts (is_set called.now) (view_typed t.now)) }
{
    let mut hosts = Vec::new(alloc);
    let mut number: u32 = 0;
    let functions = t.functions.as_slice();
    for function in functions {
        let wanted = is_slave_host(called.has(number), &function.signature);
        add_host(wanted, FnId(number), &mut hosts)?;
        number = next_number(number)?;
    }
    Ok(Listed::new(hosts))
}

// adds an entry that shares nothing
fn add_entry(
    alloc: Global,
    wanted: bool,
    f: FnId,
    entries: &mut Vec<Entry>,
) -> Result<(), AllocError>
    ensures { OnOk result (entries.new.items ≡ entries.old.items ++ item_if wanted (is.entry_of f)) }
{
    if wanted {
        entries.push(Entry {
            function: f,
            shared: Listed::new(Vec::new(alloc)),
        })?;
    }
    Ok(())
}

/// What the slave may ask for, where its functions call those of the set.
pub(crate) fn entries_of(
    alloc: Global,
    t: &Typed,
    called: &NumberSet,
) -> Result<Listed<Entry>, AllocError>
    ensures { IfOk result (λ entries. entries ≡ is.entries_of (is_set called.now) (view_typed t.now)) }
{
    let mut entries = Vec::new(alloc);
    let mut number: u32 = 0;
    let functions = t.functions.as_slice();
    for function in functions {
        let wanted = is_entry(called.has(number), &function.signature);
        add_entry(alloc, wanted, FnId(number), &mut entries)?;
        number = next_number(number)?;
    }
    Ok(Listed::new(entries))
}

/// Adds the functions and hosts of entries to a set of numbers.
pub(crate) fn add_entries(entries: &[Entry], set: &mut NumberSet)
    ensures { set.new ≡ set_all set.old (is.entry_numbers entries.now) }
{
    for entry in entries {
        set.add(entry.function.0);
    }
}
