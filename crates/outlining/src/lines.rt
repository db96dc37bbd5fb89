// The lines of functions, globals and hosts.
ghost use Rattle.std.specs.Prelude.{◌≡◌, ◌++◌, OnOk, map};
ghost use Rattle.pt_core.specs.CodeTree.{view_function, view_global};
ghost use Rattle.typed_tree.specs.TypedView.{view_typed};
ghost use Rattle.outlining.specs.OutlineTexts as is;

use pt_base::FnId;
use pt_core::{CoreFn, GlobalVar};
use stages::room_for;
use std::alloc::AllocError;
use typed_tree::Typed;

/// Appends the name of a function or host.
pub(crate) fn push_name(t: &Typed, function: FnId, text: &mut Vec<u8>) -> Result<(), AllocError>
    ensures { OnOk result (text.new.items ≡ text.old.items ++ is.name_of (view_typed t.now) function.0) }
{
    if let Some(signature) = t.signature(function) {
        text.extend_from_slice(signature.name.as_slice())?;
    }
    Ok(())
}

// appends the line of a function
fn push_function(t: &Typed, function: FnId, text: &mut Vec<u8>) -> Result<(), AllocError>
    ensures { OnOk result (text.new.items ≡ text.old.items ++ is.function_line (view_typed t.now) function.0) }
{
    text.extend_from_slice(b"  function ")?;
    push_name(t, function, text)?;
    text.push(b'\n')?;
    Ok(())
}

/// Appends the lines of functions.
pub(crate) fn push_functions(
    t: &Typed,
    functions: &[CoreFn],
    text: &mut Vec<u8>,
) -> Result<(), AllocError>
    ensures { OnOk result (text.new.items ≡ text.old.items ++ is.functions_text (view_typed t.now) (map view_function functions.now)) }
{
    for function in functions {
        push_function(t, function.id, text)?;
        room_for(text.as_slice())?;
    }
    Ok(())
}

// appends the line of a global of this name
fn push_global(name: &[u8], text: &mut Vec<u8>) -> Result<(), AllocError>
    ensures { OnOk result (text.new.items ≡ text.old.items ++ is.global_line name.now) }
{
    text.extend_from_slice(b"  global ")?;
    text.extend_from_slice(name)?;
    text.push(b'\n')?;
    Ok(())
}

/// Appends the lines of globals.
pub(crate) fn push_globals(globals: &[GlobalVar], text: &mut Vec<u8>) -> Result<(), AllocError>
    ensures { OnOk result (text.new.items ≡ text.old.items ++ is.globals_text (map view_global globals.now)) }
{
    for global in globals {
        push_global(global.var.name.as_slice(), text)?;
        room_for(text.as_slice())?;
    }
    Ok(())
}

// appends the line of a host
fn push_host(t: &Typed, host: FnId, text: &mut Vec<u8>) -> Result<(), AllocError>
    ensures { OnOk result (text.new.items ≡ text.old.items ++ is.host_line (view_typed t.now) host.0) }
{
    text.extend_from_slice(b"  host ")?;
    push_name(t, host, text)?;
    text.push(b'\n')?;
    Ok(())
}

/// Appends the lines of hosts.
pub(crate) fn push_hosts(t: &Typed, hosts: &[FnId], text: &mut Vec<u8>) -> Result<(), AllocError>
    ensures { OnOk result (text.new.items ≡ text.old.items ++ is.hosts_text (view_typed t.now) (map (λ f. f.0) hosts.now)) }
{
    for host in hosts {
        push_host(t, *host, text)?;
        room_for(text.as_slice())?;
    }
    Ok(())
}
