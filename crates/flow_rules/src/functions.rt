// What functions and parameters are.
ghost use Rattle.std.specs.Prelude.{◌≡◌, ◌&&◌, false};
ghost use Rattle.std.specs.List.{list_any};
ghost use Rattle.std.specs.Option.{option_map_or};
ghost use Rattle.typed_tree.specs.TypedTree.{view_function};
ghost use Rattle.typed_tree.specs.TypedView.{view_typed};
ghost use Rattle.flow_rules.specs.Findings as is;

use pt_base::FnId;
use pt_tree::Param;
use reach::function_at;
use typed_tree::{Typed, TypedFn, is_main};

// the function has this parameter, and it isn't marked
fn is_unmarked(f: &TypedFn, k: usize) -> bool
    ensures { result ≡ is.is_unmarked_param (view_function f.now) k }
{
    match f.signature.params.as_slice().get(k) {
        Some(param) => !param.marked,
        None => false,
    }
}

// a host of the slave
fn is_slave_host(f: &TypedFn) -> bool
    ensures { result ≡ is.is_slave_host (view_function f.now) }
{
    f.body.is_none() && !f.signature.privileged
}

// a host of the slave has this parameter, and it isn't marked
fn is_shown(f: &TypedFn, k: usize) -> bool
    ensures { result ≡ (is.is_slave_host (view_function f.now) && is.is_unmarked_param (view_function f.now) k) }
{
    is_slave_host(f) && is_unmarked(f, k)
}

// a privileged function or host has this parameter, and it isn't marked
fn is_plain(f: &TypedFn, k: usize) -> bool
    ensures { result ≡ (f.now.signature.privileged && is.is_unmarked_param (view_function f.now) k) }
{
    f.signature.privileged && is_unmarked(f, k)
}

/// Whether the argument of this number of a call of this function is shown to a host of the slave.
pub(crate) fn is_shown_parameter(t: &Typed, g: FnId, k: usize) -> bool
    ensures { result ≡ is.function_is (λ x. is.is_slave_host x && is.is_unmarked_param x k) (view_typed t.now) g }
{
    match function_at(t, g) {
        Some(function) => is_shown(function, k),
        None => false,
    }
}

/// Whether the argument of this number of a call of this function is sent to the monitor as it is.
pub(crate) fn is_plain_parameter(t: &Typed, g: FnId, k: usize) -> bool
    ensures { result ≡ is.function_is (λ x. x.signature.privileged && is.is_unmarked_param x k) (view_typed t.now) g }
{
    match function_at(t, g) {
        Some(function) => is_plain(function, k),
        None => false,
    }
}

/// Whether this is main.
pub(crate) fn is_main_function(f: &TypedFn) -> bool
    ensures { result ≡ is.is_main_function (view_function f.now) }
{
    is_main(&f.signature)
}

/// Whether this is the number of main.
pub(crate) fn is_main_number(t: &Typed, f: FnId) -> bool
    ensures { result ≡ is.function_is is.is_main_function (view_typed t.now) f }
{
    match function_at(t, f) {
        Some(function) => is_main_function(function),
        None => false,
    }
}

// whether one of these parameters is marked
fn has_marked(params: &[Param]) -> bool
    ensures { result ≡ list_any (λ q. q.marked) params.now }
{
    for param in params {
        if param.marked {
            return true;
        }
    }
    false
}

// a host of the slave that no parameter makes a mixed one
fn is_plain_host(f: &TypedFn) -> bool
    ensures { result ≡ is.is_plain_host (view_function f.now) }
{
    is_slave_host(f) && !has_marked(f.signature.params.as_slice())
}

/// Whether this is the number of a host of the slave that no parameter makes a mixed one.
pub(crate) fn is_plain_host_number(t: &Typed, g: FnId) -> bool
    ensures { result ≡ is.function_is is.is_plain_host (view_typed t.now) g }
{
    match function_at(t, g) {
        Some(function) => is_plain_host(function),
        None => false,
    }
}
