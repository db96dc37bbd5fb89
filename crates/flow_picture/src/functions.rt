// What functions and hosts return.
ghost use Rattle.std.specs.Prelude.{◌≡◌};
ghost use Rattle.reach.specs.Contexts.{test_function};
ghost use Rattle.reach.specs.Tables.{function_id};
ghost use Rattle.typed_tree.specs.TypedTree.{view_function};
ghost use Rattle.typed_tree.specs.TypedView.{view_typed};
ghost use Rattle.flow_picture.specs.Objects as is;

use crate::node::Node;
use host_models::is_mixed;
use pt_base::FnId;
use reach::function_at;
use typed_tree::{Typed, TypedFn};

// whether it returns something
fn returns_value(function: &TypedFn) -> bool
    ensures { result ≡ is.returns_value (view_function function.now) }
{
    function.signature.result.is_some()
}

// whether the monitor does it for the slave
fn is_asked(function: &TypedFn) -> bool
    ensures { result ≡ is.is_asked (view_function function.now) }
{
    function.signature.privileged || (function.body.is_none() && is_mixed(&function.signature))
}

/// Whether what the function or host of this number returns has a node, if it is used.
pub(crate) fn has_result(t: &Typed, f: FnId) -> bool
    ensures { result ≡ test_function is.has_result (view_typed t.now) f }
{
    match function_at(t, f) {
        Some(function) => returns_value(function) || is_asked(function),
        None => false,
    }
}

// whether the function or host of this number returns something
fn has_result_value(t: &Typed, f: FnId) -> bool
    ensures { result ≡ test_function is.returns_value (view_typed t.now) f }
{
    match function_at(t, f) {
        Some(function) => returns_value(function),
        None => false,
    }
}

// whether the monitor does the function or host of this number for the slave
fn is_asked_at(t: &Typed, f: FnId) -> bool
    ensures { result ≡ test_function is.is_asked (view_typed t.now) f }
{
    match function_at(t, f) {
        Some(function) => is_asked(function),
        None => false,
    }
}

/// Whether values come to an object.
pub(crate) fn has_values(t: &Typed, node: Node) -> bool
    ensures { result ≡ is.has_values (view_typed t.now) node }
{
    match node {
        Node::Global(_) => true,
        Node::Variable { .. } => true,
        Node::Result(function) => has_result_value(t, FnId(function)),
    }
}

/// Whether a node stands in the cluster of the monitor.
pub(crate) fn is_monitors(t: &Typed, node: Node) -> bool
    ensures { result ≡ is.is_monitors (view_typed t.now) node }
{
    match node {
        Node::Global(_) => false,
        Node::Variable { .. } => false,
        Node::Result(function) => is_asked_at(t, FnId(function)),
    }
}
