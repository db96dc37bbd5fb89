// What a candidate's numbers name, and the test of a body.
ghost use Rattle.std.specs.Prelude.{◌≡◌, IsTrue, false, is_some, map, nat_eq};
ghost use Rattle.std.specs.List.{list_any};
ghost use Rattle.std.specs.Option.{option_copied};
ghost use Rattle.pt_tree.specs.declared.signature.Signature.{Signature};
ghost use Rattle.pt_core.specs.CodeTree.{stmt_trees, view_boot, view_function, view_stmt};
ghost use Rattle.pt_core.specs.WellFormed as well;
ghost use Rattle.pt_core.specs.WellFormedStatement.{stmts_fit};
ghost use Rattle.code_rules.specs.Scopes.{are_ordered};
ghost use Rattle.boot_rules.specs.Tests.{host_numbers};

use crate::candidate::Candidate;
use code_rules::{Names, Scope, body_fits, signature_of};
use pt_base::{FnId, IntType};
use pt_core::CoreFn;
use pt_tree::Signature;

// What the candidate's code names.
fn names_of<'a>(candidate: &Candidate<'a>) -> Names<'a>
    ensures structs { result.structs.now ≡ candidate.now.boot.now.structs }
    ensures globals { result.globals.now ≡ candidate.now.boot.now.globals }
    ensures signatures { result.signatures.now ≡ candidate.now.boot.now.signatures }
    ensures ordered { IsTrue (are_ordered result) }
{
    let boot = candidate.boot;
    Names {
        structs: boot.structs.as_slice(),
        globals: boot.globals.as_slice(),
        signatures: boot.signatures.as_slice(),
    }
}

/// The signature of the function or host of this number.
pub(crate) fn signature_at<'a>(candidate: &Candidate<'a>, f: FnId) -> Option<&'a Signature>
    ensures { option_copied result ≡ well.signature_at (well.boot_program (view_boot candidate.now.boot.now)) f.0 }
{
    let names = names_of(candidate);
    signature_of(&names, f)
}

/// Whether there is a function of this number.
pub(crate) fn is_function(candidate: &Candidate<'_>, f: FnId) -> bool
    ensures { result ≡ is_some (well.function_at (well.boot_program (view_boot candidate.now.boot.now)) f.0) }
{
    let functions = candidate.boot.functions.as_slice();
    functions
        .binary_search_by_key(&f.0, |function| function.id.0)
        .is_ok()
}

/// Whether there is a model for the host of this number.
pub(crate) fn has_model(candidate: &Candidate<'_>, f: FnId) -> bool
    ensures { result ≡ list_any (nat_eq f.0) (host_numbers (view_boot candidate.now.boot.now)) }
{
    let hosts = candidate.boot.hosts.as_slice();
    hosts.binary_search_by_key(&f.0, |host| host.0.0).is_ok()
}

/// Whether the body of a function with this result is well formed.
pub(crate) fn has_fitting_body(
    candidate: &Candidate<'_>,
    function: &CoreFn,
    result_type: Option<IntType>,
) -> bool
    ensures { (s : Signature) → s.result ≡ result_type → result ≡ stmts_fit (well.scope_of false (well.boot_program (view_boot candidate.now.boot.now)) (view_function function.now) s) false (stmt_trees (map view_stmt function.now.body.items)) }
{
    let names = names_of(candidate);
    let scope = Scope {
        names: &names,
        variables: function.vars.as_slice(),
        result: result_type,
    };
    body_fits(&scope, &function.body)
}
