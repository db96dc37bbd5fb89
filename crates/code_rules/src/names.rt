// What the numbers in code name.
ghost use Rattle.std.specs.Prelude.{◌≡◌, IsTrue, length, map, nat_eq, nat_lt, option_map, slice_get};
ghost use Rattle.std.specs.Map.{lookup};
ghost use Rattle.std.specs.Option.{option_copied};
ghost use Rattle.pt_core.specs.CodeTree.{global, local, view_global};
ghost use Rattle.code_rules.specs.Scopes.{are_ordered, context_of, signature_in};
ghost use Rattle.code_rules.specs.Typing.{rooted};

use pt_base::{FnId, GlobalId, IntType, VarId};
use pt_core::GlobalVar;
use pt_tree::Signature;
use typed_tree::{StructInfo, Var, VarTy};

/// What the numbers in all code of a program name.
#[derive(Clone, Copy)]
pub struct Names<'a> {
    pub structs: &'a [StructInfo],
    /// The globals, in the order of their numbers.
    pub globals: &'a [GlobalVar],
    /// What functions and hosts are called with, in the order of their numbers.
    pub signatures: &'a [(FnId, Signature)],
}

/// What a function's statements are tested by.
#[derive(Clone, Copy)]
pub struct Scope<'a> {
    pub names: &'a Names<'a>,
    pub variables: &'a [Var],
    /// The type of the function's result; None is void.
    pub result: Option<IntType>,
}

/// What a function or host is called with; None where there is none of this number. It is searched
/// for by halves.
pub fn signature_of<'a>(names: &Names<'a>, f: FnId) -> Option<&'a Signature>
    requires { IsTrue (are_ordered names.now) }
    ensures { option_copied result ≡ signature_in names.now f.0 }
{
    let signatures = names.signatures;
    match signatures.binary_search_by_key(&f.0, |entry| entry.0.0) {
        Ok(place) => Some(&signatures[place].1),
        Err(_) => None,
    }
}

/// The type of a global, where there is one of this number.
pub(crate) fn global_type(scope: &Scope<'_>, g: GlobalId) -> Option<VarTy>
    requires { IsTrue (are_ordered scope.now.names.now) }
    ensures { result ≡ rooted (context_of scope.now) (global g.0) }
{
    type_by_number(scope.names, g)
}

// The type of the global of this number.
fn type_by_number(names: &Names<'_>, g: GlobalId) -> Option<VarTy>
    requires { IsTrue (are_ordered names.now) }
    ensures { result ≡ lookup (nat_eq g.0) (map (λ g. (g.id, g.var.ty)) (map view_global names.now.globals.now)) }
{
    let globals = names.globals;
    match globals.binary_search_by_key(&g.0, |global| global.id.0) {
        Ok(place) => Some(globals[place].var.ty),
        Err(_) => None,
    }
}

/// The type of a variable, where there is one of this number.
pub(crate) fn variable_type(scope: &Scope<'_>, v: VarId) -> Option<VarTy>
    ensures { result ≡ rooted (context_of scope.now) (local v.0) }
{
    type_at(scope.variables, v)
}

// The type of the variable of this number.
fn type_at(variables: &[Var], v: VarId) -> Option<VarTy>
    ensures { result ≡ option_map (λ x. x.ty) (slice_get variables.now v.0) }
{
    let variable = variables.get(v.0 as usize)?;
    Some(variable.ty)
}

/// Whether there is a variable of this number.
pub(crate) fn is_variable(scope: &Scope<'_>, v: VarId) -> bool
    ensures { result ≡ nat_lt v.0 (length (context_of scope.now).variables) }
{
    (v.0 as usize) < scope.variables.len()
}
