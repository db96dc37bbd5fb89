// A half's program, in which what numbers name is found without a walk.
ghost use Rattle.std.specs.Prelude.{map};
ghost use Rattle.half_trees.specs.Places.{ArePlaces};

use crate::places::Places;
use pt_base::FnId;
use pt_core::{CoreFn, GlobalVar};
use pt_tree::Signature;
use typed_tree::{StructInfo, Var};

/// A half's program, with the places of its functions' and globals' numbers.
#[derive(Drop)]
pub struct Half<'a> {
    pub structs: &'a [StructInfo],
    pub signatures: &'a [(FnId, Signature)],
    pub functions: &'a [CoreFn],
    pub globals: &'a [GlobalVar],
    /// It is the monitor's.
    pub monitor: bool,
    pub(crate) signature_places: Places,
    pub(crate) function_places: Places,
    pub(crate) global_places: Places,
    pub ghost by_signature: { ArePlaces signature_places (map (λ s. s.0.0) signatures.now) },
    pub ghost by_function: { ArePlaces function_places (map (λ f. f.id.0) functions.now) },
    pub ghost by_global: { ArePlaces global_places (map (λ g. g.id.0) globals.now) },
}

/// What numbers name in a function of a half.
#[derive(Clone, Copy)]
pub(crate) struct Scope<'a> {
    pub half: &'a Half<'a>,
    pub variables: &'a [Var],
}
