// A boot that may be well formed.
ghost use Rattle.std.specs.Prelude.{◌≡◌, [], IsTrue};
ghost use Rattle.typed_tree.specs.WellFormed.{structs_sound};
ghost use Rattle.pt_core.specs.CodeTree.{view_boot};
ghost use Rattle.boot_rules.specs.Shapes.{shapes_from};
ghost use Rattle.boot_rules.specs.Tests.{is_in_order};

use crate::shape::Shape;
use pt_core::Boot;

/// A boot whose lists are in the order of their numbers and whose structs are sound, with what is kept
/// of each struct.
#[derive(Drop)]
pub(crate) struct Candidate<'a> {
    pub(crate) boot: &'a Boot,
    pub(crate) shapes: Vec<Shape>,
    pub ghost in_order: { IsTrue (is_in_order (view_boot boot.now)) },
    pub ghost sound: { IsTrue (structs_sound boot.now.structs 0 boot.now.structs) },
    pub ghost known: { shapes.items ≡ shapes_from [] boot.now.structs },
}
