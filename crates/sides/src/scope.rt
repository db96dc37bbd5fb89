// What the numbers in a body name.
ghost use Rattle.sides.specs.LeafTables.{IsLeafTable};

use crate::leaf_table::LeafTable;
use crate::objects::Object;
use typed_tree::StructInfo;

/// What the numbers in the body of a function name: structs, globals and its variables as objects, and
/// what functions return by the slot of the first one's.
#[derive(Drop)]
pub struct Scope<'a> {
    pub structs: &'a [StructInfo],
    pub table: &'a LeafTable,
    pub globals: &'a [Object],
    pub variables: &'a [Object],
    pub results: u64,
    pub ghost known: { IsLeafTable structs.now table.now },
}
