// A parsed program, and what is known of each.
ghost use Rattle.std.specs.Prelude.{◌<◌, ◌^◌, map, IsTrue};
ghost use Rattle.pt_tree.specs.ProgramTree.{view_item};
ghost use Rattle.pt_tree.specs.Nodes.{nodes_of};
ghost use Rattle.pt_tree.specs.Facts.{items_sound};

use crate::program::Item;

/// A parsed program. It has fewer than 4,194,304 nodes, where a node is each part with a span of its
/// own, the value of each constant in it is in the range of the constant's type, and no word in it
/// is longer than 1,048,576 bytes.
#[derive(Drop)]
pub struct Program {
    pub items: Vec<Item>,
    pub ghost few: { nodes_of (map view_item items.items) < 2 ^ 22 },
    pub ghost sound: { IsTrue (items_sound (map view_item items.items)) },
}
