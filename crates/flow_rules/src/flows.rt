// What the rules look at.
ghost use Rattle.std.specs.Prelude.{◌≡◌, length};
ghost use Rattle.sides.specs.Layouts.{IsLayout};
ghost use Rattle.sides.specs.Slots.{slots_of};
ghost use Rattle.typed_tree.specs.TypedView.{view_typed};

use propagation::Marks;
use sides::Sides;
use typed_tree::Typed;
use usages::Usages;

/// What the rules look at: a program, what its functions evaluate, its halves, and which slots are privileged.
#[derive(Drop)]
pub(crate) struct Flows<'a> {
    pub t: &'a Typed,
    pub usages: &'a Usages<'a>,
    pub sides: &'a Sides,
    pub marks: &'a Marks,
    pub ghost laid: { IsLayout (view_typed t.now) sides.now.layout },
    pub ghost listed: { sides.now.slots ≡ slots_of (view_typed t.now) },
    pub ghost sized: { length marks.now ≡ length sides.now.slots },
}
