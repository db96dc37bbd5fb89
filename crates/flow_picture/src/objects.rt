// What is found of a program before its rules are asked.
ghost use Rattle.std.specs.Prelude.{IfOk, length};
ghost use Rattle.propagation.specs.Marks.{AreMarks};
ghost use Rattle.sides.specs.Placed.{AreSides};
ghost use Rattle.sides.specs.Slots.{slots_of};
ghost use Rattle.typed_tree.specs.TypedView.{view_typed};
ghost use Rattle.usages.specs.Lent.{AreUsages};
ghost use Rattle.flow_rules.specs.Faults.{edges_of_all};
ghost use Rattle.flow_picture.specs.Kept.{AreObjects};

use crate::node::{Node, nodes_of};
use crate::secrets::{secrets_of, seeds_of};
use crate::uses::objects_of;
use propagation::Marks;
use sides::Sides;
use std::alloc::{AllocError, Global};
use typed_tree::Typed;
use usages::Usages;

/// The objects of a program, each list but the first one in order.
#[derive(Drop)]
pub(crate) struct Objects {
    /// For each slot the object of which it is a part.
    pub nodes: Vec<Node>,
    /// All that would be shown.
    pub all: Vec<Node>,
    /// Those that may hold secrets.
    pub secrets: Vec<Node>,
    /// Those in which secrets begin.
    pub seeds: Vec<Node>,
}

/// The objects of a program of which these are the usages, the sides and the marks. Time is linear in what the slave's functions
/// evaluate and in slots, but for putting nodes in order.
pub(crate) fn find_objects(
    alloc: Global,
    t: &Typed,
    usages: &Usages<'_>,
    sides: &Sides,
    marks: &Marks,
) -> Result<Objects, AllocError>
    requires used { AreUsages (view_typed t.now) usages.now }
    requires sides { AreSides (view_typed t.now) sides.now }
    requires marks { AreMarks sides.now.seeds (edges_of_all (view_typed t.now) sides.now) (length (slots_of (view_typed t.now))) marks.now }
    ensures { IfOk result (λ o. AreObjects (view_typed t.now) (edges_of_all (view_typed t.now) sides.now) o) }
{
    let nodes = nodes_of(alloc, sides.slots.as_slice())?;
    let all = objects_of(alloc, t, usages, sides)?;
    let secrets = secrets_of(alloc, t, sides, marks, nodes.as_slice())?;
    let seeds = seeds_of(alloc, t, sides, nodes.as_slice())?;
    Ok(Objects {
        nodes,
        all,
        secrets,
        seeds,
    })
}
