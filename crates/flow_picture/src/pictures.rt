// What is drawn of a text.
ghost use Rattle.std.specs.Prelude.{◌≡◌, [], IfOk, MatchResult, Some, length};
ghost use Rattle.front_end.specs.Reading.{HasTypedTree};
ghost use Rattle.propagation.specs.Marks.{AreMarks};
ghost use Rattle.sides.specs.Placed.{AreSides};
ghost use Rattle.sides.specs.Slots.{slots_of};
ghost use Rattle.typed_tree.specs.TypedView.{view_typed};
ghost use Rattle.usages.specs.Lent.{AreUsages};
ghost use Rattle.flow_rules.specs.Faults.{edges_of_all};
ghost use Rattle.stages.specs.Climb.{alone};
ghost use Rattle.stages.specs.Seen.{IsStop};
ghost use Rattle.flow_picture.specs.Kept.{answered};
ghost use Rattle.flow_picture.specs.Pictures.{IsPictured};
ghost use Rattle.flow_picture.specs.PicturedSeen.{view_pictured};

use crate::drawing::draw;
use crate::objects::find_objects;
use crate::pictured::Pictured;
use flow_rules::{Accepted, FlowError, FlowFault, check_flows};
use propagation::Marks;
use pt_base::{Edge, Listed, Watch};
use sides::Sides;
use stages::{Stop, Traced, trace, typed};
use std::alloc::{AllocError, Global};
use std::thread::Threads;
use typed_tree::Typed;
use usages::{Usages, usages_of};

/// Draws the flows of a program: where values lie, along which they move, where secrets begin and how far they
/// come, and of a program that breaks a rule of flows each fault. The watch is told of each function that has a
/// body, as its edges are made.
///
/// Time and memory are linear in the program, in its slots and edges, in the ways that faults show and in what is
/// written, but for putting faults, nodes and arrows in order and finding nodes.
///
/// # Errors
///
/// The refusal of lexer, parser or types; or want of memory: more than [`MOST_BYTES`](stages::MOST_BYTES) of picture
/// are that too.
pub fn picture<R: Threads + Sync, W: Watch>(
    rt: &R,
    alloc: Global,
    program: &[u8],
    watch: &W,
) -> Result<Pictured, Stop>
    ensures { MatchResult result (λ p. IsPictured (alone program.now) (view_pictured p)) (IsStop [] (alone program.now)) }
{
    let t = typed(alloc, program)?;
    Ok(with_program(rt, alloc, program, &t, watch)?)
}

// What is drawn of a program without faults of types.
fn with_program<R: Threads + Sync, W: Watch>(
    rt: &R,
    alloc: Global,
    program: &[u8],
    t: &Typed,
    watch: &W,
) -> Result<Pictured, AllocError>
    requires { HasTypedTree program.now (view_typed t.now) }
    ensures { IfOk result (λ p. IsPictured (alone program.now) (view_pictured p)) }
{
    let usages = usages_of(alloc, t)?;
    let traced = trace(rt, alloc, t, &usages, watch)?;
    let Traced {
        sides,
        edges,
        marks,
    } = traced;
    with_flows(alloc, program, t, &usages, sides, edges.as_slice(), marks)
}

// What is drawn of a program with these usages, sides, edges and marks.
fn with_flows(
    alloc: Global,
    program: &[u8],
    t: &Typed,
    usages: &Usages<'_>,
    sides: Sides,
    edges: &[Edge],
    marks: Marks,
) -> Result<Pictured, AllocError>
    requires tree { HasTypedTree program.now (view_typed t.now) }
    requires used { AreUsages (view_typed t.now) usages.now }
    requires sides { AreSides (view_typed t.now) sides }
    requires edges { edges.now ≡ edges_of_all (view_typed t.now) sides }
    requires marks { AreMarks sides.seeds edges.now (length (slots_of (view_typed t.now))) marks }
    ensures { IfOk result (λ p. IsPictured (alone program.now) (view_pictured p)) }
{
    let objects = find_objects(alloc, t, usages, &sides, &marks)?;
    let faults = faults_of(alloc, check_flows(alloc, t, usages, sides, edges, marks))?;
    let picture = draw(alloc, program, t, &objects, edges, faults.as_slice())?;
    Ok(Pictured { picture, faults })
}

// the faults that the rules answer, none of a program that is accepted
fn faults_of(
    alloc: Global,
    answer: Result<Accepted, FlowError>,
) -> Result<Listed<FlowFault>, AllocError>
    ensures { IfOk result (λ faults. answered answer ≡ Some faults) }
{
    match answer {
        Ok(_accepted) => Ok(Listed::new(Vec::new(alloc))),
        Err(FlowError::Faults(faults)) => Ok(faults),
        Err(FlowError::Memory) => Err(AllocError),
    }
}
