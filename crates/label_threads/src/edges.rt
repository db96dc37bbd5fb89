// The label edges of all functions.
ghost use Rattle.std.specs.Prelude.{◌≡◌, ◌<◌, ◌++◌, ℕ, All, IfOk, IsTrue, OnOk, length, map, slice_index_or, vec_len};
ghost use Rattle.std.specs.List.{flat_map, list_all};
ghost use Rattle.pt_core.specs.CodeTree.{MonitorTree, view_monitor};
ghost use Rattle.pt_core.specs.WellFormed.{is_well_formed_monitor};
ghost use Rattle.function_runs.specs.Runs.{IsWithin, part};
ghost use Rattle.function_runs.specs.declared.neighbours.Run.{Run};
ghost use Rattle.monitor_labels.specs.Labels.{all_label_edges};
ghost use Rattle.monitor_labels.specs.NodesView.{AreNodes};
ghost use Rattle.label_threads.specs.OwnLabels.{AreLabels, is_within, labels_of, number_in};

use function_runs::{Run, append, joined, runs_of};
use monitor_labels::{Nodes, label_edges};
use pt_base::{Edge, FnId, Listed, Watch};
use pt_core::{CoreFn, MonitorProgram};
use std::alloc::{AllocError, Global};
use std::thread;
use std::thread::Threads;

// a program whose functions have label edges, and which threads may share
trait Labelled: Sync {
    ghost tree: { Self → MonitorTree };

    // the label edges of a function
    fn own_edges(&self, alloc: Global, nodes: &Nodes, f: FnId) -> Result<Vec<Edge>, AllocError>
        requires well_formed { IsTrue (is_well_formed_monitor (tree self.now)) }
        requires nodes { AreNodes (tree self.now) nodes.now }
        ensures { IfOk result (λ v. v.items ≡ labels_of (tree self.now) f) };
}

impl Labelled for MonitorProgram {
    ghost tree = { view_monitor };

    fn own_edges(&self, alloc: Global, nodes: &Nodes, f: FnId) -> Result<Vec<Edge>, AllocError> {
        label_edges(alloc, self, nodes, f)
    }
}

// the numbers of functions
fn numbers(alloc: Global, functions: &[CoreFn]) -> Result<Vec<FnId>, AllocError>
    ensures { IfOk result (λ fs. fs.items ≡ map number_in functions.now) }
{
    let mut list = Vec::with_capacity(alloc, functions.len())?;
    for function in functions {
        list.push(function.id)?;
    }
    Ok(list)
}

// adds the label edges of a function
fn add_labels<P: Labelled>(
    alloc: Global,
    p: &P,
    nodes: &Nodes,
    f: FnId,
    edges: &mut Vec<Edge>,
) -> Result<(), AllocError>
    requires well_formed { IsTrue (is_well_formed_monitor (P.tree p.now)) }
    requires nodes { AreNodes (P.tree p.now) nodes.now }
    ensures { OnOk result (edges.new.items ≡ edges.old.items ++ labels_of (P.tree p.now) f) }
{
    let own = p.own_edges(alloc, nodes, f)?;
    append(edges, own)
}

// those of these functions, of each of which the watch is told as the work begins
fn labels_of_run<P: Labelled, W: Watch>(
    alloc: Global,
    p: &P,
    nodes: &Nodes,
    functions: &[FnId],
    watch: &W,
) -> Result<Vec<Edge>, AllocError>
    requires well_formed { IsTrue (is_well_formed_monitor (P.tree p.now)) }
    requires nodes { AreNodes (P.tree p.now) nodes.now }
    ensures { IfOk result (λ v. AreLabels (P.tree p.now) functions.now v.items) }
{
    let mut edges = Vec::new(alloc);
    for f in functions {
        watch.begin(*f);
        add_labels(alloc, p, nodes, *f, &mut edges)?;
    }
    Ok(edges)
}

// what each run of the functions gives, in threads
fn label_parts<R: Threads + Sync, P: Labelled, W: Watch>(
    rt: &R,
    alloc: Global,
    p: &P,
    nodes: &Nodes,
    functions: &[FnId],
    runs: Vec<Run>,
    watch: &W,
) -> Result<Vec<Result<Vec<Edge>, AllocError>>, AllocError>
    requires well_formed { IsTrue (is_well_formed_monitor (P.tree p.now)) }
    requires nodes { AreNodes (P.tree p.now) nodes.now }
    requires within { All (IsWithin (length functions.now)) runs.items }
    ensures len { IfOk result (λ v. vec_len v ≡ vec_len runs) }
    ensures each { IfOk result (λ v. (i : ℕ) (d : _) (e : Run) → i < vec_len runs →
        IfOk (slice_index_or v.items i d) (λ w. AreLabels (P.tree p.now) (part functions.now (slice_index_or runs.items i e)) w.items)) }
{
    thread::map_vec(
        rt,
        runs,
        &|run: Run| -> Result<Vec<Edge>, AllocError>
            requires { IsWithin (length functions.now) run × IsTrue (is_well_formed_monitor (P.tree p.now)) × AreNodes (P.tree p.now) nodes.now }
            ensures { IfOk result (λ v. AreLabels (P.tree p.entry.now) (part functions.entry.now run) v.items) }
        { labels_of_run(alloc, p, nodes, &functions[run.from..run.to], watch) },
    )
}

// the same, without the fact that all join nodes
fn labels_joined<R: Threads + Sync, W: Watch>(
    rt: &R,
    alloc: Global,
    p: &MonitorProgram,
    nodes: &Nodes,
    watch: &W,
) -> Result<Vec<Edge>, AllocError>
    requires well_formed { IsTrue (is_well_formed_monitor (view_monitor p.now)) }
    requires nodes { AreNodes (view_monitor p.now) nodes.now }
    ensures { IfOk result (λ es. es.items ≡ all_label_edges (view_monitor p.now)) }
{
    let functions = numbers(alloc, &p.functions)?;
    let runs = runs_of(alloc, functions.len())?;
    let parts = label_parts(rt, alloc, p, nodes, functions.as_slice(), runs, watch)?;
    let edges = joined(alloc, parts)?;
    Ok(edges)
}

// whether both ends of each edge are numbered below this
fn are_within(edges: &[Edge], count: u64) -> bool
    ensures { result ≡ list_all (is_within count) edges.now }
{
    for edge in edges {
        if edge.from.0 >= count || edge.to.0 >= count {
            return false;
        }
    }
    true
}

/// The label edges of all functions of a monitor's program, in the order of the functions. They are found by at most
/// eight threads at once; where a thread can't be started, its work is done by the caller. The watch is told of each
/// function, by its number, as the work on it begins, and whatever it does, the answer is the same.
///
/// # Errors
///
/// Want of memory alone; so would be an edge that doesn't join two nodes, which there is none of.
pub fn labels_all<R: Threads + Sync, W: Watch>(
    rt: &R,
    alloc: Global,
    p: &MonitorProgram,
    nodes: &Nodes,
    watch: &W,
) -> Result<Listed<Edge>, AllocError>
    requires well_formed { IsTrue (is_well_formed_monitor (view_monitor p.now)) }
    requires nodes { AreNodes (view_monitor p.now) nodes.now }
    ensures edges { IfOk result (λ es. es ≡ all_label_edges (view_monitor p.now)) }
    ensures froms { IfOk result (λ es. All (λ e. e.from.0 < nodes.now.count) es) }
    ensures tos { IfOk result (λ es. All (λ e. e.to.0 < nodes.now.count) es) }
{
    let edges = labels_joined(rt, alloc, p, nodes, watch)?;
    if !are_within(edges.as_slice(), nodes.count) {
        return Err(AllocError);
    }
    Ok(Listed::new(edges))
}
