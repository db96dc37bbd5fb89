// Graphs, and how far each slot is from a seed.
use anyhow::{Context, Result, bail};
use propagation::propagate;
use pt_base::{Edge, Slot, Span};
use std::alloc::Global;

/// The row `N slots, seeds A .., edges A-B ..` with the number of edges on the path that is shown for
/// each slot, `-` where it isn't privileged.
///
/// # Errors
///
/// A row of another form, and want of memory.
pub fn paths(alloc: Global, row: &str) -> Result<String> {
    let (slots, rest) = row.split_once(" slots, seeds").context("no slots")?;
    let (seeds, edges) = rest.split_once(", edges").context("no edges")?;
    let slots = slots.parse::<u64>()?;
    let seeds = seeds_of(alloc, seeds)?;
    let edges = edges_of(alloc, edges)?;
    if !seeds.iter().all(|s| s.0 < slots)
        || !edges.iter().all(|e| e.from.0 < slots)
        || !edges.iter().all(|e| e.to.0 < slots)
    {
        bail!("no such slot");
    }
    let marks = propagate(alloc, &seeds, &edges, slots)?;
    let mut text = format!(in alloc; "paths {row} =>")?;
    for slot in 0..slots {
        match marks.path_to(alloc, Slot(slot))? {
            Some(path) if marks.is_priv(Slot(slot)) => write!(text, " {}", path.len())?,
            None if !marks.is_priv(Slot(slot)) => text.push_str(" -")?,
            _ => bail!("a mark without a path"),
        }
    }
    Ok(text)
}

fn seeds_of(alloc: Global, words: &str) -> Result<Vec<Slot>> {
    let mut seeds = Vec::new(alloc);
    for word in words.split_whitespace() {
        seeds.push(Slot(word.parse::<u64>()?))?;
    }
    Ok(seeds)
}

fn edges_of(alloc: Global, words: &str) -> Result<Vec<Edge>> {
    let mut edges = Vec::new(alloc);
    for word in words.split_whitespace() {
        let (from, to) = word.split_once("-").context("no edge")?;
        edges.push(Edge {
            from: Slot(from.parse::<u64>()?),
            to: Slot(to.parse::<u64>()?),
            span: Span { from: 0, to: 0 },
        })?;
    }
    Ok(edges)
}
