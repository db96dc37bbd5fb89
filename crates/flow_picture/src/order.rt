// Nodes and arrows in order.
ghost use Rattle.std.specs.List.Sorted.{IsPermutation, IsSorted, IsStrictlySortedBy};
ghost use Rattle.flow_rules.specs.Faults.{span_cmp};
ghost use Rattle.flow_picture.specs.Arrows.{arrow_cmp};
ghost use Rattle.flow_picture.specs.Kept.{HasSame};
ghost use Rattle.flow_picture.specs.Nodes.{node_cmp};

use crate::arrow::Arrow;
use crate::node::Node;
use pt_base::Span;

/// Puts nodes in order, and leaves each once.
pub(crate) fn arrange_nodes(nodes: &mut Vec<Node>)
    ensures sorted { IsStrictlySortedBy node_cmp nodes.new.items }
    ensures same { HasSame nodes.new.items nodes.old.items }
{
    nodes.sort_unstable();
    nodes.dedup();
}

/// Puts arrows in order, and leaves each once.
pub(crate) fn arrange_arrows(arrows: &mut Vec<Arrow>)
    ensures sorted { IsStrictlySortedBy arrow_cmp arrows.new.items }
    ensures same { HasSame arrows.new.items arrows.old.items }
{
    arrows.sort_unstable();
    arrows.dedup();
}

/// Puts stretches of the text in order.
pub(crate) fn arrange_spans(spans: &mut Vec<Span>)
    ensures sorted { IsSorted span_cmp spans.new.items }
    ensures moved { IsPermutation spans.old.items spans.new.items }
{
    spans.sort_unstable();
}
