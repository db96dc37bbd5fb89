// Members of lists that ascend.
ghost use Rattle.std.specs.Prelude.{◌≡◌};
ghost use Rattle.std.specs.List.Sorted.{IsSorted};
ghost use Rattle.flow_rules.specs.Faults.{span_cmp};
ghost use Rattle.flow_picture.specs.Arrows.{arrow_cmp, is_on};
ghost use Rattle.flow_picture.specs.Kept.{is_told};
ghost use Rattle.flow_picture.specs.Nodes.{is_in, node_cmp};

use crate::arrow::Arrow;
use crate::node::Node;
use pt_base::Span;

/// Whether a node stands among these, which ascend.
pub(crate) fn has_node(nodes: &[Node], node: Node) -> bool
    requires { IsSorted node_cmp nodes.now }
    ensures { result ≡ is_in nodes.now node }
{
    nodes.binary_search(&node).is_ok()
}

/// Whether an arrow stands among these, which ascend.
pub(crate) fn has_arrow(arrows: &[Arrow], arrow: Arrow) -> bool
    requires { IsSorted arrow_cmp arrows.now }
    ensures { result ≡ is_on arrows.now arrow }
{
    arrows.binary_search(&arrow).is_ok()
}

/// Whether a stretch of the text stands among these, which ascend.
pub(crate) fn has_span(spans: &[Span], span: Span) -> bool
    requires { IsSorted span_cmp spans.now }
    ensures { result ≡ is_told spans.now span }
{
    spans.binary_search(&span).is_ok()
}
