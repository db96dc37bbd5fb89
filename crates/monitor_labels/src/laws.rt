// What holds of the nodes of each program.
ghost use Rattle.monitor_labels.specs.Laws.{AuditedResultsAreNodes, NodesAreNumbered};

use crate::nodes::Nodes;

/// The nodes have the numbers from 0 on and below their count, each once, in their order.
pub fn nodes_are_numbered()
    ensures { NodesAreNumbered }
{}

/// What is given by a function whose result is given openly is a node.
pub fn audited_results_are_nodes()
    ensures { AuditedResultsAreNodes }
{}

// what threads may share
fn is_shared<T: Send + Sync>(_shared: &T) {}

/// Nodes may be shared by threads; their type alone decides it. It does nothing.
pub fn nodes_are_shared(nodes: &Nodes) {
    is_shared(nodes);
}
