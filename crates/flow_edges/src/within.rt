// Whether edges join slots of a program.
ghost use Rattle.std.specs.Prelude.{◌≡◌};
ghost use Rattle.std.specs.List.{list_all};
ghost use Rattle.flow_edges.specs.Within.{is_within};

use pt_base::Edge;

/// Whether both ends of each edge are numbered below this.
pub(crate) fn are_within(edges: &[Edge], slots: u64) -> bool
    ensures { result ≡ list_all (is_within slots) edges.now }
{
    for edge in edges {
        if edge.from.0 >= slots || edge.to.0 >= slots {
            return false;
        }
    }
    true
}
