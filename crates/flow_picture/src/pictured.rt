// A picture.
use flow_rules::FlowFault;
use pt_base::Listed;

/// The picture of a program's flows.
#[derive(Drop)]
pub struct Pictured {
    /// Its text, in the language DOT.
    pub picture: Vec<u8>,
    /// The faults of flows that it shows, by where they begin, then by where they end, then by the number of the
    /// rule; none where the program breaks no rule.
    pub faults: Listed<FlowFault>,
}
