// A call as a slave says it.
use wire::CallBody;

/// The body of a call, and whether the slave has to wait for the reply.
#[derive(Drop)]
pub(crate) struct Packed {
    pub(crate) body: CallBody,
    pub(crate) wants: bool,
}
