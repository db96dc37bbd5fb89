// Calls as they were said.
use pt_base::FnId;
use wire::CallBody;

/// What a slave asks for.
#[derive(Clone, Copy)]
pub(crate) struct Call<'a> {
    /// The turns that the slave has taken by now.
    pub turns: u64,
    pub function: FnId,
    pub depth: u8,
    pub wants: bool,
    pub body: &'a CallBody,
}
