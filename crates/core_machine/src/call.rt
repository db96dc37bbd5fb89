// Calls.
use block_memory::Cell;
use core_code::ValueCode;
use pt_base::Span;

/// A call as its instruction says it: its arguments are code.
#[derive(Clone, Copy)]
pub(crate) struct CallCode<'a> {
    /// The number of the function that is called.
    pub(crate) callee: u32,
    pub(crate) args: &'a [ValueCode],
    /// The variable for its result, if there is one.
    pub(crate) result: Option<u32>,
    /// Where the call stands in the text.
    pub(crate) span: Span,
    /// Where the caller goes on.
    pub(crate) next: usize,
}

/// A call whose arguments are computed.
#[derive(Drop)]
pub(crate) struct Call {
    /// The number of the function that is called.
    pub(crate) callee: u32,
    pub(crate) args: Vec<Cell>,
    /// The variable for its result, if there is one.
    pub(crate) result: Option<u32>,
    /// Where the call stands in the text.
    pub(crate) span: Span,
}

/// A call that was asked for: whose it is, and the variable for its result, if there is one.
#[derive(Clone, Copy)]
pub(crate) struct Awaited {
    pub(crate) callee: u32,
    pub(crate) result: Option<u32>,
}
