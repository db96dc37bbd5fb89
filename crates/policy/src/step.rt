// Where a rule leads.

/// The number of a rule's next state, and the place of the next rule of the same state and function.
#[derive(Clone, Copy)]
pub(crate) struct Step {
    pub to: u32,
    pub following: Option<u32>,
}
