// What a monitor has besides its program.
use crate::bench::Bench;
use handle_store::Store;
use policy::Policy;

/// Where a monitor stands.
#[derive(Drop)]
pub(crate) struct State {
    pub bench: Bench,
    /// What each handle stands for.
    pub store: Store,
    pub policy: Policy,
    /// The guarded calls that were allowed.
    pub calls: u64,
    /// The turns that calls took here, each for itself and for its body.
    pub turns: u64,
    /// The turns that the slave had taken by its last message.
    pub last: u64,
    /// The turns that both may take together.
    pub budget: u64,
}
