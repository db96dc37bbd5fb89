// Rules by their state and function.
use crate::step::Step;
use pt_base::FnId;
use std::collections::HashMap;

/// The place of the first rule of each state and function, and where each rule leads.
#[derive(Drop)]
pub(crate) struct RuleIndex {
    pub heads: HashMap<(u32, u32), u32>,
    pub steps: Vec<Step>,
}

impl RuleIndex {
    ghost use Rattle.std.specs.Prelude.{◌≡◌, ◌<◌, length, slice_get};
    ghost use Rattle.policy.specs.Places.{head_at};

    /// The place of the first rule of the state of this number and of the function.
    pub fn first(&self, state: u32, f: FnId) -> Option<u32>
        ensures { result ≡ head_at self.now.heads.entries state f.0 }
    {
        self.heads.get(&(state, f.0)).copied()
    }

    /// Where the rule at this place leads.
    pub fn step(&self, place: usize) -> Step
        requires { place < length self.now.steps.items }
        ensures { slice_get self.now.steps.items place ≡ Some result }
    {
        self.steps[place]
    }
}
