// The slots that were reached, and how each was.
ghost use Rattle.std.specs.Prelude.{◌≡◌, is_some, map};
ghost use Rattle.propagation.specs.Reached.{AreEarlier};

/// By which edge a slot was reached, and from which reached slot, by its place in the order.
#[derive(Clone, Copy)]
pub struct Step {
    pub edge: u32,
    pub parent: u32,
}

/// A slot that was reached: by a step, or as a seed.
#[derive(Clone, Copy)]
pub struct Found {
    pub slot: u32,
    pub by: Option<Step>,
}

/// The slots that were reached, in the order of reaching, and each slot's place in that order. Whether a
/// slot has a place also stands apart: it is asked for each edge, and takes an eighth of a place's memory.
#[derive(Drop)]
pub struct Reached {
    pub marked: Vec<bool>,
    pub places: Vec<Option<u32>>,
    pub order: Vec<Found>,
    ghost earlier: { AreEarlier places.items order.items },
    ghost agreed: { marked.items ≡ map is_some places.items },
}
