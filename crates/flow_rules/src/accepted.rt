// What is kept of a program that breaks no rule.
use propagation::Marks;
use sides::Sides;

/// The halves and the privileged slots of a program that breaks no rule.
#[derive(Drop)]
pub struct Accepted {
    pub sides: Sides,
    pub marks: Marks,
}

impl Accepted {
    ghost use Rattle.std.specs.Prelude.{◌≡◌};

    /// What each half has.
    pub fn sides(&self) -> &Sides
        ensures { result.now ≡ self.now.sides }
    {
        &self.sides
    }

    /// Which slots are privileged.
    pub fn marks(&self) -> &Marks
        ensures { result.now ≡ self.now.marks }
    {
        &self.marks
    }
}
