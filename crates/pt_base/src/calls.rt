// Which calls of an object in memory are to fail.
ghost use Rattle.std.specs.Prelude.{◌≡◌, ◌≤◌, IsTrue};
ghost use Rattle.pt_base.specs.Faults.{Rose};
ghost use Rattle.pt_base.specs.Calls.{next_call, is_listed, faults_after};

/// The calls of an object in memory: the places of those that are to fail, counted from 1, how
/// many came, and how many failed.
#[derive(Drop)]
pub struct Calls {
    fails: Vec<u64>,
    made: u64,
    faults: u64,
}

impl Calls {
    pub(crate) fn new(fails: Vec<u64>) -> Calls
        ensures { result ≡ record { fails = fails; made = 0; faults = 0 } }
    {
        Calls {
            fails,
            made: 0,
            faults: 0,
        }
    }

    // Counts a call, and says whether it is to fail.
    pub(crate) fn fails_now(&mut self) -> bool
        ensures fails { result ≡ is_listed self.old.fails.items self.new.made }
        ensures listed { self.new.fails ≡ self.old.fails }
        ensures made { self.new.made ≡ next_call self.old.made }
        ensures faults { self.new.faults ≡ faults_after result self.old.faults }
        ensures rose { IsTrue result → Rose self.old.faults self.new.faults }
        ensures later { self.old.faults ≤ self.new.faults }
    {
        self.made = self.made.saturating_add(1);
        let fails = self.fails.contains(&self.made);
        if fails {
            self.faults = self.faults.saturating_add(1);
        }
        fails
    }
}
