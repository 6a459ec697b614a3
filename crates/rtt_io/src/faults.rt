//! Counts of faults.
ghost use Rattle.std.specs.Prelude.{◌≡◌};
ghost use Rattle.rtt_io.specs.Counts.{counted};

/// Two counts of faults: those of calls that open something, and those of what was opened.
#[derive(Clone, Copy, Debug, PartialEq, Eq)]
pub struct Faults {
    pub own: u64,
    pub objects: u64,
}

impl Faults {
    /// No fault.
    pub fn none() -> Faults
        ensures { result ≡ record { own = 0; objects = 0 } }
    {
        Faults { own: 0, objects: 0 }
    }

    /// One fault of a call that opens something.
    pub fn one_own() -> Faults
        ensures { result ≡ record { own = 1; objects = 0 } }
    {
        Faults { own: 1, objects: 0 }
    }

    /// So many faults of what was opened.
    pub fn of_objects(objects: u64) -> Faults
        ensures { result ≡ record { own = 0; objects = objects } }
    {
        Faults { own: 0, objects }
    }

    /// These, and so many more.
    pub fn and(self, more: Faults) -> Faults
        ensures own { result.own ≡ counted self.own more.own }
        ensures objects { result.objects ≡ counted self.objects more.objects }
    {
        Faults {
            own: self.own.saturating_add(more.own),
            objects: self.objects.saturating_add(more.objects),
        }
    }
}
