//! What files that grow are made in.
ghost use Rattle.std.specs.Prelude.{◌≡◌, ℕ, List, [], Option, Some, None, OnOk, OnErr, IfOk};
ghost use Rattle.rtt_io.specs.Counts.{Rose};
ghost use Rattle.rtt_io.specs.Names.{Same, SameBut, NoneFalls, CountsMore, Replaces};

use rtt_base::Failed;
use rtt_io::Sink;

/// What files are made in that grow while a call runs. Each that it gives is handed back by `done`. What a file takes is in it,
/// under its name, when the call returns that takes it: a program that is ended leaves it there.
pub trait Journals {
    type File: Sink + Send + Drop;

    /// Whether journals of this type tell what is under a name. Those over real files don't.
    ghost tells: { Type 0 };

    /// The octets under a name, where there are any.
    ghost contents: { Self → List ℕ → Option (List ℕ) };

    /// How often a file of this name could not be made.
    ghost own_faults: { Self → List ℕ → ℕ };

    /// How often the files of this name that were handed back had failed.
    ghost object_faults: { Self → List ℕ → ℕ };

    /// Makes a file of this name, empty, where nothing is under the name: what is there is never written over. After `Failed` all
    /// that is under names is as before.
    fn begin(&mut self, name: &str) -> Result<Self::File, Failed>
        ensures own_never_falls { NoneFalls own_faults self.old self.new }
        ensures failed { OnErr result (Rose (own_faults self.old name.now) (own_faults self.new name.now)) }
        ensures same_objects { Same object_faults self.old self.new }

        ensures calm { OnOk result (Same own_faults self.old self.new) }
        ensures named { IfOk result (λ file. Self.File.name file ≡ name.now) }
        ensures fresh { IfOk result (λ file. Self.File.faults file ≡ 0) }
        ensures told { tells → OnOk result Self.File.tells }
        ensures was_free { tells → OnOk result (contents self.old name.now ≡ None) }
        ensures nothing_taken { tells → IfOk result (λ file. Self.File.took file ≡ []) }
        ensures made { tells → OnOk result (contents self.new name.now ≡ Some []) }
        ensures other_contents { tells → SameBut name.now contents self.old self.new }
        ensures unchanged { tells → OnErr result (Same contents self.old self.new) };

    /// Takes back a file, to which nothing more is written: what it took is under its name. Adds its faults to those of its name.
    fn done(&mut self, file: Self::File)
        ensures same_own { Same own_faults self.old self.new }
        ensures objects_never_fall { NoneFalls object_faults self.old self.new }
        ensures calm { Self.File.faults file ≡ 0 → Same object_faults self.old self.new }
        ensures added { CountsMore object_faults (Self.File.name file) (Self.File.faults file) self.old self.new }
        ensures kept { tells → Replaces contents (Self.File.name file) (Self.File.took file) self.old self.new }
        ensures other_contents { tells → SameBut (Self.File.name file) contents self.old self.new };
}
