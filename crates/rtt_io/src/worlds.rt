//! What sources and sinks are opened in.
ghost use Rattle.std.specs.Prelude.{◌≡◌, ℕ, ◌≤◌, List, [], ◌++◌, Option, OnOk, OnErr, OnSome, IfOk, IfSome};
ghost use Rattle.rtt_io.specs.Counts.{Rose};
ghost use Rattle.rtt_io.specs.Fronts.{TakesFront};
ghost use Rattle.rtt_io.specs.Names.{Same, SameBut, NoneFalls, CountsMore, CountsNoOther, Replaces};

use crate::{Sink, Source};
use rtt_base::Failed;

/// What holds octets under names. Each source and sink that it gives is handed back by its `done_` call.
pub trait World: Sync {
    type Src: Source + Send;

    type Dst: Sink + Send;

    /// What a sink is to be given at once. One that is let go leaves nothing behind.
    type Part: Sink + Send + Drop;

    /// Whether worlds of this type tell what is under a name. Those over real files don't.
    ghost tells: { Type 0 };

    /// The octets under a name, where there are any.
    ghost contents: { Self → List ℕ → Option (List ℕ) };

    /// How often a call that opens or creates this name failed.
    ghost own_faults: { Self → List ℕ → ℕ };

    /// How often the sources and sinks of this name that were handed back had failed.
    ghost object_faults: { Self → List ℕ → ℕ };

    /// Opens what is under a name for reading.
    fn open_source(&mut self, name: &str) -> Result<Self::Src, Failed>
        ensures own_never_falls { NoneFalls own_faults self.old self.new }
        ensures failed { OnErr result (Rose (own_faults self.old name.now) (own_faults self.new name.now)) }
        ensures same_objects { Same object_faults self.old self.new }

        ensures calm { OnOk result (Same own_faults self.old self.new) }
        ensures named { IfOk result (λ source. Self.Src.name source ≡ name.now) }
        ensures fresh { IfOk result (λ source. Self.Src.faults source ≡ 0) }
        ensures told { tells → OnOk result Self.Src.tells }
        ensures holds { tells → IfOk result (λ source. contents self.old name.now ≡ Some (Self.Src.left source)) }
        ensures no_other { tells → OnErr result (CountsNoOther contents own_faults name.now self.old self.new) }
        ensures same_contents { tells → Same contents self.old self.new };

    /// Creates what is under a name anew, empty, for writing. After `Failed` it is as before.
    fn create_sink(&mut self, name: &str) -> Result<Self::Dst, Failed>
        ensures own_never_falls { NoneFalls own_faults self.old self.new }
        ensures failed { OnErr result (Rose (own_faults self.old name.now) (own_faults self.new name.now)) }
        ensures same_objects { Same object_faults self.old self.new }

        ensures calm { OnOk result (Same own_faults self.old self.new) }
        ensures named { IfOk result (λ sink. Self.Dst.name sink ≡ name.now) }
        ensures fresh { IfOk result (λ sink. Self.Dst.faults sink ≡ 0) }
        ensures told { tells → OnOk result Self.Dst.tells }
        ensures nothing_taken { tells → IfOk result (λ sink. Self.Dst.took sink ≡ []) }
        ensures emptied { tells → OnOk result (contents self.new name.now ≡ Some []) }
        ensures other_contents { tells → SameBut name.now contents self.old self.new }
        ensures unchanged { tells → OnErr result (Same contents self.old self.new) };

    /// Takes back a source, and adds its faults to those of its name.
    fn done_src(&mut self, source: Self::Src)
        ensures same_own { Same own_faults self.old self.new }
        ensures objects_never_fall { NoneFalls object_faults self.old self.new }
        ensures calm { Self.Src.faults source ≡ 0 → Same object_faults self.old self.new }
        ensures added { CountsMore object_faults (Self.Src.name source) (Self.Src.faults source) self.old self.new }
        ensures no_other { tells → CountsNoOther contents object_faults (Self.Src.name source) self.old self.new }
        ensures same_contents { tells → Same contents self.old self.new };

    /// Takes back a sink, puts what is stored of it under its name, and adds its faults to those of its name.
    fn done_dst(&mut self, sink: Self::Dst)
        ensures same_own { Same own_faults self.old self.new }
        ensures objects_never_fall { NoneFalls object_faults self.old self.new }
        ensures calm { Self.Dst.faults sink ≡ 0 → Same object_faults self.old self.new }
        ensures added { CountsMore object_faults (Self.Dst.name sink) (Self.Dst.faults sink) self.old self.new }
        ensures stored { tells → Replaces contents (Self.Dst.name sink) (Self.Dst.stored sink) self.old self.new }
        ensures other_contents { tells → SameBut (Self.Dst.name sink) contents self.old self.new };

    /// An empty part, where one can be made beside what lies under the name, which stays.
    fn part(&self, name: &str) -> Option<Self::Part>
        ensures told { tells → OnSome result Self.Part.tells }
        ensures nothing_taken { tells → IfSome result (λ part. Self.Part.took part ≡ []) };

    /// Gives a sink all that a part took, and stores it behind what the sink took.
    fn give(&mut self, part: Self::Part, sink: &mut Self::Dst) -> Result<(), Failed>
        ensures same_own { Same own_faults self.old self.new }
        ensures same_objects { Same object_faults self.old self.new }
        ensures same_contents { tells → Same contents self.old self.new }
        ensures never_falls { Self.Dst.faults sink.old ≤ Self.Dst.faults sink.new }
        ensures failed { OnErr result (Rose (Self.Dst.faults sink.old) (Self.Dst.faults sink.new)) }
        ensures same_name { Self.Dst.name sink.new ≡ Self.Dst.name sink.old }
        ensures calm { OnOk result (Self.Dst.faults sink.new ≡ Self.Dst.faults sink.old) }
        ensures stored { tells → OnOk result
            (Self.Dst.stored sink.new ≡ Self.Dst.took sink.old ++ Self.Part.took part) }
        ensures partly { tells →
            OnErr result (TakesFront (Self.Dst.took sink.old) (Self.Dst.stored sink.new) (Self.Part.took part)) };
}
