//! What is written to.
ghost use Rattle.std.specs.Prelude.{◌≡◌, ℕ, ◌≤◌, List, ◌++◌, OnOk, OnErr};
ghost use Rattle.rtt_io.specs.Counts.{Rose};
ghost use Rattle.rtt_io.specs.Fronts.{TakesFront};

use rtt_base::Failed;

/// Something that octets are written to, in order.
pub trait Sink {
    /// Whether sinks of this type tell what they took. Those over real files and terminals don't.
    ghost tells: { Type 0 };

    /// The octets that it took so far.
    ghost took: { Self → List ℕ };

    /// The octets of it that are stored.
    ghost stored: { Self → List ℕ };

    /// How often it failed.
    ghost faults: { Self → ℕ };

    /// The name that it was created under.
    ghost name: { Self → List ℕ };

    /// Takes all octets, as a part of more: they are stored with what `write_all` writes next. After `Failed` it took some of
    /// them from the front, or none.
    fn write_part(&mut self, bytes: &[u8]) -> Result<(), Failed>
        ensures never_falls { faults self.old ≤ faults self.new }
        ensures failed { OnErr result (Rose (faults self.old) (faults self.new)) }
        ensures same_name { name self.new ≡ name self.old }
        ensures calm { OnOk result (faults self.new ≡ faults self.old) }

        ensures appended { tells → OnOk result (took self.new ≡ took self.old ++ bytes.now) }
        ensures prefix { tells → OnErr result (TakesFront (took self.old) (took self.new) bytes.now) }
        ensures partly { tells → OnErr result (TakesFront (took self.old) (stored self.new) bytes.now) };

    /// Writes all octets, and stores them with the parts that came before. After `Failed` it took some of them from the front,
    /// or none.
    fn write_all(&mut self, bytes: &[u8]) -> Result<(), Failed>
        ensures never_falls { faults self.old ≤ faults self.new }
        ensures failed { OnErr result (Rose (faults self.old) (faults self.new)) }
        ensures same_name { name self.new ≡ name self.old }
        ensures calm { OnOk result (faults self.new ≡ faults self.old) }

        ensures appended { tells → OnOk result (took self.new ≡ took self.old ++ bytes.now) }
        ensures prefix { tells → OnErr result (TakesFront (took self.old) (took self.new) bytes.now) }
        ensures stores { tells → OnOk result (stored self.new ≡ took self.new) }
        ensures partly { tells → OnErr result (TakesFront (took self.old) (stored self.new) bytes.now) };
}
