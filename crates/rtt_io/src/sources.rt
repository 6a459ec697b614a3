//! What is read from.
ghost use Rattle.std.specs.Prelude.{◌≡◌, ℕ, ◌<◌, ◌≤◌, List, [], ◌++◌, length, take, Ok, OnErr, OnOk, IfOk};
ghost use Rattle.rtt_io.specs.Counts.{Rose};

use rtt_base::Failed;

/// Something that octets are read from, in order, to its end.
pub trait Source {
    /// Whether sources of this type tell what they hold. Those over real files don't.
    ghost tells: { Type 0 };

    /// The octets that are still to be read.
    ghost left: { Self → List ℕ };

    /// How often it failed.
    ghost faults: { Self → ℕ };

    /// The name that it was opened under.
    ghost name: { Self → List ℕ };

    /// Reads the next octets into the front of `buf` and answers how many. 0 is the end. What is behind them in
    /// `buf` may change too. After `Failed` what is left is as before.
    fn read(&mut self, buf: &mut [u8]) -> Result<usize, Failed>
        requires { 0 < length buf.old }
        ensures never_falls { faults self.old ≤ faults self.new }
        ensures failed { OnErr result (Rose (faults self.old) (faults self.new)) }
        ensures fits { IfOk result (λ n. n ≤ length buf.new) }
        ensures same_name { name self.new ≡ name self.old }
        ensures calm { OnOk result (faults self.new ≡ faults self.old) }

        ensures given { tells → IfOk result (λ n. left self.old ≡ take n buf.new ++ left self.new) }
        ensures ended { tells → result ≡ Ok 0 → left self.old ≡ [] }
        ensures unchanged { tells → OnErr result (left self.new ≡ left self.old) };
}
