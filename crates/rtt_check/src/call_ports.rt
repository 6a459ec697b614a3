//! What ports are tried in.
ghost use Rattle.std.specs.Prelude.{◌≡◌, ℕ, List, Option, IfOk};
ghost use Rattle.report_spec.specs.declared.ports.PortFault.{PortFault};

use report_spec::PortFault;
use rtt_base::NoMemory;

/// What ports are tried in. What could be had is kept, as in a call, until all of it is let go. No packet is sent.
pub trait Ports {
    /// Whether it tells what its ports answer. Those of a real machine don't.
    ghost tells: { Type 0 };

    /// Why the port can't be had for a link to this peer, where it can't.
    ghost answers: { Self → ℕ → List ℕ → Option PortFault };

    /// How many are kept.
    ghost kept: { Self → ℕ };

    /// Tries a port, for a link to this peer, and answers why it can't be had, where it can't.
    fn try_port(&mut self, port: u16, to: &str) -> Result<Option<PortFault>, NoMemory>
        ensures answered { tells → IfOk result (λ found. found ≡ answers self.old port to.now) }
        ensures same { tells → answers self.new ≡ answers self.old };

    /// Lets go of all that is kept.
    fn let_go(&mut self)
        ensures none { kept self.new ≡ 0 }
        ensures same { tells → answers self.new ≡ answers self.old };
}
