//! Where a leg's packets come from.
ghost use Rattle.std.specs.Prelude.{◌<◌, ◌^◌, IfErr, IfOk};
ghost use Rattle.stream_spec.specs.Links.{Takes};
ghost use Rattle.link_io.specs.Taking.{taken_of};
ghost use Rattle.live_leg.specs.Arriving.{ComesMore, FailsThen};

use link_io::LinkTake;
use rtt_base::Packet;

/// Where a leg's packets come from, as the inbound end of a link.
pub trait Arrivals {
    /// Why nothing more comes, where it is not closed.
    type Fault: Copy;

    /// From the first of these to the second these takes came, newest first.
    ghost came: { Self → Self → Takes → Type 0 };

    /// The same, and behind them it failed so.
    ghost failed: { Self → Self → Takes → Self.Fault → Type 0 };

    /// Tells what came, and puts the octets of a datagram in place of what is in `out`. What was closed says `Closed` again.
    fn take(&mut self, out: &mut Packet) -> Result<LinkTake, Self::Fault>
        ensures early { IfOk result (λ t. t.at < 2 ^ 48) }
        ensures came { IfOk result (λ t. ComesMore came self.old self.new (taken_of t out.new)) }
        ensures failed { IfErr result (FailsThen came failed self.old self.new) };
}
