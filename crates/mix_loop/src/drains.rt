//! What is still in the queues of a live call that has ended.
ghost use Rattle.std.specs.Prelude.{◌≡◌, false};
ghost use Rattle.mix_loop.specs.LivePorts.{Grew};
ghost use Rattle.mix_loop.specs.Walks.{AllGrew, AreAt};

use crate::live_offers::PopAnswer;
use crate::live_ports::LivePort;
use crate::pops::Consumer;
use std::sync::Wait;

/// Whether nothing comes of a leg behind this.
fn is_last(looked: PopAnswer) -> bool {
    matches!(looked, PopAnswer::End | PopAnswer::Fault | PopAnswer::Quit)
}

impl<I: Consumer> LivePort<I> {
    /// Pops the next item, and lets it go. Whether it was the last one.
    fn discard<R: Wait>(&mut self, rt: &R) -> bool
        requires { self.old.full ≡ false }
        ensures empty { self.new.full ≡ false }
        ensures leg { self.new.leg ≡ self.old.leg }
        ensures grew { Grew I.popped I.began self.old self.new }
    {
        let looked = self.pull(rt);
        self.full = false;
        is_last(looked)
    }

    /// Lets go what comes of the leg until its last item was popped, and what is in hand.
    fn drain<R: Wait>(&mut self, rt: &R)
        ensures leg { self.new.leg ≡ self.old.leg }
        ensures grew { Grew I.popped I.began self.old self.new }
    {
        self.full = false;
        if self.ended || self.failed {
            return;
        }
        for _ in rt.forever() {
            if self.discard(rt) {
                return;
            }
        }
        unreachable!()
    }
}

/// Lets go what comes of each leg until its last item was popped, so that none waits for room any more. Each leg's last item comes
/// once it was told to stop.
pub fn drain_all<I: Consumer, R: Wait>(rt: &R, ports: &mut [LivePort<I>])
    requires at { AreAt ports.old }
    ensures at { AreAt ports.new }
    ensures grew { AllGrew I.popped I.began ports.old ports.new }
{
    for leg in 0..ports.len() {
        let port = &mut ports[leg];
        port.drain(rt);
    }
}
