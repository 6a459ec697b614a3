//! What a leg offers, and what is let go of it.
ghost use Rattle.std.specs.Prelude.{◌≡◌, not, nat_le, ◌<◌, true, false};
ghost use Rattle.stream_spec.specs.Ready.{chunk_of};
ghost use Rattle.mix_loop.specs.Items.{IsOf, is_open};
ghost use Rattle.mix_loop.specs.Mixers.{Keeps};
ghost use Rattle.mix_loop.specs.Ports.{OnlyHand, SameSeat, PortIsSound};
ghost use Rattle.mix_loop.specs.Steps.{Drained, Offered, Pulled, Took};

use crate::ports::{Port, counts};
use crate::{Inlet, MixerCalls};
use rtt_base::Chunk;
use std::sync::Wait;

/// Whether a text may be mixed at the moment `now`.
fn is_ready(chunk: &Chunk, now: u64) -> bool
    ensures { result ≡ nat_le chunk.now.ready now }
{
    chunk.ready <= now
}

/// Offers a text, where it is ready, and answers whether it is taken.
fn take<M: MixerCalls>(mixer: &mut M, chunk: &Chunk, now: u64) -> bool
    requires source { chunk.now.source < M.legs mixer.old }
    requires text { IsOf chunk.now.source (chunk_of chunk.now) }
    ensures keeps { Keeps M.legs M.turns M.addresses mixer.old mixer.new }
    ensures taken { Took M.stands (chunk_of chunk.now) now result mixer.old mixer.new }
{
    if !is_ready(chunk, now) {
        return false;
    }
    mixer.offer(chunk).is_ok()
}

impl<I: Inlet> Port<I> {
    /// Asks for the next text, with an empty hand. It becomes one of the leg with this number, and is passed over where it is not
    /// ready within the leg's stay.
    fn pull<R: Wait>(&mut self, rt: &R, leg: usize)
        requires leg { leg < 256 }
        requires open { is_open self.old.ended ≡ true }
        requires empty { self.old.full ≡ false }
        requires sound { PortIsSound I.good leg self.old }
        ensures sound { PortIsSound I.good leg self.new }
        ensures same { SameSeat self.old self.new }
        ensures pulled { Pulled I.stands leg self.old self.new }
    {
        let item = self.inlet.next(rt, &mut self.hand);
        self.hand.source = leg as u8;
        self.full = counts(&item, &self.hand, self.stay);
        self.ended = item.ended();
    }

    /// Offers the text in hand, and lets it go where it is taken, as is answered.
    fn offer<M: MixerCalls>(&mut self, mixer: &mut M, now: u64) -> bool
        requires source { self.old.hand.source < M.legs mixer.old }
        requires text { IsOf self.old.hand.source (chunk_of self.old.hand) }
        ensures only { OnlyHand self.old self.new }
        ensures full { self.new.full ≡ not result }
        ensures keeps { Keeps M.legs M.turns M.addresses mixer.old mixer.new }
        ensures taken { Took M.stands (chunk_of self.old.hand) now result mixer.old mixer.new }
    {
        let taken = take(mixer, &self.hand, now);
        self.full = !taken;
        taken
    }

    /// Offers what comes of the leg with this number, until a text is not taken, or nothing comes any more.
    pub(crate) fn gather<R: Wait, M: MixerCalls>(
        &mut self,
        rt: &R,
        mixer: &mut M,
        leg: usize,
        now: u64,
    )
        requires few { leg < 256 }
        requires leg { leg < M.legs mixer.old }
        requires sound { PortIsSound I.good leg self.old }
        ensures sound { PortIsSound I.good leg self.new }
        ensures same { SameSeat self.old self.new }
        ensures keeps { Keeps M.legs M.turns M.addresses mixer.old mixer.new }
        ensures gathered { Offered I.stands M.stands leg now self.old self.new mixer.old mixer.new }
    {
        for _ in rt.forever() {
            if !self.full {
                if !self.ended.is_open() {
                    return;
                }
                self.pull(rt, leg);
                continue;
            }
            if !self.offer(mixer, now) {
                return;
            }
        }
        unreachable!()
    }

    /// Lets go what comes until nothing comes any more.
    pub(crate) fn drain<R: Wait>(&mut self, rt: &R, leg: usize)
        requires few { leg < 256 }
        requires sound { PortIsSound I.good leg self.old }
        ensures sound { PortIsSound I.good leg self.new }
        ensures same { SameSeat self.old self.new }
        ensures closed { is_open self.new.ended ≡ false }
        ensures drained { Drained I.stands leg self.old self.new }
    {
        for _ in rt.forever() {
            if !self.ended.is_open() {
                return;
            }
            self.full = false;
            self.pull(rt, leg);
        }
        unreachable!()
    }
}
