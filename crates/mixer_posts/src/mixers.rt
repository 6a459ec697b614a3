//! A mixer with where its posts go.
ghost use Rattle.std.specs.Prelude.{◌≡◌};
ghost use Rattle.mixer.specs.States.{sources_of};

use crate::PostSink;
use crate::posts::send_posts;
use link_io::Beat;
use mix_loop::MixerCalls;
use mixer::{Batch, Mixer};
use rtt_base::{Chunk, Full};
use std::marker::Model;

/// The mixer of a conference, with what its last turn sent, and where that goes.
#[derive(Drop)]
pub struct SendingMixer<O: PostSink> {
    mixer: Mixer,
    batch: Batch,
    outbound: O,
}

impl<O: PostSink> Model for SendingMixer<O> {
    ghost use Rattle.mixer_posts.specs.States.{IsForEach, SendingState};

    ghost Value = { SendingState O };

    ghost view = { λ m. record { mixer = m.mixer; outbound = m.outbound } };

    ghost invariant = { λ m. IsForEach O.sources (record { mixer = m.mixer; outbound = m.outbound }) };
}

impl<O: PostSink> SendingMixer<O> {
    /// This mixer, whose posts go there, where each terminal has as many sources as for the mixer. The batch has room for those
    /// of a turn.
    pub fn new(mixer: Mixer, batch: Batch, outbound: O) -> SendingMixer<O>
        requires { O.sources outbound ≡ sources_of mixer }
        ensures mixer { result.mixer ≡ mixer }
        ensures outbound { result.outbound ≡ outbound }
    {
        SendingMixer {
            mixer,
            batch,
            outbound,
        }
    }

    /// Where the posts went.
    pub fn into_outbound(self) -> O
        ensures { result ≡ self.outbound }
    {
        let SendingMixer {
            mixer: _,
            batch: _,
            outbound,
        } = self;
        outbound
    }
}

impl<O: PostSink> MixerCalls for SendingMixer<O> {
    ghost use Rattle.mixer_posts.specs.Standing.{HaltsFor, SendsFor};
    ghost use Rattle.mixer.specs.States.{legs_of};

    type Fault = O::Fault;

    type Clock = O::Clock;

    ghost stands = { λ m s payload_types calls. SendsFor O.took O.sources O.horizon m s payload_types calls };

    ghost halted = { λ m s payload_types calls now. HaltsFor O.halted m s payload_types calls now };

    ghost legs = { λ m. legs_of m.mixer };

    ghost turns = { λ m. m.mixer.turns };

    ghost addresses = { λ m. O.addresses m.outbound };

    ghost horizon = { O.horizon };

    ghost unsent = { λ m why. O.unsent m.outbound why };

    fn admit(&mut self, leg: usize, listens: bool) -> bool {
        self.mixer.admit(leg, listens)
    }

    fn hush(&mut self, leg: usize) {
        self.mixer.hush(leg);
    }

    fn leave(&mut self, leg: usize) -> bool {
        self.mixer.leave(leg)
    }

    fn offer(&mut self, chunk: &Chunk) -> Result<(), Full> {
        let _octets = chunk.text.as_slice();
        self.mixer.offer(chunk)
    }

    fn turn(&mut self, now: u64, beat: &Beat<'_, O::Clock>) -> Result<(), O::Fault> {
        self.mixer.turn(now, &mut self.batch);
        send_posts(now, beat, self.batch.posts(), &mut self.outbound)
    }

    fn idle(&self) -> bool {
        self.mixer.idle()
    }
}
