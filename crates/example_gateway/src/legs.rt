//! A leg of a gateway.
ghost use Rattle.std.specs.Prelude.{◌≡◌, ◌<◌, true, false, length};
ghost use Rattle.std.specs.Str.{is_utf8};
ghost use Rattle.receiver.specs.Hears.{IsGiving, is_quiet};
ghost use Rattle.mixer.specs.States.{legs_of};
ghost use Rattle.example_gateway.specs.Mixers.{IsSame};
ghost use Rattle.rtt_base.specs.declared.limits.TheConstants.{END_OF_MOMENTS};

use file_spec::Conference;
use mixer::Mixer;
use receiver::{Ear, EarSettings, TextCut};
use rtt_base::limits::MOST_ARRIVALS;
use rtt_base::{Chunk, Full, NoMemory};
use std::alloc::Global;

/// A leg: its ear, and the text that is offered to the mixer next.
#[derive(Drop)]
pub(crate) struct Leg {
    ear: Ear,
    next: Chunk,
    /// Whether there is a next text.
    waits: bool,
    ghost giving: { ∥ IsGiving ear ∥₁ },
    ghost text: { waits ≡ true → is_utf8 next.text ≡ true },
}

/// What became of the next text of a leg.
#[derive(Clone, Copy, Debug, PartialEq, Eq)]
enum OfferAnswer {
    /// There is none.
    Nothing,
    /// The mixer took it.
    Taken,
    /// It waits for room.
    Waits,
}

impl Leg {
    /// The leg with this number, of which nothing came.
    pub(crate) fn new(alloc: Global, conference: &Conference, leg: usize) -> Result<Leg, NoMemory>
        requires { leg < length conference.now.legs }
    {
        let line = &conference.legs.as_slice()[leg];
        let ear = EarSettings {
            ssrc: line.ssrc,
            payload_types: line.payload_types,
            wait: u64::from(conference.wait),
            long: line.long,
            cut: TextCut::within(conference.mtu),
        };
        Ok(Leg {
            ear: Ear::new(alloc, ear, &[ear.ssrc])?,
            next: Chunk::default(),
            waits: false,
        })
    }

    /// Hears the next text, unless one waits. Whether there is one now.
    fn listen(&mut self) -> bool
        ensures waits { result ≡ true → self.new.waits ≡ true }
        ensures quiet { result ≡ false → is_quiet self.new.ear ≡ true }
    {
        if !self.waits {
            self.waits = self.ear.next(&mut self.next);
        }
        self.waits
    }

    /// Offers the next text.
    fn offer(&mut self, leg: u8, mixer: &mut Mixer) -> OfferAnswer
        requires leg { leg < legs_of mixer.old }
        ensures quiet { result ≡ OfferAnswer.Nothing → is_quiet self.new.ear ≡ true }
        ensures same { IsSame mixer.old mixer.new }
    {
        if !self.listen() {
            return OfferAnswer::Nothing;
        }
        self.next.source = leg;
        self.waits = mixer.offer(&self.next).is_err();
        if self.waits {
            OfferAnswer::Waits
        } else {
            OfferAnswer::Taken
        }
    }
}

impl Leg {
    /// Offers all that is heard, as far as the mixer has room. Whether nothing is left.
    fn offer_all(&mut self, leg: u8, mixer: &mut Mixer) -> bool
        requires leg { leg < legs_of mixer.old }
        ensures quiet { result ≡ true → is_quiet self.new.ear ≡ true }
        ensures same { IsSame mixer.old mixer.new }
    {
        for _ in 0..u64::MAX {
            match self.offer(leg, mixer) {
                OfferAnswer::Nothing => return true,
                OfferAnswer::Taken => {}
                OfferAnswer::Waits => return false,
            }
        }
        false
    }

    /// Hears a datagram that came at `now`, in milliseconds. `Full`: text of before waits for room.
    pub(crate) fn hear(
        &mut self,
        leg: u8,
        now: u64,
        datagram: &[u8],
        mixer: &mut Mixer,
    ) -> Result<(), Full>
        requires leg { leg < legs_of mixer.old }
        requires now { now < END_OF_MOMENTS }
        ensures same { IsSame mixer.old mixer.new }
    {
        if !self.offer_all(leg, mixer) || self.ear.arrivals() >= MOST_ARRIVALS {
            return Err(Full);
        }
        let _no_text = self.ear.hear(now, datagram);
        self.offer_all(leg, mixer);
        Ok(())
    }

    /// Lets time go on to `now`, in milliseconds: what is lost is waited for no longer than the conference says.
    pub(crate) fn expire(&mut self, leg: u8, now: u64, mixer: &mut Mixer)
        requires leg { leg < legs_of mixer.old }
        requires now { now < END_OF_MOMENTS }
        ensures same { IsSame mixer.old mixer.new }
    {
        if self.offer_all(leg, mixer) {
            self.ear.expire(now);
            self.offer_all(leg, mixer);
        }
    }
}
