//! The mixer of a live call, and the tap that is told of it.
ghost use Rattle.std.specs.Prelude.{◌≡◌, false};
ghost use Rattle.rtt_live.specs.Taps.{Learns, Shows, ended_with};

use crate::{LiveFault, Tap};
use link_io::Beat;
use mix_loop::{LiveTurnsEnd, MixerCalls};
use rtt_base::{Chunk, Full};

/// A mixer, and what is told of the chunks that it takes and of its turns.
pub(crate) struct TappedMixer<M, T> {
    pub(crate) mixer: M,
    pub(crate) tap: T,
    /// The tap had no memory for a chunk.
    pub(crate) short: bool,
}

impl<M, T> TappedMixer<M, T> {
    /// This mixer, which took nothing yet.
    pub(crate) fn new(mixer: M, tap: T) -> TappedMixer<M, T>
        ensures { result ≡ record { mixer = mixer; tap = tap; short = false } }
    {
        TappedMixer {
            mixer,
            tap,
            short: false,
        }
    }
}

/// A tapped mixer behind its last turn, and how its turns ended.
pub(crate) struct TapReturn<M, T> {
    pub(crate) turned: LiveTurnsEnd<LiveFault>,
    pub(crate) mixer: M,
    pub(crate) tap: T,
}

impl<M, T: Tap> TappedMixer<M, T> {
    /// The call is over, whose turns ended so: the tap shows all that it took. For want of memory where it had none for a chunk.
    pub(crate) fn finish(self, turned: LiveTurnsEnd<LiveFault>) -> TapReturn<M, T>
        ensures turned { result.turned ≡ ended_with self.short turned }
        ensures mixer { result.mixer ≡ self.mixer }
        ensures shows { Learns T.stands self.tap result.tap Shows }
    {
        let TappedMixer {
            mixer,
            mut tap,
            short,
        } = self;
        tap.turned();
        let turned = if short {
            LiveTurnsEnd::Stopped(LiveFault::NoMemory)
        } else {
            turned
        };
        TapReturn { turned, mixer, tap }
    }
}

impl<M: MixerCalls<Fault = LiveFault>, T: Tap> MixerCalls for TappedMixer<M, T> {
    ghost use Rattle.rtt_live.specs.Taps.{HaltsTold, TellsFor, IsUnsentIn};

    type Fault = LiveFault;

    type Clock = M::Clock;

    ghost stands = { λ m s payload_types calls. TellsFor M.stands T.stands m s payload_types calls };

    ghost halted = { λ m s payload_types calls now. HaltsTold M.stands M.halted m s payload_types calls now };

    ghost legs = { λ m. M.legs m.mixer };

    ghost turns = { λ m. M.turns m.mixer };

    ghost addresses = { λ m. M.addresses m.mixer };

    ghost horizon = { M.horizon };

    ghost unsent = { λ m why. IsUnsentIn M.unsent m why };

    fn admit(&mut self, leg: usize, listens: bool) -> bool {
        self.mixer.admit(leg, listens)
    }

    fn hush(&mut self, leg: usize) {
        self.mixer.hush(leg);
    }

    fn leave(&mut self, leg: usize) -> bool {
        self.mixer.leave(leg)
    }

    fn offer(&mut self, chunk: &Chunk) -> Result<(), Full> {
        let Ok(()) = self.mixer.offer(chunk) else {
            return Err(Full);
        };
        let Ok(()) = self.tap.took(chunk) else {
            self.short = true;
            return Ok(());
        };
        Ok(())
    }

    fn turn(&mut self, now: u64, beat: &Beat<'_, M::Clock>) -> Result<(), LiveFault> {
        match self.mixer.turn(now, beat) {
            Ok(()) => {}
            Err(fault) => return Err(fault),
        }
        self.tap.turned();
        if self.short {
            return Err(LiveFault::NoMemory);
        }
        Ok(())
    }

    fn idle(&self) -> bool {
        self.mixer.idle()
    }
}
