//! The mixer, by its calls.
ghost use Rattle.std.specs.Prelude.{◌≡◌, ℕ, ◌+◌, ◌<◌, List, is_ok, OnOk, OnErr, IfErr};
ghost use Rattle.rtt_base.specs.declared.text_packets.PayloadTypes.{PayloadTypes};
ghost use Rattle.stream_spec.specs.Ready.{chunk_of};
ghost use Rattle.mixer_spec.specs.Setups.{Setup};
ghost use Rattle.mixer_spec.specs.Table.{Call};
ghost use Rattle.mix_loop.specs.Items.{IsOf};
ghost use Rattle.mix_loop.specs.Addresses.{Address, GiveAfter};
ghost use Rattle.mix_loop.specs.Mixers.{Keeps, Admits, Hushes, Leaves, Offers, Turns, Halts, TellsIdle};

use link_io::Beat;
use rtt_base::{Chunk, Full};

/// A mixer, which stands for the calls that were made of it. Where it sends what a turn sends is its own matter.
pub trait MixerCalls {
    /// Why what a turn sends could not be sent.
    type Fault: Copy;

    /// The kind of clock at whose beats it sends.
    type Clock;

    /// In a conference of this setup, with these payload types at its terminals, these calls were made, newest first, and all
    /// that they send was sent.
    ghost stands: { Self → Setup → (ℕ → PayloadTypes) → List Call → Type 0 };

    /// These calls were made, and then a turn at this moment (milliseconds). All that the calls send was sent, and of what the
    /// turn sends maybe not all.
    ghost halted: { Self → Setup → (ℕ → PayloadTypes) → List Call → ℕ → Type 0 };

    /// How many legs there are.
    ghost legs: { Self → ℕ };

    /// How many turns were made.
    ghost turns: { Self → ℕ };

    /// Where it sends what goes to each terminal, in leg order, and what was given there.
    ghost addresses: { Self → List Address };

    /// Turns come before this moment, in milliseconds.
    ghost horizon: { ℕ };

    /// In this state it could not send, for this reason.
    ghost unsent: { Self → Self.Fault → Type 0 };

    /// A leg that never came comes to the lowest free place, where there is one, as is answered.
    fn admit(&mut self, leg: usize, listens: bool) -> bool
        requires { leg < legs self.old }
        ensures admitted { Admits stands self.old self.new leg listens result }
        ensures keeps { Keeps legs turns addresses self.old self.new };

    /// A leg whose stay is over listens no more.
    fn hush(&mut self, leg: usize)
        requires { leg < legs self.old }
        ensures hushed { Hushes stands self.old self.new leg }
        ensures keeps { Keeps legs turns addresses self.old self.new };

    /// A leg that listens no more leaves its place, where nothing of it or for it is left, as is answered.
    fn leave(&mut self, leg: usize) -> bool
        requires { leg < legs self.old }
        ensures left { Leaves stands self.old self.new leg result }
        ensures keeps { Keeps legs turns addresses self.old self.new };

    /// Takes a text where its leg holds a place and has room for it.
    fn offer(&mut self, chunk: &Chunk) -> Result<(), Full>
        requires source { chunk.now.source < legs self.old }
        requires text { IsOf chunk.now.source (chunk_of chunk.now) }
        ensures offered { Offers stands self.old self.new (chunk_of chunk.now) (is_ok result) }
        ensures keeps { Keeps legs turns addresses self.old self.new };

    /// Makes a turn at the moment `now` (milliseconds), and sends what it sends at this beat of the clock. Behind a fault it makes
    /// no more.
    fn turn(&mut self, now: u64, beat: &Beat<'_, Self::Clock>) -> Result<(), Self::Fault>
        requires few { turns self.old < 5000000 }
        requires now { now < horizon }
        ensures turned { OnOk result (Turns stands self.old self.new now) }
        ensures halted { OnErr result (Halts stands halted self.old self.new now) }
        ensures unsent { IfErr result (unsent self.new) }
        ensures legs { legs self.new ≡ legs self.old }
        ensures turns { turns self.new ≡ turns self.old + 1 }
        ensures addresses { GiveAfter beat.now.pauses (addresses self.old) (addresses self.new) };

    /// Whether nothing waits and nothing is to be repeated.
    fn idle(&self) -> bool
        ensures { TellsIdle stands self.now result };
}
