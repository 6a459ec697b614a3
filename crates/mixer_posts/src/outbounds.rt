//! Where what a mixer sends goes.
ghost use Rattle.std.specs.Prelude.{◌≡◌, ◌<◌, ◌≤◌, ◌^◌, ℕ, List, OnOk, OnErr, IfErr};
ghost use Rattle.rtt_base.specs.declared.text_packets.PayloadTypes.{PayloadTypes};
ghost use Rattle.mixer_spec.specs.Setups.{Setup};
ghost use Rattle.mixer.specs.declared.batches.Post.{Post};
ghost use Rattle.mixer.specs.Posts.{IsPost};
ghost use Rattle.mix_loop.specs.Addresses.{Address, GiveAfter};
ghost use Rattle.mixer_posts.specs.Posts.{Takes, TakesSome};

use link_io::Beat;
use mixer::Post;

/// Where what is sent to the terminals of a conference goes: recordings, or links. It makes the packets.
pub trait PostSink {
    /// Why it took no post.
    type Fault: Copy;

    /// The kind of clock at whose beats it takes posts.
    type Clock;

    /// It took these posts, newest first, each with its moment, for the terminals of this setup, with these payload types.
    ghost took: { Self → Setup → (ℕ → PayloadTypes) → List (ℕ × Post) → Type 0 };

    /// It took these posts so, and maybe one more behind them, at this moment: that may have been given, or not.
    ghost halted: { Self → Setup → (ℕ → PayloadTypes) → List (ℕ × Post) → ℕ → Post → Type 0 };

    /// How many sources each terminal has, in leg order.
    ghost sources: { Self → List ℕ };

    /// Where the packets to each terminal go, in leg order, and what was given there.
    ghost addresses: { Self → List Address };

    /// What is sent is sent before this moment, in milliseconds.
    ghost horizon: { ℕ };

    /// In this state it took no post, for this reason.
    ghost unsent: { Self → Self.Fault → Type 0 };

    /// Takes what is sent to one of the terminals, at the moment `now` (milliseconds), at this beat of the clock.
    fn send(
        &mut self,
        now: u64,
        beat: &Beat<'_, Self::Clock>,
        post: &Post,
    ) -> Result<(), Self::Fault>
        requires moment { now < horizon }
        requires post { IsPost (sources self.old) post.now }
        ensures took { OnOk result (Takes took self.old self.new now post.now) }
        ensures halted { OnErr result (TakesSome took halted self.old self.new now post.now) }
        ensures unsent { IfErr result (unsent self.new) }
        ensures sources { sources self.new ≡ sources self.old }
        ensures addresses { GiveAfter beat.now.pauses (addresses self.old) (addresses self.new) };

    /// The mixer can make turns till then.
    ghost in_time: { horizon ≤ 2 ^ 47 };
}
