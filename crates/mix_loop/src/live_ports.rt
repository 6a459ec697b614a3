//! One leg of a live call at the mixer.
ghost use Rattle.std.specs.Prelude.{◌≡◌, true};
ghost use Rattle.wire_spec.specs.Packets.{has_text};
ghost use Rattle.std.specs.Str.{is_utf8};

use rtt_base::Chunk;

/// Where a leg's items are popped, with a hand for one text.
#[derive(Drop)]
pub struct LivePort<I> {
    pub(crate) inlet: I,
    /// The number of the leg.
    pub(crate) leg: u8,
    pub(crate) hand: Chunk,
    /// The moment at which the last item was given.
    pub(crate) at: u64,
    /// Whether a text is in hand.
    pub(crate) full: bool,
    /// Whether the end was popped.
    pub(crate) ended: bool,
    /// Whether a fault was popped.
    pub(crate) failed: bool,
    ghost own: { full ≡ true → hand.source ≡ leg },
    ghost has: { full ≡ true → has_text hand.text ≡ true },
    ghost utf8: { full ≡ true → is_utf8 hand.text ≡ true },
}
