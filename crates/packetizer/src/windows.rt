//! The window of one source.
ghost use Rattle.std.specs.Prelude.{◌≡◌, ◌+◌, ◌%◌, ◌^◌, ◌<◌, ◌≤◌, ◌∷◌, [], ℕ, List, length};

use crate::slots::{KeptBlock, any_text};
use rtp_text::{BlockView, OlderBlocks};
use std::marker::Model;

/// How many blocks of a source each packet repeats, where nothing else is said (RFC 4103, section 4).
const USUAL: u8 = 2;

/// What of one source was sent last: the blocks that its next packet repeats.
#[derive(Debug, Drop)]
pub struct Window {
    /// So many of the places are used, in turn.
    generations: usize,
    /// The place of the oldest block, which the next one is written over.
    oldest: usize,
    places: [KeptBlock; 3],
}

impl Model for Window {
    ghost use Rattle.std.specs.Prelude.{List, ◌≡◌, ◌<◌, ◌≤◌, length, take, max};
    ghost use Rattle.packetizer.specs.declared.slots.KeptBlock.{KeptBlock};
    ghost use Rattle.packetizer.specs.Kept.{AreShort, in_turn};

    ghost Value = { List KeptBlock };

    ghost view = { λ w. in_turn w.oldest (take w.generations w.places) };

    ghost invariant = { λ w. (w.generations ≤ 3) × (w.oldest < max 1 w.generations) × (length w.places ≡ 3) × AreShort w.places };
}

impl Window {
    ghost use Rattle.rtt_base.specs.declared.limits.TheConstants.{MOST_PACKET_OCTETS};
    ghost use Rattle.rtt_base.specs.declared.text_packets.PayloadTypes.{PayloadTypes};
    ghost use Rattle.wire_spec.specs.SentPackets.{packet_written};
    ghost use Rattle.stream_spec.specs.Own.{Sent, has_text_in};
    ghost use Rattle.rtp_text.specs.declared.block_writers.TextHead.{TextHead};
    ghost use Rattle.rtp_text.specs.Writing.{packet_with};
    ghost use Rattle.packetizer.specs.Kept.{blocks_kept};
    ghost use Rattle.packetizer.specs.WindowStanding.{WindowStandsFor};

    /// A window of two generations, of a source of which nothing was sent.
    pub fn new() -> Window
        ensures { (base : ℕ) → WindowStandsFor 2 base result [] }
    {
        Window::with(USUAL)
    }

    /// A window of so many generations, 0 to 3, of a source of which nothing was sent.
    pub fn with(generations: u8) -> Window
        requires { generations ≤ 3 }
        ensures { (base : ℕ) → WindowStandsFor generations base result [] }
    {
        Window {
            generations: usize::from(generations),
            oldest: 0,
            places: [
                KeptBlock::default(),
                KeptBlock::default(),
                KeptBlock::default(),
            ],
        }
    }

    /// Whether one of the blocks that the next packet repeats has text.
    pub fn due(&self) -> bool
        ensures { (g base : ℕ) (past : List Sent) → WindowStandsFor g base self.now past → result ≡ has_text_in g past }
    {
        any_text(&self.places[..self.generations])
    }

    /// A packet that repeats these blocks, with a text of at most 1023 octets, has at most 4224 octets. Nothing is done.
    pub fn packets_fit(&self)
        ensures { (payload_types : PayloadTypes) (head : TextHead) (text : List ℕ) → length text < 1024
            → length (packet_written payload_types (packet_with head (blocks_kept head.timestamp self.now) text))
            ≤ MOST_PACKET_OCTETS }
    {
        // so that the proof sees what is kept
        let _generations = self.generations;
    }

    /// Keeps a copy of the text of a packet with this timestamp, over the oldest block.
    pub fn keep(&mut self, timestamp: u32, text: &[u8])
        requires { length text.now < 1024 }
        ensures { (g base : ℕ) (past : List Sent) (e : Sent) → WindowStandsFor g base self.old past
            → timestamp ≡ (base + e.media) % 2 ^ 32 → text.now ≡ e.text
            → WindowStandsFor g base self.new (e ∷ past) }
    {
        if self.oldest < self.generations {
            self.places[self.oldest].set(timestamp, text);
            self.oldest = if self.oldest + 1 == self.generations {
                0
            } else {
                self.oldest + 1
            };
        }
    }
}

impl OlderBlocks for Window {
    ghost use Rattle.packetizer.specs.Kept.{blocks_kept};

    ghost blocks = { λ window timestamp. blocks_kept timestamp window };

    fn len(&self) -> usize {
        self.generations
    }

    fn block(&self, place: usize, timestamp: u32) -> BlockView<'_> {
        let behind = self.oldest + place;
        let index = if behind < self.generations {
            behind
        } else {
            behind - self.generations
        };
        let kept = &self.places[index];
        BlockView {
            offset: kept.offset(timestamp),
            text: kept.text.as_slice(),
        }
    }
}
