//! What one packet gives, text by text.
ghost use Rattle.std.specs.Prelude.{◌≡◌, ◌≤◌, ◌<◌, ◌+◌, ◌&&◌, Bool, List, [], ◌∷◌, ◌++◌, length, drop, slice_index_or, max, IfNone, IfSome};
ghost use Rattle.rtt_base.specs.declared.blocks.TextBlock.{TextBlock};
ghost use Rattle.rtt_base.specs.declared.text_packets.TextPacket.{TextPacket};
ghost use Rattle.wire_spec.specs.Packets.{has_text, back};
ghost use Rattle.receiver.specs.Steps.{is_new_since, older_since};
ghost use Rattle.receiver.specs.Pieces.{left_of, is_heard};
ghost use Rattle.rtt_base.specs.declared.limits.TheConstants.{MOST_PRIMARY_OCTETS, MOST_TEXT_OCTETS};

use crate::receivers::{LastPacket, MARKER, is_new};
use rtt_base::{TextBlock, TextPacket};

/// What is still to be heard of a packet that a receiver took. The texts stay in the packet.
#[derive(Clone, Copy, Debug)]
pub struct TextCursor {
    /// What was seen of the source before the packet.
    pub(crate) seen: Option<LastPacket>,
    /// Whether a marker comes first.
    pub(crate) marker: bool,
    /// How many blocks, the last ones, are still to be looked at: the primary one is the last.
    pub(crate) rest: usize,
}

/// Whether a redundant block gives a text: it has one, and is new.
fn gives(seen: Option<LastPacket>, timestamp: u32, block: &TextBlock) -> bool
    ensures { result ≡ (has_text block.now.text && is_new_since seen (back timestamp block.now.offset)) }
{
    !block.text.is_empty() && is_new(seen, timestamp.wrapping_sub(u32::from(block.offset)))
}

/// The first of these redundant blocks from `start` on that gives a text, or their number.
fn next_block(seen: Option<LastPacket>, timestamp: u32, older: &[TextBlock], start: usize) -> usize
    requires few { length older.now ≤ 9 }
    requires within { start ≤ length older.now }
    ensures within { result ≤ length older.now }
    ensures same { older_since seen timestamp (drop start older.now) ≡ older_since seen timestamp (drop result older.now) }
    ensures gives { (d : TextBlock) → result < length older.now → older_since seen timestamp (drop result older.now)
        ≡ (slice_index_or older.now result d).text ∷ older_since seen timestamp (drop (result + 1) older.now) }
{
    let mut index = start;
    while index < older.len() {
        if gives(seen, timestamp, &older[index]) {
            return index;
        }
        index += 1;
    }
    index
}

impl TextCursor {
    /// Nothing to hear, of whatever packet.
    pub fn none() -> TextCursor
        ensures { is_heard result ≡ Bool.true }
    {
        TextCursor {
            seen: None,
            marker: false,
            rest: 0,
        }
    }

    /// The next text, where it lies. The packet is the one that the receiver took.
    pub fn next<'a>(&mut self, packet: &'a TextPacket) -> Option<&'a [u8]>
        ensures some { IfSome result (λ text. left_of self.old packet.now ≡ text.now ∷ left_of self.new packet.now) }
        ensures fits { IfSome result (λ text. length text.now ≤ MOST_PRIMARY_OCTETS) }
        ensures short { IfSome result (λ text. length text.now ≤ max MOST_TEXT_OCTETS (length packet.now.primary)) }
        ensures none { IfNone result (left_of self.old packet.now ≡ []) }
        ensures heard { IfNone result (is_heard self.new ≡ Bool.true) }
    {
        if self.marker {
            self.marker = false;
            return Some(&MARKER);
        }
        if self.rest == 0 {
            return None;
        }
        let older = packet.older.as_slice();
        let start = (older.len() + 1).saturating_sub(self.rest);
        let index = next_block(self.seen, packet.timestamp, older, start);
        if index < older.len() {
            self.rest = older.len() - index;
            return Some(older[index].text.as_slice());
        }
        self.rest = 0;
        if packet.primary.is_empty() {
            return None;
        }
        Some(packet.primary.as_slice())
    }
}
