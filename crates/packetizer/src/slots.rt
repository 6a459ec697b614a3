//! The places of a window.
ghost use Rattle.std.specs.Prelude.{◌≡◌, ◌<◌, ◌^◌, ◌==◌, true, length, not};
ghost use Rattle.std.specs.List.{list_any};
ghost use Rattle.packetizer.specs.Kept.{offset_kept};

use rtt_base::Text;
use rtt_base::limits::MOST_OFFSET;

/// A place of a window: a block that was sent, with its timestamp, or nothing yet.
#[derive(Debug, Default, Drop)]
pub struct KeptBlock {
    pub sent: bool,
    pub timestamp: u32,
    pub text: Text,
}

impl KeptBlock {
    /// Puts a block with this timestamp and a copy of this text, of at most 1023 octets, in place of what was there.
    pub fn set(&mut self, timestamp: u32, text: &[u8])
        requires { length text.now < 1024 }
        ensures { self.new ≡ record { sent = true; timestamp = timestamp; text = text.now } }
    {
        self.sent = true;
        self.timestamp = timestamp;
        self.text.clear();
        let _ = self.text.append(text);
    }

    /// How far the block lies before a packet with this timestamp.
    pub fn offset(&self, timestamp: u32) -> u16
        ensures value { result ≡ offset_kept timestamp self.now }
        ensures fits { result < 2 ^ 14 }
    {
        if !self.sent {
            return MOST_OFFSET;
        }
        timestamp
            .wrapping_sub(self.timestamp)
            .min(u32::from(MOST_OFFSET)) as u16
    }
}

/// Whether one of these blocks has text.
pub fn any_text(kept: &[KeptBlock]) -> bool
    ensures { result ≡ list_any (λ b. not (length b.text == 0)) kept.now }
{
    kept.iter().any(|block| !block.text.is_empty())
}
