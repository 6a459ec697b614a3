//! A source at an output.
ghost use Rattle.std.specs.Prelude.{◌≡◌, ◌<◌, ◌≤◌, [], ℕ, length, map, max, not};
ghost use Rattle.stream_spec.specs.Own.{has_text_in};
ghost use Rattle.packetizer.specs.Speakers.{anew, speaker_at};
ghost use Rattle.packetizer.specs.Sending.{OfSpeaker, KeepsText};

use crate::Window;

/// A source: what of it is to be repeated, and whether its last packet had text.
#[derive(Drop)]
pub struct Speaker {
    /// The source as packets name it.
    pub source: u32,
    pub window: Window,
    /// Whether the last packet of the source had text. Without generations no window tells it.
    pub spoke: bool,
}

impl Speaker {
    /// A source of which nothing was sent, with so many generations.
    pub fn new(source: u32, generations: u8) -> Speaker
        requires { generations ≤ 3 }
        ensures { (base : ℕ) → result ≡ speaker_at generations base source [] }
    {
        Speaker {
            source,
            window: Window::with(generations),
            spoke: false,
        }
    }

    /// Whether the next packet of the source comes after a pause (RFC 4103, section 3.5): none of the last packets that it
    /// repeats had text, nor had the last one.
    pub fn is_after_pause(&self) -> bool
        ensures { OfSpeaker self.now (λ g base source sent. result ≡ not (has_text_in (max 1 g) sent)) }
    {
        !self.window.due() && !self.spoke
    }

    /// Keeps what was sent in a packet with this timestamp.
    pub fn keep(&mut self, timestamp: u32, text: &[u8])
        requires { length text.now < 1024 }
        ensures { KeepsText self.old self.new timestamp text.now }
    {
        self.window.keep(timestamp, text);
        self.spoke = !text.is_empty();
    }
}

/// Forgets of each source what was sent of it: it has so many generations from now on.
pub fn forget_all(speakers: &mut [Speaker], generations: u8)
    requires { generations ≤ 3 }
    ensures { (base : ℕ) → speakers.new ≡ map (anew generations base) speakers.old }
{
    for speaker in speakers.iter_mut() {
        *speaker = Speaker::new(speaker.source, generations);
    }
}
