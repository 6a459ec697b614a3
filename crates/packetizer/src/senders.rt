//! The sender.
ghost use Rattle.std.specs.Prelude.{◌≡◌, ◌^◌, ◌<◌, ◌≤◌, ◌∷◌, ◌↔◌, [], IfOk, IsOk, OnOk, OnErr, IsUtf8};
ghost use Rattle.stream_spec.specs.Typed.{Text as text_event, Ask, longest_step};

use crate::waiting_text::WaitingText;
use crate::{Packetizer, PacketizerSettings};
use rtt_base::limits::{LONGEST_STEP, LONGEST_STEP_OF_TWO};
use rtt_base::{Full, NoMemory, Packet, PayloadTypes, Text};
use std::alloc::Global;
use std::marker::Model;

/// How a sender sends.
#[derive(Clone, Copy, Debug)]
pub struct SenderSettings {
    pub ssrc: u32,
    /// The first sequence number.
    pub seq: u16,
    /// The timestamp at the media time 0.
    pub timestamp: u32,
    /// The payload types, below 128 and different.
    pub payload_types: PayloadTypes,
    /// The least time between two packets, 100 to 1000 ms.
    pub interval: u64,
    /// How many blocks each packet repeats, 0 to 3.
    pub generations: u8,
}

/// The last packet that was sent.
#[derive(Clone, Copy, Debug)]
struct Last {
    /// The moment in ms at which it was sent.
    at: u64,
    /// Its media time in ms.
    media: u64,
}

/// How far the media time may go on at once while text is to be repeated, in ms: so that the offsets of its repeats
/// fit in 14 bits.
fn longest_step(generations: u8) -> u64
    ensures { result ≡ longest_step generations }
{
    let longest = if generations <= 2 {
        LONGEST_STEP_OF_TWO
    } else {
        LONGEST_STEP
    };
    u64::from(longest)
}

/// A sender of one stream of typed text: an output of one source, the text that waits for it, and a clock.
#[derive(Drop)]
pub struct Sender {
    settings: SenderSettings,
    waiting: WaitingText,
    output: Packetizer,
    last: Option<Last>,
    /// The text of a packet that lay in two pieces, which is written over for the next one.
    text: Text,
}

impl Model for Sender {
    ghost use Rattle.packetizer.specs.SenderStates.{State};

    ghost Value = { State };

    ghost view = { λ s. record { settings = s.settings; waits = s.waiting; output = s.output; last = s.last } };

    ghost use Rattle.packetizer.specs.Insides.{SenderIsSound};

    ghost invariant = { SenderIsSound };
}

impl Sender {
    ghost use Rattle.stream_spec.specs.Own.{has_text_in};
    ghost use Rattle.stream_spec.specs.Typed.{has_passed, media_at, due_at, sents};
    ghost use Rattle.packetizer.specs.SenderSettings.{AreSettings, stream_of};
    ghost use Rattle.packetizer.specs.SenderStanding.{SenderStandsFor, sent_by, has_more, next_due_of};
    ghost use Rattle.packetizer.specs.Scripts.{OfScripts, GoesOn, AskedUntil, DueAt, HasRoom, octets_at, octets_due, written};

    /// A sender that was given no text. It reserves the room for all text that may wait.
    pub fn new(alloc: Global, settings: SenderSettings) -> Result<Sender, NoMemory>
        requires { AreSettings settings }
        ensures { IfOk result (λ s. SenderStandsFor settings s []) }
    {
        let stream = PacketizerSettings {
            ssrc: settings.ssrc,
            seq: settings.seq,
            timestamp: settings.timestamp,
            payload_types: settings.payload_types,
            generations: settings.generations,
        };
        Ok(Sender {
            settings,
            waiting: WaitingText::new(alloc)?,
            output: Packetizer::new(alloc, stream, &[settings.ssrc])?,
            last: None,
            text: Text::new(),
        })
    }

    /// Takes a text, which is UTF-8. `Full`: what waits with it passes 16384 octets; then the sender is as before. It
    /// takes no memory.
    pub fn typed(&mut self, text: &[u8]) -> Result<(), Full>
        requires { IsUtf8 text.now }
        ensures room { OfScripts self.old (λ settings past. IsOk result ↔ HasRoom settings past text.now) }
        ensures ok { OnOk result (GoesOn self.old self.new (text_event text.now)) }
        ensures err { OnErr result (self.new ≡ self.old) }
    {
        self.waiting.append(text)
    }

    /// Whether a packet is sent at this moment, in ms: text waits or is to be repeated, and nothing was sent yet or the
    /// interval has passed.
    pub fn due(&self, now: u64) -> bool
        ensures { OfScripts self.now (λ settings past. result
            ≡ due_at (stream_of settings) settings.interval past now) }
    {
        self.has_more() && self.has_passed(now)
    }

    /// The moment, in ms, from which the next packet is due, where one was sent and text waits or is to be repeated.
    pub fn next_due(&self) -> Option<u64>
        ensures { OfScripts self.now (λ settings past. result ≡ next_due_of settings past) }
    {
        match self.last {
            Some(last) if self.has_more() => Some(last.at + self.settings.interval),
            _ => None,
        }
    }

    /// Sends the packet that is due at this moment, in ms, if there is one. It takes no memory.
    pub fn turn(&mut self, now: u64) -> Option<Packet>
        requires { now < 2 ^ 31 }
        ensures packet { AskedUntil now self.old (λ settings past. result ≡ octets_at settings past now) }
        ensures stands { AskedUntil now self.old (λ settings past. SenderStandsFor settings self.new (Ask now ∷ past)) }
    {
        let mut packet = Packet::new();
        if self.turn_into(now, &mut packet) {
            Some(packet)
        } else {
            None
        }
    }

    /// Writes the packet that is due at this moment, in ms, into `out`, if there is one, and answers whether there was.
    /// It takes no memory.
    pub fn turn_into(&mut self, now: u64, out: &mut Packet) -> bool
        requires { now < 2 ^ 31 }
        ensures packet { AskedUntil now self.old (λ settings past. written result out.new
            ≡ octets_at settings past now) }
        ensures stands { AskedUntil now self.old (λ settings past. SenderStandsFor settings self.new (Ask now ∷ past)) }
    {
        if self.due(now) {
            self.write(now, out);
            true
        } else {
            false
        }
    }

    /// Whether text waits or is still to be repeated.
    fn has_more(&self) -> bool
        ensures { OfScripts self.now (λ settings past. result ≡ has_more settings past) }
    {
        !self.waiting.is_empty() || self.repeats()
    }

    /// Whether text is still to be repeated.
    fn repeats(&self) -> bool
        ensures { OfScripts self.now (λ settings past. result
            ≡ has_text_in settings.generations (sents (sent_by settings past))) }
    {
        self.output.due(0)
    }

    /// Whether nothing was sent yet, or the interval has passed.
    fn has_passed(&self, now: u64) -> bool
        ensures { OfScripts self.now (λ settings past. result
            ≡ has_passed settings.interval (sent_by settings past) now) }
    {
        match self.last {
            None => true,
            Some(last) => now.saturating_sub(last.at) >= self.settings.interval,
        }
    }

    /// The media time of a packet at this moment.
    fn media_at(&self, now: u64) -> u64
        requires { now < 2 ^ 31 }
        ensures value { OfScripts self.now (λ settings past. result
            ≡ media_at settings.generations (sent_by settings past) now) }
        ensures fits { result ≤ now }
    {
        match self.last {
            Some(last) if self.repeats() => now.min(
                last.media + longest_step(self.settings.generations),
            ),
            _ => now,
        }
    }

    /// Writes the packet at this moment, which is due.
    fn write(&mut self, now: u64, out: &mut Packet)
        requires { now < 2 ^ 31 }
        ensures octets { DueAt now self.old (λ settings past. out.new ≡ octets_due settings past now) }
        ensures stands { DueAt now self.old (λ settings past. SenderStandsFor settings self.new (Ask now ∷ past)) }
    {
        let media = self.media_at(now);
        let text = self.waiting.front(&mut self.text);
        out.clear();
        let _ = self.output.packet(media, 0, text, out);
        let len = text.len();
        self.waiting.pass(len);
        self.last = Some(Last { at: now, media });
    }
}
