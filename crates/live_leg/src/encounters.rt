//! Who sends what comes at a leg.
ghost use Rattle.std.specs.Prelude.{◌≡◌, ◌+◌, ◌<◌, ◌==◌, ◌&&◌, ◌||◌, not, max, nat_le, unwrap_or, None, Some, true, false, IfOk, if◌then◌else◌};
ghost use Rattle.std.specs.List.{list_any};
ghost use Rattle.live_spec.specs.Told.{is_sender, quiet_time};
ghost use Rattle.live_leg.specs.Senders.{KnowsFirst, Meets, MeetsText, Notes, Passes, Remembers, TakesOver};
ghost use Rattle.live_leg.specs.Stories.{hearing_of};
ghost use Rattle.rtt_base.specs.declared.limits.TheConstants.{END_OF_MOMENTS};

use crate::senders::{DatagramSender, MOST_KNOWN, Senders};
use crate::settings::LegSettings;
use arrayvec::ArrayVec;
use file_spec::primary_limit;
use rtp_text::read_text_within;
use rtt_base::{NoMemory, TextPacket};
use std::alloc::Global;

/// Where the sender was quiet for so long, in milliseconds, one of before may come back.
const QUIET_TIME: u64 = 1000;

/// The SSRC that is heard from the start.
fn first_sender(settings: LegSettings) -> Option<u32>
    ensures { result ≡ (if settings.follow then None else Some settings.ear.ssrc) }
{
    if settings.follow {
        None
    } else {
        Some(settings.ear.ssrc)
    }
}

impl Senders {
    /// Nothing came yet.
    pub(crate) fn new(alloc: Global, settings: LegSettings) -> Result<Senders, NoMemory>
        ensures { IfOk result (KnowsFirst (hearing_of settings)) }
    {
        let Ok(packet) = Box::new(alloc, TextPacket::default()) else {
            return Err(NoMemory);
        };
        Ok(Senders {
            payload_types: settings.ear.payload_types,
            long: settings.ear.long,
            follow: settings.follow,
            sender: first_sender(settings),
            known: ArrayVec::new(),
            moment: 0,
            last: 0,
            packet,
        })
    }

    /// The greatest moment so far.
    pub(crate) fn moment(&self) -> u64
        ensures value { result ≡ self.now.moment }
        ensures early { result < END_OF_MOMENTS }
    {
        self.moment
    }

    /// The SSRC of the sender, or 0 where there is none.
    pub(crate) fn ssrc(&self) -> u32
        ensures { result ≡ unwrap_or self.now.sender 0 }
    {
        self.sender.unwrap_or(0)
    }

    /// Lets time go on to `now`.
    pub(crate) fn pass(&mut self, now: u64)
        requires { now < END_OF_MOMENTS }
        ensures { Passes self.old self.new now }
    {
        self.moment = self.moment.max(now);
    }

    /// Whether this is the SSRC of the sender.
    fn is_sender(&self, ssrc: u32) -> bool
        ensures { result ≡ is_sender self.now.sender ssrc }
    {
        match self.sender {
            Some(sender) => ssrc == sender,
            None => false,
        }
    }

    /// Whether this is the SSRC of one of the last senders before.
    fn was_sender(&self, ssrc: u32) -> bool
        ensures { result ≡ list_any (λ s. s == ssrc) self.now.known.items }
    {
        self.known.as_slice().iter().any(|known| *known == ssrc)
    }

    /// Whether nothing came of the sender for so long that one of before may come back at this moment.
    fn is_silent(&self, now: u64) -> bool
        ensures { result ≡ nat_le (self.now.last + quiet_time) (max self.now.moment now) }
    {
        self.last + QUIET_TIME <= self.moment.max(now)
    }

    /// Whether one with this SSRC, who is not the sender, takes over at this moment.
    fn takes_over(&self, now: u64, ssrc: u32) -> bool
        ensures { result ≡ (self.now.follow && (not (list_any (λ s. s == ssrc) self.now.known.items) || nat_le (self.now.last + quiet_time) (max self.now.moment now))) }
    {
        self.follow && (!self.was_sender(ssrc) || self.is_silent(now))
    }

    /// Counts a packet of the sender that comes at `now`.
    fn note(&mut self, now: u64)
        requires { now < END_OF_MOMENTS }
        ensures { Notes self.old self.new now }
    {
        self.moment = self.moment.max(now);
        self.last = self.moment;
    }

    /// Remembers a sender as one of before. Of those before, the last 64 are known.
    fn remember(&mut self, sender: u32)
        ensures { Remembers self.old self.new sender }
    {
        self.known.truncate(MOST_KNOWN - 1);
        self.known.insert(0, sender);
    }

    /// One with this SSRC is the sender from now on.
    fn take_over(&mut self, now: u64, ssrc: u32) -> DatagramSender
        requires { now < END_OF_MOMENTS }
        ensures { TakesOver self.old self.new now ssrc result }
    {
        let before = self.sender;
        self.sender = Some(ssrc);
        self.note(now);
        match before {
            Some(sender) => {
                self.remember(sender);
                DatagramSender::Other
            }
            None => DatagramSender::First,
        }
    }

    /// A packet of text with this SSRC comes at `now`.
    fn meet_text(&mut self, now: u64, ssrc: u32) -> DatagramSender
        requires { now < END_OF_MOMENTS }
        ensures { MeetsText self.old self.new now ssrc result }
    {
        if self.is_sender(ssrc) {
            self.note(now);
            return DatagramSender::Sender;
        }
        if self.takes_over(now, ssrc) {
            return self.take_over(now, ssrc);
        }
        DatagramSender::Foreign
    }

    /// Tells who sent a datagram that comes at `now`. Who takes over is the sender from now on.
    pub(crate) fn meet(&mut self, now: u64, octets: &[u8]) -> DatagramSender
        requires { now < END_OF_MOMENTS }
        ensures { Meets self.old self.new now octets.now result }
    {
        match read_text_within(
            primary_limit(self.long),
            octets,
            None,
            self.payload_types,
            &mut self.packet,
        ) {
            Ok(()) => {
                let ssrc = self.packet.ssrc;
                self.meet_text(now, ssrc)
            }
            Err(_) => DatagramSender::Refused,
        }
    }
}
