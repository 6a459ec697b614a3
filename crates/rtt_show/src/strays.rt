//! The packets of a stream that came twice or late.
ghost use Rattle.std.specs.Prelude.{◌≡◌, ℕ, ◌+◌, ◌≤◌, ◌<◌, ◌^◌, [], Some, false, IfOk, OnOk};
ghost use Rattle.wire_spec.specs.Text.{text_of};
ghost use Rattle.reorder_buffer.specs.Stories.{is_used};
ghost use Rattle.reorder_buffer.specs.States.{has_ready, arrival_count};
ghost use Rattle.rtpdump_io.specs.InMemory.{HasRecords};
ghost use Rattle.rtt_show.specs.Records.{OfRecords};
ghost use Rattle.rtt_show.specs.Missed.{IsMissed};
ghost use Rattle.rtt_show.specs.Strays.{Drains, Follows, CurrentComes, FollowsMore, IsShort, AreStrays, IsFewStrays, UsesMore, LatesMore, StraysMore, IsBound, StrayedMore};

use crate::losses::{Losses, missing};
use crate::spreads::Spread;
use crate::sums::one_if;
use reorder_buffer::{ReorderBuffer, Taken};
use rtp_text::read_text;
use rtpdump_io::next_record;
use rtt_base::limits::USUAL_WAIT;
use rtt_base::{NoMemory, PayloadTypes};
use std::alloc::Global;
use std::collections::BTreeSet;

/// A packet of text that came: its number, and whether it came in time, and so is used.
#[derive(Clone, Copy)]
pub(crate) struct NumberedPacket {
    pub number: u64,
    pub in_time: bool,
}

/// Follows the packets of a stream by their numbers.
#[derive(Drop)]
pub(crate) struct Follower {
    pub buffer: ReorderBuffer,
    pub spread: Spread,
}

/// Whether a packet that was so taken is used.
fn is_used_as(taken: Taken) -> bool
    ensures { result ≡ is_used taken }
{
    match taken {
        Taken::Ready | Taken::Held => true,
        Taken::Before | Taken::Old | Taken::Repeat => false,
    }
}

/// Lets the buffer give what is settled.
fn drain(buffer: &mut ReorderBuffer)
    ensures drains { Drains buffer.old buffer.new }
    ensures quiet { has_ready buffer.new ≡ false }
    ensures arrivals { arrival_count buffer.new ≡ arrival_count buffer.old }
{
    while let Some(due) = buffer.next() {
        let _given = due;
    }
}

impl Follower {
    fn new(alloc: Global) -> Result<Follower, NoMemory>
        ensures nothing { IfOk result (λ follower. Follows follower []) }
        ensures short { IfOk result (IsShort 0) }
    {
        Ok(Follower {
            buffer: ReorderBuffer::new(alloc, u64::from(USUAL_WAIT))?,
            spread: Spread::none(),
        })
    }

    /// Takes the packet that the buffer has now, and came at this moment.
    fn take_read(&mut self, at: u32) -> NumberedPacket
        requires { (n : ℕ) × (n < 2 ^ 32) × IsShort n self.old }
        ensures more { CurrentComes self.old at result self.new }
        ensures short { (n : ℕ) → IsShort n self.old → IsShort (n + 1) self.new }
    {
        let number = self.spread.take(self.buffer.packet().seq);
        let taken = self.buffer.arrive(u64::from(at));
        drain(&mut self.buffer);
        NumberedPacket {
            number,
            in_time: is_used_as(taken),
        }
    }

    /// Takes a packet that came at this moment, if it is one of text of the stream.
    fn follow(
        &mut self,
        at: u32,
        octets: &[u8],
        ssrc: u32,
        payload_types: PayloadTypes,
    ) -> Option<NumberedPacket>
        requires { (n : ℕ) × (n < 2 ^ 32) × IsShort n self.old }
        ensures more { FollowsMore self.old at (text_of octets.now (Some ssrc) payload_types) result self.new }
        ensures short { (n : ℕ) → IsShort n self.old → IsShort (n + 1) self.new }
    {
        match read_text(octets, Some(ssrc), payload_types, self.buffer.packet_mut()) {
            Ok(()) => Some(self.take_read(at)),
            Err(_fault) => None,
        }
    }
}

/// What came of a stream, by the numbers of its packets.
#[derive(Drop)]
pub(crate) struct Strays {
    /// The numbers of the packets that are used.
    pub used: BTreeSet<u64>,
    /// The numbers above the first of which each packet came too late.
    pub late: BTreeSet<u64>,
    /// How many packets came too late.
    pub packets: u64,
    /// How many numbers above the first came.
    pub above: u64,
}

impl Strays {
    fn new(alloc: Global) -> Strays
        ensures nothing { AreStrays result [] }
        ensures few { IsFewStrays 0 result }
    {
        Strays {
            used: BTreeSet::new(alloc),
            late: BTreeSet::new(alloc),
            packets: 0,
            above: 0,
        }
    }

    /// A packet came in time.
    fn take_used(&mut self, number: u64, first: u64) -> Result<(), NoMemory>
        requires { (n : ℕ) × (n < 2 ^ 32) × IsFewStrays n self.old }
        ensures more { OnOk result (UsesMore self.old number first self.new) }
        ensures few { OnOk result ((n : ℕ) → IsFewStrays n self.old → IsFewStrays (n + 1) self.new) }
    {
        self.used.insert(number)?;
        self.above += one_if(number != first);
        Ok(())
    }

    /// A packet came too late.
    fn take_late(&mut self, number: u64, first: u64) -> Result<(), NoMemory>
        requires { (n : ℕ) × (n < 2 ^ 32) × IsFewStrays n self.old }
        ensures more { OnOk result (LatesMore self.old number first self.new) }
        ensures few { OnOk result ((n : ℕ) → IsFewStrays n self.old → IsFewStrays (n + 1) self.new) }
    {
        self.packets += 1;
        if number <= first {
            return Ok(());
        }
        let added = self.late.insert(number)?;
        self.above += one_if(added);
        Ok(())
    }

    /// A packet came, of a stream whose first packet has the number `first`.
    fn take(&mut self, came: NumberedPacket, first: u64) -> Result<(), NoMemory>
        requires { (n : ℕ) × (n < 2 ^ 32) × IsFewStrays n self.old }
        ensures more { OnOk result (StraysMore self.old came first self.new) }
        ensures few { OnOk result ((n : ℕ) → IsFewStrays n self.old → IsFewStrays (n + 1) self.new) }
    {
        if came.in_time {
            return self.take_used(came.number, first);
        }
        if self.used.contains(&came.number) {
            return Ok(());
        }
        self.take_late(came.number, first)
    }
}

/// Takes a packet that came at this moment, if it is one of text of the stream.
fn take_packet(
    follower: &mut Follower,
    strays: &mut Strays,
    at: u32,
    octets: &[u8],
    ssrc: u32,
    payload_types: PayloadTypes,
) -> Result<(), NoMemory>
    requires { (n : ℕ) × (n < 2 ^ 32) × IsBound n follower.old strays.old }
    ensures more { OnOk result (StrayedMore follower.old strays.old at (text_of octets.now (Some ssrc) payload_types) follower.new strays.new) }
    ensures few { OnOk result ((n : ℕ) → IsBound n follower.old strays.old → IsBound (n + 1) follower.new strays.new) }
{
    match follower.follow(at, octets, ssrc, payload_types) {
        Some(came) => strays.take(came, follower.spread.first),
        None => Ok(()),
    }
}

/// What was missed of a stream with these records, some of whose packets came twice or late.
#[inline(never)]
pub(crate) fn strays_of(
    alloc: Global,
    ssrc: u32,
    payload_types: PayloadTypes,
    records: &[u8],
) -> Result<Losses, NoMemory>
    requires { HasRecords records.now }
    ensures { IfOk result (λ missed. OfRecords records.now (IsMissed payload_types ssrc missed)) }
{
    let mut follower = Follower::new(alloc)?;
    let mut strays = Strays::new(alloc);
    let mut rest = records;
    while let Some((at, octets, more)) = next_record(rest) {
        take_packet(&mut follower, &mut strays, at, octets, ssrc, payload_types)?;
        rest = more;
    }
    Ok(Losses {
        lost: missing(follower.spread, strays.above),
        late: strays.packets,
    })
}
