//! The packets of a tracker, each at a place that stays its own.
ghost use Rattle.std.specs.Prelude.{◌≡◌, ◌+◌, ◌<◌, ◌≤◌, [], ◌∷◌, length, IfOk};
ghost use Rattle.std.specs.Borrow.{sem};
ghost use Rattle.reorder_buffer.specs.Pools.{no_packet, current_packet, with_new, IsRenewed, turned_to};
ghost use Rattle.reorder_buffer.specs.Lends.{LendsCurrent};

use crate::lines::BoundedList;
use rtt_base::{NoMemory, TextPacket};
use std::alloc::Global;
use std::marker::Model;

/// Room for 66 packets, reserved when the pool is made. A packet is made when its place is needed for the first time,
/// and is written over when it is needed again.
///
/// The current packet is for the caller to read and to write.
#[derive(Debug, Drop)]
pub struct PacketPool {
    packets: Vec<TextPacket>,
    spare: BoundedList<usize>,
    current: usize,
}

impl Model for PacketPool {
    ghost use Rattle.std.specs.Prelude.{◌≤◌, vec_capacity};
    ghost use Rattle.reorder_buffer.specs.Pools.{Pool};

    ghost Value = { Pool };

    ghost view = { λ p. record { packets = p.packets.items; spare = p.spare; current = p.current } };

    ghost invariant = { λ p. 66 ≤ vec_capacity p.packets };
}

impl PacketPool {
    /// One packet, which is current.
    pub fn new(alloc: Global) -> Result<PacketPool, NoMemory>
        ensures { IfOk result (λ pool. pool ≡ record { packets = no_packet ∷ []; spare = []; current = 0 }) }
    {
        let mut packets = Vec::with_capacity(alloc, 66)?;
        packets.push_reserved(TextPacket::default());
        Ok(PacketPool {
            packets,
            spare: BoundedList::new(alloc)?,
            current: 0,
        })
    }

    /// Keeps the room and one packet, which is current and whose content is of no use.
    pub fn restart(&mut self)
        requires { 0 < length self.old.packets }
        ensures packets { length self.new.packets ≡ 1 }
        ensures spare { self.new.spare ≡ [] }
        ensures current { self.new.current ≡ 0 }
    {
        self.packets.truncate(1);
        self.spare.clear();
        self.current = 0;
    }

    /// The current packet.
    pub fn packet(&self) -> &TextPacket
        requires { self.now.current < length self.now.packets }
        ensures { result.now ≡ current_packet self.now }
    {
        &self.packets[self.current]
    }

    /// The current packet, for writing.
    pub fn packet_mut(&mut self) -> &mut TextPacket
        requires { self.old.current < length self.old.packets }
        ensures* writes_back { sem 𝓛 (LendsCurrent self.entry result) }
        ensures value { result.now ≡ current_packet self.entry.now }
    {
        &mut self.packets[self.current]
    }

    /// Makes a new packet, which is current. Few packets need one, so this stands out of the way of the others.
    #[inline(never)]
    fn add_packet(&mut self)
        requires { length self.old.packets ≤ 65 }
        ensures { self.new ≡ with_new self.old }
    {
        self.current = self.packets.len();
        self.packets.push_reserved(TextPacket::default());
    }

    /// Gives the current packet's place away. Another place is current then: a spare one, or where there is none a new
    /// one.
    #[inline(always)]
    pub fn give_away(&mut self) -> usize
        requires room { length self.old.packets ≤ 65 + length self.old.spare }
        requires few { length self.old.packets ≤ 66 }
        ensures place { result ≡ self.old.current }
        ensures renewed { IsRenewed self.old self.new }
    {
        let place = self.current;
        if self.spare.is_empty() {
            self.add_packet();
        } else {
            self.current = self.spare.take_last();
        }
        place
    }

    /// Makes the packet at this place the current one. The place of the one before is spare.
    #[inline(always)]
    pub fn turn_to(&mut self, place: usize)
        requires { length self.old.spare < 65 }
        ensures { self.new ≡ turned_to self.old place }
    {
        self.spare.push(self.current);
        self.current = place;
    }
}
