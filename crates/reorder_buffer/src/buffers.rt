//! The tracker of one stream.
ghost use Rattle.std.specs.Prelude.{◌≡◌, ◌+◌, ◌<◌, ◌≤◌, [], Bool, true, false, is_some, length, IfOk, IsSome, IfSome, IfNone};
ghost use Rattle.std.specs.Borrow.{sem};
ghost use Rattle.rtt_base.specs.declared.limits.TheConstants.{END_OF_MOMENTS, LONGEST_WAIT, MOST_ARRIVALS};
ghost use Rattle.reorder_buffer.specs.Lends.{LendsPacket};
ghost use Rattle.reorder_buffer.specs.Stories.{Story, begun, went, ended, is_used};
ghost use Rattle.reorder_buffer.specs.States.{has_ready, packets_in, current_of, arrival_count, is_finished, IsNext};
ghost use Rattle.reorder_buffer.specs.Tracks.{Tracks};
ghost use Rattle.reorder_buffer.specs.Views.{next_number};
ghost use Rattle.reorder_buffer.specs.Told.{LeadsStory, TellsStory, came_current, answer_current, is_current_in_time, ComeAlone, Gives, GivesAtOnce, GivesAsItCame, GaveFront, ReadyIsFront, GaveReady, AllReady, is_owing};

use crate::holds::Hold;
use crate::{Due, Taken};
use rtt_base::{NoMemory, TextPacket};
use std::alloc::Global;
use std::marker::Model;

/// Follows the packets of one stream, whatever was lost, repeated, reordered or late.
///
/// A number is given up at the first moment at which a greater one came `wait` milliseconds ago, or more than 64
/// greater ones have come. A packet whose number has not come before and is not given up is used, and is ready as soon
/// as each number from the stream's first one up to it has come or is given up. Used packets are given out in rising
/// number. Times are in milliseconds.
///
/// One packet is current: the one that is read next, and after `next` the one that was given. It is read and written
/// where it is kept, so that no packet is copied.
#[derive(Debug, Drop)]
pub struct ReorderBuffer {
    hold: Hold,
}

impl Model for ReorderBuffer {
    ghost use Rattle.std.specs.Prelude.{◌≡◌, None};
    ghost use Rattle.reorder_buffer.specs.States.{State, next_latest};

    ghost Value = { State };

    ghost view = { λ t. t.hold };

    ghost invariant = { λ t. next_latest t.hold ≡ None };
}

impl ReorderBuffer {
    /// A buffer to which nothing came yet. It reserves room for 66 packets, the current one and those that it will hold:
    /// no other call takes memory.
    pub fn new(alloc: Global, wait: u64) -> Result<ReorderBuffer, NoMemory>
        requires { wait ≤ LONGEST_WAIT }
        ensures stands { IfOk result (λ buffer. Tracks buffer (begun wait)) }
        ensures ready { IfOk result (λ buffer. has_ready buffer ≡ false) }
        ensures packets { IfOk result (λ buffer. packets_in buffer ≡ []) }
        ensures arrivals { IfOk result (λ buffer. arrival_count buffer ≡ 0) }
        ensures finished { IfOk result (λ buffer. is_finished buffer ≡ false) }
    {
        Ok(ReorderBuffer {
            hold: Hold::new(alloc, wait)?,
        })
    }

    /// Begins anew, as if nothing came yet: what is held or settled is let go. The content of the current packet is of no
    /// use. It takes no memory.
    pub fn restart(&mut self)
        ensures stands { (story : Story) → Tracks self.old story → Tracks self.new (begun story.wait) }
        ensures ready { has_ready self.new ≡ false }
        ensures packets { packets_in self.new ≡ [] }
        ensures arrivals { arrival_count self.new ≡ 0 }
        ensures finished { is_finished self.new ≡ false }
    {
        self.hold.restart();
    }

    /// The current packet.
    pub fn packet(&self) -> &TextPacket
        ensures { result.now ≡ current_of self.now }
    {
        self.hold.packet()
    }

    /// The current packet, for writing. Nothing else is changed by it.
    pub fn packet_mut(&mut self) -> &mut TextPacket
        ensures* writes_back { sem 𝓛 (LendsPacket self.entry result) }
        ensures value { result.now ≡ current_of self.entry.now }
    {
        self.hold.packet_mut()
    }

    /// Takes the current packet, which comes at `now`, or at the greatest moment handed in before, where that is later.
    ///
    /// A packet that is held or settled stays inside: another one is current then, whose content is of no use. With
    /// `Before`, `Old` and `Repeat` it is current still.
    #[inline(always)]
    pub fn arrive(&mut self, now: u64) -> Taken
        requires now { now < END_OF_MOMENTS }
        requires quiet { has_ready self.old ≡ false }
        requires few { arrival_count self.old < MOST_ARRIVALS }
        ensures stands { LeadsStory self.old self.new (came_current self.old now) }
        ensures answer { TellsStory self.old result (answer_current self.old now) }
        ensures used { TellsStory self.old (is_used result) (is_current_in_time self.old now) }
        ensures unused { is_used result ≡ false → current_of self.new ≡ current_of self.old }
        ensures packets { ComeAlone self.old self.new }
        ensures arrivals { arrival_count self.new ≡ arrival_count self.old + 1 }
        ensures finished { is_finished self.new ≡ is_finished self.old }
    {
        self.hold.arrive(now)
    }

    /// Lets time go on to `now`.
    pub fn expire(&mut self, now: u64)
        requires now { now < END_OF_MOMENTS }
        requires quiet { has_ready self.old ≡ false }
        ensures stands { LeadsStory self.old self.new (λ story. went story now) }
        ensures packets { packets_in self.new ≡ packets_in self.old }
        ensures arrivals { arrival_count self.new ≡ arrival_count self.old }
        ensures finished { is_finished self.new ≡ is_finished self.old }
    {
        self.hold.expire(now);
    }

    /// Lets `wait` go by after the greatest moment so far, so that each packet that is held is settled.
    pub fn finish(&mut self)
        requires quiet { has_ready self.old ≡ false }
        requires once { is_finished self.old ≡ false }
        ensures stands { LeadsStory self.old self.new ended }
        ensures all { AllReady self.old }
        ensures packets { packets_in self.new ≡ packets_in self.old }
        ensures arrivals { arrival_count self.new ≡ arrival_count self.old }
        ensures finished { is_finished self.new ≡ true }
    {
        self.hold.finish();
    }

    /// Whether a packet is settled and not yet given out.
    pub fn ready(&self) -> bool
        ensures value { result ≡ has_ready self.now }
        ensures exact { TellsStory self.now result is_owing }
    {
        self.hold.has_ready()
    }

    /// Gives the settled packet with the lowest number: it is the current one then. Where none is settled, the current
    /// packet is as before.
    #[inline(always)]
    pub fn next(&mut self) -> Option<Due>
        ensures variant { is_some result ≡ has_ready self.old }
        ensures some { IfSome result (Gives self.old self.new) }
        ensures front { GaveFront self.new }
        ensures order { ReadyIsFront self.new }
        ensures none { IfNone result (GaveReady self.old) }
        ensures packet { IsSome result → GivesAsItCame self.old self.new }
        ensures unchanged { IfNone result (self.new ≡ self.old) }
        ensures arrivals { arrival_count self.new ≡ arrival_count self.old }
        ensures finished { is_finished self.new ≡ is_finished self.old }
    {
        self.hold.next()
    }

    /// The number of a packet with this sequence number, where it would be given as soon as it comes: nothing is settled
    /// or held, it is the next one, and it is not the first packet of the stream.
    #[inline(always)]
    pub fn next_in_order(&self, seq: u16) -> Option<u64>
        ensures next { IfSome result (IsNext self.now) }
        ensures number { IfSome result (λ number. number ≡ next_number self.now seq) }
    {
        self.hold.next_in_order(seq)
    }

    /// Takes a packet that is next in order, which comes at `now`, or at the greatest moment handed in before, where that
    /// is later, and gives it at once. It tells the moment at which the packet is ready. The packet need not be the current
    /// one: nothing of it is kept, and the current packet is as before.
    #[inline(always)]
    pub fn give_at_once(&mut self, now: u64, number: u64) -> u64
        requires now { now < END_OF_MOMENTS }
        requires next { IsNext self.old number }
        requires few { arrival_count self.old < MOST_ARRIVALS }
        ensures stands { GivesAtOnce self.old self.new now number result }
        ensures all { GaveReady self.new }
        ensures quiet { has_ready self.new ≡ false }
        ensures unchanged { current_of self.new ≡ current_of self.old }
        ensures packets { packets_in self.new ≡ packets_in self.old }
        ensures arrivals { arrival_count self.new ≡ arrival_count self.old + 1 }
        ensures finished { is_finished self.new ≡ is_finished self.old }
    {
        self.hold.give_at_once(now, number)
    }

    /// How many packets came.
    pub fn arrivals(&self) -> u64
        ensures value { result ≡ arrival_count self.now }
        ensures exact { TellsStory self.now result (λ story. length story.past) }
    {
        self.hold.arrivals()
    }
}
