//! What a tracker holds.
ghost use Rattle.std.specs.Prelude.{◌≡◌, ◌+◌, ◌*◌, ◌^◌, ◌<◌, ◌≤◌, ◌==◌, ℕ, [], ◌∷◌, length, drop, nat_lt, Bool, true, false, IfOk, OnOk, IfErr, IsSome, IfSome, IfNone, if◌then◌else◌};
ghost use Rattle.std.specs.Borrow.{sem};
ghost use Rattle.rtt_base.specs.declared.limits.TheConstants.{END_OF_MOMENTS, LONGEST_WAIT, MOST_ARRIVALS};
ghost use Rattle.reorder_buffer.specs.Lends.{LendsHeld};
ghost use Rattle.reorder_buffer.specs.Stories.{went, ended, is_used};
ghost use Rattle.reorder_buffer.specs.States.{fresh, has_ready, passed, oldest_from, given_up_at, next_latest, settled_first, settled_at_once, counted, put_current, IsNext, ready_at_once, given_at_once, GivesFirst, PacketIsRefused, AllAbove, IsPlace};
ghost use Rattle.reorder_buffer.specs.Views.{next_number, AnyPackets, IsBehind};
ghost use Rattle.reorder_buffer.specs.Tracks.{SameBut};
ghost use Rattle.reorder_buffer.specs.Told.{LeadsStory, TellsStory, came_current, answer_current, is_current_in_time, ComeAlone, GivesAsItCame, AllReady, FollowsAll, IsButCurrent, HoldsPacket, MayHold};

use crate::lines::BoundedList;
use crate::numbers::{first_number, nearest_number};
use crate::pool::PacketPool;
use crate::{Due, Taken};
use rtt_base::limits::MOST_HELD;
use rtt_base::{NoMemory, TextPacket};
use std::alloc::Global;
use std::marker::Model;

/// A packet that waits for lower numbers, the moment at which it came, and its place.
#[derive(Debug, Drop)]
pub struct HeldPacket {
    number: u64,
    time: u64,
    place: usize,
}

/// A packet that may be given out, the moment at which it was ready, and its place.
#[derive(Debug, Drop)]
pub struct SettledPacket {
    number: u64,
    ready: u64,
    place: usize,
}

/// The packets that wait, those that are settled, and what the next ones are measured by.
///
/// Each place of the pool is named once: it is the current one, it is spare, or its packet waits or is settled. A packet
/// stays at its place from when it is read until it is given: none is copied.
#[derive(Debug, Drop)]
pub struct Hold {
    wait: u64,
    moment: u64,
    arrivals: u64,
    finished: bool,
    first: u64,
    top: u64,
    front: u64,
    latest: u64,
    settled: BoundedList<SettledPacket>,
    held: BoundedList<HeldPacket>,
    pool: PacketPool,
}

impl Model for Hold {
    ghost use Rattle.reorder_buffer.specs.States.{State};

    ghost Value = { State };

    ghost use Rattle.reorder_buffer.specs.Insides.{state_of, HoldIsSound};

    ghost view = { state_of };

    ghost invariant = { HoldIsSound };
}

/// The least of `time` and the times of these.
fn oldest_time(held: &[HeldPacket], time: u64) -> u64
    ensures value { AnyPackets held.now (λ numbered. result ≡ oldest_from time numbered) }
    ensures within { result ≤ time }
{
    let mut least = time;
    for packet in held {
        least = least.min(packet.time);
    }
    least
}

/// The moment at which a number below all of these was given up, if it is by `moment`: more than 64 came, or the
/// first of them that came did so `wait` ago.
fn given_up(held: &[HeldPacket], wait: u64, moment: u64) -> Option<u64>
    requires wait { wait ≤ LONGEST_WAIT }
    requires moment { moment < 2 ^ 49 }
    ensures { AnyPackets held.now (λ numbered. result ≡ given_up_at wait moment numbered) }
{
    if held.len() > MOST_HELD {
        return Some(moment);
    }
    let end = oldest_time(held, moment) + wait;
    if end <= moment { Some(end) } else { None }
}

/// Where the number belongs among these, from the back: a packet that comes in order is compared with the last alone.
fn place_of(held: &[HeldPacket], number: u64) -> usize
    ensures within { result ≤ length held.now }
    ensures above { AnyPackets held.now (λ numbered. AllAbove number (drop result numbered)) }
    ensures behind { IsBehind held.now result number }
{
    let mut place = held.len();
    while place > 0 && held[place - 1].number > number {
        place -= 1;
    }
    place
}

impl Hold {
    /// Nothing came yet. Room is made for 66 packets: the current one, and 65 that wait or are settled.
    pub fn new(alloc: Global, wait: u64) -> Result<Hold, NoMemory>
        requires { wait ≤ LONGEST_WAIT }
        ensures { IfOk result (λ hold. hold ≡ fresh wait) }
    {
        Ok(Hold {
            wait,
            moment: 0,
            arrivals: 0,
            finished: false,
            first: 0,
            top: 0,
            front: 0,
            latest: 0,
            settled: BoundedList::new(alloc)?,
            held: BoundedList::new(alloc)?,
            pool: PacketPool::new(alloc)?,
        })
    }

    /// Begins anew: nothing came yet, and what is inside is let go.
    pub fn restart(&mut self)
        ensures { IsButCurrent self.new (fresh self.old.wait) }
    {
        self.moment = 0;
        self.arrivals = 0;
        self.finished = false;
        self.first = 0;
        self.top = 0;
        self.front = 0;
        self.latest = 0;
        self.settled.clear();
        self.held.clear();
        self.pool.restart();
    }

    pub fn arrivals(&self) -> u64
        ensures { result ≡ self.now.arrivals }
    {
        self.arrivals
    }

    pub fn has_ready(&self) -> bool
        ensures { result ≡ has_ready self.now }
    {
        !self.settled.is_empty()
    }

    /// What became of a packet with this number that was held.
    fn taken(&self, number: u64) -> Taken
        ensures { result ≡ (if nat_lt number self.now.front then Taken.Ready else Taken.Held) }
    {
        if number < self.front {
            Taken::Ready
        } else {
            Taken::Held
        }
    }

    /// The latest end of a number, once the first held packet is settled, if it can be settled by now.
    fn next_latest(&self) -> Option<u64>
        ensures value { result ≡ next_latest self.now }
        ensures some { IsSome result → 0 < length self.now.held }
    {
        let held = self.held.as_slice();
        let first = held.first()?;
        if first.number == self.front {
            return Some(self.latest.max(first.time));
        }
        let end = given_up(held, self.wait, self.moment)?;
        Some(self.latest.max(end).max(first.time))
    }

    /// Settles the first held packet.
    fn settle(&mut self, latest: u64)
        requires { 0 < length self.old.held }
        ensures { self.new ≡ settled_first self.old latest }
    {
        let first = self.held.take_first();
        self.front = first.number + 1;
        self.latest = latest;
        self.settled.push(SettledPacket {
            number: first.number,
            ready: latest,
            place: first.place,
        });
    }

    /// Settles what can be settled.
    fn advance(&mut self)
        ensures stands { FollowsAll self.old self.new }
        ensures still { next_latest self.new ≡ None }
        ensures same { SameBut self.old self.new }
    {
        while let Some(latest) = self.next_latest() {
            self.settle(latest);
        }
    }

    /// Lets time go on.
    fn pass(&mut self, now: u64)
        requires { now < END_OF_MOMENTS }
        ensures { self.new ≡ passed self.old now }
    {
        self.moment = self.moment.max(now);
    }

    /// The number of a packet that comes now.
    fn next_number(&self, seq: u16) -> u64
        ensures value { result ≡ next_number self.now seq }
        ensures small { result ≤ 196608 + 65536 * self.now.arrivals }
    {
        if self.arrivals == 0 {
            first_number(seq)
        } else {
            nearest_number(self.top, seq)
        }
    }

    /// Counts an arrival with this number.
    fn count(&mut self, number: u64)
        requires few { self.old.arrivals < MOST_ARRIVALS }
        requires small { number ≤ 196608 + 65536 * self.old.arrivals }
        ensures value { self.new ≡ counted self.old number }
        ensures begun { self.old.arrivals ≡ 0 → length self.old.held ≡ 0 }
    {
        if self.arrivals == 0 {
            self.first = number;
            self.front = number;
        }
        self.arrivals += 1;
        self.top = self.top.max(number);
    }

    /// Where a packet with this number is to be held, or why it is not.
    fn find(&self, number: u64) -> Result<usize, Taken>
        ensures place { IfOk result (λ place. IsPlace number self.now.held place) }
        ensures above { OnOk result ((self.now.first ≤ number) × (self.now.front ≤ number)) }
        ensures refused { IfErr result (λ taken. PacketIsRefused self.now number taken) }
    {
        if number < self.first {
            return Err(Taken::Before);
        }
        if number < self.front {
            return Err(Taken::Old);
        }
        let held = self.held.as_slice();
        let place = place_of(held, number);
        if place > 0 && held[place - 1].number == number {
            return Err(Taken::Repeat);
        }
        Ok(place)
    }

    /// Holds the current packet.
    fn put(&mut self, at: usize, number: u64)
        requires { MayHold self.old at number }
        ensures { IsButCurrent self.new (put_current self.old at number) }
    {
        let place = self.pool.give_away();
        let time = self.moment;
        self.held.insert(
            at,
            HeldPacket {
                number,
                time,
                place,
            },
        );
    }

    /// Settles the current packet, where it is the next one and none is held.
    #[inline(always)]
    fn settle_at_once(&mut self, number: u64)
        requires counted { 0 < self.old.arrivals }
        requires room { length self.old.settled ≤ MOST_HELD }
        requires none { self.old.held ≡ [] }
        requires number { number < 2 ^ 60 }
        ensures { IsButCurrent self.new (settled_at_once self.old number) }
    {
        let place = self.pool.give_away();
        let ready = self.latest.max(self.moment);
        self.front = number + 1;
        self.latest = ready;
        self.settled.push(SettledPacket {
            number,
            ready,
            place,
        });
    }

    /// Holds the current packet, and settles what can be settled. Few packets come so, and this stands out of the way of
    /// the others.
    #[inline(never)]
    fn hold(&mut self, at: usize, number: u64)
        requires { MayHold self.old at number }
        ensures { HoldsPacket self.old at number self.new }
    {
        self.put(at, number);
        self.advance();
    }

    /// Holds the current packet, and settles what can be settled. The next one, where none is held, is settled at once,
    /// as most are.
    #[inline(always)]
    fn take_in(&mut self, at: usize, number: u64)
        requires { MayHold self.old at number }
        ensures { HoldsPacket self.old at number self.new }
    {
        if self.held.is_empty() && number == self.front {
            self.settle_at_once(number);
        } else {
            self.hold(at, number);
        }
    }

    /// The current packet.
    pub fn packet(&self) -> &TextPacket
        ensures { result.now ≡ self.now.current }
    {
        self.pool.packet()
    }

    /// The current packet, for writing.
    pub fn packet_mut(&mut self) -> &mut TextPacket
        ensures* writes_back { sem 𝓛 (LendsHeld self.entry result) }
        ensures value { result.now ≡ self.entry.now.current }
    {
        self.pool.packet_mut()
    }

    /// Takes the current packet. One that is used stays inside, and another one is current.
    #[inline(always)]
    pub fn arrive(&mut self, now: u64) -> Taken
        requires now { now < END_OF_MOMENTS }
        requires quiet { has_ready self.old ≡ false }
        requires still { next_latest self.old ≡ None }
        requires few { self.old.arrivals < MOST_ARRIVALS }
        ensures stands { LeadsStory self.old self.new (came_current self.old now) }
        ensures answer { TellsStory self.old result (answer_current self.old now) }
        ensures used { TellsStory self.old (is_used result) (is_current_in_time self.old now) }
        ensures packets { ComeAlone self.old self.new }
        ensures same { is_used result ≡ false → self.new.current ≡ self.old.current }
        ensures arrivals { self.new.arrivals ≡ self.old.arrivals + 1 }
        ensures finished { self.new.finished ≡ self.old.finished }
        ensures still { next_latest self.new ≡ None }
    {
        self.pass(now);
        self.advance();
        let number = self.next_number(self.packet().seq);
        self.count(number);
        let place = match self.find(number) {
            Ok(place) => place,
            Err(taken) => return taken,
        };
        self.take_in(place, number);
        self.taken(number)
    }

    /// The number of a packet that comes next, where it would be given as soon as it comes.
    #[inline(always)]
    pub fn next_in_order(&self, seq: u16) -> Option<u64>
        ensures next { IfSome result (IsNext self.now) }
        ensures number { IfSome result (λ number. number ≡ next_number self.now seq) }
    {
        if self.arrivals == 0 {
            return None;
        }
        let number = self.next_number(seq);
        if number != self.front {
            return None;
        }
        if self.has_ready() {
            return None;
        }
        if !self.held.is_empty() {
            return None;
        }
        Some(number)
    }

    /// Takes a packet with this number, and gives it at once.
    #[inline(always)]
    pub fn give_at_once(&mut self, now: u64, number: u64) -> u64
        requires now { now < END_OF_MOMENTS }
        requires few { self.old.arrivals < MOST_ARRIVALS }
        requires small { number ≤ 196608 + 65536 * self.old.arrivals }
        ensures state { self.new ≡ given_at_once self.old now number }
        ensures ready { result ≡ ready_at_once self.old now }
    {
        self.pass(now);
        let ready = self.latest.max(self.moment);
        self.arrivals += 1;
        self.top = self.top.max(number);
        self.front = number + 1;
        self.latest = ready;
        ready
    }

    /// Lets time go on, and settles what it settles.
    pub fn expire(&mut self, now: u64)
        requires { now < END_OF_MOMENTS }
        ensures stands { LeadsStory self.old self.new (λ story. went story now) }
        ensures same { SameBut (passed self.old now) self.new }
        ensures still { next_latest self.new ≡ None }
    {
        self.pass(now);
        self.advance();
    }

    /// Lets `wait` go by.
    pub fn finish(&mut self)
        requires { self.old.finished ≡ false }
        ensures stands { LeadsStory self.old self.new ended }
        ensures all { AllReady self.old }
        ensures packets { self.new.packets ≡ self.old.packets }
        ensures arrivals { self.new.arrivals ≡ self.old.arrivals }
        ensures finished { self.new.finished ≡ true }
        ensures still { next_latest self.new ≡ None }
    {
        self.finished = true;
        self.moment += self.wait;
        self.advance();
    }

    /// Gives the first settled packet: it is the current one then.
    #[inline(always)]
    pub fn next(&mut self) -> Option<Due>
        ensures none { IfNone result ((self.old.settled ≡ []) × (self.new ≡ self.old)) }
        ensures some { IfSome result (GivesFirst self.old self.new) }
        ensures packet { IsSome result → GivesAsItCame self.old self.new }
    {
        if self.settled.is_empty() {
            return None;
        }
        let first = self.settled.take_first();
        self.pool.turn_to(first.place);
        Some(Due {
            number: first.number,
            ready: first.ready,
        })
    }
}
