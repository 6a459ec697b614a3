//! One leg at the mixer.
ghost use Rattle.std.specs.Prelude.{◌≡◌, ◌<◌, ◌≤◌, ℕ, true, false, [], length, nat_le, vec_len};
ghost use Rattle.std.specs.Vec.{vec_capacity};
ghost use Rattle.file_spec.specs.Stays.{is_before_end};
ghost use Rattle.stream_spec.specs.Ready.{chunk_of};
ghost use Rattle.mix_loop.specs.Calm.{IsCalmBefore};
ghost use Rattle.mix_loop.specs.Items.{is_open};
ghost use Rattle.mix_loop.specs.Ports.{AreNew, IsNew, counts, is_away, is_spent, is_to_leave, is_to_stop, seat_with};

use crate::{HasInlet, Inlet, Item, TextsEnd};
use file_spec::{LegLine, Stay};
use rtt_base::Chunk;

/// Whether a leg holds a place at the mixer.
#[derive(Clone, Copy, Debug, PartialEq, Eq)]
pub(crate) enum SeatState {
    /// It did not come yet.
    Away,
    /// It holds a place, and listens.
    Listens,
    /// It holds a place, and listens no more.
    Hushed,
    /// It left.
    Left,
}

/// A leg on its way to the mixer: where its texts come from, with a hand for one of them, and when it stays.
#[derive(Drop)]
pub(crate) struct Port<I: Inlet> {
    pub(crate) inlet: I,
    pub(crate) hand: Chunk,
    /// Whether a text is in hand.
    pub(crate) full: bool,
    pub(crate) ended: TextsEnd<I::Fault>,
    pub(crate) stay: Stay,
    pub(crate) seat: SeatState,
}

impl<I: Inlet> Port<I> {
    /// A port to which nothing came yet, of a leg that stays so long.
    pub(crate) fn new(inlet: I, stay: Stay) -> Port<I>
        ensures { IsNew inlet stay result }
    {
        Port {
            inlet,
            hand: Chunk::default(),
            full: false,
            ended: TextsEnd::Open,
            stay,
            seat: SeatState::Away,
        }
    }

    /// Whether its stay is over at the moment `now`, and it listens still.
    pub(crate) fn is_to_stop(&self, now: u64) -> bool
        ensures { result ≡ is_to_stop now self.now }
    {
        matches!(self.seat, SeatState::Listens) && !self.stay.is_before_end(now)
    }

    /// Whether it listens no more, and has nothing left to offer.
    pub(crate) fn is_to_leave(&self) -> bool
        ensures { result ≡ is_to_leave self.now }
    {
        matches!(self.seat, SeatState::Hushed) && self.is_spent()
    }

    fn is_spent(&self) -> bool
        ensures { result ≡ is_spent self.now }
    {
        !self.full && !self.ended.is_open()
    }

    /// The moment from which it has a text to offer: 0 where it is still to ask for one, and none where no more comes.
    fn ready_from(&self) -> u64
        ensures waits { self.now.full ≡ true → result ≤ self.now.hand.ready }
        ensures ended { self.now.full ≡ false → 0 < result → is_open self.now.ended ≡ false }
    {
        if self.full {
            return self.hand.ready;
        }
        if self.ended.is_open() { 0 } else { u64::MAX }
    }

    /// Before this moment it has something left to offer: before none, or before all.
    fn offering_until(&self) -> u64
        ensures { 0 < result → is_spent self.now ≡ false }
    {
        if self.is_spent() {
            return 0;
        }
        u64::MAX
    }

    /// Before this moment its leg neither comes nor goes.
    fn seated_until(&self) -> u64
        ensures early { is_away self.now.seat ≡ true → result ≤ self.now.stay.from }
        ensures stays { (t : ℕ) → t < result → is_to_stop t self.now ≡ false }
        ensures keeps { 0 < result → is_to_leave self.now ≡ false }
    {
        match self.seat {
            SeatState::Away => u64::from(self.stay.from),
            SeatState::Listens => end_of(self.stay),
            SeatState::Hushed => self.offering_until(),
            SeatState::Left => u64::MAX,
        }
    }

    /// Before this moment nothing is done with it before a turn.
    pub(crate) fn calm_until(&self) -> u64
        ensures { IsCalmBefore result self.now }
    {
        self.ready_from().min(self.seated_until())
    }
}

impl<I: Inlet> HasInlet<I> for Port<I> {
    ghost inlet = { λ p. p.inlet };

    fn into_inlet(self) -> I {
        self.inlet
    }
}

/// Whether a text was handed out beside this answer, and is ready within the stay.
pub(crate) fn counts<F: Copy>(item: &Item<F>, chunk: &Chunk, stay: Stay) -> bool
    ensures { result ≡ counts item.now (chunk_of chunk.now) stay }
{
    item.is_chunk() && stay.contains(chunk.ready)
}

/// Whether the stay has begun at this moment, in milliseconds.
pub(crate) fn has_begun(stay: Stay, moment: u64) -> bool
    ensures { result ≡ nat_le stay.from moment }
{
    u64::from(stay.from) <= moment
}

/// The end of the stay, in milliseconds: all moments are before it where it has none.
fn end_of(stay: Stay) -> u64
    ensures { (t : ℕ) → t < result → is_before_end t stay.until ≡ true }
{
    match stay.until {
        Some(until) => u64::from(until),
        None => u64::MAX,
    }
}

/// The seat of a leg that came.
pub(crate) fn seat_with(listens: bool) -> SeatState
    ensures { result ≡ seat_with listens }
{
    if listens {
        SeatState::Listens
    } else {
        SeatState::Hushed
    }
}

impl SeatState {
    pub(crate) fn is_away(self) -> bool
        ensures { result ≡ is_away self }
    {
        matches!(self, SeatState::Away)
    }
}

/// The ports of these legs, to which nothing came yet: what is `inlets[k]` stays as long as `legs[k]` says. There is room for
/// them.
pub(crate) fn ports_over<I: Inlet>(
    inlets: Vec<I>,
    legs: &[LegLine],
    mut ports: Vec<Port<I>>,
) -> Vec<Port<I>>
    requires legs { vec_len inlets ≡ length legs.now }
    requires none { ports.items ≡ [] }
    requires room { vec_len inlets ≤ vec_capacity ports }
    ensures { AreNew inlets.items legs.now result.items }
{
    let mut rest = inlets.into_iter();
    while let Some(inlet) = rest.next() {
        let count = ports.len();
        let leg = &legs[count];
        ports.push_reserved(Port::new(inlet, leg.stay));
    }
    rest.destroy_empty();
    ports
}
