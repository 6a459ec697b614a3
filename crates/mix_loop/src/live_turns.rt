//! The turns of a live call.
ghost use Rattle.std.specs.Prelude.{◌≡◌, ◌≤◌, ◌<◌, ◌^◌, true, false, length, MatchOption};
ghost use Rattle.std.specs.List.{list_all};
ghost use Rattle.mix_loop.specs.Addresses.{AreWithin, ports_of};
ghost use Rattle.mix_loop.specs.Mixers.{Keeps, TellsIdle};
ghost use Rattle.mix_loop.specs.Clocks.{IsPaced, OnlyTimePassed, StandsPaced};
ghost use Rattle.mix_loop.specs.Order.{AreInTurn};
ghost use Rattle.mix_loop.specs.Walks.{AllGathered, AllGrew, AreAt, HaltsThen, HasFailed, IsPaused, NoneFailed, Ran, WasFaulted, WasStopped, is_spent};

use crate::MixerCalls;
use crate::clocks::TurnClock;
use crate::live_ports::LivePort;
use crate::moments::{first_tick, next_tick};
use crate::pops::Consumer;
use std::sync::Wait;

/// How the turns of a live call ended.
#[derive(Clone, Copy, Debug, PartialEq, Eq)]
pub enum LiveTurnsEnd<T> {
    /// All turns were made.
    Done,
    /// All links are closed, and nothing is left.
    Closed,
    /// The link of this leg failed, where its datagrams come in.
    Faulted(u8),
    /// What a turn sends could not be sent, for this reason.
    Stopped(T),
}

/// Each leg offers what it can before the turn of this moment, in leg order.
fn gather_all<I: Consumer, M: MixerCalls, R: Wait>(
    rt: &R,
    ports: &mut [LivePort<I>],
    mixer: &mut M,
    turn: u64,
)
    requires at { AreAt ports.old }
    requires legs { M.legs mixer.old ≡ length ports.old }
    ensures at { AreAt ports.new }
    ensures keeps { Keeps M.legs M.turns M.addresses mixer.old mixer.new }
    ensures grew { AllGrew I.popped I.began ports.old ports.new }
    ensures gathered { AllGathered I.popped M.stands ports.old ports.new mixer.old mixer.new }
{
    for leg in 0..ports.len() {
        let port = &mut ports[leg];
        port.gather(rt, mixer, turn);
    }
}

/// The lowest leg of which a fault was popped.
fn first_failed<I>(ports: &[LivePort<I>]) -> Option<u8>
    requires { AreAt ports.now }
    ensures { MatchOption result (NoneFailed ports.now) (λ leg. HasFailed leg ports.now) }
{
    for leg in 0..ports.len() {
        let port = &ports[leg];
        if port.failed {
            return Some(port.leg);
        }
    }
    None
}

/// Whether each leg's end was popped, and nothing is in a hand.
fn all_spent<I>(ports: &[LivePort<I>]) -> bool
    ensures { result ≡ list_all is_spent ports.now }
{
    ports.iter().all(|port| port.ended && !port.full)
}

/// Whether each leg's end was popped, nothing is in a hand, and the mixer is idle.
fn is_over<I, M: MixerCalls>(ports: &[LivePort<I>], mixer: &M) -> bool
    ensures spent { result ≡ true → list_all is_spent ports.now ≡ true }
    ensures idle { result ≡ true → TellsIdle M.stands mixer.now true }
    ensures goes_on { result ≡ false → list_all is_spent ports.now ≡ true → TellsIdle M.stands mixer.now false }
{
    if !all_spent(ports) {
        return false;
    }
    mixer.idle()
}

/// Makes so many turns, one at each multiple of `tick` milliseconds of the clock, or later where what is done before takes longer;
/// unless a link fails, or all are closed and nothing is left. It pauses once a turn, when all that the turn sends was given.
pub fn take_turns<I: Consumer, M: MixerCalls<Clock = C::Clock>, C: TurnClock, R: Wait>(
    rt: &R,
    ports: &mut [LivePort<I>],
    mixer: &mut M,
    clock: &mut C,
    tick: u64,
    turns: u64,
) -> LiveTurnsEnd<M::Fault>
    requires at { AreAt ports.old }
    requires legs { M.legs mixer.old ≡ length ports.old }
    requires none { M.turns mixer.old ≡ 0 }
    requires turns { turns ≤ 5000000 }
    requires tick { 0 < tick }
    requires short { tick ≤ 400 }
    requires horizon { 2 ^ 47 ≤ M.horizon }
    requires given { AreWithin (C.pauses clock.old) (M.addresses mixer.old) }
    ensures at { AreAt ports.new }
    ensures grew { AllGrew I.popped I.began ports.old ports.new }
    ensures ran { Ran I.popped result M.stands
        (StandsPaced C.tells tick (C.moment clock.old) (C.moment clock.new)
        (AreInTurn M.stands M.addresses (C.pauses clock.old)) M.stands)
        (StandsPaced C.tells tick (C.moment clock.old) (C.moment clock.new)
        (AreInTurn M.stands M.addresses (C.pauses clock.old)) (HaltsThen M.halted))
        turns ports.old ports.new mixer.old mixer.new }
    ensures addresses { ports_of (M.addresses mixer.new) ≡ ports_of (M.addresses mixer.old) }
    ensures faulted { WasFaulted result ports.new }
    ensures unsent { WasStopped M.unsent result mixer.new }
    ensures pauses { result ≡ LiveTurnsEnd.Done → IsPaused turns (C.pauses clock.old) (C.pauses clock.new) }
    ensures paced { C.tells → result ≡ LiveTurnsEnd.Done
        → IsPaced turns tick (C.moment clock.old) (C.moment clock.new) }
    ensures passed { OnlyTimePassed C.TurnClock clock.old clock.new }
{
    let began = clock.clock_now();
    let mut due = first_tick(began, tick);
    for k in 0..turns {
        gather_all(rt, ports, mixer, due);
        match first_failed(ports) {
            Some(leg) => return LiveTurnsEnd::Faulted(leg),
            None => {}
        }
        if is_over(ports, mixer) {
            return LiveTurnsEnd::Closed;
        }
        let now = clock.clock_now();
        match mixer.turn(now, &clock.clock_beat()) {
            Ok(()) => {}
            Err(fault) => return LiveTurnsEnd::Stopped(fault),
        }
        due = next_tick(due, now, tick);
        clock.sleep_until(due);
    }
    if is_over(ports, mixer) {
        return LiveTurnsEnd::Closed;
    }
    LiveTurnsEnd::Done
}
