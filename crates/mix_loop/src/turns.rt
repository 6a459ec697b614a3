//! The turns of a mixing.
ghost use Rattle.std.specs.Prelude.{◌≡◌, ◌*◌, ◌<◌, ◌≤◌, length, MatchOption};
ghost use Rattle.std.specs.List.{list_any};
ghost use Rattle.mix_loop.specs.Calm.{AreCalmBefore};
ghost use Rattle.mix_loop.specs.Items.{is_fault, fault_in};
ghost use Rattle.mix_loop.specs.Mixers.{ComeBefore, Keeps};
ghost use Rattle.mix_loop.specs.Steps.{AllCame, AllDrained, AllMoved, AllOffered, AllSettled, AllTurned, AllWent, TellsOver, are_empty};
ghost use Rattle.mix_loop.specs.Turns.{AreSound, IsLowestAt, IsMixing, IsUnsent, NoFaultBelow, WasStopped, ended_at, mixing_of};
ghost use Rattle.file_spec.specs.declared.limits.TheConstants.{MOST_LEGS};

use crate::ports::Port;
use crate::{Inlet, MixerCalls};
use link_io::Beat;
use std::sync::Wait;

/// How a mixing ended.
#[derive(Clone, Copy, Debug, PartialEq, Eq)]
pub enum MixEnd<F, T> {
    /// Nothing is left.
    Over,
    /// Something is left after the last turn.
    TooLong,
    /// This leg, the lowest of those that have a fault, can't be read further.
    Faulted { leg: u8, fault: F },
    /// What a turn sends could not be sent, for this reason.
    Stopped(T),
}

/// What is found before a turn.
#[derive(Clone, Copy, Debug, PartialEq, Eq)]
pub(crate) enum Before {
    /// Nothing is left.
    Over,
    /// Something is left.
    Going,
    /// A leg has a fault.
    Faulted,
}

/// How the turns ended.
#[derive(Clone, Copy, Debug, PartialEq, Eq)]
pub(crate) enum TurnsEnd<T> {
    Over,
    TooLong,
    Faulted,
    Stopped(T),
}

/// Legs go whose stay is over at the moment `now`, in leg order.
fn go_all<I: Inlet, M: MixerCalls>(ports: &mut [Port<I>], mixer: &mut M, now: u64)
    requires sound { AreSound I.good ports.old }
    requires legs { M.legs mixer.old ≡ length ports.old }
    ensures sound { AreSound I.good ports.new }
    ensures keeps { Keeps M.legs M.turns M.addresses mixer.old mixer.new }
    ensures goes { AllWent I.stands M.stands now ports.old ports.new mixer.old mixer.new }
{
    for leg in 0..ports.len() {
        let port = &mut ports[leg];
        port.stop(mixer, leg, now);
        port.leave(mixer, leg);
    }
}

/// Legs come whose stay has begun at the moment `now`, in leg order.
fn come_all<I: Inlet, M: MixerCalls>(ports: &mut [Port<I>], mixer: &mut M, now: u64)
    requires sound { AreSound I.good ports.old }
    requires legs { M.legs mixer.old ≡ length ports.old }
    ensures sound { AreSound I.good ports.new }
    ensures keeps { Keeps M.legs M.turns M.addresses mixer.old mixer.new }
    ensures comes { AllCame I.stands M.stands now ports.old ports.new mixer.old mixer.new }
{
    for leg in 0..ports.len() {
        let port = &mut ports[leg];
        port.come(mixer, leg, now);
    }
}

/// Each leg offers what it can at the moment `now`, in leg order.
fn gather_all<I: Inlet, M: MixerCalls, R: Wait>(
    rt: &R,
    ports: &mut [Port<I>],
    mixer: &mut M,
    now: u64,
)
    requires few { length ports.old ≤ MOST_LEGS }
    requires sound { AreSound I.good ports.old }
    requires legs { M.legs mixer.old ≡ length ports.old }
    ensures sound { AreSound I.good ports.new }
    ensures keeps { Keeps M.legs M.turns M.addresses mixer.old mixer.new }
    ensures offers { AllOffered I.stands M.stands now ports.old ports.new mixer.old mixer.new }
{
    for leg in 0..ports.len() {
        let port = &mut ports[leg];
        port.gather(rt, mixer, leg, now);
    }
}

/// Whether each hand is empty and nothing waits at the mixer.
fn is_over<I: Inlet, M: MixerCalls>(ports: &[Port<I>], mixer: &M) -> bool
    ensures { TellsOver M.stands ports.now mixer.now result }
{
    let spent = all_empty(ports);
    spent && mixer.idle()
}

/// Whether each hand is empty.
fn all_empty<I: Inlet>(ports: &[Port<I>]) -> bool
    ensures { result ≡ are_empty ports.now }
{
    ports.iter().all(|port| !port.full)
}

/// Whether a leg can't be read further.
fn has_fault<I: Inlet>(ports: &[Port<I>]) -> bool
    ensures { result ≡ list_any (λ p. is_fault p.ended) ports.now }
{
    ports.iter().any(|port| port.ended.is_fault())
}

/// At the moment `now` legs go, legs come, and each offers what it can.
fn move_all<I: Inlet, M: MixerCalls, R: Wait>(
    rt: &R,
    ports: &mut [Port<I>],
    mixer: &mut M,
    now: u64,
)
    requires few { length ports.old ≤ MOST_LEGS }
    requires sound { AreSound I.good ports.old }
    requires legs { M.legs mixer.old ≡ length ports.old }
    ensures sound { AreSound I.good ports.new }
    ensures keeps { Keeps M.legs M.turns M.addresses mixer.old mixer.new }
    ensures moves { AllMoved I.stands M.stands now ports.old ports.new mixer.old mixer.new }
{
    go_all(ports, mixer, now);
    come_all(ports, mixer, now);
    gather_all(rt, ports, mixer, now);
}

/// Does all that is done before a turn at the moment `now`, and answers what is found then.
fn settle<I: Inlet, M: MixerCalls, R: Wait>(
    rt: &R,
    ports: &mut [Port<I>],
    mixer: &mut M,
    now: u64,
) -> Before
    requires few { length ports.old ≤ MOST_LEGS }
    requires sound { AreSound I.good ports.old }
    requires legs { M.legs mixer.old ≡ length ports.old }
    ensures sound { AreSound I.good ports.new }
    ensures keeps { Keeps M.legs M.turns M.addresses mixer.old mixer.new }
    ensures settles { AllSettled I.stands M.stands now result ports.old ports.new mixer.old mixer.new }
{
    move_all(rt, ports, mixer, now);
    if has_fault(ports) {
        return Before::Faulted;
    }
    if is_over(ports, mixer) {
        return Before::Over;
    }
    Before::Going
}

/// Before this moment nothing is done before a turn; 0 where each hand is empty, and where it is not behind `next`, the moment
/// of the next turn, so that no turn is passed over.
fn calm_until<I: Inlet>(ports: &[Port<I>], next: u64) -> u64
    ensures { AreCalmBefore result ports.now }
{
    if all_empty(ports) {
        return 0;
    }
    let mut until = u64::MAX;
    for leg in 0..ports.len() {
        let port = &ports[leg];
        until = until.min(port.calm_until());
        if until <= next {
            return 0;
        }
    }
    until
}

/// Does all that is done before a turn at the moment `now`, and answers what is found then. Nothing is done before the moment
/// `calm`, which is then the next such moment, where that is behind `next`, the moment of the next turn.
fn settle_from<I: Inlet, M: MixerCalls, R: Wait>(
    rt: &R,
    ports: &mut [Port<I>],
    mixer: &mut M,
    now: u64,
    next: u64,
    calm: &mut u64,
) -> Before
    requires few { length ports.old ≤ MOST_LEGS }
    requires sound { AreSound I.good ports.old }
    requires legs { M.legs mixer.old ≡ length ports.old }
    requires calm { AreCalmBefore calm.old ports.old }
    ensures sound { AreSound I.good ports.new }
    ensures keeps { Keeps M.legs M.turns M.addresses mixer.old mixer.new }
    ensures calm { AreCalmBefore calm.new ports.new }
    ensures settles { AllSettled I.stands M.stands now result ports.old ports.new mixer.old mixer.new }
{
    if now < *calm {
        return Before::Going;
    }
    let found = settle(rt, ports, mixer, now);
    *calm = calm_until(ports, next);
    found
}

/// The moment of a turn: so many ticks.
fn moment_of(turn: u64, tick: u64) -> u64
    requires turns { turn ≤ 5000000 }
    requires tick { tick ≤ 400 }
    ensures { result ≡ turn * tick }
{
    turn * tick
}

/// Makes turns until nothing is left, or a leg has a fault, or so many turns are made. Turn `k` is at `k` ticks.
fn take_turns<I: Inlet, M: MixerCalls, R: Wait>(
    rt: &R,
    ports: &mut [Port<I>],
    mixer: &mut M,
    tick: u64,
    turns: u64,
) -> TurnsEnd<M::Fault>
    requires few { length ports.old ≤ MOST_LEGS }
    requires sound { AreSound I.good ports.old }
    requires legs { M.legs mixer.old ≡ length ports.old }
    requires none { M.turns mixer.old ≡ 0 }
    requires turns { turns ≤ 5000000 }
    requires tick { tick ≤ 400 }
    requires moments { ComeBefore M.horizon tick turns }
    ensures sound { AreSound I.good ports.new }
    ensures turned { AllTurned I.stands M.stands tick turns result ports.old ports.new mixer.old mixer.new }
    ensures unsent { WasStopped M.unsent result mixer.new }
{
    let mut calm = 0;
    for k in 0..turns {
        let now = moment_of(k, tick);
        let next = moment_of(k + 1, tick);
        match settle_from(rt, ports, mixer, now, next, &mut calm) {
            Before::Going => {}
            Before::Over => return TurnsEnd::Over,
            Before::Faulted => return TurnsEnd::Faulted,
        }
        match mixer.turn(now, &Beat::last()) {
            Ok(()) => {}
            Err(fault) => return TurnsEnd::Stopped(fault),
        }
    }
    match settle(rt, ports, mixer, moment_of(turns, tick)) {
        Before::Going => TurnsEnd::TooLong,
        Before::Over => TurnsEnd::Over,
        Before::Faulted => TurnsEnd::Faulted,
    }
}

/// Lets go what comes of each leg until nothing comes any more.
fn drain_all<I: Inlet, R: Wait>(rt: &R, ports: &mut [Port<I>])
    requires few { length ports.old ≤ MOST_LEGS }
    requires sound { AreSound I.good ports.old }
    ensures sound { AreSound I.good ports.new }
    ensures drains { AllDrained I.stands ports.old ports.new }
{
    for leg in 0..ports.len() {
        let port = &mut ports[leg];
        port.drain(rt, leg);
    }
}

/// The fault of the lowest leg that has one.
fn lowest_fault<I: Inlet>(ports: &[Port<I>]) -> Option<(u8, I::Fault)>
    requires { length ports.now ≤ MOST_LEGS }
    ensures { MatchOption result (NoFaultBelow (length ports.now) ports.now) (λ r. IsLowestAt ports.now r.0 r.1) }
{
    for leg in 0..ports.len() {
        if let Some(fault) = fault_at(ports, leg) {
            return Some((leg as u8, fault));
        }
    }
    None
}

/// The fault of this leg, if it has one.
fn fault_at<I: Inlet>(ports: &[Port<I>], leg: usize) -> Option<I::Fault>
    requires { leg < length ports.now }
    ensures { result ≡ fault_in (ended_at ports.now leg) }
{
    let port = &ports[leg];
    port.ended.fault()
}

/// What is answered where no leg has a fault.
fn mixing_of<F, T>(turned: TurnsEnd<T>) -> MixEnd<F, T>
    ensures { result ≡ mixing_of turned }
{
    match turned {
        TurnsEnd::Over => MixEnd::Over,
        TurnsEnd::TooLong | TurnsEnd::Faulted => MixEnd::TooLong,
        TurnsEnd::Stopped(fault) => MixEnd::Stopped(fault),
    }
}

/// Mixes what comes to these ports, at most 64, and reads each leg to its end.
pub(crate) fn mix_ports<I: Inlet, M: MixerCalls, R: Wait>(
    rt: &R,
    ports: &mut [Port<I>],
    mixer: &mut M,
    tick: u64,
    turns: u64,
) -> MixEnd<I::Fault, M::Fault>
    requires few { length ports.old ≤ MOST_LEGS }
    requires sound { AreSound I.good ports.old }
    requires legs { M.legs mixer.old ≡ length ports.old }
    requires none { M.turns mixer.old ≡ 0 }
    requires turns { turns ≤ 5000000 }
    requires tick { tick ≤ 400 }
    requires moments { ComeBefore M.horizon tick turns }
    ensures sound { AreSound I.good ports.new }
    ensures mixed { IsMixing I.stands M.stands tick turns result ports.old ports.new mixer.old mixer.new }
    ensures unsent { IsUnsent M.unsent result mixer.new }
{
    let turned = take_turns(rt, ports, mixer, tick, turns);
    drain_all(rt, ports);
    match lowest_fault(ports) {
        Some(lowest) => MixEnd::Faulted {
            leg: lowest.0,
            fault: lowest.1,
        },
        None => mixing_of(turned),
    }
}
