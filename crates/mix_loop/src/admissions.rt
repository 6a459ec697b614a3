//! Legs come and go.
ghost use Rattle.std.specs.Prelude.{◌≡◌, ◌<◌, false};
ghost use Rattle.mix_loop.specs.Mixers.{Keeps};
ghost use Rattle.mix_loop.specs.Ports.{OnlySeat, is_away};
ghost use Rattle.mix_loop.specs.Steps.{Departed, Entered, Stopped};

use crate::ports::{Port, SeatState, has_begun, seat_with};
use crate::{Inlet, MixerCalls};

impl<I: Inlet> Port<I> {
    /// Ends the listening of the leg, where its stay is over at the moment `now`.
    pub(crate) fn stop<M: MixerCalls>(&mut self, mixer: &mut M, leg: usize, now: u64)
        requires { leg < M.legs mixer.old }
        ensures keeps { Keeps M.legs M.turns M.addresses mixer.old mixer.new }
        ensures only { OnlySeat self.old self.new }
        ensures away { is_away self.new.seat ≡ is_away self.old.seat }
        ensures stops { Stopped M.stands leg now self.old self.new mixer.old mixer.new }
    {
        if !self.is_to_stop(now) {
            return;
        }
        mixer.hush(leg);
        self.seat = SeatState::Hushed;
    }

    /// Lets the leg leave, where it listens no more and nothing of it or for it is left.
    pub(crate) fn leave<M: MixerCalls>(&mut self, mixer: &mut M, leg: usize)
        requires { leg < M.legs mixer.old }
        ensures keeps { Keeps M.legs M.turns M.addresses mixer.old mixer.new }
        ensures only { OnlySeat self.old self.new }
        ensures away { is_away self.new.seat ≡ is_away self.old.seat }
        ensures leaves { Departed M.stands leg self.old self.new mixer.old mixer.new }
    {
        if !self.is_to_leave() {
            return;
        }
        if !mixer.leave(leg) {
            return;
        }
        self.seat = SeatState::Left;
    }

    /// Lets the leg come, where it never came and its stay has begun at the moment `now`.
    pub(crate) fn come<M: MixerCalls>(&mut self, mixer: &mut M, leg: usize, now: u64)
        requires { leg < M.legs mixer.old }
        ensures keeps { Keeps M.legs M.turns M.addresses mixer.old mixer.new }
        ensures only { OnlySeat self.old self.new }
        ensures comes { Entered M.stands leg now self.old self.new mixer.old mixer.new }
    {
        if !self.seat.is_away() {
            return;
        }
        if !has_begun(self.stay, now) {
            return;
        }
        let listens = self.stay.is_before_end(now);
        if !mixer.admit(leg, listens) {
            return;
        }
        self.seat = seat_with(listens);
    }
}
