//! Loops of mixing on one thread: of what inlets give, where an inlet is where a leg's texts come from, and of a live call, by a
//! clock. What is proved holds of each kind of inlet alike, and of each kind of mixer.
#![tactic(auto)]

mod admissions;
mod answers;
mod call_laws;
mod clocks;
mod drains;
mod inlet_answers;
mod inlets;
mod items;
mod lanes;
mod live_lanes;
mod live_laws;
mod live_offers;
mod live_port_lists;
mod live_ports;
mod live_turns;
mod mixers;
mod moments;
mod offers;
mod plain_mix;
mod pops;
mod port_lists;
mod ports;
mod turns;

pub use answers::Answer;
pub use call_laws::{
    calls_are_live, covered_end_is_all, end_is_all, legs_cover, served_are_answered,
    serving_is_live, turns_are_served,
};
pub use clocks::TurnClock;
pub use drains::drain_all;
pub use inlet_answers::{ask, copy_chunk};
pub use inlets::Inlet;
pub use items::{Item, TextsEnd};
pub use live_laws::turns_may_begin;
pub use live_port_lists::{live_inlets_of, ports_over};
pub use live_ports::LivePort;
pub use live_turns::{LiveTurnsEnd, take_turns};
pub use mixers::MixerCalls;
pub use plain_mix::{InletReturn, Room, mix_inlets};
pub use pops::Consumer;
pub use port_lists::{HasInlet, inlets_of};
pub use turns::MixEnd;

#[cfg(test)]
mod tests;
