//! Conferences.
ghost use Rattle.file_spec.specs.Kept.{IsConference};

use crate::{Legs, MixerLine, Plan, Service};

/// A conference: who takes part, and when the mixer does what. Times are in milliseconds. It keeps all that reading
/// its file tested and that can be said without its form: the limits, and that names, SSRCs and outputs differ.
#[derive(Debug, Drop)]
pub struct Conference {
    pub legs: Legs,
    /// How far apart the mixer's turns are.
    pub tick: u32,
    /// How far apart two packets of a source to a terminal are at least.
    pub spacing: u32,
    /// How long a lost packet is waited for.
    pub wait: u32,
    /// The most turns that the mixer takes.
    pub turns: u32,
    /// After how long without text to a terminal that is not aware a run that goes on is labelled again there, if it is.
    pub relabel: Option<u32>,
    /// How many octets a packet to a terminal has at most, if that is said.
    pub mtu: Option<u32>,
    pub mixer: MixerLine,
    pub plan: Plan,
    /// What is asked of a call over links beside the mixing.
    pub service: Service,
    pub ghost kept: { IsConference (record { legs = legs; tick = tick; spacing = spacing; wait = wait; turns = turns; relabel = relabel; mtu = mtu; mixer = mixer; plan = plan; service = service }) },
}
