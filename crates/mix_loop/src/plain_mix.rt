//! Plain mixing of what inlets give.
ghost use Rattle.std.specs.Prelude.{◌≡◌, ◌≤◌, length, vec_len, IfOk};
ghost use Rattle.mix_loop.specs.Mixers.{ComeBefore};
ghost use Rattle.mix_loop.specs.Mixing.{AllGood, HasRoom, MixesInlets};
ghost use Rattle.mix_loop.specs.Turns.{IsUnsent};
ghost use Rattle.file_spec.specs.declared.limits.TheConstants.{MOST_LEGS};

use crate::ports::{Port, ports_over};
use crate::turns::mix_ports;
use crate::{Inlet, MixEnd, MixerCalls, inlets_of};
use file_spec::LegLine;
use rtt_base::NoMemory;
use std::alloc::Global;
use std::sync::Wait;

/// All memory that the mixing of so many legs needs.
pub struct Room<I: Inlet> {
    pub(crate) ports: Vec<Port<I>>,
    pub(crate) inlets: Vec<I>,
}

impl<I: Inlet> Room<I> {
    /// Room for so many legs.
    pub fn new(alloc: Global, legs: usize) -> Result<Room<I>, NoMemory>
        ensures { IfOk result (HasRoom legs) }
    {
        let Ok(ports) = Vec::with_capacity(alloc, legs) else {
            return Err(NoMemory);
        };
        let Ok(inlets) = Vec::with_capacity(alloc, legs) else {
            ports.destroy_empty();
            return Err(NoMemory);
        };
        Ok(Room { ports, inlets })
    }
}

/// How a mixing ended, with the inlets that were lent to it.
pub struct InletReturn<I: Inlet, T> {
    pub mixing: MixEnd<I::Fault, T>,
    pub inlets: Vec<I>,
}

/// Mixes what these inlets give, at most 64: that of leg `k` is `inlets[k]`, and stays as long as `legs[k]` says. Turn `k` is at
/// `k` ticks, of at most 400 milliseconds; at most `turns` are made, which are at most 5000000. Before a turn legs go whose stay
/// is over, legs come whose stay has begun, and each offers what is ready and has room; then mixing is over, or the turn is
/// made. Texts that are not ready within the stay of their leg are passed over. In the end each leg is read to its end, whatever
/// is answered.
pub fn mix_inlets<I: Inlet, M: MixerCalls, R: Wait>(
    rt: &R,
    inlets: Vec<I>,
    legs: &[LegLine],
    room: Room<I>,
    mixer: &mut M,
    tick: u64,
    turns: u64,
) -> InletReturn<I, M::Fault>
    requires few { vec_len inlets ≤ MOST_LEGS }
    requires good { AllGood I.good inlets.items }
    requires lines { vec_len inlets ≡ length legs.now }
    requires room { HasRoom (vec_len inlets) room }
    requires legs { M.legs mixer.old ≡ vec_len inlets }
    requires none { M.turns mixer.old ≡ 0 }
    requires turns { turns ≤ 5000000 }
    requires tick { tick ≤ 400 }
    requires moments { ComeBefore M.horizon tick turns }
    ensures inlets { vec_len result.inlets ≡ vec_len inlets }
    ensures mixed { MixesInlets I.stands M.stands tick turns legs.now result.mixing
        inlets.items result.inlets.items mixer.old mixer.new }
    ensures unsent { IsUnsent M.unsent result.mixing mixer.new }
{
    let Room {
        ports,
        inlets: back,
    } = room;
    let mut ports = ports_over(inlets, legs, ports);
    let mixing = mix_ports(rt, ports.as_mut_slice(), mixer, tick, turns);
    let inlets = inlets_of(ports, back);
    InletReturn { mixing, inlets }
}
