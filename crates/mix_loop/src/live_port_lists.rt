//! Ports are made of where items are popped, and undone.
ghost use Rattle.std.specs.Prelude.{◌≡◌, ◌≤◌, [], map, vec_len};
ghost use Rattle.std.specs.Vec.{vec_capacity};
ghost use Rattle.mix_loop.specs.Opening.{AreBegun};

use crate::HasInlet;
use crate::live_ports::LivePort;

impl<I> HasInlet<I> for LivePort<I> {
    ghost inlet = { λ p. p.inlet };

    fn into_inlet(self) -> I {
        self.inlet
    }
}

/// A port for each of these, in order, at which nothing was popped: the leg's number is its place in the list. There is room for
/// them.
pub fn ports_over<I>(inlets: Vec<I>, mut ports: Vec<LivePort<I>>) -> Vec<LivePort<I>>
    requires few { vec_len inlets ≤ 64 }
    requires none { ports.items ≡ [] }
    requires room { vec_len inlets ≤ vec_capacity ports }
    ensures { AreBegun inlets.items result.items }
{
    let mut rest = inlets.into_iter();
    while let Some(inlet) = rest.next() {
        let leg = ports.len() as u8;
        ports.push_reserved(LivePort::new(inlet, leg));
    }
    rest.destroy_empty();
    ports
}

/// Where the items of these legs are popped. There is room for them.
pub fn live_inlets_of<I>(ports: Vec<LivePort<I>>, inlets: Vec<I>) -> Vec<I>
    requires none { inlets.items ≡ [] }
    requires room { vec_len ports ≤ vec_capacity inlets }
    ensures { result.items ≡ map (λ p. p.inlet) ports.items }
{
    crate::inlets_of(ports, inlets)
}
