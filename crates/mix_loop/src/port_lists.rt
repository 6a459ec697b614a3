//! Inlets come back of ports.
ghost use Rattle.std.specs.Prelude.{◌≡◌, ◌≤◌, [], map, vec_len};
ghost use Rattle.std.specs.Vec.{vec_capacity};

/// A leg at a mixer, with where its texts come from.
pub trait HasInlet<I> {
    /// Where they come from.
    ghost inlet: { Self → I };

    /// Where its texts come from.
    fn into_inlet(self) -> I
        ensures { result ≡ inlet self };
}

/// Where the texts of these legs come from. There is room for them.
pub fn inlets_of<I, P: HasInlet<I>>(ports: Vec<P>, mut inlets: Vec<I>) -> Vec<I>
    requires none { inlets.items ≡ [] }
    requires room { vec_len ports ≤ vec_capacity inlets }
    ensures { result.items ≡ map P.inlet ports.items }
{
    let mut rest = ports.into_iter();
    while let Some(port) = rest.next() {
        inlets.push_reserved(port.into_inlet());
    }
    rest.destroy_empty();
    inlets
}
