//! What gives items.
ghost use Rattle.std.specs.Prelude.{◌≡◌, Bool, false, List};
ghost use Rattle.workers.specs.Giving.{GivesMore, items_by};

use std::sync::Wait;

/// What gives items, one after the other, until its last one. It tells only what it gave, so that nothing need be known of
/// what is still to come.
pub trait Producer<Q> {
    /// From the first of these to the second it gave these items, oldest first.
    ghost stands: { Self → Self → List Q → Type 0 };

    /// It gave its last item.
    ghost over: { Self → Bool };

    /// From the first of these to the second it got on, where there was nothing to give.
    ghost nearer: { Self → Self → Type 0 };

    fn is_over(&self) -> bool
        ensures { result ≡ over self.now };

    /// Writes the next item in place of what is in `item`, if one is there now.
    fn next<R: Wait>(&mut self, rt: &R, item: &mut Q) -> bool
        requires { over self.old ≡ false }
        ensures stands { GivesMore stands self.old self.new (items_by result item.new) }
        ensures nearer { result ≡ false → nearer self.old self.new };
}
