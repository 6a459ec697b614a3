//! A gate, lent to many.
use rtt_io::Gate;
use std::alloc::AllocError;

/// A gate that is lent to each leg, and to who pops its items.
pub struct LentGate<'g, G> {
    /// The gate, which is told of all that each is told.
    pub gate: &'g G,
}

impl<'g, G> Clone for LentGate<'g, G> {
    fn clone(&self) -> Result<LentGate<'g, G>, AllocError> {
        Ok(*self)
    }
}

impl<'g, G> Copy for LentGate<'g, G> {}

impl<'g, G: Gate> Gate for LentGate<'g, G> {
    fn pass(&self, leg: u32) {
        self.gate.pass(leg);
    }

    fn popped(&self, leg: u32) {
        self.gate.popped(leg);
    }
}
