//! Where a test can hold the legs of a call. A program has no use for it.

/// Is told of each item that a leg is about to push, and of each that was popped. No clause rests on it.
pub trait Gate {
    /// Leg `leg` is about to push its next item.
    fn pass(&self, leg: u32);

    /// An item of leg `leg` was popped.
    fn popped(&self, leg: u32);
}

/// A gate that does nothing.
#[derive(Clone, Copy, Debug, Default)]
pub struct StillGate;

impl Gate for StillGate {
    fn pass(&self, _leg: u32) {}

    fn popped(&self, _leg: u32) {}
}
