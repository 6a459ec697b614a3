//! What goes through a queue.

use rtt_base::NoMemory;
use std::alloc::Global;

/// An item that is used again: who has popped and read it gives it back, and who gives writes the next one into it. So it is
/// small where it is moved, and has what is large in memory of its own.
pub trait Reusable {
    /// An item in which nothing was written yet. It takes all memory that it ever needs.
    fn blank(alloc: Global) -> Result<Self, NoMemory>;
}
