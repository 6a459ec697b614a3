//! The order of timestamps.
ghost use Rattle.std.specs.Prelude.{◌≡◌, ◌≤◌, ◌<◌, ◌^◌, ◌↔◌, IsTrue};
ghost use Rattle.rtt_base.specs.Timestamps.{ahead, is_after};

/// Whether the timestamp `x` is after `y`: it lies 1 to 2^31 - 1 ticks ahead, modulo 2^32 (RFC 3550, section 5.1).
pub fn after(x: u32, y: u32) -> bool
    ensures exact { IsTrue result ↔ ((1 ≤ ahead x y) × (ahead x y < 2 ^ 31)) }
    ensures value { result ≡ is_after x y }
{
    let ticks = x.wrapping_sub(y);
    0 < ticks && ticks < 1 << 31
}
