//! Sequence numbers that do not go round.
ghost use Rattle.std.specs.Prelude.{◌≡◌, ◌+◌, ◌^◌, ◌<◌, ◌≤◌, max};
ghost use Rattle.stream_spec.specs.Numbering.{nearest};

/// The number of the first packet of a stream.
pub fn first_number(seq: u16) -> u64
    ensures { result ≡ seq + 65536 }
{
    u64::from(seq) + 65536
}

/// The number that a later packet has where the greatest so far is `top`: of those whose low 16 bits are `seq` the
/// one nearest to it, and the lower of two that are equally near.
pub fn nearest_number(top: u64, seq: u16) -> u64
    requires { top < 2 ^ 60 }
    ensures value { result ≡ nearest top seq }
    ensures near { result ≤ max top 32768 + 32767 }
{
    let base = top.saturating_sub(32768);
    base + (u64::from(seq) + 65536 - base % 65536) % 65536
}
