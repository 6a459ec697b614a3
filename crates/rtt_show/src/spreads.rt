//! The numbers of the packets of text of a stream.
ghost use Rattle.std.specs.Prelude.{◌≡◌, ◌==◌, ℕ, ◌+◌, ◌<◌, ◌≤◌, ◌^◌, [], max, if◌then◌else◌};
ghost use Rattle.stream_spec.specs.Numbering.{nearest};
ghost use Rattle.rtt_show.specs.Spreads.{IsSpread, IsNarrow, SpreadsBy};

/// How many packets came, the number of the first, and the greatest number. A number is the sequence number, extended so
/// that it does not go round: the first packet has its own plus 65536.
#[derive(Clone, Copy)]
pub(crate) struct Spread {
    pub packets: u64,
    pub first: u64,
    pub top: u64,
}

/// Of the numbers whose low 16 bits are `seq` the one nearest to `top`, and the lower of two that are equally near.
fn nearest_number(top: u64, seq: u16) -> u64
    requires { top < 2 ^ 60 }
    ensures value { result ≡ nearest top seq }
    ensures near { result ≤ max top 32768 + 32767 }
{
    let base = top.saturating_sub(32768);
    base + (u64::from(seq) + 65536 - base % 65536) % 65536
}

/// The number of a packet that comes behind so many, of which `top` is the greatest number.
#[inline(always)]
fn number_behind(packets: u64, top: u64, seq: u16) -> u64
    requires { top < 2 ^ 60 }
    ensures value { result ≡ (if packets == 0 then seq + 65536 else nearest top seq) }
    ensures near { result ≤ max top 98304 + 32767 }
{
    if packets == 0 {
        return u64::from(seq) + 65536;
    }
    nearest_number(top, seq)
}

/// The number of the first packet, where so many came before one with this number.
#[inline(always)]
fn first_of(packets: u64, first: u64, number: u64) -> u64
    ensures { result ≡ (if packets == 0 then number else first) }
{
    if packets == 0 {
        return number;
    }
    first
}

impl Spread {
    pub(crate) fn none() -> Spread
        ensures nothing { IsSpread result [] }
        ensures narrow { IsNarrow 0 result }
    {
        Spread {
            packets: 0,
            first: 0,
            top: 0,
        }
    }

    /// A packet with this sequence number came. It answers its number.
    #[inline(always)]
    pub(crate) fn take(&mut self, seq: u16) -> u64
        requires { (n : ℕ) × (n < 2 ^ 32) × IsNarrow n self.old }
        ensures spreads { SpreadsBy self.old seq result self.new }
        ensures narrow { (n : ℕ) → IsNarrow n self.old → IsNarrow (n + 1) self.new }
    {
        let number = number_behind(self.packets, self.top, seq);
        let first = first_of(self.packets, self.first, number);
        let packets = self.packets + 1;
        let top = self.top.max(number);
        *self = Spread {
            packets,
            first,
            top,
        };
        number
    }
}
