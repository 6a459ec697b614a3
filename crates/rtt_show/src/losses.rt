//! How many numbers of a stream were lost, and how many of its packets came too late to be heard.
ghost use Rattle.std.specs.Prelude.{◌≡◌, ◌-◌, IfOk};
ghost use Rattle.rtpdump_io.specs.InMemory.{HasRecords};
ghost use Rattle.rtt_show.specs.Records.{OfRecords};
ghost use Rattle.rtt_show.specs.Missed.{IsMissedOf};

use crate::spreads::Spread;
use crate::strays::strays_of;
use rtt_base::{NoMemory, PayloadTypes};
use std::alloc::Global;

/// The numbers that no packet had, between the first packet's and the greatest; and the packets that came behind what was
/// given up, or before the first.
#[derive(Clone, Copy)]
pub(crate) struct Losses {
    pub lost: u64,
    pub late: u64,
}

/// How many numbers above the first are missing up to the greatest, where so many of them came.
pub(crate) fn missing(spread: Spread, above: u64) -> u64
    ensures { result ≡ (spread.top - spread.first) - above }
{
    spread
        .top
        .saturating_sub(spread.first)
        .saturating_sub(above)
}

/// What was missed of a stream with these records, of whose packets so many were used. Where each was, none came twice or
/// late, and nothing has to be heard again.
pub(crate) fn missed_of(
    alloc: Global,
    ssrc: u32,
    payload_types: PayloadTypes,
    records: &[u8],
    spread: Spread,
    used: u64,
) -> Result<Losses, NoMemory>
    requires { HasRecords records.now }
    ensures { IfOk result (λ missed. OfRecords records.now (IsMissedOf payload_types ssrc spread used missed)) }
{
    if spread.packets == used {
        let above = used.saturating_sub(1);
        return Ok(Losses {
            lost: missing(spread, above),
            late: 0,
        });
    }
    strays_of(alloc, ssrc, payload_types, records)
}
