//! Packets of a stream that come in a row, as far as their headers tell.
ghost use Rattle.std.specs.Prelude.{◌≡◌, ◌+◌, ◌<◌, ◌^◌, [], true, IfSome};
ghost use Rattle.rtpdump_io.specs.InMemory.{HasRecords};
ghost use Rattle.rtt_show.specs.Records.{OfRecords};
ghost use Rattle.rtt_show.specs.Rows.{IsOrigin, IsRow, RowsMore, begin_of};

use crate::origins::Origin;
use rtp_text::read_rtp;
use rtpdump_io::next_record;
use wire_spec::limits::LAST_RECORD_MOMENT;

/// Packets of one source, each of which has the sequence number behind that of the one before. Moments are in milliseconds.
#[derive(Clone, Copy)]
pub struct Row {
    pub source: u32,
    /// The sequence number of the first packet.
    pub first: u16,
    pub packets: u64,
    /// The least moment of a packet, and the greatest.
    pub from: u32,
    pub to: u32,
}

/// Whose text a packet has, and its sequence number, if it has a header and is one of text.
#[inline(always)]
fn origin_of(octets: &[u8]) -> Option<Origin>
    ensures { IfSome result (λ origin. IsOrigin origin octets.now) }
{
    match read_rtp(octets) {
        Ok(view) => Some(Origin {
            source: view.csrc.unwrap_or(view.ssrc),
            seq: view.seq,
        }),
        Err(_) => None,
    }
}

impl Row {
    /// No packet came yet.
    fn none() -> Row
        ensures nothing { IsRow result [] }
        ensures packets { result.packets ≡ 0 }
    {
        Row {
            source: 0,
            first: 0,
            packets: 0,
            from: LAST_RECORD_MOMENT,
            to: 0,
        }
    }

    /// Where the row begins: at a packet from there, if none came yet.
    #[inline(always)]
    fn begin_of(&self, origin: Origin) -> Origin
        ensures { result ≡ begin_of self.now origin }
    {
        if self.packets == 0 {
            return origin;
        }
        Origin {
            source: self.source,
            seq: self.first,
        }
    }

    /// A packet came, which is from there if it is one of text. It tells whether it is next in the row.
    #[inline(always)]
    fn take(&mut self, at: u32, origin: Origin) -> bool
        requires few { self.old.packets < 2 ^ 32 }
        ensures { result ≡ true → RowsMore self.old at origin self.new }
    {
        let begin = self.begin_of(origin);
        if origin.source != begin.source {
            return false;
        }
        let seq = (u64::from(begin.seq) + self.packets) % 65536;
        if u64::from(origin.seq) != seq {
            return false;
        }
        *self = Row {
            source: begin.source,
            first: begin.seq,
            packets: self.packets + 1,
            from: self.from.min(at),
            to: self.to.max(at),
        };
        true
    }
}

/// The row in which these packets of a stream come, if they come in one. It reads no more of them than their headers.
pub fn row_of(records: &[u8]) -> Option<Row>
    requires { HasRecords records.now }
    ensures { IfSome result (λ row. OfRecords records.now (IsRow row)) }
{
    let mut row = Row::none();
    let mut rest = records;
    while let Some((at, octets, more)) = next_record(rest) {
        let Some(origin) = origin_of(octets) else {
            return None;
        };
        if !row.take(at, origin) {
            return None;
        }
        rest = more;
    }
    Some(row)
}
