//! What is found out of the packets of a stream before they are heard.
ghost use Rattle.std.specs.Prelude.{◌≡◌, ℕ, ◌+◌, ◌<◌, ◌^◌, [], ◌∷◌, suc, slice_index, slice_set, IfOk, OnOk, Result};
ghost use Rattle.rtpdump_io.specs.InMemory.{HasRecords};
ghost use Rattle.rtt_show.specs.Records.{OfRecords};
ghost use Rattle.rtt_show.specs.Rows.{SurveysRow};
ghost use Rattle.rtt_show.specs.Surveys.{IsFew, IsSurvey, SurveysMore};
ghost use Rattle.rtt_base.specs.declared.text_packets.PayloadTypes.{PayloadTypes as Types};

use crate::first_sources::FirstSources;
use crate::origins::Origin;
use crate::record_kinds::{place_among, read_source};
use crate::rows::Row;
use crate::spreads::Spread;
use rtpdump_io::next_record;
use rtt_base::{NoMemory, PayloadTypes, TextPacket};
use std::alloc::Global;
use wire_spec::TextFault;
use wire_spec::limits::LAST_RECORD_MOMENT;

/// Moments in milliseconds, how many packets were refused by each fault, the sources, and the numbers.
#[derive(Drop)]
pub(crate) struct Survey {
    /// The least moment of a packet, and the greatest.
    pub from: u32,
    pub to: u32,
    /// By the place of the fault in the order of the tests; last, the foreign ones.
    pub refused: [u64; 10],
    pub sources: FirstSources,
    pub spread: Spread,
}

/// Counts one more at this place.
fn count_at(counts: &mut [u64; 10], place: usize)
    requires place { place < 10 }
    requires few { slice_index counts.old place < 2 ^ 32 }
    ensures { counts.new ≡ slice_set counts.old place (suc (slice_index counts.old place)) }
{
    counts[place] += 1;
}

impl Survey {
    /// No packet came yet.
    fn new(alloc: Global) -> Survey
        ensures nothing { (payload_types : Types) (ssrc : ℕ) → IsSurvey payload_types ssrc result [] }
        ensures few { IsFew 0 result }
    {
        Survey {
            from: LAST_RECORD_MOMENT,
            to: 0,
            refused: [0; 10],
            sources: FirstSources::new(alloc),
            spread: Spread::none(),
        }
    }

    /// What is found out of packets that come in this row, each of which is one of text of the stream.
    pub(crate) fn of_row(alloc: Global, row: Row) -> Result<Survey, NoMemory>
        requires some { 0 < row.packets }
        requires few { row.packets < 2 ^ 32 }
        ensures survey { IfOk result (SurveysRow row) }
        ensures kept { IfOk result (λ found. found.sources.kept.items ≡ row.source ∷ []) }
    {
        let mut sources = FirstSources::new(alloc);
        sources.name(row.source)?;
        let first = u64::from(row.first) + 65536;
        Ok(Survey {
            from: row.from,
            to: row.to,
            refused: [0; 10],
            sources,
            spread: Spread {
                packets: row.packets,
                first,
                top: first + (row.packets - 1),
            },
        })
    }

    /// A packet came, with a text from there or none.
    fn take(&mut self, at: u32, read: Result<Origin, TextFault>) -> Result<(), NoMemory>
        requires { (n : ℕ) × (n < 2 ^ 32) × IsFew n self.old }
        ensures more { OnOk result (SurveysMore self.old at read self.new) }
        ensures few { OnOk result ((n : ℕ) → IsFew n self.old → IsFew (n + 1) self.new) }
    {
        self.from = self.from.min(at);
        self.to = self.to.max(at);
        match read {
            Ok(origin) => {
                let _number = self.spread.take(origin.seq);
                self.sources.name(origin.source)
            }
            Err(fault) => {
                count_at(&mut self.refused, place_among(fault));
                Ok(())
            }
        }
    }
}

/// Finds out what these packets of a stream are.
pub(crate) fn survey_of(
    alloc: Global,
    records: &[u8],
    ssrc: u32,
    payload_types: PayloadTypes,
) -> Result<Survey, NoMemory>
    requires { HasRecords records.now }
    ensures { IfOk result (λ found. OfRecords records.now (IsSurvey payload_types ssrc found)) }
{
    let mut packet = TextPacket::default();
    let mut found = Survey::new(alloc);
    let mut rest = records;
    while let Some((at, octets, more)) = next_record(rest) {
        let read = read_source(octets, ssrc, payload_types, &mut packet);
        found.take(at, read)?;
        rest = more;
    }
    Ok(found)
}
