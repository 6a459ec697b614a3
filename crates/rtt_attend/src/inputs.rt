//! The records of one input.
ghost use Rattle.std.specs.Prelude.{◌≡◌, ◌≤◌, Bool, Some, None, max, min};
ghost use Rattle.rtpdump_io.specs.Entries.{entries_to_come};
ghost use Rattle.rtpdump_io.specs.Reading.{is_ended, source_of, to_come};
ghost use Rattle.wire_spec.specs.declared.limits.TheConstants.{MOST_RECORDING_OCTETS};
ghost use Rattle.rtt_attend.specs.Heard.{Hears, HearsAll, IsRead, TellsItem, moment_of, is_rtcp, said_of};

use crate::source_notes::{SourceNotes, hear_rtcp};
use crate::sums::count_item;
use rtpdump_io::{DumpFault, DumpItem, DumpReader};
use rtt_base::{Packet, PayloadTypes, TextPacket};
use rtt_io::Source;
use wire_spec::Events;

/// Whose packets are counted, as what text, and whether a primary text of theirs may have more than 1023 octets.
#[derive(Clone, Copy, Debug)]
pub(crate) struct Sender {
    pub ssrc: u32,
    pub payload_types: PayloadTypes,
    pub long: bool,
}

/// The moment of a record; none at the end.
fn moment_of(item: DumpItem) -> Option<u32>
    ensures { result ≡ moment_of item }
{
    match item {
        DumpItem::Packet { at }
        | DumpItem::Rtcp { at }
        | DumpItem::Cut { at }
        | DumpItem::Large { at } => Some(at),
        DumpItem::End => None,
    }
}

fn is_rtcp(item: DumpItem) -> bool
    ensures { result ≡ is_rtcp item }
{
    matches!(item, DumpItem::Rtcp { at: _ })
}

/// The greater of two moments: those of records never fall.
fn later(latest: u32, at: u32) -> u32
    ensures { result ≡ max latest at }
{
    latest.max(at)
}

/// What a record tells of this sender, whose octets were handed out where it is one of RTCP. A moment counts as the
/// greatest so far.
fn hear_item(
    item: DumpItem,
    ssrc: u32,
    latest: u32,
    octets: &[u8],
    events: &mut Events,
    said: &mut SourceNotes,
)
    ensures tells { TellsItem ssrc latest item octets.now said.old said.new }
    ensures tally { said.new.tally ≡ said.old.tally }
{
    if is_rtcp(item) {
        hear_rtcp(ssrc, latest, octets, events, said);
    }
}

/// How many senders were heard in an input of which so many packets of text were: one at most.
fn with_senders(said: SourceNotes) -> SourceNotes
    ensures said { said_of result ≡ said_of said }
    ensures tally { result.tally ≡ record said.tally { senders = min said.tally.text 1 } }
{
    let mut whole = said;
    whole.tally.senders = whole.tally.text.min(1);
    whole
}

/// What all records that are still to come tell of this sender, and what is counted of them, or why not all can be read.
fn hear_records<S: Source>(
    reader: &mut DumpReader<S>,
    sender: Sender,
    octets: &mut Packet,
    text: &mut TextPacket,
    events: &mut Events,
) -> Result<SourceNotes, DumpFault>
    requires open { is_ended reader.old ≡ Bool.false }
    ensures hears { S.tells → HearsAll sender (entries_to_come S.left reader.old) (to_come S.left reader.old) result }
    ensures read { IsRead S.faults S.name result (source_of reader.old) (source_of reader.new) }
{
    let mut said = SourceNotes::new();
    let mut latest = 0;
    loop {
        let item = match reader.next_all(octets) {
            Ok(item) => item,
            Err(fault) => return Err(fault),
        };
        let Some(at) = moment_of(item) else {
            return Ok(with_senders(said));
        };
        let read = octets.as_slice();
        count_item(item, read, sender, text, &mut said.tally);
        latest = later(latest, at);
        hear_item(item, sender.ssrc, latest, read, events, &mut said);
    }
}

/// What an input told, and its source.
pub(crate) struct InputNames<S> {
    pub source: S,
    pub said: Result<SourceNotes, DumpFault>,
}

/// What the recording of at most `limit` octets that this source holds tells of a sender, or why it can't be read to its end.
pub(crate) fn hear_input<S: Source>(
    source: S,
    sender: Sender,
    limit: u32,
    octets: &mut Packet,
    text: &mut TextPacket,
    events: &mut Events,
) -> InputNames<S>
    requires { limit ≤ MOST_RECORDING_OCTETS }
    ensures hears { S.tells → Hears limit sender (S.left source) result.said }
    ensures read { IsRead S.faults S.name result.said source result.source }
{
    let mut reader = DumpReader::with_limit(source, limit);
    let said = hear_records(&mut reader, sender, octets, text, events);
    InputNames {
        source: reader.into_source(),
        said,
    }
}
