//! The streams of a recording.
ghost use Rattle.std.specs.Prelude.{◌≡◌, ◌||◌, false, IfOk};
ghost use Rattle.std.specs.List.{list_any};
ghost use Rattle.std.specs.Option.{option_map_or};
ghost use Rattle.wire_spec.specs.Rtp.{rtp};
ghost use Rattle.rtpdump_io.specs.Answers.{record_of};
ghost use Rattle.rtpdump_io.specs.Calls.{ReadsToEnd};
ghost use Rattle.rtpdump_io.specs.Reading.{to_come};
ghost use Rattle.report_spec.specs.Inputs.{first_stream, is_of_leg, is_stream_of, or_later, stream_of, stream_read};

use file_spec::LegLine;
use report_spec::Stream;
use rtp_text::read_rtp;
use rtpdump_io::{DumpItem, DumpReader, RecordingFault};
use rtt_base::Packet;
use rtt_io::Source;

/// Of what stream the packet with these octets is, where its header can be read.
fn stream_read(octets: &[u8]) -> Option<Stream>
    ensures { result ≡ stream_read (rtp octets.now) }
{
    match read_rtp(octets) {
        Ok(header) => Some(Stream {
            ssrc: header.ssrc,
            pt: header.pt,
        }),
        Err(_) => None,
    }
}

/// The same of a record, whose octets are handed out beside it.
fn stream_of(item: DumpItem, octets: &[u8]) -> Option<Stream>
    ensures { result ≡ stream_of (record_of item octets.now).what }
{
    match item {
        DumpItem::Packet { .. } => stream_read(octets),
        DumpItem::Rtcp { .. } | DumpItem::Cut { .. } | DumpItem::Large { .. } | DumpItem::End =>
            None,
    }
}

/// Whether the stream is that of the leg.
fn is_stream_of(leg: &LegLine, stream: Stream) -> bool
    ensures { result ≡ is_stream_of leg.now stream }
{
    stream.ssrc == leg.ssrc
        && (stream.pt == leg.payload_types.t140 || stream.pt == leg.payload_types.red)
}

/// Whether there is one, and it is.
fn is_of_leg(leg: &LegLine, stream: Option<Stream>) -> bool
    ensures { result ≡ option_map_or (is_stream_of leg.now) stream false }
{
    match stream {
        Some(stream) => is_stream_of(leg, stream),
        None => false,
    }
}

fn or_later(first: Option<Stream>, later: Option<Stream>) -> Option<Stream>
    ensures { result ≡ or_later first later }
{
    match first {
        Some(_) => first,
        None => later,
    }
}

/// What a recording has for a leg.
#[derive(Clone, Copy, Debug)]
pub(crate) struct LegContent {
    /// A packet is of the leg.
    pub heard: bool,
    /// The stream of the first packet whose header can be read.
    pub first: Option<Stream>,
}

/// The same with one record more, of this stream.
fn and_stream(leg: &LegLine, so_far: LegContent, stream: Option<Stream>) -> LegContent
    ensures heard { result.heard ≡ (so_far.heard || option_map_or (is_stream_of leg.now) stream false) }
    ensures first { result.first ≡ or_later so_far.first stream }
{
    LegContent {
        heard: so_far.heard || is_of_leg(leg, stream),
        first: or_later(so_far.first, stream),
    }
}

/// Reads a recording to its end, and answers what it has for a leg.
pub(crate) fn hear_leg<S: Source>(
    reader: &mut DumpReader<S>,
    leg: &LegLine,
) -> Result<LegContent, RecordingFault>
    ensures heard { S.tells → IfOk result (λ h. h.heard ≡ list_any (is_of_leg leg.now) (to_come S.left reader.old).items) }
    ensures first { S.tells → IfOk result (λ h. h.first ≡ first_stream (to_come S.left reader.old).items) }
    ensures reads { ReadsToEnd S.tells S.left S.faults S.name reader.old reader.new result }
{
    let mut octets = Packet::new();
    let mut so_far = LegContent {
        heard: false,
        first: None,
    };
    while let Some(item) = reader.next_record(&mut octets)? {
        let stream = stream_of(item, octets.as_slice());
        so_far = and_stream(leg, so_far, stream);
    }
    Ok(so_far)
}
