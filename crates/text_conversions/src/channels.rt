//! What is heard of a recording, as frames.
ghost use Rattle.std.specs.Prelude.{◌≡◌, ◌++◌, None, OnOk, IfOk, IfErr};
ghost use Rattle.file_spec.specs.Frames.{frame_written};
ghost use Rattle.stream_spec.specs.Ready.{chunk_of};
ghost use Rattle.rtpdump_io.specs.Reading.{source_of, to_come};
ghost use Rattle.command_spec.specs.Frames.{chunk_frame};
ghost use Rattle.text_conversions.specs.Channels.{AreFramesOf, ForRecording, HasSource, IsChannelCause, channel_request, fault_from};

use crate::{ChannelFault, write_frame};
use command_spec::ReadRequest;
use file_spec::frame_limits::MOST_FRAMES_OCTETS;
use file_spec::limits::{USUAL_RED, USUAL_T140};
use file_spec::{FrameKind, FrameRefusal};
use recording_views::{TextWriter, write_texts};
use rtpdump_io::{DumpReader, RecordingFault};
use rtt_base::{Bytes, Chunk, NoMemory as OutOfMemory, PayloadTypes};
use rtt_io::Source;
use std::alloc::Global;

/// A frame has 32 bits for its moment. What is heard in a recording is ready long before these end.
const MOMENTS: u64 = 1 << 32;

/// Appends a heard text as a frame.
fn append_chunk(chunk: &Chunk, out: &mut Bytes) -> Result<(), OutOfMemory>
    ensures { OnOk result (out.new ≡ out.old ++ frame_written (chunk_frame (chunk_of chunk.now))) }
{
    let at = (chunk.ready % MOMENTS) as u32;
    write_frame(at, &chunk.text, out)
}

/// Writes texts as frames, each at the moment at which it is ready.
struct ChannelFrames;

impl TextWriter for ChannelFrames {
    ghost use Rattle.text_conversions.specs.Channels.{AreFrames};

    type Out = Bytes;

    ghost wrote = { λ writer. AreFrames };

    fn write(&self, text: &Chunk, out: &mut Bytes) -> Result<(), OutOfMemory> {
        append_chunk(text, out)
    }
}

/// What `channel` hears: the stream of this SSRC, with the usual payload types.
fn request_for(ssrc: u32) -> ReadRequest
    ensures { result ≡ channel_request ssrc }
{
    ReadRequest {
        ssrc,
        payload_types: PayloadTypes {
            t140: USUAL_T140,
            red: USUAL_RED,
        },
        source: ssrc,
    }
}

/// Why a recording is not written as frames that is not read to its end.
fn unread(fault: RecordingFault) -> ChannelFault
    ensures { result ≡ fault_from fault }
{
    match fault {
        RecordingFault::Dump(fault) => ChannelFault::Dump(fault),
        RecordingFault::NoMemory => ChannelFault::NoMemory,
    }
}

/// The frames of a recording: one for each text that is heard of the stream of this SSRC, at the moment at which it is ready.
pub fn channel_file<S: Source>(
    alloc: Global,
    reader: &mut DumpReader<S>,
    ssrc: u32,
) -> Result<Bytes, ChannelFault>
    ensures written { S.tells → IfOk result (λ frames. ForRecording (to_come S.left reader.old)
        (AreFramesOf frames ssrc)) }
    ensures whole { S.tells → OnOk result ((to_come S.left reader.old).fault ≡ None) }
    ensures refused { S.tells → IfErr result (λ fault. ForRecording (to_come S.left reader.old)
        (IsChannelCause fault ssrc)) }
    ensures source { HasSource S.faults S.name (source_of reader.old) (source_of reader.new) result }
{
    let mut out = Bytes::new(alloc);
    match write_texts(alloc, reader, request_for(ssrc), &ChannelFrames, &mut out) {
        Ok(()) => {}
        Err(fault) => return Err(unread(fault)),
    }
    let octets = out.len() as u64;
    if octets > MOST_FRAMES_OCTETS {
        return Err(ChannelFault::Refused(FrameRefusal {
            offset: octets,
            kind: FrameKind::ManyFrames,
        }));
    }
    Ok(out)
}
