//! The texts of a recording: each is written as soon as it is heard.
ghost use Rattle.std.specs.Prelude.{◌≡◌, ◌+◌, ◌≤◌, ◌<◌, Bool, OnOk, IfOk};
ghost use Rattle.rtpdump_io.specs.Reading.{to_come};
ghost use Rattle.rtpdump_io.specs.Answers.{record_of, is_end};
ghost use Rattle.rtpdump_io.specs.Calls.{ReadsToEnd};
ghost use Rattle.receiver.specs.Hears.{IsGiving, arrival_count, is_finished, is_quiet};
ghost use Rattle.recording_views.specs.Writing.{IsBegunFor, WritesAll, WritesEnd, WritesItem, WritesPacket, WritesReady, WritesRecording};
ghost use Rattle.rtt_base.specs.declared.limits.TheConstants.{END_OF_MOMENTS, MOST_ARRIVALS};

use crate::text_writers::TextWriter;
use command_spec::ReadRequest;
use receiver::{Ear, EarSettings, PlainAnswer, TextCut};
use rtpdump_io::{DumpItem, DumpReader, RecordingFault};
use rtt_base::limits::USUAL_WAIT;
use rtt_base::{Chunk, NoMemory as OutOfMemory, Packet};
use rtt_io::Source;
use std::alloc::Global;

/// An ear that hears what is asked for, to which nothing came yet.
pub fn ear_for(alloc: Global, request: ReadRequest) -> Result<Ear, OutOfMemory>
    ensures begun { IfOk result (IsBegunFor request) }
    ensures giving { IfOk result (λ ear. ∥ IsGiving ear ∥₁) }
    ensures quiet { IfOk result (λ ear. is_quiet ear ≡ Bool.true) }
    ensures none { IfOk result (λ ear. arrival_count ear ≡ 0) }
    ensures open { IfOk result (λ ear. is_finished ear ≡ Bool.false) }
{
    let asked = EarSettings {
        ssrc: request.ssrc,
        payload_types: request.payload_types,
        wait: u64::from(USUAL_WAIT),
        long: false,
        cut: TextCut::Never,
    };
    Ear::new(alloc, asked, &[request.source])
}

/// Writes what is heard by now. Each text is read into `chunk`.
fn write_heard<W: TextWriter>(
    ear: &mut Ear,
    writer: &W,
    chunk: &mut Chunk,
    out: &mut W::Out,
) -> Result<(), OutOfMemory>
    requires giving { ∥ IsGiving ear.old ∥₁ }
    ensures writes { OnOk result (WritesReady (W.wrote writer.now) ear.old out.old ear.new out.new) }
    ensures giving { OnOk result ∥ IsGiving ear.new ∥₁ }
    ensures quiet { OnOk result (is_quiet ear.new ≡ Bool.true) }
    ensures arrivals { OnOk result (arrival_count ear.new ≡ arrival_count ear.old) }
    ensures finished { OnOk result (is_finished ear.new ≡ is_finished ear.old) }
{
    for _ in 0..u64::MAX {
        if !ear.next(chunk) {
            return Ok(());
        }
        writer.write(chunk, out)?;
    }
    // No memory holds so many texts.
    Err(OutOfMemory)
}

/// Takes a packet that came at this moment, and writes what is heard then.
pub fn write_packet<W: TextWriter>(
    ear: &mut Ear,
    at: u64,
    octets: &[u8],
    writer: &W,
    chunk: &mut Chunk,
    out: &mut W::Out,
) -> Result<(), OutOfMemory>
    requires at { at < END_OF_MOMENTS }
    requires giving { ∥ IsGiving ear.old ∥₁ }
    requires quiet { is_quiet ear.old ≡ Bool.true }
    requires few { arrival_count ear.old < MOST_ARRIVALS }
    ensures writes { OnOk result (WritesPacket (W.wrote writer.now) at octets.now
        ear.old out.old ear.new out.new) }
    ensures giving { OnOk result ∥ IsGiving ear.new ∥₁ }
    ensures quiet { OnOk result (is_quiet ear.new ≡ Bool.true) }
    ensures few { OnOk result (arrival_count ear.new ≤ arrival_count ear.old + 1) }
    ensures finished { OnOk result (is_finished ear.new ≡ is_finished ear.old) }
{
    match ear.hear_plain_chunk(at, octets, chunk) {
        PlainAnswer::Chunk => writer.write(chunk, out),
        PlainAnswer::Nothing => Ok(()),
        PlainAnswer::NotPlain => {
            let _refused = ear.hear(at, octets);
            write_heard(ear, writer, chunk, out)
        }
    }
}

/// Writes what is heard once nothing more comes.
pub fn write_rest<W: TextWriter>(
    ear: &mut Ear,
    writer: &W,
    chunk: &mut Chunk,
    out: &mut W::Out,
) -> Result<(), OutOfMemory>
    requires giving { ∥ IsGiving ear.old ∥₁ }
    requires quiet { is_quiet ear.old ≡ Bool.true }
    requires open { is_finished ear.old ≡ Bool.false }
    ensures { OnOk result (WritesEnd (W.wrote writer.now) ear.old out.old out.new) }
{
    ear.finish();
    write_heard(ear, writer, chunk, out)
}

/// Takes a record, whose octets are these.
fn write_record<W: TextWriter>(
    ear: &mut Ear,
    item: DumpItem,
    octets: &[u8],
    writer: &W,
    chunk: &mut Chunk,
    out: &mut W::Out,
) -> Result<(), OutOfMemory>
    requires giving { ∥ IsGiving ear.old ∥₁ }
    requires quiet { is_quiet ear.old ≡ Bool.true }
    requires few { arrival_count ear.old < MOST_ARRIVALS }
    requires more { is_end item ≡ Bool.false }
    ensures writes { OnOk result (WritesItem (W.wrote writer.now) (record_of item octets.now)
        ear.old out.old ear.new out.new) }
    ensures giving { OnOk result ∥ IsGiving ear.new ∥₁ }
    ensures quiet { OnOk result (is_quiet ear.new ≡ Bool.true) }
    ensures few { OnOk result (arrival_count ear.new ≤ arrival_count ear.old + 1) }
    ensures finished { OnOk result (is_finished ear.new ≡ is_finished ear.old) }
{
    match item {
        DumpItem::Packet { at } => write_packet(ear, u64::from(at), octets, writer, chunk, out),
        DumpItem::Rtcp { .. } | DumpItem::Cut { .. } | DumpItem::Large { .. } | DumpItem::End => Ok(
            (),
        ),
    }
}

/// Takes all records that are still to come, and writes what is heard.
fn write_records<S: Source, W: TextWriter>(
    reader: &mut DumpReader<S>,
    ear: &mut Ear,
    writer: &W,
    chunk: &mut Chunk,
    out: &mut W::Out,
) -> Result<(), RecordingFault>
    requires giving { ∥ IsGiving ear.old ∥₁ }
    requires quiet { is_quiet ear.old ≡ Bool.true }
    requires none { arrival_count ear.old ≡ 0 }
    requires open { is_finished ear.old ≡ Bool.false }
    ensures writes { OnOk result (WritesAll (W.wrote writer.now) S.tells (to_come S.left reader.old)
        ear.old out.old ear.new out.new) }
    ensures giving { OnOk result ∥ IsGiving ear.new ∥₁ }
    ensures quiet { OnOk result (is_quiet ear.new ≡ Bool.true) }
    ensures open { OnOk result (is_finished ear.new ≡ Bool.false) }
    ensures reads { ReadsToEnd S.tells S.left S.faults S.name reader.old reader.new result }
{
    let mut packet = Packet::new();
    while let Some(item) = reader.next_record(&mut packet)? {
        write_record(ear, item, packet.as_slice(), writer, chunk, out)?;
    }
    Ok(())
}

/// Writes each text that is heard of the source in a recording.
pub fn write_texts<S: Source, W: TextWriter>(
    alloc: Global,
    reader: &mut DumpReader<S>,
    request: ReadRequest,
    writer: &W,
    out: &mut W::Out,
) -> Result<(), RecordingFault>
    ensures written { S.tells → OnOk result (WritesRecording (W.wrote writer.now) request (to_come S.left reader.old)
        out.old out.new) }
    ensures reads { ReadsToEnd S.tells S.left S.faults S.name reader.old reader.new result }
{
    let mut ear = ear_for(alloc, request)?;
    let mut chunk = Chunk::default();
    write_records(reader, &mut ear, writer, &mut chunk, out)?;
    write_rest(&mut ear, writer, &mut chunk, out)?;
    Ok(())
}
