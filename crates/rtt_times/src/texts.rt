//! The texts of a source of a stream: each becomes a line as soon as it is heard.
ghost use Rattle.std.specs.Prelude.{◌≡◌, Bool, OnOk, IfOk};
ghost use Rattle.rtpdump_io.specs.InMemory.{HasRecords};
ghost use Rattle.receiver.specs.Hears.{IsGiving, arrival_count, is_finished, is_quiet};
ghost use Rattle.rtt_times.specs.Lines.{name_before};
ghost use Rattle.rtt_times.specs.Writing.{AddsSource, HasArrivals, WritesRecords};

use crate::lines::{Lines, append_name};
use command_spec::ReadRequest;
use receiver::Ear;
use recording_views::{TextWriter, ear_for, write_packet, write_rest};
use rtpdump_io::next_record;
use rtt_base::{Bytes, Chunk, NoMemory as OutOfMemory};
use std::alloc::Global;

/// How the source is named, and a space.
fn name_of(alloc: Global, of: ReadRequest) -> Result<Bytes, OutOfMemory>
    ensures { IfOk result (λ name. name ≡ name_before of) }
{
    let mut name = Bytes::new(alloc);
    append_name(of.ssrc, of.source, &mut name)?;
    name.push(b' ')?;
    Ok(name)
}

/// Writes the texts of a source as lines.
#[derive(Drop)]
struct SourceLines {
    /// How the source is named, and a space.
    name: Bytes,
}

impl TextWriter for SourceLines {
    ghost use Rattle.rtt_times.specs.Writing.{AddsTexts};

    type Out = Lines;

    ghost wrote = { λ writer. AddsTexts writer.name };

    fn write(&self, text: &Chunk, out: &mut Lines) -> Result<(), OutOfMemory> {
        out.add_text(self.name.as_slice(), text)
    }
}

/// Takes these records as they stand, and adds what is heard.
fn add_records(
    ear: &mut Ear,
    records: &[u8],
    writer: &SourceLines,
    chunk: &mut Chunk,
    lines: &mut Lines,
) -> Result<(), OutOfMemory>
    requires records { HasRecords records.now }
    requires giving { ∥ IsGiving ear.old ∥₁ }
    requires quiet { is_quiet ear.old ≡ Bool.true }
    requires none { arrival_count ear.old ≡ 0 }
    requires open { is_finished ear.old ≡ Bool.false }
    ensures writes { OnOk result (WritesRecords writer.now.name records.now ear.old lines.old ear.new lines.new) }
    ensures giving { OnOk result ∥ IsGiving ear.new ∥₁ }
    ensures quiet { OnOk result (is_quiet ear.new ≡ Bool.true) }
    ensures open { OnOk result (is_finished ear.new ≡ Bool.false) }
{
    let mut rest = records;
    while let Some((at, octets, more)) = next_record(rest) {
        write_packet(ear, u64::from(at), octets, writer, chunk, lines)?;
        rest = more;
    }
    Ok(())
}

/// Adds a line for each text of a source of the stream with these records, and answers how many of them are packets of text of
/// the stream.
pub(crate) fn add_texts(
    alloc: Global,
    of: ReadRequest,
    records: &[u8],
    lines: &mut Lines,
) -> Result<u64, OutOfMemory>
    requires { HasRecords records.now }
    ensures source { OnOk result (AddsSource of records.now lines.old lines.new) }
    ensures arrivals { IfOk result (λ arrivals. HasArrivals of records.now arrivals) }
{
    let mut ear = ear_for(alloc, of)?;
    let mut chunk = Chunk::default();
    let name = name_of(alloc, of)?;
    let writer = SourceLines { name };
    add_records(&mut ear, records, &writer, &mut chunk, lines)?;
    let arrivals = ear.arrivals();
    write_rest(&mut ear, &writer, &mut chunk, lines)?;
    Ok(arrivals)
}
