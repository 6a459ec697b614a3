//! The work of `times`: all records of a recording are read once, and then told of in the order of moments.
ghost use Rattle.std.specs.Prelude.{◌≡◌, ◌<◌, ◌≤◌, ◌^◌, ◌++◌, All, Bool, None, length, IfErr, IfOk, IfSome, OnOk};
ghost use Rattle.command_spec.specs.Showing.{if_no_recording, number_line};
ghost use Rattle.rtpdump_io.specs.InMemory.{HasRecords};
ghost use Rattle.rtpdump_io.specs.Reading.{is_ended, source_of, to_come};
ghost use Rattle.rtpdump_io.specs.Faults.{HasCause};
ghost use Rattle.rtt_show.specs.Gathers.{RecordingIsRefused};
ghost use Rattle.report_spec.specs.Times.{timed_view};
ghost use Rattle.rtt_times.specs.Found.{AddsTexts, AreFew, AreNumbered, AreTexted, HasNumbersAdded, IsFoundOf, IsPrintedOf, IsStream, IsTimedFrom, IsToldOf, NamesSources, sum_others};
ghost use Rattle.rtt_times.specs.Lines.{AreEarly};

use crate::lines::{Lines, append_decimal};
use crate::numbers::add_numbers;
use crate::rows::lines_in_rows;
use crate::stream_packets::{StreamPackets, heard_of};
use crate::texts::add_texts;
use command_spec::ReadRequest;
use rtpdump_io::{DumpFault, DumpReader, RecordingFault};
use rtt_base::{Bytes, NoMemory, PayloadTypes};
use rtt_io::Source;
use rtt_show::{Findings, FirstSources, Group, append_began, append_end, gather};
use std::alloc::Global;

/// Adds the lines of the texts of these sources of a stream.
fn add_sources(
    alloc: Global,
    ssrc: u32,
    payload_types: PayloadTypes,
    sources: &[u32],
    records: &[u8],
    lines: &mut Lines,
) -> Result<(), NoMemory>
    requires { HasRecords records.now }
    ensures { OnOk result (AddsTexts ssrc payload_types sources.now records.now lines.old lines.new) }
{
    for index in 0..sources.len() {
        let source = sources[index];
        let of = ReadRequest {
            ssrc,
            source,
            payload_types,
        };
        let _arrivals = add_texts(alloc, of, records, lines)?;
    }
    Ok(())
}

/// Adds the lines of the numbers of a stream, and answers its sources.
fn add_stream_numbers(
    alloc: Global,
    payload_types: PayloadTypes,
    stream: &Group,
    lines: &mut Lines,
) -> Result<FirstSources, NoMemory>
    requires { IsStream stream.now }
    ensures numbers { OnOk result (HasNumbersAdded payload_types stream.now lines.old lines.new) }
    ensures sources { IfOk result (NamesSources payload_types stream.now) }
    ensures few { IfOk result AreFew }
{
    let heard = heard_of(
        alloc,
        stream.name as u32,
        payload_types,
        stream.records.as_slice(),
    )?;
    add_numbers(alloc, stream.name as u32, &heard, lines)?;
    let StreamPackets { sources, .. } = heard;
    Ok(sources)
}

/// Adds the lines of the numbers of all these streams, and answers the sources of each.
fn add_all_numbers(
    alloc: Global,
    payload_types: PayloadTypes,
    streams: &[Group],
    lines: &mut Lines,
) -> Result<Vec<FirstSources>, NoMemory>
    requires { All IsStream streams.now }
    ensures numbers { IfOk result (λ named. AreNumbered payload_types streams.now named.items lines.old lines.new) }
    ensures each { IfOk result (λ named. length named.items ≡ length streams.now) }
    ensures few { IfOk result (λ named. All AreFew named.items) }
{
    let mut named = Vec::new(alloc);
    for index in 0..streams.len() {
        let stream = &streams[index];
        let sources = add_stream_numbers(alloc, payload_types, stream, lines)?;
        named.push(sources)?;
    }
    Ok(named)
}

/// Adds the lines of the texts of all these streams, the sources of each of which are there.
fn add_all_texts(
    alloc: Global,
    payload_types: PayloadTypes,
    streams: &[Group],
    named: &[FirstSources],
    lines: &mut Lines,
) -> Result<(), NoMemory>
    requires streams { All IsStream streams.now }
    requires each { length named.now ≡ length streams.now }
    ensures { OnOk result (AreTexted payload_types streams.now named.now lines.old lines.new) }
{
    for index in 0..streams.len() {
        let stream = &streams[index];
        let its_named = &named[index];
        let sources = its_named.kept.as_slice();
        add_sources(
            alloc,
            stream.name as u32,
            payload_types,
            sources,
            stream.records.as_slice(),
            lines,
        )?;
    }
    Ok(())
}

/// How many packets are of sources behind the 64th of their stream.
fn others_of(named: &[FirstSources]) -> u64
    requires each { All AreFew named.now }
    requires few { length named.now ≤ 64 }
    ensures { result ≡ sum_others named.now }
{
    let mut others = 0;
    for index in 0..named.len() {
        others += named[index].others;
    }
    others
}

/// Appends a line of a number, where it is not 0.
fn append_number_line(before: &[u8], number: u64, out: &mut Bytes) -> Result<(), NoMemory>
    ensures { OnOk result (out.new ≡ out.old ++ number_line before.now number) }
{
    if number == 0 {
        return Ok(());
    }
    out.append(before)?;
    append_decimal(number, out)?;
    out.push(b'\n')
}

/// Appends the lines with their times, where it is known when the recording began, in milliseconds since 1970.
fn append_lines(start: Option<u64>, lines: &Lines, out: &mut Bytes) -> Result<(), NoMemory>
    requires start { IfSome start (λ start. start < 2 ^ 48) }
    requires early { AreEarly lines.now }
    ensures { OnOk result (IsTimedFrom lines.now start out.old out.new) }
{
    match start {
        None => Ok(()),
        Some(start) => {
            append_began(start, out)?;
            lines.append_timed(start, out)
        }
    }
}

/// The lines of all streams, in the order of their moments, and how many packets are of sources behind the 64th, whatever came.
fn any_lines_of(alloc: Global, found: &Findings) -> Result<(Lines, u64), NoMemory>
    requires { IsFoundOf found.now }
    ensures told { IfOk result (λ told. IsToldOf found.now told.0 told.1) }
    ensures early { IfOk result (λ told. AreEarly told.0) }
{
    let streams = found.streams.groups.as_slice();
    let mut lines = Lines::new(alloc);
    let named = add_all_numbers(alloc, found.payload_types, streams, &mut lines)?;
    add_all_texts(
        alloc,
        found.payload_types,
        streams,
        named.as_slice(),
        &mut lines,
    )?;
    lines.sort()?;
    Ok((lines, others_of(named.as_slice())))
}

/// The lines of all streams, in the order of their moments, and how many packets are of sources behind the 64th. Where the
/// packets of each stream come in a row, their numbers need not be kept.
fn lines_of(alloc: Global, found: &Findings) -> Result<(Lines, u64), NoMemory>
    requires { IsFoundOf found.now }
    ensures told { IfOk result (λ told. IsToldOf found.now told.0 told.1) }
    ensures early { IfOk result (λ told. AreEarly told.0) }
{
    match lines_in_rows(alloc, found)? {
        Some(lines) => Ok((lines, 0)),
        None => any_lines_of(alloc, found),
    }
}

/// All that is printed, with the fault that ends the recording.
fn times_found(
    alloc: Global,
    found: &Findings,
    start: Option<u64>,
    end: Option<DumpFault>,
) -> Result<Bytes, NoMemory>
    requires found { IsFoundOf found.now }
    requires start { IfSome start (λ start. start < 2 ^ 48) }
    ensures { IfOk result (IsPrintedOf found.now start end) }
{
    let (lines, others) = lines_of(alloc, found)?;
    let mut out = Bytes::new(alloc);
    append_lines(start, &lines, &mut out)?;
    append_number_line(b"-- other sources ", others, &mut out)?;
    append_number_line(b"-- more ", found.streams.others, &mut out)?;
    append_end(end, &mut out)?;
    Ok(out)
}

/// What `times` prints of a recording that began at `start`, in milliseconds since 1970, where these are the payload types of
/// text. `Dump` is answered only of octets that are no recording, `NotDump`, or where the source failed, `Read`.
pub fn times_recording<S: Source>(
    alloc: Global,
    reader: &mut DumpReader<S>,
    start: Option<u64>,
    payload_types: PayloadTypes,
) -> Result<Bytes, RecordingFault>
    requires open { is_ended reader.old ≡ Bool.false }
    requires start { IfSome start (λ start. start < 2 ^ 48) }
    ensures told { S.tells → IfOk result (λ printed. printed
        ≡ timed_view payload_types start (to_come S.left reader.old)) }
    ensures accepted { S.tells → OnOk result (if_no_recording (to_come S.left reader.old).fault ≡ None) }
    ensures refused { S.tells → IfErr result (RecordingIsRefused (to_come S.left reader.old)) }
    ensures read { IfErr result (HasCause S.faults reader.old reader.new) }
    ensures never_falls { S.faults (source_of reader.old) ≤ S.faults (source_of reader.new) }
    ensures same_name { S.name (source_of reader.new) ≡ S.name (source_of reader.old) }
{
    let mut found = Findings::new(alloc, payload_types);
    let end = match gather(alloc, reader, &mut found) {
        Ok(end) => end,
        Err(fault) => return Err(fault),
    };
    match times_found(alloc, &found, start, end) {
        Ok(printed) => Ok(printed),
        Err(_) => Err(RecordingFault::NoMemory),
    }
}
