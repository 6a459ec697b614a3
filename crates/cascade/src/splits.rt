//! A recording of what a mixer sent, split into recordings of its sources.
ghost use Rattle.std.specs.Prelude.{◌≡◌, ◌≢◌, ◌+◌, ◌≤◌, ◌<◌, ◌^◌, [], ◌∷◌, length, Bool, None, Some, OnOk, IfOk, IfErr, AllPairs, slice_get};
ghost use Rattle.wire_spec.specs.Dump.{dump};
ghost use Rattle.reorder_buffer.specs.States.{arrival_count};
ghost use Rattle.rtpdump_io.specs.Reading.{to_come};
ghost use Rattle.rtpdump_io.specs.Answers.{record_of, is_end};
ghost use Rattle.rtpdump_io.specs.Calls.{ReadsToEnd};
ghost use Rattle.rtpdump_io.specs.Faults.{FaultOf, IsSourceFault};
ghost use Rattle.rtt_io.specs.Counts.{Rose};
ghost use Rattle.command_spec.specs.Splitting as splitting;
ghost use Rattle.cascade.specs.declared.splits.DemuxSettings.{DemuxSettings};
ghost use Rattle.cascade.specs.Dividers.{IsListening};
ghost use Rattle.cascade.specs.Splits.{recordings_of, trunk_of, HearsAll, SplitsAs, TakesItem};
ghost use Rattle.rtt_base.specs.declared.limits.TheConstants.{LONGEST_WAIT, MOST_ARRIVALS, MOST_SOURCES};
ghost use Rattle.wire_spec.specs.declared.limits.TheConstants.{MOST_RECORDING_OCTETS};

use crate::dividers::Demux;
use crate::splitters::SourceRecording;
use rtpdump_io::{DumpItem, DumpReader, RecordingFault};
use rtt_base::{NoMemory as OutOfMemory, Packet, PayloadTypes};
use rtt_io::Source;
use std::alloc::Global;

/// How a recording is split.
#[derive(Clone, Copy, Debug, PartialEq, Eq)]
pub struct DemuxSettings {
    /// The payload types of the recording, and of what it is split into.
    pub payload_types: PayloadTypes,
    /// How long a gap in the numbers is waited for, in milliseconds: at most 10000.
    pub wait: u64,
    /// The most octets of the recording: at most 4194304.
    pub limit: u32,
}

/// The recordings of sources, in the order in which these were asked for.
#[derive(Drop)]
pub struct Splits {
    splitters: Vec<SourceRecording>,
}

impl Splits {
    /// How many there are.
    pub fn len(&self) -> usize
        ensures { result ≡ length (recordings_of self.now) }
    {
        self.splitters.len()
    }

    /// The octets of the recording at this place.
    pub fn recording(&self, place: usize) -> &[u8]
        requires { place < length (recordings_of self.now) }
        ensures { slice_get (recordings_of self.now) place ≡ Some result.now }
    {
        self.splitters[place].octets()
    }
}

/// Tells the divider of a record, whose octets are these.
fn hear_record(divider: &mut Demux, item: DumpItem, octets: &[u8]) -> Result<(), OutOfMemory>
    requires listens { IsListening divider.old }
    requires few { arrival_count divider.old.buffer < MOST_ARRIVALS }
    requires more { is_end item ≡ Bool.false }
    ensures takes { OnOk result (TakesItem divider.old divider.new (record_of item octets.now)) }
    ensures arrivals { OnOk result (arrival_count divider.new.buffer ≤ arrival_count divider.old.buffer + 1) }
{
    match item {
        DumpItem::Packet { at } => divider.hear(u64::from(at), octets),
        DumpItem::Rtcp { .. } | DumpItem::Cut { .. } | DumpItem::Large { .. } | DumpItem::End => Ok(
            (),
        ),
    }
}

/// Tells the divider of all records that are still to come.
fn listen<S: Source>(reader: &mut DumpReader<S>, divider: &mut Demux) -> Result<(), RecordingFault>
    requires listens { IsListening divider.old }
    requires few { arrival_count divider.old.buffer ≡ 0 }
    ensures hears { OnOk result (HearsAll S.tells (to_come S.left reader.old) divider.old divider.new) }
    ensures reads { ReadsToEnd S.tells S.left S.faults S.name reader.old reader.new result }
{
    let mut packet = Packet::new();
    while let Some(item) = reader.next_record(&mut packet)? {
        hear_record(divider, item, packet.as_slice())?;
    }
    Ok(())
}

/// Splits what is still to come of a recording.
fn split_from<S: Source>(
    alloc: Global,
    reader: &mut DumpReader<S>,
    ssrc: u32,
    sources: &[u32],
    settings: DemuxSettings,
) -> Result<Splits, RecordingFault>
    requires t140 { settings.payload_types.t140 < 2 ^ 7 }
    requires wait { settings.wait ≤ LONGEST_WAIT }
    requires some { 0 < length sources.now }
    requires few { length sources.now ≤ MOST_SOURCES }
    requires differ { AllPairs (λ a b. a ≢ b) sources.now }
    ensures splits { S.tells → IfOk result (SplitsAs (trunk_of ssrc settings) sources.now (to_come S.left reader.old)) }
    ensures each { IfOk result (λ s. length (recordings_of s) ≡ length sources.now) }
    ensures reads { ReadsToEnd S.tells S.left S.faults S.name reader.old reader.new result }
{
    let mut divider = Demux::new(alloc, ssrc, sources, settings.payload_types, settings.wait)?;
    listen(reader, &mut divider)?;
    let splitters = divider.finish()?;
    Ok(Splits { splitters })
}

/// Splits a recording of what a mixer sent under this SSRC: for each of these sources, 1 to 64 and all different, the
/// recording of what is heard of it, which another mixer can hear as the recording of a leg. The source that is read
/// comes back with every answer.
pub fn split<S: Source>(
    alloc: Global,
    src: S,
    ssrc: u32,
    sources: &[u32],
    settings: DemuxSettings,
) -> (S, Result<Splits, RecordingFault>)
    requires t140 { settings.payload_types.t140 < 2 ^ 7 }
    requires wait { settings.wait ≤ LONGEST_WAIT }
    requires limit { settings.limit ≤ MOST_RECORDING_OCTETS }
    requires some { 0 < length sources.now }
    requires few { length sources.now ≤ MOST_SOURCES }
    requires differ { AllPairs (λ a b. a ≢ b) sources.now }
    ensures splits { S.tells → IfOk result.1
        (λ s. recordings_of s ≡ splitting.splits (trunk_of ssrc settings) sources.now (S.left src)) }
    ensures each { IfOk result.1 (λ s. length (recordings_of s) ≡ length sources.now) }
    ensures whole { S.tells → OnOk result.1 ((dump settings.limit (S.left src)).fault ≡ None) }
    ensures fault { S.tells → IfErr result.1 (FaultOf (dump settings.limit (S.left src))) }
    ensures failed { IfErr result.1 (λ fault. IsSourceFault fault → Rose (S.faults src) (S.faults result.0)) }
    ensures calm { OnOk result.1 (S.faults result.0 ≡ S.faults src) }
    ensures never_falls { S.faults src ≤ S.faults result.0 }
    ensures same_name { S.name result.0 ≡ S.name src }
{
    let mut reader = DumpReader::with_limit(src, settings.limit);
    let splits = split_from(alloc, &mut reader, ssrc, sources, settings);
    (reader.into_source(), splits)
}
