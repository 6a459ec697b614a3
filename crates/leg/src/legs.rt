//! A leg over a recording.
ghost use Rattle.receiver.specs.Hears.{IsGiving};
ghost use Rattle.leg.specs.Sound.{FewCame, EndsWith};
ghost use Rattle.rtt_base.specs.declared.limits.TheConstants.{LONGEST_WAIT};

use crate::LegStep;
use crate::records::{hear_item, hear_plain_item};
use receiver::{Ear, EarSettings, PlainAnswer};
use rtpdump_io::{DumpFault, DumpReader};
use rtt_base::{Chunk, Packet};
use rtt_io::Source;
use std::alloc::Global;
use wire_spec::limits::MOST_RECORDING_OCTETS;

/// A leg: what is heard of its source in its recording, each text with the moment from which it may be mixed.
#[derive(Drop)]
pub struct Leg<S> {
    reader: DumpReader<S>,
    ear: Ear,
    /// The packet of the record that was read last.
    packet: Box<Packet>,
    /// Whether the last answer was given.
    over: bool,
    ghost giving: { ∥ IsGiving ear ∥₁ },
    ghost few: { FewCame reader ear },
    ghost open_still: { EndsWith reader ear },
}

/// Memory ran out. The source comes back.
#[derive(Drop)]
pub struct LegLost<S> {
    pub source: S,
}

impl<S: Source> Leg<S> {
    ghost use Rattle.std.specs.Prelude.{◌≡◌, ◌≤◌, ◌<◌, true, false, Ok, IfOk, IfErr, IsUtf8};
    ghost use Rattle.wire_spec.specs.declared.faults.DumpKind.{DumpKind};
    ghost use Rattle.wire_spec.specs.Packets.{has_text};
    ghost use Rattle.stream_spec.specs.Ready.{chunk_of};
    ghost use Rattle.rtt_io.specs.Counts.{Rose};
    ghost use Rattle.rtpdump_io.specs.Reading.{UnlessOfSource, is_ended};
    ghost use Rattle.receiver.specs.declared.settings.EarSettings.{EarSettings};
    ghost use Rattle.leg.specs.Gives.{Follows, Stands, begins, is_last, is_over, is_quiet, source_of, unread};

    /// A leg over a recording of at most 4194304 octets. The wait is at most 10000 milliseconds.
    pub fn new(alloc: Global, source: S, settings: EarSettings) -> Result<Leg<S>, LegLost<S>>
        requires { settings.wait ≤ LONGEST_WAIT }
        ensures stands { S.tells → IfOk result (λ leg.
            Stands S.left leg (begins settings MOST_RECORDING_OCTETS (S.left source))) }
        ensures open { IfOk result (λ leg. is_over leg ≡ false) }
        ensures source { IfOk result (λ leg. source_of leg ≡ source) }
        ensures lost { IfErr result (λ lost. lost.source ≡ source) }
    {
        Leg::with_limit(alloc, source, settings, MOST_RECORDING_OCTETS)
    }

    /// A leg over a recording of at most `limit` octets.
    pub fn with_limit(
        alloc: Global,
        source: S,
        settings: EarSettings,
        limit: u32,
    ) -> Result<Leg<S>, LegLost<S>>
        requires wait { settings.wait ≤ LONGEST_WAIT }
        requires limit { limit ≤ MOST_RECORDING_OCTETS }
        ensures stands { S.tells → IfOk result (λ leg. Stands S.left leg (begins settings limit (S.left source))) }
        ensures open { IfOk result (λ leg. is_over leg ≡ false) }
        ensures source { IfOk result (λ leg. source_of leg ≡ source) }
        ensures lost { IfErr result (λ lost. lost.source ≡ source) }
    {
        let Ok(ear) = Ear::new(alloc, settings, &[settings.ssrc]) else {
            return Err(LegLost { source });
        };
        let Ok(packet) = Box::new(alloc, Packet::new()) else {
            return Err(LegLost { source });
        };
        Ok(Leg {
            reader: DumpReader::with_limit(source, limit),
            ear,
            packet,
            over: false,
        })
    }

    /// Gives the next text in place of what is in `chunk`, or reads a record. A fault `Read` is one of the source; by every other
    /// answer no reading of the source failed.
    pub fn step(&mut self, chunk: &mut Chunk) -> Result<LegStep, DumpFault>
        requires { is_over self.old ≡ false }
        ensures steps { S.tells → Follows S.left self.old self.new result (chunk_of chunk.new) }
        ensures text { result ≡ Ok LegStep.Chunk → has_text chunk.new.text ≡ true }
        ensures utf8 { result ≡ Ok LegStep.Chunk → IsUtf8 chunk.new.text }
        ensures nearer { result ≡ Ok LegStep.More → unread self.new < unread self.old }
        ensures quiet { result ≡ Ok LegStep.More → is_quiet self.new ≡ true }
        ensures over { is_over self.new ≡ is_last result }
        ensures read { IfErr result (λ fault. fault.kind ≡ DumpKind.Read
            → Rose (S.faults (source_of self.old)) (S.faults (source_of self.new))) }
        ensures calm { UnlessOfSource result (S.faults (source_of self.new) ≡ S.faults (source_of self.old)) }
        ensures never_falls { S.faults (source_of self.old) ≤ S.faults (source_of self.new) }
        ensures same_name { S.name (source_of self.new) ≡ S.name (source_of self.old) }
    {
        match self.give(chunk) {
            LegStep::More => self.read(chunk),
            step => Ok(step),
        }
    }

    /// Gives the next text that is heard by now, or the end.
    fn give(&mut self, chunk: &mut Chunk) -> LegStep
        requires { is_over self.old ≡ false }
        ensures steps { Follows S.left self.old self.new (Ok result) (chunk_of chunk.new) }
        ensures text { result ≡ LegStep.Chunk → has_text chunk.new.text ≡ true }
        ensures utf8 { result ≡ LegStep.Chunk → IsUtf8 chunk.new.text }
        ensures over { is_over self.new ≡ is_last (Ok result) }
        ensures quiet { result ≡ LegStep.More → is_quiet self.new ≡ true }
        ensures more { result ≡ LegStep.More → is_ended self.new.reader ≡ false }
        ensures reader { self.new.reader ≡ self.old.reader }
    {
        if self.ear.next(chunk) {
            return LegStep::Chunk;
        }
        if self.reader.ended() {
            self.over = true;
            return LegStep::End;
        }
        LegStep::More
    }

    /// Reads a record, and gives what is heard then.
    fn read(&mut self, chunk: &mut Chunk) -> Result<LegStep, DumpFault>
        requires over { is_over self.old ≡ false }
        requires open { is_ended self.old.reader ≡ false }
        requires quiet { is_quiet self.old ≡ true }
        ensures steps { S.tells → Follows S.left self.old self.new result (chunk_of chunk.new) }
        ensures text { result ≡ Ok LegStep.Chunk → has_text chunk.new.text ≡ true }
        ensures utf8 { result ≡ Ok LegStep.Chunk → IsUtf8 chunk.new.text }
        ensures nearer { result ≡ Ok LegStep.More → unread self.new < unread self.old }
        ensures quiet { result ≡ Ok LegStep.More → is_quiet self.new ≡ true }
        ensures over { is_over self.new ≡ is_last result }
        ensures read { IfErr result (λ fault. fault.kind ≡ DumpKind.Read
            → Rose (S.faults (source_of self.old)) (S.faults (source_of self.new))) }
        ensures calm { UnlessOfSource result (S.faults (source_of self.new) ≡ S.faults (source_of self.old)) }
        ensures never_falls { S.faults (source_of self.old) ≤ S.faults (source_of self.new) }
        ensures same_name { S.name (source_of self.new) ≡ S.name (source_of self.old) }
    {
        match self.reader.next(&mut self.packet) {
            Ok(item) => {
                let octets = self.packet.as_slice();
                match hear_plain_item(&mut self.ear, item, octets, chunk) {
                    PlainAnswer::Chunk => Ok(LegStep::Chunk),
                    PlainAnswer::Nothing => Ok(LegStep::More),
                    PlainAnswer::NotPlain => {
                        hear_item(&mut self.ear, item, octets);
                        Ok(self.give(chunk))
                    }
                }
            }
            Err(fault) => {
                self.over = true;
                Err(fault)
            }
        }
    }

    /// Whether the last answer was given.
    pub fn ended(&self) -> bool
        ensures { result ≡ is_over self.now }
    {
        self.over
    }

    /// The source, as far as it was read.
    pub fn into_source(self) -> S
        ensures { result ≡ source_of self }
    {
        let Leg {
            reader,
            ear: _,
            packet: _,
            over: _,
        } = self;
        reader.into_source()
    }
}
