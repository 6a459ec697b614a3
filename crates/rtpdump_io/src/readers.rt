//! Reading of recordings.
ghost use Rattle.std.specs.Prelude.{◌≤◌};
ghost use Rattle.wire_spec.specs.declared.limits.TheConstants.{MOST_RECORDING_OCTETS};

use crate::inputs::Input;
use crate::items::{DumpFault, DumpItem, RecordingFault};
use crate::record_heads::RecordHead;
use rtt_base::limits::MOST_PACKET_OCTETS;
use rtt_base::{Failed, Packet};
use rtt_io::Source;
use wire_spec::DumpKind;
use wire_spec::limits::MOST_RECORDING_OCTETS;

/// What a reader reads next.
#[derive(Clone, Copy, Debug, PartialEq, Eq)]
pub(crate) enum Stage {
    /// The line and the head.
    Opening,
    /// A record.
    Records,
    /// Nothing any more.
    Ended,
}

/// Reads a recording in the file form of rtpdump, record by record, in one pass.
#[derive(Drop)]
pub struct DumpReader<S> {
    pub(crate) input: Input<S>,
    // the most octets that the recording may have
    pub(crate) limit: u32,
    // the first octet of what is read next
    pub(crate) offset: u64,
    pub(crate) stage: Stage,
    ghost bounded: { limit ≤ MOST_RECORDING_OCTETS },
    ghost within: { offset ≤ MOST_RECORDING_OCTETS },
}

impl<S: Source> DumpReader<S> {
    ghost use Rattle.std.specs.Prelude.{◌≡◌, ◌<◌, ◌≤◌, true, false, Ok, OnOk, OnErr, IfOk, IfSome, length, take};
    ghost use Rattle.wire_spec.specs.Dump.{dump, usual_limit};
    ghost use Rattle.wire_spec.specs.Recorded.{entries};
    ghost use Rattle.rtpdump_io.specs.Reading.{to_come, most_answers, is_ended, source_of, unread_by};
    ghost use Rattle.rtpdump_io.specs.Structures.{Starts, IsLineOrHead, all_octets, octets_around};
    ghost use Rattle.rtpdump_io.specs.Steps.{OnFound, OnRecord, IsOfRecording, Opens, IsReady, Finds, Comes};
    ghost use Rattle.rtpdump_io.specs.Heads.{body_size, kept_size, IsWholePacket};
    ghost use Rattle.rtpdump_io.specs.Entries.{GivesEntry, HandsOutRtcp, entries_to_come, EntriesCome, EntriesReady};
    ghost use Rattle.rtpdump_io.specs.Input.{held, CountsFaults, PassesOver};
    ghost use Rattle.rtpdump_io.specs.Calls.{Reads, ReadsRecord};

    /// A reader of a recording of at most 4194304 octets, from its first octet on. It takes no memory.
    pub fn new(source: S) -> DumpReader<S>
        ensures to_come { to_come S.left result ≡ dump usual_limit (S.left source) }
        ensures entries { entries_to_come S.left result ≡ entries usual_limit (S.left source) }
        ensures all { all_octets S.left result ≡ length (S.left source) }
        ensures not_ended { is_ended result ≡ false }
        ensures source { source_of result ≡ source }
    {
        DumpReader::with_limit(source, MOST_RECORDING_OCTETS)
    }

    /// A reader of a recording of at most `limit` octets.
    pub fn with_limit(source: S, limit: u32) -> DumpReader<S>
        requires { limit ≤ MOST_RECORDING_OCTETS }
        ensures to_come { to_come S.left result ≡ dump limit (S.left source) }
        ensures entries { entries_to_come S.left result ≡ entries limit (S.left source) }
        ensures all { all_octets S.left result ≡ length (S.left source) }
        ensures not_ended { is_ended result ≡ false }
        ensures source { source_of result ≡ source }
    {
        DumpReader {
            input: Input::new(source),
            limit,
            offset: 0,
            stage: Stage::Opening,
        }
    }

    /// Whether the last answer was `End` or a fault.
    pub fn ended(&self) -> bool
        ensures { result ≡ is_ended self.now }
    {
        self.stage == Stage::Ended
    }

    /// The source, as far as it was read.
    pub fn into_source(self) -> S
        ensures { result ≡ source_of self }
    {
        let DumpReader { input, .. } = self;
        input.into_source()
    }

    /// Reads what stands next. The octets of a packet are then in `out`; after another answer what is in `out` is
    /// of no use. A fault `Read` is one of the source, and its byte that of the structure that was being read; by every other
    /// answer no reading of the source failed.
    #[inline(always)]
    pub fn next(&mut self, out: &mut Packet) -> Result<DumpItem, DumpFault>
        requires { is_ended self.old ≡ false }
        ensures { Reads S.tells S.left S.faults S.name self.old self.new out.new result }
    {
        self.read(false, out)
    }

    /// Reads the next record as `next` does; there is none behind the last one, nor behind a fault.
    #[inline(always)]
    pub fn next_record(&mut self, out: &mut Packet) -> Result<Option<DumpItem>, RecordingFault>
        ensures { ReadsRecord S.tells S.left S.faults S.name self.old self.new out.new result }
    {
        if self.ended() {
            return Ok(None);
        }
        match self.next(out) {
            Ok(item) => Ok(item.unless_end()),
            Err(fault) => Err(RecordingFault::Dump(fault)),
        }
    }

    /// Reads what stands next as `next` does, and leaves the octets of a record of RTCP in `out` too: those behind its head,
    /// or none where they are more than 4224.
    pub fn next_all(&mut self, out: &mut Packet) -> Result<DumpItem, DumpFault>
        requires { is_ended self.old ≡ false }
        ensures reads { Reads S.tells S.left S.faults S.name self.old self.new out.new result }
        ensures entries { S.tells → GivesEntry result out.new (entries_to_come S.left self.old)
            (entries_to_come S.left self.new) }
    {
        self.read(true, out)
    }

    // Reads what stands next, with the octets of a record of RTCP where these are wanted too.
    #[inline(always)]
    fn read(&mut self, with_rtcp: bool, out: &mut Packet) -> Result<DumpItem, DumpFault>
        requires { is_ended self.old ≡ false }
        ensures reads { Reads S.tells S.left S.faults S.name self.old self.new out.new result }
        ensures entries { S.tells → with_rtcp ≡ true → GivesEntry result out.new (entries_to_come S.left self.old) (entries_to_come S.left self.new) }
    {
        match self.step(with_rtcp, out) {
            Ok(Ok(DumpItem::End)) => {
                self.stage = Stage::Ended;
                Ok(DumpItem::End)
            }
            Ok(Ok(item)) => Ok(item),
            Ok(Err(kind)) => Err(self.fault(kind)),
            Err(Failed) => Err(self.fault(DumpKind::Read)),
        }
    }

    // The fault of this kind, after which nothing is read any more.
    fn fault(&mut self, kind: DumpKind) -> DumpFault
        ensures source { self.new.input ≡ self.old.input }
        ensures ended { is_ended self.new ≡ true }
        ensures fault { result ≡ record { offset = self.old.offset; kind = kind } }
    {
        self.stage = Stage::Ended;
        DumpFault {
            offset: self.offset,
            kind,
        }
    }

    // Reads the opening first, where that was not done yet, and then a record.
    #[inline(always)]
    fn step(
        &mut self,
        with_rtcp: bool,
        out: &mut Packet,
    ) -> Result<Result<DumpItem, DumpKind>, Failed>
        requires { is_ended self.old ≡ false }
        ensures came { S.tells → IfOk result (λ found. Comes S.left self.old self.new out.new found) }
        ensures entries { S.tells → with_rtcp ≡ true → IfOk result (λ found. EntriesCome S.left self.old self.new out.new found) }
        ensures not_read { IsOfRecording result }
        ensures read_at { S.tells → OnErr result (Starts S.left self.old self.new.offset) }
        ensures all { S.tells → OnFound result (octets_around S.left self.new ≡ all_octets S.left self.old) }
        ensures ready { OnFound result (self.new.stage ≡ Stage.Records) }
        ensures not_ended { is_ended self.new ≡ false }
        ensures nearer { OnRecord result (most_answers self.new < most_answers self.old) }
        ensures counts { CountsFaults S.faults S.name (source_of self.old) (source_of self.new) result }
    {
        if let Err(kind) = self.make_ready()? {
            return Ok(Err(kind));
        }
        self.record(with_rtcp, out)
    }

    // Reads the opening, where that was not done yet.
    #[inline(always)]
    fn make_ready(&mut self) -> Result<Result<(), DumpKind>, Failed>
        requires { is_ended self.old ≡ false }
        ensures came { S.tells → IfOk result (λ found. IsReady S.left self.old self.new found) }
        ensures entries { S.tells → IfOk result (λ found. EntriesReady S.left self.old self.new found) }
        ensures ready { OnFound result (self.new.stage ≡ Stage.Records) }
        ensures read_at { S.tells → OnErr result (Starts S.left self.old self.new.offset) }
        ensures starts { S.tells → OnFound result (Starts S.left self.old self.new.offset) }
        ensures all { S.tells → OnFound result (octets_around S.left self.new ≡ all_octets S.left self.old) }
        ensures not_farther { OnFound result (most_answers self.new ≤ most_answers self.old) }
        ensures not_read { IsOfRecording result }
        ensures not_ended { is_ended self.new ≡ false }
        ensures counts { CountsFaults S.faults S.name (source_of self.old) (source_of self.new) result }
    {
        match self.stage {
            Stage::Opening => {
                if let Err(kind) = self.open()? {
                    return Ok(Err(kind));
                }
                self.stage = Stage::Records;
                Ok(Ok(()))
            }
            Stage::Records => Ok(Ok(())),
            Stage::Ended => unreachable!(),
        }
    }

    // Reads the line and the head.
    fn open(&mut self) -> Result<Result<(), DumpKind>, Failed>
        ensures read_at { S.tells → OnErr result (IsLineOrHead (unread_by S.left self.old) self.new.offset) }
        ensures all { S.tells → OnFound result (octets_around S.left self.new ≡ length (unread_by S.left self.old)) }
        ensures opened { S.tells → IfOk result (λ found. Opens S.left self.old self.new found) }
        ensures not_read { IsOfRecording result }
        ensures same_limit { self.new.limit ≡ self.old.limit }
        ensures same_stage { self.new.stage ≡ self.old.stage }
        ensures counts { CountsFaults S.faults S.name (source_of self.old) (source_of self.new) result }
    {
        self.offset = 0;
        if !self.input.begins_with(b"#!rtpplay1.0 ")? {
            return Ok(Err(DumpKind::NotDump));
        }
        let Some(more) = self.input.past_line(115)? else {
            return Ok(Err(DumpKind::NotDump));
        };
        self.offset = 13 + u64::from(more);
        if !self.input.pass(16)? {
            return Ok(Err(DumpKind::EndsInside));
        }
        self.offset += 16;
        Ok(Ok(()))
    }

    // Reads a record, or finds the end. Most are whole packets that lie in the block.
    #[inline(always)]
    fn record(
        &mut self,
        with_rtcp: bool,
        out: &mut Packet,
    ) -> Result<Result<DumpItem, DumpKind>, Failed>
        ensures same_offset { OnErr result (self.new.offset ≡ self.old.offset) }
        ensures all { S.tells → OnFound result (octets_around S.left self.new ≡ octets_around S.left self.old) }
        ensures farther { OnRecord result (self.old.offset < self.new.offset) }
        ensures found { S.tells → IfOk result (λ found. Finds S.left self.old self.new out.new found) }
        ensures rtcp { S.tells → IfOk result (λ found. HandsOutRtcp with_rtcp (unread_by S.left self.old) out.new found) }
        ensures not_read { IsOfRecording result }
        ensures same_limit { self.new.limit ≡ self.old.limit }
        ensures same_stage { self.new.stage ≡ self.old.stage }
        ensures counts { CountsFaults S.faults S.name (source_of self.old) (source_of self.new) result }
    {
        let Some(head) = self.whole_packet() else {
            return self.any_record(with_rtcp, out);
        };
        self.input.take_body(usize::from(head.size), out);
        self.offset += u64::from(head.size);
        Ok(Ok(DumpItem::Packet { at: head.time }))
    }

    // The head of the record that is read next, where it is nothing but a packet and all of it lies in the block.
    #[inline(always)]
    fn whole_packet(&self) -> Option<RecordHead>
        ensures { IfSome result (IsWholePacket self.now.limit self.now.offset (held self.now.input)) }
    {
        let held = self.input.held();
        if held.len() < 8 {
            return None;
        }
        let mut octets = [0; 8];
        octets.copy_from_slice(&held[..8]);
        let head = RecordHead::from_octets(&octets);
        let size = usize::from(head.size);
        if head.packet_size == 0 || usize::from(head.packet_size) + 8 != size {
            return None;
        }
        if size > held.len() || usize::from(head.packet_size) > MOST_PACKET_OCTETS {
            return None;
        }
        if self.offset + u64::from(head.size) > u64::from(self.limit) || head.is_late() {
            return None;
        }
        Some(head)
    }

    // Reads a record, whatever it is and wherever it lies, or finds the end.
    #[inline(never)]
    fn any_record(
        &mut self,
        with_rtcp: bool,
        out: &mut Packet,
    ) -> Result<Result<DumpItem, DumpKind>, Failed>
        ensures same_offset { OnErr result (self.new.offset ≡ self.old.offset) }
        ensures all { S.tells → OnFound result (octets_around S.left self.new ≡ octets_around S.left self.old) }
        ensures farther { OnRecord result (self.old.offset < self.new.offset) }
        ensures found { S.tells → IfOk result (λ found. Finds S.left self.old self.new out.new found) }
        ensures rtcp { S.tells → IfOk result (λ found. HandsOutRtcp with_rtcp (unread_by S.left self.old) out.new found) }
        ensures not_read { IsOfRecording result }
        ensures same_limit { self.new.limit ≡ self.old.limit }
        ensures same_stage { self.new.stage ≡ self.old.stage }
        ensures counts { CountsFaults S.faults S.name (source_of self.old) (source_of self.new) result }
    {
        let mut octets = [0; 8];
        let number = self.input.read_full(&mut octets)?;
        if number == 0 {
            return Ok(Ok(DumpItem::End));
        }
        if number < 8 {
            return Ok(Err(DumpKind::EndsInside));
        }
        let head = RecordHead::from_octets(&octets);
        if head.is_short() {
            return Ok(Err(DumpKind::BadLength));
        }
        let end = self.offset + u64::from(head.size);
        if end > u64::from(self.limit) {
            return Ok(Err(DumpKind::TooLarge));
        }
        if !self.body(&head, with_rtcp, out)? {
            return Ok(Err(DumpKind::EndsInside));
        }
        if head.is_late() {
            return Ok(Err(DumpKind::TooLong));
        }
        self.offset = end;
        Ok(Ok(head.item()))
    }

    // Reads what a record has behind its head, and keeps the octets that are wanted. Answers whether all was there.
    #[inline(always)]
    fn body(&mut self, head: &RecordHead, with_rtcp: bool, out: &mut Packet) -> Result<bool, Failed>
        requires { 8 ≤ head.now.size }
        ensures there { S.tells → result ≡ Ok true → PassesOver S.left self.old.input self.new.input (body_size head.now) }
        ensures kept { S.tells → result ≡ Ok true → out.new ≡ take (kept_size with_rtcp head.now) (unread_by S.left self.old) }
        ensures missing { S.tells → result ≡ Ok false → length (unread_by S.left self.old) < body_size head.now }
        ensures same_offset { self.new.offset ≡ self.old.offset }
        ensures same_limit { self.new.limit ≡ self.old.limit }
        ensures same_stage { self.new.stage ≡ self.old.stage }
        ensures counts { CountsFaults S.faults S.name (source_of self.old) (source_of self.new) result }
    {
        let size = usize::from(head.size - 8);
        let kept = head.kept(with_rtcp);
        out.clear();
        if !self.input.copy(kept, out)? {
            return Ok(false);
        }
        self.input.pass(size - kept)
    }
}
