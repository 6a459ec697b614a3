//! A recording that is written as a call runs.
ghost use Rattle.std.specs.Prelude.{◌≡◌, ◌≢◌, ◌<◌, ◌≤◌, ◌+◌, ◌^◌, ◌++◌, [], true, false, None, Some, IsSome, length, string_bytes, is_none, IfSome, IfOk, OnOk, OnErr, OnSome, Ok, Err};
ghost use Rattle.rtt_io.specs.Names.{SameBut};
ghost use Rattle.rtt_base.specs.declared.limits.TheConstants.{MOST_PACKET_OCTETS};
ghost use Rattle.live_spec.specs.Recorded.{entry_written, head_written, nothing_noted};
ghost use Rattle.recorded_links.specs.declared.places.TheConstants.{MOST_PENDING_OCTETS};
ghost use Rattle.recorded_links.specs.Places.{entry};
ghost use Rattle.recorded_links.specs.Names.{numbered};
ghost use Rattle.recorded_links.specs.Standing.{KeepsNoted, KeepsWritten, LiesThere, NotesMore, RecorderStandsFor, StaysAll};
ghost use Rattle.recorded_links.specs.Writing.{IsCalm, IsCaused, IsFurther, LeavesFront, SameButBoth, TouchesOwn};

use crate::Journals;
use crate::names::file_name;
use crate::octets::{append_record, head_piece};
use crate::places::{FilePosition, MOST_PENDING_OCTETS};
use rtt_base::{Bytes, Failed, NoMemory};
use rtt_io::Sink;
use std::alloc::Global;
use std::marker::Model;

/// Why a recording ended before its call.
#[derive(Clone, Copy, Debug, PartialEq, Eq)]
pub enum RecordFault {
    /// Its file could not be made, or not be written any more.
    Failed,
    NoMemory,
}

/// A recording that is written as a call runs, one file behind the other. What is noted is pending, and is written by `flush`, where
/// much is pending, and at the end. Where a file can't be made or written any more, or memory runs out, the recording ends there:
/// what was written so far stays.
#[derive(Drop)]
pub struct Recorder<J: Journals> {
    alloc: Global,
    /// What the names of its files begin with.
    stem: String,
    /// The wall clock at moment 0, in milliseconds since 1970.
    start: u64,
    /// The number of the last file.
    number: u64,
    /// That behind what is pending.
    place: FilePosition,
    /// The last file; none where the recording ended.
    file: Option<J::File>,
    /// Whole records that are not in the last file yet.
    pending: Bytes,
}

impl<J: Journals> Model for Recorder<J> {
    ghost use Rattle.std.specs.Prelude.{◌≡◌, ◌<◌, ◌≤◌, ◌^◌, IfSome, length, string_bytes};
    ghost use Rattle.recorded_links.specs.declared.places.TheConstants.{MOST_PENDING_OCTETS};
    ghost use Rattle.recorded_links.specs.Standing.{IsFresh, Keeping};

    ghost Value = { Keeping J.File };

    ghost view = { λ r. record { stem = string_bytes r.stem; start = r.start; number = r.number; place = r.place; file = r.file; pending = r.pending } };

    ghost invariant = { λ r. (r.start < 2 ^ 63) × IfSome r.file (λ f. IsFresh J.File.Sink (string_bytes r.stem) r.number f) × (length r.pending ≤ MOST_PENDING_OCTETS) };
}

/// Writes octets to a file, and has it again, or hands it back where it fails.
fn write_to<J: Journals>(journals: &mut J, mut file: J::File, octets: &[u8]) -> Option<J::File>
    requires { J.File.faults file ≡ 0 }
    ensures fresh { IfSome result (λ f. J.File.faults f ≡ 0) }
    ensures named { IfSome result (λ f. J.File.name f ≡ J.File.name file) }
    ensures took { J.File.tells → IfSome result (λ f. J.File.took f ≡ J.File.took file ++ octets.now) }
    ensures same { OnSome result (journals.new ≡ journals.old) }
    ensures caused { result ≡ None → IsCaused J.own_faults J.object_faults journals.old journals.new (J.File.name file) }
    ensures left { J.File.tells → J.tells → result ≡ None
        → LeavesFront J.contents journals.old journals.new (J.File.name file) (J.File.took file) octets.now }
    ensures others { J.tells → SameBut (J.File.name file) J.contents journals.old journals.new }
{
    match file.write_part(octets) {
        Ok(()) => Some(file),
        Err(Failed) => {
            journals.done(file);
            None
        }
    }
}

/// Writes what is pending to a file, and has it again, or hands it back where it fails.
fn write_pending<J: Journals>(
    journals: &mut J,
    file: J::File,
    pending: &mut Bytes,
) -> Option<J::File>
    requires { J.File.faults file ≡ 0 }
    ensures empty { OnSome result (pending.new ≡ []) }
    ensures unchanged { result ≡ None → pending.new ≡ pending.old }
    ensures fresh { IfSome result (λ f. J.File.faults f ≡ 0) }
    ensures named { IfSome result (λ f. J.File.name f ≡ J.File.name file) }
    ensures took { J.File.tells → IfSome result (λ f. J.File.took f ≡ J.File.took file ++ pending.old) }
    ensures same { OnSome result (journals.new ≡ journals.old) }
    ensures caused { result ≡ None → IsCaused J.own_faults J.object_faults journals.old journals.new (J.File.name file) }
    ensures left { J.File.tells → J.tells → result ≡ None
        → LeavesFront J.contents journals.old journals.new (J.File.name file) (J.File.took file) pending.old }
    ensures others { J.tells → SameBut (J.File.name file) J.contents journals.old journals.new }
{
    if pending.is_empty() {
        return Some(file);
    }
    let Some(file) = write_to(journals, file, pending.as_slice()) else {
        return None;
    };
    pending.clear();
    Some(file)
}

/// Writes what is pending where a record of these octets has no room behind it.
fn make_room<J: Journals>(
    journals: &mut J,
    file: J::File,
    pending: &mut Bytes,
    octets: &[u8],
) -> Option<J::File>
    requires fresh { J.File.faults file ≡ 0 }
    requires few { length octets.now ≤ MOST_PACKET_OCTETS }
    requires bounded { length pending.old ≤ MOST_PENDING_OCTETS }
    ensures bounded { length pending.new ≤ MOST_PENDING_OCTETS }
    ensures room { OnSome result (length pending.new + (8 + length octets.now) ≤ MOST_PENDING_OCTETS) }
    ensures fresh { IfSome result (λ f. J.File.faults f ≡ 0) }
    ensures named { IfSome result (λ f. J.File.name f ≡ J.File.name file) }
    ensures further { J.File.tells → IfSome result (λ f. IsFurther (J.File.took file) pending.old (J.File.took f) pending.new) }
    ensures same { OnSome result (journals.new ≡ journals.old) }
    ensures caused { result ≡ None → IsCaused J.own_faults J.object_faults journals.old journals.new (J.File.name file) }
    ensures left { J.File.tells → J.tells → result ≡ None
        → LeavesFront J.contents journals.old journals.new (J.File.name file) (J.File.took file) pending.old }
    ensures others { J.tells → SameBut (J.File.name file) J.contents journals.old journals.new }
{
    if pending.len() + 8 + octets.len() <= MOST_PENDING_OCTETS {
        return Some(file);
    }
    write_pending(journals, file, pending)
}

/// Writes what is pending, and hands the file back, since memory ran out. The answer is why the recording ends.
fn hand_back<J: Journals>(journals: &mut J, file: J::File, pending: &mut Bytes) -> RecordFault
    requires { J.File.faults file ≡ 0 }
    ensures bounded { length pending.new ≤ length pending.old }
    ensures calm { result ≢ RecordFault.Failed → IsCalm J.own_faults J.object_faults journals.old journals.new }
    ensures caused { result ≡ RecordFault.Failed → IsCaused J.own_faults J.object_faults journals.old journals.new (J.File.name file) }
    ensures left { J.File.tells → J.tells → LeavesFront J.contents journals.old journals.new (J.File.name file) (J.File.took file) pending.old }
    ensures others { J.tells → SameBut (J.File.name file) J.contents journals.old journals.new }
{
    let Some(file) = write_pending(journals, file, pending) else {
        return RecordFault::Failed;
    };
    journals.done(file);
    RecordFault::NoMemory
}

/// Has a record more pending, and hands the file back where that fails or memory runs out: then what was pending is written before.
fn add_record<J: Journals>(
    journals: &mut J,
    file: J::File,
    pending: &mut Bytes,
    moment: u32,
    octets: &[u8],
) -> Result<J::File, RecordFault>
    requires fresh { J.File.faults file ≡ 0 }
    requires few { length octets.now ≤ MOST_PACKET_OCTETS }
    requires bounded { length pending.old ≤ MOST_PENDING_OCTETS }
    ensures bounded { length pending.new ≤ MOST_PENDING_OCTETS }
    ensures fresh { IfOk result (λ f. J.File.faults f ≡ 0) }
    ensures named { IfOk result (λ f. J.File.name f ≡ J.File.name file) }
    ensures took { J.File.tells
        → IfOk result (λ f. J.File.took f ++ pending.new ≡ J.File.took file ++ pending.old ++ entry_written moment octets.now) }
    ensures same { OnOk result (journals.new ≡ journals.old) }
    ensures calm { result ≢ Err RecordFault.Failed → IsCalm J.own_faults J.object_faults journals.old journals.new }
    ensures caused { result ≡ Err RecordFault.Failed → IsCaused J.own_faults J.object_faults journals.old journals.new (J.File.name file) }
    ensures left { J.File.tells → J.tells → OnErr result
        (LeavesFront J.contents journals.old journals.new (J.File.name file) (J.File.took file) (pending.old ++ entry_written moment octets.now)) }
    ensures others { J.tells → SameBut (J.File.name file) J.contents journals.old journals.new }
{
    let Some(file) = make_room(journals, file, pending, octets) else {
        return Err(RecordFault::Failed);
    };
    if append_record(moment, octets, pending).is_ok() {
        return Ok(file);
    }
    Err(hand_back(journals, file, pending))
}

/// Makes the file of this number, and writes these octets into it.
fn begin_file<J: Journals>(
    journals: &mut J,
    alloc: Global,
    stem: &str,
    number: u64,
    octets: &[u8],
) -> Result<J::File, RecordFault>
    ensures fresh { IfOk result (λ f. J.File.faults f ≡ 0) }
    ensures named { IfOk result (λ f. J.File.name f ≡ numbered stem.now number) }
    ensures told { J.tells → OnOk result J.File.tells }
    ensures was_free { J.tells → OnOk result (J.contents journals.old (numbered stem.now number) ≡ None) }
    ensures took { J.tells → IfOk result (λ f. J.File.took f ≡ octets.now) }
    ensures there { J.tells → OnOk result (IsSome (J.contents journals.new (numbered stem.now number))) }
    ensures calm { result ≢ Err RecordFault.Failed → IsCalm J.own_faults J.object_faults journals.old journals.new }
    ensures caused { result ≡ Err RecordFault.Failed → IsCaused J.own_faults J.object_faults journals.old journals.new (numbered stem.now number) }
    ensures others { J.tells → SameBut (numbered stem.now number) J.contents journals.old journals.new }
{
    let Ok(name) = file_name(alloc, stem, number) else {
        return Err(RecordFault::NoMemory);
    };
    let Ok(file) = journals.begin(name.as_str()) else {
        return Err(RecordFault::Failed);
    };
    match write_to(journals, file, octets) {
        Some(file) => Ok(file),
        None => Err(RecordFault::Failed),
    }
}

/// Hands a file back, makes the next one, of this number, writes its head, and has its first record pending.
fn next_file<J: Journals>(
    journals: &mut J,
    alloc: Global,
    file: J::File,
    pending: &mut Bytes,
    stem: &str,
    number: u64,
    t: u64,
    octets: &[u8],
) -> Result<J::File, RecordFault>
    requires fresh { J.File.faults file ≡ 0 }
    requires few { length octets.now ≤ MOST_PACKET_OCTETS }
    requires empty { pending.old ≡ [] }
    ensures bounded { length pending.new ≤ MOST_PENDING_OCTETS }
    ensures pending { OnOk result (pending.new ≡ entry_written 0 octets.now) }
    ensures fresh { IfOk result (λ f. J.File.faults f ≡ 0) }
    ensures named { IfOk result (λ f. J.File.name f ≡ numbered stem.now number) }
    ensures told { J.tells → OnOk result J.File.tells }
    ensures took { J.tells → IfOk result (λ f. J.File.took f ≡ head_written t) }
    ensures there { J.tells → OnOk result (IsSome (J.contents journals.new (numbered stem.now number))) }
    ensures calm { result ≢ Err RecordFault.Failed → IsCalm J.own_faults J.object_faults journals.old journals.new }
    ensures caused { result ≡ Err RecordFault.Failed → IsCaused J.own_faults J.object_faults journals.old journals.new (numbered stem.now number) }
    ensures kept { J.tells → IsSome (J.contents journals.old (J.File.name file)) → J.File.name file ≢ numbered stem.now number
        → J.contents journals.new (J.File.name file) ≡ Some (J.File.took file) }
    ensures others { J.tells → SameButBoth (J.File.name file) (numbered stem.now number) J.contents journals.old journals.new }
{
    journals.done(file);
    let Ok(head) = head_piece(alloc, t) else {
        return Err(RecordFault::NoMemory);
    };
    let file = begin_file(journals, alloc, stem, number, head.as_slice())?;
    if append_record(0, octets, pending).is_ok() {
        return Ok(file);
    }
    journals.done(file);
    Err(RecordFault::NoMemory)
}

impl<J: Journals> Recorder<J> {
    /// Begins a recording whose files have names that begin with `stem`: makes the first one, with its head. `start` is the wall
    /// clock at moment 0, in milliseconds since 1970.
    pub fn begin(
        journals: &mut J,
        alloc: Global,
        stem: String,
        start: u64,
    ) -> Result<Recorder<J>, RecordFault>
        requires { start < 2 ^ 63 }
        ensures named { IfOk result (λ r. (r.stem ≡ string_bytes stem) × (r.start ≡ start)) }
        ensures stands { J.tells → IfOk result (λ r. RecorderStandsFor J.File.Sink (J.contents journals.new) r
            nothing_noted) }
        ensures was_free { J.tells → OnOk result (J.contents journals.old (numbered (string_bytes stem) 1) ≡ None) }
        ensures there { J.tells → OnOk result (IsSome (J.contents journals.new (numbered (string_bytes stem) 1))) }
        ensures others { J.tells → TouchesOwn J.contents journals.old journals.new (string_bytes stem) }
        ensures calm { result ≢ Err RecordFault.Failed → IsCalm J.own_faults J.object_faults journals.old journals.new }
        ensures caused { result ≡ Err RecordFault.Failed
            → IsCaused J.own_faults J.object_faults journals.old journals.new (numbered (string_bytes stem) 1) }
    {
        let Ok(head) = head_piece(alloc, start) else {
            return Err(RecordFault::NoMemory);
        };
        match begin_file(journals, alloc, stem.as_str(), 1, head.as_slice()) {
            Ok(file) => Ok(Recorder {
                alloc,
                stem,
                start,
                number: 1,
                place: FilePosition::at(0),
                file: Some(file),
                pending: Bytes::new(alloc),
            }),
            Err(fault) => Err(fault),
        }
    }

    /// Notes octets that came, or were given, at the moment `at` of the links' clock (milliseconds): their record is pending, behind
    /// all of the last file, or where that has no room in the next one. A recording that ended notes nothing. After an error all that
    /// was written lies there, and of what was pending a front.
    pub fn note(&mut self, journals: &mut J, at: u64, octets: &[u8]) -> Result<(), RecordFault>
        requires few { length octets.now ≤ MOST_PACKET_OCTETS }
        requires early { at < 2 ^ 63 }
        ensures named { (self.new.stem ≡ self.old.stem) × (self.new.start ≡ self.old.start) }
        ensures notes { J.tells → NotesMore J.File.Sink (J.contents journals.old)
            (J.contents journals.new) self.old self.new (entry at octets.now) }
        ensures keeps { J.tells → OnErr result
            (KeepsNoted J.File.Sink (J.contents journals.old) (J.contents journals.new) self.old
            (entry at octets.now)) }
        ensures bounded { length self.new.pending ≤ MOST_PENDING_OCTETS }
        ensures others { J.tells → TouchesOwn J.contents journals.old journals.new self.old.stem }
        ensures ended { OnErr result (self.new.file ≡ None) }
        ensures calm { result ≢ Err RecordFault.Failed → IsCalm J.own_faults J.object_faults journals.old journals.new }
        ensures caused { result ≡ Err RecordFault.Failed
            → IsCaused J.own_faults J.object_faults journals.old journals.new
            (numbered self.new.stem self.new.number) }
    {
        let Some(file) = self.file.take() else {
            return Ok(());
        };
        if self.place.has_room(at, octets) {
            let moment = self.place.moment(at) as u32;
            let file = add_record(journals, file, &mut self.pending, moment, octets)?;
            self.place = self.place.after(octets);
            self.file = Some(file);
            return Ok(());
        }
        let Some(file) = write_pending(journals, file, &mut self.pending) else {
            return Err(RecordFault::Failed);
        };
        let Some(number) = self.number.checked_add(1) else {
            journals.done(file);
            return Err(RecordFault::NoMemory);
        };
        self.number = number;
        let t = self.start + at;
        let stem = self.stem.as_str();
        let file = next_file(
            journals,
            self.alloc,
            file,
            &mut self.pending,
            stem,
            number,
            t,
            octets,
        )?;
        self.place = FilePosition::at(at).after(octets);
        self.file = Some(file);
        Ok(())
    }

    /// Writes what is pending, by one call to its file. A recording that ended writes nothing. After an error all that was written
    /// before lies there, and of what was pending a front.
    pub fn flush(&mut self, journals: &mut J) -> Result<(), RecordFault>
        ensures named { (self.new.stem ≡ self.old.stem) × (self.new.start ≡ self.old.start) ×
            (self.new.number ≡ self.old.number) }
        ensures stays { J.tells → StaysAll J.File.Sink (J.contents journals.old)
            (J.contents journals.new) self.old self.new }
        ensures written { IfSome self.new.file (λ _. self.new.pending ≡ []) }
        ensures over { OnOk result (is_none self.new.file ≡ is_none self.old.file) }
        ensures others { J.tells → TouchesOwn J.contents journals.old journals.new self.old.stem }
        ensures keeps { J.tells → OnErr result
            (KeepsWritten J.File.Sink (J.contents journals.old) (J.contents journals.new) self.old) }
        ensures ended { OnErr result (self.new.file ≡ None) }
        ensures calm { OnOk result (IsCalm J.own_faults J.object_faults journals.old journals.new) }
        ensures caused { OnErr result (IsCaused J.own_faults J.object_faults journals.old journals.new
            (numbered self.new.stem self.new.number)) }
    {
        let Some(file) = self.file.take() else {
            return Ok(());
        };
        let Some(file) = write_pending(journals, file, &mut self.pending) else {
            return Err(RecordFault::Failed);
        };
        self.file = Some(file);
        Ok(())
    }

    /// Ends the recording: writes what is pending, and hands its last file back. The answer is whether all that was noted is in its
    /// files: that it did not end before. After an error all that was written before lies there, and of what was pending a front.
    pub fn end(&mut self, journals: &mut J) -> Result<bool, RecordFault>
        ensures named { (self.new.stem ≡ self.old.stem) × (self.new.start ≡ self.old.start) ×
            (self.new.number ≡ self.old.number) }
        ensures ended { self.new.file ≡ None }
        ensures whole { J.tells → result ≡ Ok true
            → LiesThere J.File.Sink (J.contents journals.old) (J.contents journals.new) self.old }
        ensures over { OnOk result (result ≡ Ok false → self.old.file ≡ None) }
        ensures others { J.tells → TouchesOwn J.contents journals.old journals.new self.old.stem }
        ensures keeps { J.tells → OnErr result
            (KeepsWritten J.File.Sink (J.contents journals.old) (J.contents journals.new) self.old) }
        ensures calm { OnOk result (IsCalm J.own_faults J.object_faults journals.old journals.new) }
        ensures caused { OnErr result (IsCaused J.own_faults J.object_faults journals.old journals.new
            (numbered self.new.stem self.new.number)) }
    {
        let Some(file) = self.file.take() else {
            return Ok(false);
        };
        let Some(file) = write_pending(journals, file, &mut self.pending) else {
            return Err(RecordFault::Failed);
        };
        journals.done(file);
        Ok(true)
    }

    /// Whether it ended before its call.
    pub fn is_over(&self) -> bool
        ensures { result ≡ is_none self.now.file }
    {
        self.file.is_none()
    }

    /// The name of its last file, or of the one that could not be made.
    pub fn last_name(&self) -> Result<String, NoMemory>
        ensures { IfOk result (λ name. string_bytes name ≡ numbered self.now.stem self.now.number) }
    {
        file_name(self.alloc, self.stem.as_str(), self.number)
    }
}
