//! The recordings of a call, as they are written.
ghost use Rattle.std.specs.Prelude.{◌≡◌, [], IfSome, map, take, drop};
ghost use Rattle.std.specs.Arc.{arc_value};
ghost use Rattle.recorded_links.specs.Calls.{call_track};
ghost use Rattle.recorded_links.specs.Notes.{entries_in};
ghost use Rattle.recorded_links.specs.Shelves.{IsTakeOf, taken};
ghost use Rattle.recorded_links.specs.Writing.{TouchesOwn};
ghost use Rattle.recorded_links.specs.Written.{HasTakenStill, NotesAll};
ghost use Rattle.recorded_links.specs.Recordings.{AllHave, AllHaveStill, HaveOwnNames};

use crate::backlogs::{DueRecordings, WaitingRecords};
use crate::notes::Note;
use crate::passes::{Shelf, TakePass};
use crate::{Call, Journals, Recorder, Way};
use std::alloc::Global;
use std::marker::PhantomData;
use std::sync::{Arc, Wait};

/// A recording, and the shelf from which it is written.
#[derive(Drop)]
pub(crate) struct Track<J: Journals> {
    /// The port at which the link is opened of which it is.
    pub(crate) port: u16,
    pub(crate) way: Way,
    pub(crate) recorder: Recorder<J>,
    pub(crate) shelf: Arc<Shelf, Global>,
    pub(crate) pass: TakePass,
    ghost of: { IsTakeOf (arc_value shelf) pass },
}

/// The first octets, so many, and those behind them.
fn split_octets(octets: &[u8], len: usize) -> (&[u8], &[u8])
    ensures first { result.0.now ≡ take len octets.now }
    ensures behind { result.1.now ≡ drop len octets.now }
{
    octets.split_at(len.min(octets.len()))
}

/// Has the entries of these notes, whose octets lie one behind the other, in a recording.
pub(crate) fn note_each<J: Journals>(
    recorder: &mut Recorder<J>,
    journals: &mut J,
    notes: &[Note],
    octets: &[u8],
)
    ensures named { (recorder.new.stem ≡ recorder.old.stem) × (recorder.new.start ≡ recorder.old.start) }
    ensures others { J.tells → TouchesOwn J.contents journals.old journals.new recorder.old.stem }
    ensures notes { J.tells → NotesAll J.File.Sink (J.contents journals.old) (J.contents journals.new) recorder.old recorder.new
        (entries_in notes.now octets.now) }
{
    let mut rest = octets;
    for note in notes {
        let (octets, more) = split_octets(rest, note.len);
        let _ended = recorder.note(journals, note.at, octets);
        rest = more;
    }
}

impl<J: Journals> Track<J> {
    // Has what waits on its shelf in the recording.
    fn take_in<R: Wait>(&mut self, rt: &R, journals: &mut J, waiting: &WaitingRecords)
        ensures named { (self.new.recorder.stem ≡ self.old.recorder.stem) × (self.new.recorder.start ≡ self.old.recorder.start) }
        ensures same { (self.new.port ≡ self.old.port) × ((self.new.way ≡ self.old.way) × (arc_value self.new.shelf ≡ arc_value self.old.shelf)) }
        ensures others { J.tells → TouchesOwn J.contents journals.old journals.new self.old.recorder.stem }
        ensures taken { J.tells → HasTakenStill J.File.Sink (J.contents journals.old) (J.contents journals.new) self.old.recorder self.new.recorder
            (taken self.old.pass) (taken self.new.pass) }
    {
        let Some(batch) = self.shelf.take(rt, &mut self.pass) else {
            return;
        };
        note_each(&mut self.recorder, journals, batch.notes(), batch.octets());
        waiting.uncount(batch.size());
        self.shelf.give_back(rt, batch);
    }

    /// Writes what waits on its shelf.
    pub(crate) fn write<R: Wait>(&mut self, rt: &R, journals: &mut J, waiting: &WaitingRecords)
        ensures written { IfSome self.new.recorder.file (λ _. self.new.recorder.pending ≡ []) }
        ensures named { (self.new.recorder.stem ≡ self.old.recorder.stem) × (self.new.recorder.start ≡ self.old.recorder.start) }
        ensures same { (self.new.port ≡ self.old.port) × ((self.new.way ≡ self.old.way) × (arc_value self.new.shelf ≡ arc_value self.old.shelf)) }
        ensures others { J.tells → TouchesOwn J.contents journals.old journals.new self.old.recorder.stem }
        ensures taken { J.tells → HasTakenStill J.File.Sink (J.contents journals.old) (J.contents journals.new) self.old.recorder self.new.recorder
            (taken self.old.pass) (taken self.new.pass) }
    {
        self.take_in(rt, journals, waiting);
        let _ended = self.recorder.flush(journals);
    }

    /// Writes what waits on its shelf, where it is due. Of one that is not, nothing is read.
    pub(crate) fn write_in<R: Wait>(
        &mut self,
        rt: &R,
        journals: &mut J,
        waiting: &WaitingRecords,
        is_due: bool,
    )
        ensures named { (self.new.recorder.stem ≡ self.old.recorder.stem) × (self.new.recorder.start ≡ self.old.recorder.start) }
        ensures same { (self.new.port ≡ self.old.port) × ((self.new.way ≡ self.old.way) × (arc_value self.new.shelf ≡ arc_value self.old.shelf)) }
        ensures others { J.tells → TouchesOwn J.contents journals.old journals.new self.old.recorder.stem }
        ensures taken { J.tells → HasTakenStill J.File.Sink (J.contents journals.old) (J.contents journals.new) self.old.recorder self.new.recorder
            (taken self.old.pass) (taken self.new.pass) }
    {
        if is_due {
            self.write(rt, journals, waiting);
        }
    }
}

/// What is written in a round.
#[derive(Clone, Copy, Debug, PartialEq, Eq)]
pub(crate) enum Round {
    /// What was told to be due.
    Short,
    /// All that waits.
    Full,
}

impl Round {
    /// Whether the recording of this number is written in it, where these were told to be due.
    pub(crate) fn takes(self, number: usize, due: DueRecordings) -> bool {
        match self {
            Round::Short => due.has(number),
            Round::Full => true,
        }
    }
}

/// All recordings of a call, in leg order, in before out, and where their files are made.
#[derive(Drop)]
pub(crate) struct Tracks<J: Journals, C: Call> {
    pub(crate) journals: J,
    pub(crate) waiting: Arc<WaitingRecords, Global>,
    pub(crate) tracks: Vec<Track<J>>,
    pub(crate) of: PhantomData<C>,
    ghost are: { map (λ t. call_track t.port t.way t.recorder.stem t.recorder.start (arc_value t.shelf)) tracks.items ≡ C.recordings },
    ghost apart: { J.tells → HaveOwnNames C.recordings },
    ghost have: { J.tells → ∥ AllHave J.File.Sink (J.contents journals) tracks.items (λ t. t.recorder) (λ t. taken t.pass) ∥₁ },
}

/// Writes what waits in each of these recordings in turn that a round takes, where those were told to be due.
fn write_each<J: Journals, R: Wait>(
    rt: &R,
    journals: &mut J,
    waiting: &WaitingRecords,
    tracks: &mut Vec<Track<J>>,
    round: Round,
    due: DueRecordings,
)
    ensures same { map (λ t. call_track t.port t.way t.recorder.stem t.recorder.start (arc_value t.shelf)) tracks.new.items
        ≡ map (λ t. call_track t.port t.way t.recorder.stem t.recorder.start (arc_value t.shelf)) tracks.old.items }
    ensures have { J.tells → AllHaveStill J.File.Sink (J.contents journals.old) (J.contents journals.new) tracks.old.items tracks.new.items
        (λ t. t.recorder) (λ t. taken t.pass) }
{
    for number in 0..tracks.len() {
        let is_due = round.takes(number, due);
        let track = &mut tracks[number];
        track.write_in(rt, journals, waiting, is_due);
    }
}

impl<J: Journals, C: Call> Tracks<J, C> {
    /// Writes what waits in each recording in turn that this round takes.
    pub(crate) fn write<R: Wait>(&mut self, rt: &R, round: Round) {
        let due = self.waiting.due();
        write_each(
            rt,
            &mut self.journals,
            &self.waiting,
            &mut self.tracks,
            round,
            due,
        );
    }
}
