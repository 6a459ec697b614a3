//! Recordings end.
ghost use Rattle.std.specs.Prelude.{◌≡◌, [], true, All, None, Ok, IfSome, map};
ghost use Rattle.std.specs.Arc.{arc_value};
ghost use Rattle.recorded_links.specs.Calls.{IsEndOf, call_track};
ghost use Rattle.recorded_links.specs.Kept.{AreWhole, HasWhole, IsPlaceIn, IsWholeOf};
ghost use Rattle.recorded_links.specs.Ended.{HoldsAll};
ghost use Rattle.recorded_links.specs.Shelves.{IsNoteOf, IsTakeOf, hand, noted, taken};
ghost use Rattle.recorded_links.specs.Writing.{TouchesOwn};
ghost use Rattle.recorded_links.specs.Written.{HasTaken, HasTakenStill};
ghost use Rattle.recorded_links.specs.Recordings.{AllHave, HaveOwnNames, TouchesThese};

use crate::noter_places::NoterPlace;
use crate::noters::Noter;
use crate::passes::{NotePass, Shelf, TakePass};
use crate::tracks::{Track, note_each};
use crate::{Journals, Recorder};
use rtt_base::NoMemory;
use std::sync::Wait;

// The end at which all was noted of the recording of this number, where it is here, and nothing could not be noted.
fn whole_pass<R: Drop>(place: Option<NoterPlace<R>>, number: usize) -> Option<NotePass>
    ensures whole { IfSome result (λ pass. IsWholeOf place number pass) }
    ensures rests { IfSome result (λ pass. hand pass ≡ []) }
    ensures none_out { IfSome result (λ pass. pass.pass.me.1 ≡ []) }
{
    let Some(place) = place else {
        return None;
    };
    if place.number != number {
        return None;
    }
    let NoterPlace {
        number: _,
        port: _,
        way: _,
        given: _,
        noter,
    } = place;
    let Some(noter) = noter else {
        return None;
    };
    if noter.is_over() {
        return None;
    }
    Some(noter.into_pass())
}

// Has in a recording what waits on its shelf last: with it all that was noted.
fn note_last<J: Journals, R: Wait>(
    rt: &R,
    journals: &mut J,
    recorder: &mut Recorder<J>,
    shelf: &Shelf,
    note: NotePass,
    take: TakePass,
)
    requires of { IsNoteOf shelf.now note × IsTakeOf shelf.now take }
    requires rests { hand note ≡ [] }
    ensures named { (recorder.new.stem ≡ recorder.old.stem) × (recorder.new.start ≡ recorder.old.start) }
    ensures others { J.tells → TouchesOwn J.contents journals.old journals.new recorder.old.stem }
    ensures taken { J.tells → HasTakenStill J.File.Sink (J.contents journals.old) (J.contents journals.new) recorder.old recorder.new
        (taken take) (noted note) }
{
    let Some(batch) = shelf.take_last(rt, note, take) else {
        return;
    };
    note_each(recorder, journals, batch.notes(), batch.octets());
}

// Ends a recording, of which all was noted that was at this end. The answer is whether all of it is in its files.
fn end_whole<J: Journals, R: Wait>(
    rt: &R,
    journals: &mut J,
    track: Track<J>,
    note: NotePass,
) -> (bool, Recorder<J>)
    requires of { IsNoteOf (arc_value track.shelf) note }
    requires rests { hand note ≡ [] }
    ensures named { (result.1.stem ≡ track.recorder.stem) × (result.1.start ≡ track.recorder.start) }
    ensures others { J.tells → TouchesOwn J.contents journals.old journals.new track.recorder.stem }
    ensures whole { J.tells → HasTaken J.File.Sink (J.contents journals.old) track.recorder (taken track.pass) → result.0 ≡ true
        → HoldsAll track.recorder.stem track.recorder.start (J.contents journals.new) (noted note) }
{
    let Track {
        port: _,
        way: _,
        mut recorder,
        shelf,
        pass,
    } = track;
    note_last(rt, journals, &mut recorder, &shelf, note, pass);
    let whole = recorder.end(journals) == Ok(true);
    (whole, recorder)
}

// Ends a recording, of which something is missing.
fn end_broken<J: Journals>(journals: &mut J, track: Track<J>) -> Recorder<J>
    ensures { J.tells → TouchesOwn J.contents journals.old journals.new track.recorder.stem }
{
    let Track {
        port: _,
        way: _,
        mut recorder,
        shelf: _,
        pass: _,
    } = track;
    let _ended = recorder.end(journals);
    recorder
}

// Ends the recording of this number, whose noter's place this is. The answer is the name of its last file, where something is missing.
fn end_track<J: Journals, R: Wait + Drop>(
    rt: &R,
    journals: &mut J,
    track: Track<J>,
    place: Option<NoterPlace<R>>,
    number: usize,
) -> Result<Option<String>, NoMemory>
    requires { IfSome place (λ p. p.number ≡ number → IfSome p.noter (λ n. IsEndOf (arc_value track.shelf) n.pass)) }
    ensures others { J.tells → TouchesOwn J.contents journals.old journals.new track.recorder.stem }
    ensures whole { J.tells → HasTaken J.File.Sink (J.contents journals.old) track.recorder (taken track.pass) → result ≡ Ok None
        → HasWhole place number (HoldsAll track.recorder.stem track.recorder.start (J.contents journals.new)) }
{
    let Some(note) = whole_pass(place, number) else {
        let recorder = end_broken(journals, track);
        return Ok(Some(recorder.last_name()?));
    };
    let (whole, recorder) = end_whole(rt, journals, track, note);
    if whole {
        return Ok(None);
    }
    Ok(Some(recorder.last_name()?))
}

/// Ends recordings, whose noters' places these are. The answer is the name of a file of the first one of which something is missing.
pub(crate) fn end_all<J: Journals, R: Wait + Drop>(
    rt: &R,
    journals: &mut J,
    mut tracks: Vec<Track<J>>,
    mut places: Vec<NoterPlace<R>>,
) -> Result<Option<String>, NoMemory>
    requires { All (IsPlaceIn (map (λ t. call_track t.port t.way t.recorder.stem t.recorder.start (arc_value t.shelf)) tracks.items)) places.items }
    ensures others { J.tells → TouchesThese (map (λ t. call_track t.port t.way t.recorder.stem t.recorder.start (arc_value t.shelf)) tracks.items)
        (J.contents journals.old) (J.contents journals.new) }
    ensures whole { J.tells → result ≡ Ok None
        → HaveOwnNames (map (λ t. call_track t.port t.way t.recorder.stem t.recorder.start (arc_value t.shelf)) tracks.items)
        → AllHave J.File.Sink (J.contents journals.old) tracks.items (λ t. t.recorder) (λ t. taken t.pass)
        → AreWhole (map (λ t. call_track t.port t.way t.recorder.stem t.recorder.start (arc_value t.shelf)) tracks.items) places.items
        (J.contents journals.new) }
{
    let Some(track) = tracks.pop() else {
        return Ok(None);
    };
    let number = tracks.len();
    let place = places.pop();
    let last = end_track(rt, journals, track, place, number)?;
    let first = end_all(rt, journals, tracks, places)?;
    match first {
        Some(name) => Ok(Some(name)),
        None => Ok(last),
    }
}
