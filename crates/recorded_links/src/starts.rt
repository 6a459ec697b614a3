//! The recordings of a call are begun.
ghost use Rattle.std.specs.Prelude.{◌≡◌, ◌≢◌, ◌<◌, ◌^◌, ◌++◌, ◌∷◌, [], None, IfOk, OnOk, map, string_bytes};
ghost use Rattle.std.specs.Arc.{arc_value};
ghost use Rattle.recorded_links.specs.Begun.{begun_at, names_of, recordings_of};
ghost use Rattle.recorded_links.specs.Calls.{IsEndOf, leg_named, leg_port, legs_named};
ghost use Rattle.recorded_links.specs.Names.{numbered};
ghost use Rattle.recorded_links.specs.Recordings.{last_of};
ghost use Rattle.recorded_links.specs.Shelves.{noted, taken};
ghost use Rattle.recorded_links.specs.Writing.{TouchesOwn};
ghost use Rattle.recorded_links.specs.Written.{HasTaken};

use crate::arrivals::PacketRun;
use crate::backlogs::WaitingRecords;
use crate::call_recordings::CallRecording;
use crate::noter_places::NoterPlace;
use crate::noters::Noter;
use crate::passes::Shelf;
use crate::tracks::Track;
use crate::{Journals, RecordFault, Recorder, Way, file_name, stem_of};
use file_spec::LegLine;
use link_io::Links;
use rtt_base::{NoMemory, PayloadTypes};
use script_text::number_from;
use std::alloc::Global;
use std::sync::atomic::AtomicU64;
use std::sync::{Arc, Wait};
use std::time::Clock;

/// Why the recordings of a call could not be begun.
#[derive(Debug, Drop)]
pub enum BeginFault {
    /// The file of this name could not be made: something is under the name, or the system does not make it, or starts no thread that
    /// writes.
    Failed(String),
    NoMemory,
}

/// The last moment of a wall clock that is told (milliseconds since 1970).
const LAST_WALL: u64 = (1 << 62) - 1;

/// What a wall clock shows (milliseconds since 1970); 0 where it can't be read.
fn wall<R: Clock>(rt: &R) -> u64 {
    match rt.since_1970() {
        Ok(time) => time.as_millis().min(u128::from(LAST_WALL)) as u64,
        Err(_) => 0,
    }
}

/// What the wall clock shows at moment 0 of the clock of these links (milliseconds since 1970).
pub fn start_of<R: Clock, L: Links>(rt: &R, links: &mut L) -> u64 {
    wall(rt).saturating_sub(links.now())
}

/// Makes the first file of a recording.
fn begin_recorder<J: Journals>(
    journals: &mut J,
    alloc: Global,
    stem: String,
    start: u64,
) -> Result<Recorder<J>, BeginFault>
    requires { start < 2 ^ 62 }
    ensures named { IfOk result (λ r. (r.stem ≡ string_bytes stem) × (r.start ≡ start)) }
    ensures has { J.tells → IfOk result (λ r. HasTaken J.File.Sink (J.contents journals.new) r []) }
    ensures was_free { J.tells → OnOk result (J.contents journals.old (numbered (string_bytes stem) 1) ≡ None) }
    ensures there { J.tells → OnOk result (J.contents journals.new (numbered (string_bytes stem) 1) ≢ None) }
    ensures others { J.tells → TouchesOwn J.contents journals.old journals.new (string_bytes stem) }
{
    let Ok(name) = file_name(alloc, stem.as_str(), 1) else {
        return Err(BeginFault::NoMemory);
    };
    match Recorder::begin(journals, alloc, stem, start) {
        Ok(recorder) => Ok(recorder),
        Err(RecordFault::Failed) => Err(BeginFault::Failed(name)),
        Err(RecordFault::NoMemory) => Err(BeginFault::NoMemory),
    }
}

/// Begins the recording of a leg in one way: makes its first file, and has who writes and who notes.
pub(crate) fn begin_track<J: Journals, R: Wait + Copy + Drop>(
    rt: R,
    alloc: Global,
    journals: &mut J,
    port: u16,
    way: Way,
    stem: String,
    start: u64,
    number: usize,
    payload_types: PayloadTypes,
    clock: &Arc<AtomicU64, Global>,
    waiting: &Arc<WaitingRecords, Global>,
) -> Result<(Track<J>, Noter<R>), BeginFault>
    requires { start < 2 ^ 62 }
    ensures fresh { IfOk result (λ made. (noted made.1.pass ≡ []) × (taken made.0.pass ≡ [])) }
    ensures number { IfOk result (λ made. made.1.number ≡ number) }
    ensures ends { IfOk result (λ made. IsEndOf (arc_value made.0.shelf) made.1.pass) }
    ensures of { IfOk result (λ made. (made.0.port ≡ port) × (made.0.way ≡ way)) }
    ensures named { IfOk result (λ made. (made.0.recorder.stem ≡ string_bytes stem) × (made.0.recorder.start ≡ start)) }
    ensures has { J.tells → IfOk result (λ made. HasTaken J.File.Sink (J.contents journals.new) made.0.recorder []) }
    ensures was_free { J.tells → OnOk result (J.contents journals.old (numbered (string_bytes stem) 1) ≡ None) }
    ensures there { J.tells → OnOk result (J.contents journals.new (numbered (string_bytes stem) 1) ≢ None) }
    ensures others { J.tells → TouchesOwn J.contents journals.old journals.new (string_bytes stem) }
{
    let Ok((shelf, note, take)) = Shelf::new(alloc) else {
        return Err(BeginFault::NoMemory);
    };
    let Ok(shelf) = Arc::new(alloc, shelf) else {
        return Err(BeginFault::NoMemory);
    };
    let (Ok(theirs), Ok(clock)) = (Arc::try_clone(&shelf), Arc::try_clone(clock)) else {
        return Err(BeginFault::NoMemory);
    };
    let Ok(waiting) = Arc::try_clone(waiting) else {
        return Err(BeginFault::NoMemory);
    };
    let recorder = begin_recorder(journals, alloc, stem, start)?;
    let track = Track {
        port,
        way,
        recorder,
        shelf: theirs,
        pass: take,
    };
    let run = match way {
        Way::In => Some(PacketRun::new(payload_types)),
        Way::Out => None,
    };
    let noter = Noter::new(rt, alloc, number, run, clock, waiting, shelf, note);
    Ok((track, noter))
}

/// The port at which the link of a leg is opened; 0 where it has none.
fn port_of(leg: &LegLine) -> u16
    ensures { result ≡ leg_port leg.now }
{
    match number_from(leg.input.as_str(), 1, 65_535) {
        Some(port) => port as u16,
        None => 0,
    }
}

impl<J: Journals + Drop, R: Wait + Copy + Drop> CallRecording<J, R> {
    // No recording is begun yet.
    fn with_none(
        rt: R,
        alloc: Global,
        journals: J,
        start: u64,
        rest: u32,
    ) -> Result<CallRecording<J, R>, NoMemory>
        requires { start < 2 ^ 62 }
        ensures none { IfOk result (λ c. recordings_of c ≡ []) }
        ensures start { IfOk result (λ c. c.start ≡ start) }
    {
        let clock = Arc::new(alloc, AtomicU64::new(0))?;
        let waiting = Arc::new(alloc, WaitingRecords::new())?;
        Ok(CallRecording {
            rt,
            alloc,
            start,
            rest,
            clock,
            waiting,
            journals,
            tracks: Vec::new(alloc),
            places: Vec::new(alloc),
        })
    }

    // One recording more is begun, whose files have names that begin so.
    fn with_track(
        self,
        port: u16,
        way: Way,
        stem: String,
        payload_types: PayloadTypes,
    ) -> Result<CallRecording<J, R>, BeginFault>
        requires { last_of (string_bytes stem) ≡ 46 }
        ensures names { IfOk result (λ c. names_of c ≡ names_of self ++ (port, way, string_bytes stem, self.start) ∷ []) }
        ensures start { IfOk result (λ c. c.start ≡ self.start) }
    {
        let CallRecording {
            rt,
            alloc,
            start,
            rest,
            clock,
            waiting,
            mut journals,
            mut tracks,
            mut places,
        } = self;
        let number = tracks.len();
        let (track, noter) = begin_track(
            rt,
            alloc,
            &mut journals,
            port,
            way,
            stem,
            start,
            number,
            payload_types,
            &clock,
            &waiting,
        )?;
        let place = NoterPlace {
            number,
            port,
            way,
            given: false,
            noter: Some(noter),
        };
        let Ok(()) = places.push(place) else {
            return Err(BeginFault::NoMemory);
        };
        let Ok(()) = tracks.push(track) else {
            return Err(BeginFault::NoMemory);
        };
        Ok(CallRecording {
            rt,
            alloc,
            start,
            rest,
            clock,
            waiting,
            journals,
            tracks,
            places,
        })
    }

    // Both recordings of a leg are begun.
    fn with_leg(self, prefix: &str, leg: &LegLine) -> Result<CallRecording<J, R>, BeginFault>
        ensures names { IfOk result (λ c. names_of c ≡ names_of self ++ leg_named prefix.now self.start leg.now) }
        ensures start { IfOk result (λ c. c.start ≡ self.start) }
    {
        let alloc = self.alloc;
        let port = port_of(leg);
        let Ok(came) = stem_of(alloc, prefix, leg.name.as_str(), Way::In) else {
            return Err(BeginFault::NoMemory);
        };
        let Ok(went) = stem_of(alloc, prefix, leg.name.as_str(), Way::Out) else {
            return Err(BeginFault::NoMemory);
        };
        let more = self.with_track(port, Way::In, came, leg.payload_types)?;
        more.with_track(port, Way::Out, went, leg.payload_types)
    }

    // Those of each leg.
    fn with_legs(self, prefix: &str, legs: &[LegLine]) -> Result<CallRecording<J, R>, BeginFault>
        ensures { IfOk result (λ c. names_of c ≡ names_of self ++ legs_named prefix.now self.start legs.now) }
    {
        match legs {
            [leg, rest @ ..] => {
                let more = self.with_leg(prefix, leg)?;
                more.with_legs(prefix, rest)
            }
            [] => Ok(self),
        }
    }

    /// Nothing is recorded.
    pub fn nothing(rt: R, alloc: Global, journals: J) -> Result<CallRecording<J, R>, NoMemory>
        ensures { IfOk result (λ c. recordings_of c ≡ []) }
    {
        CallRecording::with_none(rt, alloc, journals, 0, 0)
    }

    /// Of each leg `PREFIX.NAME.in.1.rtp` and `PREFIX.NAME.out.1.rtp` are recordings, and what follows them. It makes the first file of
    /// each, in leg order, in before out; what is there is never written over. `start` is what the wall clock shows at moment 0 of the
    /// clock of the links, in milliseconds since 1970. What may bring new text of a leg is written once a `tick` (milliseconds), at most
    /// 100, and all else each five seconds. Where a file can't be made those that were made stay.
    pub fn begin(
        rt: R,
        alloc: Global,
        journals: J,
        prefix: &str,
        legs: &[LegLine],
        start: u64,
        tick: u32,
    ) -> Result<CallRecording<J, R>, BeginFault>
        ensures { IfOk result (λ c. names_of c ≡ legs_named prefix.now (begun_at start) legs.now) }
    {
        match CallRecording::with_none(rt, alloc, journals, start.min(LAST_WALL), tick) {
            Ok(none) => none.with_legs(prefix, legs),
            Err(NoMemory) => Err(BeginFault::NoMemory),
        }
    }
}
