//! Links whose call is recorded are opened.
ghost use Rattle.std.specs.Prelude.{◌≡◌, ℕ, IfOk, length};
ghost use Rattle.recorded_links.specs.Begun.{recordings_of};

use crate::call_recordings::CallRecording;
use crate::tracks::{Track, Tracks};
use crate::writers::{StartFault, Writer};
use crate::{BeginFault, Call, Journals, RecordedLinks};
use link_io::Links;
use rtt_base::NoMemory;
use std::alloc::Global;
use std::marker::PhantomData;
use std::sync::Wait;
use std::thread::Threads;

/// The name of the first file of all, which nobody writes; no name where there is none.
fn first_name<J: Journals>(alloc: Global, tracks: &[Track<J>]) -> Result<String, NoMemory> {
    match tracks.first() {
        Some(track) => track.recorder.last_name(),
        None => Ok(String::new(alloc)),
    }
}

impl<
    L: Links + Drop,
    J: Journals + Drop + Send + 'static,
    R: Threads + Wait + Copy + Drop + Send + 'static,
    C: Call + Send + 'static,
> RecordedLinks<L, J, R, C>
where
    J::File: 'static,
{
    /// The links over these, which are recorded. `Failed` is that no thread can be started that writes; where nothing is recorded none is.
    pub fn open(
        recording: CallRecording<J, R>,
        links: L,
    ) -> Result<RecordedLinks<L, J, R, C>, BeginFault>
        requires recordings { C.recordings ≡ recordings_of recording }
        requires before { C.before ≡ length (L.leads links) }
        ensures leads { IfOk result (λ all. ⟦<RecordedLinks<L, J, R, C> as Links>⟧.leads all ≡ L.leads links) }
        ensures taken { IfOk result (λ all. (p : ℕ)
            → ⟦<RecordedLinks<L, J, R, C> as Links>⟧.taken_at all p ≡ L.taken_at links p) }
        ensures given { IfOk result (λ all. (p : ℕ)
            → ⟦<RecordedLinks<L, J, R, C> as Links>⟧.given_at all p ≡ L.given_at links p) }
        ensures own { IfOk result (λ all. (p : ℕ)
            → ⟦<RecordedLinks<L, J, R, C> as Links>⟧.own_faults all p ≡ L.own_faults links p) }
        ensures objects { IfOk result (λ all. (p : ℕ)
            → ⟦<RecordedLinks<L, J, R, C> as Links>⟧.object_faults all p ≡ L.object_faults links p) }
        ensures pauses { IfOk result (λ all. ⟦<RecordedLinks<L, J, R, C> as Links>⟧.pauses all ≡ L.pauses links) }
    {
        let CallRecording {
            rt,
            alloc,
            start: _,
            rest,
            clock,
            waiting,
            journals,
            tracks,
            places,
        } = recording;
        let Ok(name) = first_name(alloc, &tracks) else {
            return Err(BeginFault::NoMemory);
        };
        let is_nothing = tracks.is_empty();
        let tracks = Tracks {
            journals,
            waiting,
            tracks,
            of: PhantomData,
        };
        if is_nothing {
            let writer = Writer::Nobody(tracks);
            return Ok(RecordedLinks::over(rt, links, clock, places, writer));
        }
        match Writer::start(rt, alloc, tracks, rest) {
            Ok(writer) => Ok(RecordedLinks::over(rt, links, clock, places, writer)),
            Err(StartFault::NoThread) => Err(BeginFault::Failed(name)),
            Err(StartFault::NoMemory) => Err(BeginFault::NoMemory),
        }
    }
}
