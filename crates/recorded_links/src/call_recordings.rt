//! The recordings of a call, as they are begun.
ghost use Rattle.std.specs.Prelude.{◌≡◌, ◌<◌, ◌^◌, false, All, length, map};
ghost use Rattle.std.proofs.Props.{props};
ghost use Rattle.std.specs.Arc.{arc_value};
ghost use Rattle.recorded_links.specs.Calls.{call_track};
ghost use Rattle.recorded_links.specs.Kept.{IsPlaceIn};
ghost use Rattle.recorded_links.specs.Recordings.{AllHave, AreThere, HaveOwnNames};
ghost use Rattle.recorded_links.specs.Shelves.{taken};

use crate::Journals;
use crate::backlogs::WaitingRecords;
use crate::noter_places::NoterPlace;
use crate::tracks::Track;
use std::alloc::Global;
use std::sync::Arc;
use std::sync::atomic::AtomicU64;

/// The recordings of a call as they are begun, in leg order, in before out: the first file of each was made. Over links they are opened
/// by [`RecordedLinks::open`](crate::RecordedLinks::open).
#[derive(Drop)]
pub struct CallRecording<J: Journals, R> {
    pub(crate) rt: R,
    pub(crate) alloc: Global,
    /// What the wall clock shows at moment 0 of the clock of the links (milliseconds since 1970).
    pub(crate) start: u64,
    /// How often what came is written (milliseconds).
    pub(crate) rest: u32,
    /// The last moment that the clock told.
    pub(crate) clock: Arc<AtomicU64, Global>,
    /// What waits to be written.
    pub(crate) waiting: Arc<WaitingRecords, Global>,
    pub(crate) journals: J,
    pub(crate) tracks: Vec<Track<J>>,
    /// Where who notes is.
    pub(crate) places: Vec<NoterPlace<R>>,
    ghost early: { start < 2 ^ 62 },
    ghost placed: { All (IsPlaceIn (map (λ t. call_track t.port t.way t.recorder.stem t.recorder.start (arc_value t.shelf)) tracks.items)) places.items } by { Prim.hlevel props },
    ghost fresh: { All (λ p. (p.given ≡ false) × (p.number < length tracks.items)) places.items } by { Prim.hlevel props },
    ghost apart: { J.tells → HaveOwnNames (map (λ t. call_track t.port t.way t.recorder.stem t.recorder.start (arc_value t.shelf)) tracks.items) },
    ghost there: { J.tells → AreThere (J.contents journals) (map (λ t. call_track t.port t.way t.recorder.stem t.recorder.start (arc_value t.shelf)) tracks.items) },
    ghost have: { J.tells → ∥ AllHave J.File.Sink (J.contents journals) tracks.items (λ t. t.recorder) (λ t. taken t.pass) ∥₁ },
}
