//! Links that are recorded.
ghost use Rattle.std.specs.Prelude.{◌≡◌, ℕ, All, None, Ok};
ghost use Rattle.std.proofs.Props.{props};
ghost use Rattle.recorded_links.specs.Ended.{AreRecorded};
ghost use Rattle.recorded_links.specs.Kept.{IsKept, IsPlaceIn};

use crate::endings::end_all;
use crate::ends::{RecordedIn, RecordedOut};
use crate::handovers::{give_out, take_back};
use crate::noter_places::NoterPlace;
use crate::tracks::Tracks;
use crate::writers::Writer;
use crate::{Call, Journals, Way};
use link_io::{Beat, Links};
use rtt_base::{Failed, NoMemory};
use std::alloc::Global;
use std::sync::atomic::{AtomicU64, Ordering};
use std::sync::{Arc, Wait};
use std::thread::Threads;

/// Links over others, of which what comes and what is given is recorded: of the link that is opened at the port of a leg by the
/// recordings of the leg. Files are written by a thread of their own, so that no call waits for a disk. All else is as below.
#[derive(Drop)]
pub struct RecordedLinks<L: Links, J: Journals, R, C: Call> {
    rt: R,
    links: L,
    /// The last moment that the clock told.
    clock: Arc<AtomicU64, Global>,
    /// Where who notes is, in leg order, in before out.
    places: Vec<NoterPlace<R>>,
    writer: Writer<J, C>,
    ghost placed: { All (IsPlaceIn C.recordings) places.items } by { Prim.hlevel props },
    ghost kept: { L.tells → All (IsKept (L.In.tells × L.Out.tells) (L.opened links) C.before (L.leads links) (L.taken_at links) (L.given_at links)) places.items } by { Prim.hlevel props },
}

/// What is left of links that were recorded.
#[derive(Drop)]
pub struct LinksReturn<L, J> {
    pub links: L,
    pub journals: J,
    /// The name of the first file, in leg order, in before out, that could not be written to its end, or of which something is missing.
    pub failed: Result<Option<String>, NoMemory>,
}

impl<
    L: Links,
    J: Journals + Drop + Send + 'static,
    R: Threads + Wait + Drop + Send,
    C: Call + Send + 'static,
> RecordedLinks<L, J, R, C>
where
    J::File: 'static,
{
    pub(crate) fn over(
        rt: R,
        links: L,
        clock: Arc<AtomicU64, Global>,
        places: Vec<NoterPlace<R>>,
        writer: Writer<J, C>,
    ) -> RecordedLinks<L, J, R, C>
        requires placed { All (IsPlaceIn C.recordings) places.items }
        requires kept { L.tells → All (IsKept (L.In.tells × L.Out.tells) (L.opened links) C.before (L.leads links) (L.taken_at links) (L.given_at links)) places.items }
        ensures { result.links ≡ links }
    {
        RecordedLinks {
            rt,
            links,
            clock,
            places,
            writer,
        }
    }

    /// Ends the recordings: all that was noted is written.
    pub fn finish(self) -> LinksReturn<L, J>
        ensures leads { ⟦<RecordedLinks<L, J, R, C> as Links>⟧.leads self ≡ L.leads result.links }
        ensures taken { (p : ℕ) → ⟦<RecordedLinks<L, J, R, C> as Links>⟧.taken_at self p ≡ L.taken_at result.links p }
        ensures given { (p : ℕ) → ⟦<RecordedLinks<L, J, R, C> as Links>⟧.given_at self p ≡ L.given_at result.links p }
        ensures own { (p : ℕ) → ⟦<RecordedLinks<L, J, R, C> as Links>⟧.own_faults self p ≡ L.own_faults result.links p }
        ensures objects { (p : ℕ) → ⟦<RecordedLinks<L, J, R, C> as Links>⟧.object_faults self p
            ≡ L.object_faults result.links p }
        ensures pauses { ⟦<RecordedLinks<L, J, R, C> as Links>⟧.pauses self ≡ L.pauses result.links }
        ensures recorded { J.tells → L.tells → result.failed ≡ Ok None
            → ∥ AreRecorded C.recordings C.before (L.leads result.links) (L.taken_at result.links)
            (L.given_at result.links)
            (J.contents result.journals) ∥₁ }
    {
        let RecordedLinks {
            rt,
            links,
            clock: _,
            places,
            writer,
        } = self;
        let Tracks {
            mut journals,
            waiting: _,
            tracks,
            of: _,
        } = writer.finish(&rt);
        let failed = end_all(&rt, &mut journals, tracks, places);
        LinksReturn {
            links,
            journals,
            failed,
        }
    }
}

impl<L: Links, J: Journals, R: Wait + Drop + Send, C: Call + Send> Links
    for RecordedLinks<L, J, R, C> {
    type In = RecordedIn<L::In, R, C>;

    type Out = RecordedOut<L::Out, R, C>;

    type Clock = L::Clock;

    ghost tells = { L.tells };

    ghost opened = { λ all. L.opened all.links };

    ghost leads = { λ all. L.leads all.links };

    ghost taken_at = { λ all. L.taken_at all.links };

    ghost given_at = { λ all. L.given_at all.links };

    ghost own_faults = { λ all. L.own_faults all.links };

    ghost object_faults = { λ all. L.object_faults all.links };

    ghost moment = { λ all. L.moment all.links };

    ghost pauses = { λ all. L.pauses all.links };

    fn link(
        &mut self,
        port: u16,
        to: &str,
    ) -> Result<(RecordedIn<L::In, R, C>, RecordedOut<L::Out, R, C>), Failed> {
        let Ok((inbound, outbound)) = self.links.link(port, to) else {
            return Err(Failed);
        };
        let (notes_in, notes_out) = give_out(self.places.as_mut_slice(), port);
        Ok((
            RecordedIn::new(inbound, port, notes_in),
            RecordedOut::new(outbound, port, notes_out),
        ))
    }

    fn done_in(&mut self, link: RecordedIn<L::In, R, C>) {
        let (link, port, noter) = link.into_parts();
        take_back(self.places.as_mut_slice(), port, Way::In, noter);
        self.links.done_in(link);
    }

    fn done_out(&mut self, link: RecordedOut<L::Out, R, C>) {
        let (link, port, noter) = link.into_parts();
        take_back(self.places.as_mut_slice(), port, Way::Out, noter);
        self.links.done_out(link);
    }

    fn now(&mut self) -> u64 {
        let moment = self.links.now();
        self.clock.store(moment, Ordering::SeqCst);
        moment
    }

    fn beat(&self) -> Beat<'_, L::Clock> {
        self.links.beat()
    }

    fn pause_until(&mut self, until: u64) {
        self.links.pause_until(until);
        let moment = self.links.now();
        self.clock.store(moment, Ordering::SeqCst);
    }
}
