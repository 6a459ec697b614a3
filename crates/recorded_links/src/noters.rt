//! The end at which entries of a recording are noted.
ghost use Rattle.std.specs.Prelude.{◌≡◌, ◌<◌, ◌^◌, ℕ, false, [], ◌∷◌, ◌++◌, IfSome};
ghost use Rattle.std.specs.Arc.{arc_value};
ghost use Rattle.recorded_links.specs.Arrivals.{IsRepeat};
ghost use Rattle.recorded_links.specs.Calls.{IsSameEnd};
ghost use Rattle.recorded_links.specs.Places.{entry};
ghost use Rattle.recorded_links.specs.Rule.{noted_of};
ghost use Rattle.recorded_links.specs.Shelves.{IsNoteOf, hand, noted};

use crate::arrivals::PacketRun;
use crate::backlogs::WaitingRecords;
use crate::batches::entry_size;
use crate::passes::{NotePass, Shelf};
use rtt_base::limits::MOST_PACKET_OCTETS;
use std::alloc::Global;
use std::sync::atomic::{AtomicU64, Ordering};
use std::sync::{Arc, Wait};

/// The last moment that is noted (milliseconds).
const LAST_MOMENT: u64 = (1 << 48) - 1;

/// Where what was noted of a recording since it was told to be due counts for more octets, it is due.
const MOST_UNTOLD_OCTETS: u64 = 65_536;

/// The end at which entries of a recording are noted. Who notes never waits for who writes, nor for a file: where the batch on the shelf is
/// full, too much waits in the whole call, or memory runs out, nothing more is noted.
#[derive(Drop)]
pub(crate) struct Noter<R> {
    rt: R,
    alloc: Global,
    /// The number of its recording.
    pub(crate) number: usize,
    /// The packets that came last, where it is a recording of what comes.
    run: Option<PacketRun>,
    /// For how many octets what was noted counts since its recording was told to be due.
    untold: u64,
    /// The last moment that the clock of the links told.
    clock: Arc<AtomicU64, Global>,
    /// What waits in the whole call.
    waiting: Arc<WaitingRecords, Global>,
    shelf: Arc<Shelf, Global>,
    pass: NotePass,
    /// Something could not be noted.
    over: bool,
    ghost of: { IsNoteOf (arc_value shelf) pass },
    ghost rests: { over ≡ false → hand pass ≡ [] },
}

/// Whether octets may bring text that was not there before, behind the packets that came last, where these are known.
fn brings_text(run: &mut Option<PacketRun>, octets: &[u8]) -> bool
    ensures { result ≡ false → IfSome run.old (λ r. IsRepeat r octets.now) }
{
    match run {
        Some(run) => run.hear(octets),
        None => false,
    }
}

impl<R: Wait + Drop> Noter<R> {
    pub(crate) fn new(
        rt: R,
        alloc: Global,
        number: usize,
        run: Option<PacketRun>,
        clock: Arc<AtomicU64, Global>,
        waiting: Arc<WaitingRecords, Global>,
        shelf: Arc<Shelf, Global>,
        pass: NotePass,
    ) -> Noter<R>
        requires of { IsNoteOf (arc_value shelf) pass }
        requires rests { hand pass ≡ [] }
        ensures pass { result.pass ≡ pass }
        ensures number { result.number ≡ number }
        ensures none_over { result.over ≡ false }
    {
        Noter {
            rt,
            alloc,
            number,
            run,
            untold: 0,
            clock,
            waiting,
            shelf,
            pass,
            over: false,
        }
    }

    /// Notes octets at a moment, and tells that they are to be written soon where they may bring text that was not there before, or much
    /// waits. Nothing is noted where something could not be noted before, or more waits to be written than may.
    pub(crate) fn note(&mut self, at: u64, octets: &[u8])
        requires { at < 2 ^ 48 }
        ensures noted { self.new.over ≡ false → noted self.new.pass ≡ noted self.old.pass ++ noted_of (entry at octets.now) ∷ [] }
        ensures over { self.new.over ≡ false → self.old.over ≡ false }
        ensures same { (self.new.number ≡ self.old.number) × IsSameEnd self.old.pass self.new.pass }
    {
        if self.over {
            return;
        }
        let size = entry_size(octets);
        if octets.len() > MOST_PACKET_OCTETS || !self.waiting.count(size) {
            self.over = true;
            return;
        }
        let noted = self
            .shelf
            .note(&self.rt, self.alloc, &mut self.pass, at, octets);
        if noted.is_err() {
            self.waiting.uncount(size);
            self.over = true;
            return;
        }
        self.untold = self.untold.saturating_add(size);
        if brings_text(&mut self.run, octets) || self.untold > MOST_UNTOLD_OCTETS {
            self.waiting.tell(self.number);
            self.untold = 0;
        }
    }

    /// Notes octets at the last moment that the clock told.
    pub(crate) fn note_now(&mut self, octets: &[u8])
        ensures noted { self.new.over ≡ false → (at : ℕ) × (noted self.new.pass ≡ noted self.old.pass ++ noted_of (entry at octets.now) ∷ []) }
        ensures over { self.new.over ≡ false → self.old.over ≡ false }
        ensures same { (self.new.number ≡ self.old.number) × IsSameEnd self.old.pass self.new.pass }
    {
        let at = self.clock.load(Ordering::SeqCst).min(LAST_MOMENT);
        self.note(at, octets);
    }
}

impl<R: Drop> Noter<R> {
    /// Whether something could not be noted.
    pub(crate) fn is_over(&self) -> bool
        ensures { result ≡ self.now.over }
    {
        self.over
    }

    /// The end at which it noted.
    pub(crate) fn into_pass(self) -> NotePass
        ensures { result ≡ self.pass }
    {
        let Noter {
            rt: _,
            alloc: _,
            number: _,
            run: _,
            untold: _,
            clock: _,
            waiting: _,
            shelf: _,
            pass,
            over: _,
        } = self;
        pass
    }
}
