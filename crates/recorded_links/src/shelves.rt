//! Where what was noted waits to be written.
ghost use Rattle.std.specs.Prelude.{◌≡◌, ◌≤◌, ◌<◌, ◌^◌, [], ◌∷◌, ◌++◌, drop, length, IfOk, OnOk, OnErr};
ghost use Rattle.rtt_base.specs.declared.limits.TheConstants.{MOST_PACKET_OCTETS};
ghost use Rattle.recorded_links.specs.Places.{entry};
ghost use Rattle.recorded_links.specs.Rule.{entries_of, noted_of};
ghost use Rattle.recorded_links.specs.Shelves.{BeginsWith, IsNoteOf, IsTakeOf, entries_if, hand, noted, taken};

use crate::batches::{Batch, SpareBatch};
use crate::passes::{NotePass, Shelf, TakePass};
use crate::rule::{BothEnds, LastRule, LayRule, LiftRule, RuledShelf, TakeRule};
use crossbeam_queue::ArrayQueue;
use rtt_base::NoMemory;
use std::alloc::Global;
use std::sync::Wait;

impl Shelf {
    /// A shelf on which nothing lies, and its two ends. It takes all memory that it ever needs.
    pub(crate) fn new(alloc: Global) -> Result<(Shelf, NotePass, TakePass), NoMemory>
        ensures ends { IfOk result (λ s. IsNoteOf s.0 s.1 × IsTakeOf s.0 s.2) }
        ensures empty { IfOk result (λ s. (noted s.1 ≡ []) × (hand s.1 ≡ []) × (taken s.2 ≡ [])) }
    {
        let Ok((line, mut note)) = RuledShelf::ruled(alloc, 1) else {
            return Err(NoMemory);
        };
        let take = line.another::<BothEnds>(&mut note);
        let Ok(spare) = ArrayQueue::new(alloc, 1) else {
            return Err(NoMemory);
        };
        Ok((
            Shelf { line, spare },
            NotePass { pass: note },
            TakePass { pass: take },
        ))
    }

    // Lifts what lies there into the hand, to lay it down again with more.
    fn lift<R: Wait>(&self, rt: &R, pass: &mut NotePass) -> Option<Batch>
        requires { IsNoteOf self.now pass.old }
        ensures of { IsNoteOf self.now pass.new }
        ensures noted { noted pass.new ≡ noted pass.old }
        ensures hand { hand pass.new ≡ entries_if result ++ hand pass.old }
    {
        self.line.pop_as::<LiftRule, R>(rt, &mut pass.pass)
    }

    // Lays a batch down that begins with what is in hand: what goes on there is noted. Or gives it back; that it does so only where
    // something lies there is tested.
    fn lay<R: Wait>(&self, rt: &R, pass: &mut NotePass, batch: Batch) -> Result<(), Batch>
        requires of { IsNoteOf self.now pass.old }
        requires begins { BeginsWith (hand pass.old) batch }
        ensures of { IsNoteOf self.now pass.new }
        ensures ok { OnOk result (noted pass.new ≡ noted pass.old ++ drop (length (hand pass.old)) (entries_of batch)) }
        ensures empty { OnOk result (hand pass.new ≡ []) }
        ensures err { OnErr result (noted pass.new ≡ noted pass.old) }
    {
        self.line.push_as::<LayRule, R>(rt, &mut pass.pass, batch)
    }

    // A batch in which nothing was noted, with memory to be used again if there is some.
    fn empty_batch<R: Wait>(&self, rt: &R, alloc: Global) -> Batch
        ensures { entries_of result ≡ [] }
    {
        match self.spare.pop(rt) {
            Some(SpareBatch { batch }) => batch,
            None => Batch::empty(alloc),
        }
    }

    /// Gives back a batch that was written, whose memory is to be used again.
    pub(crate) fn give_back<R: Wait>(&self, rt: &R, batch: Batch) {
        if let Some(spare) = batch.into_spare() {
            let _room = self.spare.push(rt, spare);
        }
    }

    // What lies there, which is in hand then, or an empty batch.
    fn lift_or_empty<R: Wait>(&self, rt: &R, alloc: Global, pass: &mut NotePass) -> Batch
        requires of { IsNoteOf self.now pass.old }
        requires rests { hand pass.old ≡ [] }
        ensures of { IsNoteOf self.now pass.new }
        ensures noted { noted pass.new ≡ noted pass.old }
        ensures hand { hand pass.new ≡ entries_of result }
    {
        match self.lift(rt, pass) {
            Some(batch) => batch,
            None => self.empty_batch(rt, alloc),
        }
    }

    /// Notes octets at a moment (milliseconds): they lie there, behind all that lay there. After `NoMemory`, which also says that there is no
    /// room, they do not, and the hand may not be empty any more.
    pub(crate) fn note<R: Wait>(
        &self,
        rt: &R,
        alloc: Global,
        pass: &mut NotePass,
        at: u64,
        octets: &[u8],
    ) -> Result<(), NoMemory>
        requires of { IsNoteOf self.now pass.old }
        requires rests { hand pass.old ≡ [] }
        requires few { length octets.now ≤ MOST_PACKET_OCTETS }
        requires early { at < 2 ^ 63 }
        ensures of { IsNoteOf self.now pass.new }
        ensures ok { OnOk result (noted pass.new ≡ noted pass.old ++ noted_of (entry at octets.now) ∷ []) }
        ensures rests { OnOk result (hand pass.new ≡ []) }
    {
        let mut batch = self.lift_or_empty(rt, alloc, pass);
        let Ok(()) = batch.add(at, octets) else {
            let _laid = self.lay(rt, pass, batch);
            return Err(NoMemory);
        };
        match self.lay(rt, pass, batch) {
            Ok(()) => Ok(()),
            Err(_) => Err(NoMemory),
        }
    }

    /// Takes away what lies there.
    pub(crate) fn take<R: Wait>(&self, rt: &R, pass: &mut TakePass) -> Option<Batch>
        requires { IsTakeOf self.now pass.old }
        ensures of { IsTakeOf self.now pass.new }
        ensures taken { taken pass.new ≡ taken pass.old ++ entries_if result }
    {
        self.line.pop_as::<TakeRule, R>(rt, &mut pass.pass)
    }

    /// Takes away what lies there last, and uses both ends up: with it all that was noted was taken away but for what is in hand.
    pub(crate) fn take_last<R: Wait>(&self, rt: &R, note: NotePass, take: TakePass) -> Option<Batch>
        requires { IsNoteOf self.now note × IsTakeOf self.now take }
        ensures { noted note ≡ (taken take ++ entries_if result) ++ hand note }
    {
        let NotePass { pass } = note;
        let mut all = pass;
        let TakePass { pass: other } = take;
        self.line.absorb::<BothEnds>(&mut all, other);
        self.line.pop_as::<LastRule, R>(rt, &mut all)
    }
}
