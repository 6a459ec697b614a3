//! What a leg gives next.
ghost use Rattle.std.specs.Prelude.{◌≡◌, ◌≤◌, ◌<◌, true, false, None, [], ◌∷◌, IfOk, IfErr, IfSome, OnOk};
ghost use Rattle.rtt_base.specs.declared.limits.TheConstants.{LONGEST_WAIT, MOST_ARRIVALS};
ghost use Rattle.stream_spec.specs.Hearing.{marker};
ghost use Rattle.stream_spec.specs.Ready.{chunk as heard_chunk, chunk_of};
ghost use Rattle.live_spec.specs.Told.{ready_until};
ghost use Rattle.live_leg.specs.Stepping.{seen_as};
ghost use Rattle.receiver.specs.Cuts.{is_cut};
ghost use Rattle.receiver.specs.Hears.{arrival_count};
ghost use Rattle.live_leg.specs.Items.{Item, items_with};
ghost use Rattle.live_leg.specs.Stands.{GetsOn, GivesOf, GivesThen, LegStands, Listens};
ghost use Rattle.live_leg.specs.States.{is_giving, is_heard, is_over, is_parting};
ghost use Rattle.live_leg.specs.Texts.{HasText};

use crate::arrivals::Arrivals;
use crate::kinds::ItemKind;
use crate::legs::Leg;
use crate::senders::Senders;
use crate::settings::LegSettings;
use crate::states::State;
use crate::takes::{begin_with, hear_taken};
use crate::tallies::LegTally;
use receiver::Ear;
use rtt_base::limits::MOST_ARRIVALS;
use rtt_base::{Chunk, Packet};
use std::alloc::Global;

/// U+FFFD, which stands where text may be missing (T.140, Addendum 1).
const MARKER: [u8; 3] = [0xEF, 0xBF, 0xBD];

/// Puts a marker that is ready at this moment in place of what is in `chunk`.
fn write_marker(chunk: &mut Chunk, ready: u64)
    ensures { chunk_of chunk.new ≡ heard_chunk 0 ready marker }
{
    chunk.source = 0;
    chunk.ready = ready;
    chunk.text.clear();
    let _ = chunk.text.append(&MARKER);
}

/// Lets what is in `chunk` be ready at this moment at the latest: nothing is waited for beyond it.
fn hasten(chunk: &mut Chunk, moment: u64)
    ensures { chunk_of chunk.new ≡ ready_until moment (chunk_of chunk.old) }
{
    chunk.ready = chunk.ready.min(moment);
}

/// How it is said that all was given which is ready by what came, where a leg is so far.
fn seen_as<F>(state: State) -> ItemKind<F>
    ensures { result ≡ seen_as state }
{
    match state {
        State::Blank => ItemKind::Silent,
        _ => ItemKind::Seen,
    }
}

impl<A: Arrivals> Leg<A> {
    /// A leg of which nothing was heard, whose keep-alives (U+FEFF alone) are passed over. It takes all memory that it needs; where
    /// there is not enough, the arrivals come back.
    pub fn new(alloc: Global, arrivals: A, settings: LegSettings) -> Result<Leg<A>, A>
        requires wait { settings.ear.wait ≤ LONGEST_WAIT }
        requires cut { is_cut settings.ear.cut ≡ true }
        requires begins { A.Arrivals.came arrivals arrivals [] }
        ensures settings { IfOk result (λ leg. leg.settings ≡ settings) }
        ensures arrivals { IfOk result (λ leg. leg.arrivals ≡ arrivals) }
        ensures open { IfOk result (λ leg. is_over leg.state ≡ false) }
        ensures stands { IfOk result (λ leg. LegStands A.Arrivals leg leg []) }
        ensures lost { IfErr result (λ back. back ≡ arrivals) }
    {
        let Ok(ear) = Ear::new(alloc, settings.ear, &[settings.ear.ssrc]) else {
            return Err(arrivals);
        };
        let Ok(senders) = Senders::new(alloc, settings) else {
            return Err(arrivals);
        };
        let Ok(packet) = Box::new(alloc, Packet::new()) else {
            return Err(arrivals);
        };
        Ok(Leg {
            settings,
            ear,
            senders,
            tally: LegTally::new(),
            arrivals,
            packet,
            state: State::Idle,
            at: 0,
        })
    }

    /// What came so far, counted.
    pub fn tally(&self) -> LegTally
        ensures { result ≡ self.now.tally }
    {
        self.tally
    }

    /// Where its packets come from, as far as it was taken from.
    pub fn into_arrivals(self) -> A
        ensures { result ≡ self.arrivals }
    {
        let Leg {
            settings: _,
            ear: _,
            senders: _,
            tally: _,
            arrivals,
            packet: _,
            state: _,
            at: _,
        } = self;
        arrivals
    }

    /// Takes what comes, and tells the ear. Where nothing more comes, and it is not closed, the leg is over.
    fn listen(&mut self) -> Result<(), A::Fault>
        requires idle { self.old.state ≡ State.Idle }
        requires few { arrival_count self.old.ear < MOST_ARRIVALS }
        ensures ok { OnOk result (Listens A.Arrivals self.old self.new) }
        ensures giving { OnOk result (is_giving self.new.state ≡ true) }
        ensures err { IfErr result (λ fault. GivesThen A.Arrivals self.old self.new (Item.Fault fault ∷ [])) }
    {
        match self.arrivals.take(&mut self.packet) {
            Ok(taken) => {
                let octets = self.packet.as_slice();
                self.state = hear_taken(
                    &mut self.ear,
                    &mut self.senders,
                    &mut self.tally,
                    taken,
                    octets,
                );
                self.at = taken.at;
                Ok(())
            }
            Err(fault) => {
                self.state = State::Over;
                Err(fault)
            }
        }
    }

    /// Puts the next text that is ready in place of what is in `chunk`, or says that this was all.
    fn give_ready(&mut self, chunk: &mut Chunk) -> Option<ItemKind<A::Fault>>
        requires { is_heard self.old.state ≡ true }
        ensures gives { GivesOf A.Arrivals self.old self.new (items_with result (chunk_of chunk.new)) }
        ensures text { IfSome result (λ kind. HasText kind (chunk_of chunk.new)) }
        ensures later { result ≡ None → is_giving self.new.state ≡ true }
    {
        if self.ear.next(chunk) {
            return Some(ItemKind::Text);
        }
        if self.state.is_ending() {
            self.state = State::Over;
            return Some(ItemKind::End);
        }
        let said = seen_as(self.state);
        self.state = State::Idle;
        Some(said)
    }

    /// Puts the next text of the sender before in place of what is in `chunk`. All of it is ready when the other took over at the
    /// latest. Where this was all it is a marker: what was lost with that one nobody knows. The ear begins anew with the other.
    fn part(&mut self, chunk: &mut Chunk) -> Option<ItemKind<A::Fault>>
        requires { self.old.state ≡ State.Parting }
        ensures gives { GivesOf A.Arrivals self.old self.new (items_with result (chunk_of chunk.new)) }
        ensures text { IfSome result (λ kind. HasText kind (chunk_of chunk.new)) }
        ensures later { result ≡ None → is_giving self.new.state ≡ true }
    {
        if self.ear.next(chunk) {
            hasten(chunk, self.senders.moment());
            return Some(ItemKind::Text);
        }
        let moment = self.senders.moment();
        let octets = self.packet.as_slice();
        begin_with(&mut self.ear, self.senders.ssrc(), moment, octets);
        self.state = State::Giving;
        write_marker(chunk, moment);
        Some(ItemKind::Text)
    }

    /// Gives the next item of what came, if there is one.
    fn give(&mut self, chunk: &mut Chunk) -> Option<ItemKind<A::Fault>>
        requires { is_giving self.old.state ≡ true }
        ensures gives { GivesOf A.Arrivals self.old self.new (items_with result (chunk_of chunk.new)) }
        ensures text { IfSome result (λ kind. HasText kind (chunk_of chunk.new)) }
        ensures later { result ≡ None → is_giving self.new.state ≡ true }
    {
        if self.state.is_parting() {
            self.part(chunk)
        } else {
            self.give_ready(chunk)
        }
    }

    /// Takes what comes, and gives the first item of it.
    fn ask(&mut self, chunk: &mut Chunk) -> Option<ItemKind<A::Fault>>
        requires idle { self.old.state ≡ State.Idle }
        requires few { arrival_count self.old.ear < MOST_ARRIVALS }
        ensures gives { GivesThen A.Arrivals self.old self.new (items_with result (chunk_of chunk.new)) }
        ensures text { IfSome result (λ kind. HasText kind (chunk_of chunk.new)) }
        ensures later { result ≡ None → is_giving self.new.state ≡ true }
    {
        match self.listen() {
            Ok(()) => self.give(chunk),
            Err(fault) => Some(ItemKind::Fault(fault)),
        }
    }

    /// The same, unless the leg heard all that an ear hears.
    fn ask_unless_full(&mut self, chunk: &mut Chunk) -> Option<ItemKind<A::Fault>>
        requires { self.old.state ≡ State.Idle }
        ensures gives { GivesThen A.Arrivals self.old self.new (items_with result (chunk_of chunk.new)) }
        ensures text { IfSome result (λ kind. HasText kind (chunk_of chunk.new)) }
        ensures later { result ≡ None → GetsOn self.old self.new }
    {
        if self.ear.arrivals() >= MOST_ARRIVALS {
            return None;
        }
        self.ask(chunk)
    }

    /// Gives the next item, if there is one, and puts its text in place of what is in `chunk`.
    pub(crate) fn step(&mut self, chunk: &mut Chunk) -> Option<ItemKind<A::Fault>>
        requires { is_over self.old.state ≡ false }
        ensures gives { GivesThen A.Arrivals self.old self.new (items_with result (chunk_of chunk.new)) }
        ensures text { IfSome result (λ kind. HasText kind (chunk_of chunk.new)) }
        ensures later { result ≡ None → GetsOn self.old self.new }
    {
        match self.state {
            State::Giving | State::Blank | State::Parting | State::Ending => self.give(chunk),
            State::Idle => self.ask_unless_full(chunk),
            State::Over => None,
        }
    }
}
