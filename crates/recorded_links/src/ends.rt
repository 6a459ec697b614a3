//! The two ends of a link that is recorded.
ghost use Rattle.std.specs.Prelude.{◌≡◌, ◌<◌, ◌^◌, false, [], ◌++◌, IfSome};
ghost use Rattle.std.proofs.Props.{props};
ghost use Rattle.link_io.specs.Taking.{came_of};
ghost use Rattle.recorded_links.specs.Calls.{IsSameEnd, WaitsOn};
ghost use Rattle.recorded_links.specs.Coming.{AreGiven, came_noted, takes_noted};
ghost use Rattle.recorded_links.specs.Shelves.{noted};

use crate::Call;
use crate::noters::Noter;
use link_io::{Beat, Came, LinkIn, LinkOut, LinkTake};
use rtt_base::{Failed, Packet};
use std::marker::PhantomData;
use std::sync::Wait;

/// The inbound end of a link that is recorded: each datagram that comes is noted at its moment, as it came. All that it tells is told as
/// the end below tells it.
#[derive(Drop)]
pub struct RecordedIn<I: LinkIn, R, C: Call> {
    link: I,
    /// That of the link.
    port: u16,
    noter: Option<Noter<R>>,
    of: PhantomData<C>,
    ghost at: { port ≡ I.port link },
    ghost noted: { I.tells → IfSome noter (λ n. n.over ≡ false → noted n.pass ≡ takes_noted (I.taken link)) } by { Prim.hlevel props },
    ghost known: { IfSome noter (λ n. WaitsOn C.recordings n.number n.pass) } by { Prim.hlevel props },
}

/// Notes what a take gave, where it is a datagram, whose octets these are.
fn note_taken<R: Wait + Drop>(noter: &mut Noter<R>, taken: LinkTake, octets: &[u8])
    requires { taken.at < 2 ^ 48 }
    ensures noted { noter.new.over ≡ false → noted noter.new.pass ≡ noted noter.old.pass ++ came_noted taken.at (came_of taken.came octets.now) }
    ensures over { noter.new.over ≡ false → noter.old.over ≡ false }
    ensures same { (noter.new.number ≡ noter.old.number) × IsSameEnd noter.old.pass noter.new.pass }
{
    match taken.came {
        Came::Datagram => noter.note(taken.at, octets),
        Came::Large => {}
        Came::Quiet => {}
        Came::Closed => {}
    }
}

impl<I: LinkIn, R, C: Call> RecordedIn<I, R, C> {
    /// The end over this one, which was opened at this port, and whose recording this one notes.
    pub(crate) fn new(link: I, port: u16, noter: Option<Noter<R>>) -> RecordedIn<I, R, C>
        requires at { port ≡ I.port link }
        requires noted { I.tells → IfSome noter (λ n. n.over ≡ false → noted n.pass ≡ takes_noted (I.taken link)) }
        requires known { IfSome noter (λ n. WaitsOn C.recordings n.number n.pass) }
        ensures { result.link ≡ link }
    {
        RecordedIn {
            link,
            port,
            noter,
            of: PhantomData,
        }
    }

    /// The end below, its port, and who notes.
    pub(crate) fn into_parts(self) -> (I, u16, Option<Noter<R>>)
        ensures link { result.0 ≡ self.link }
        ensures at { result.1 ≡ I.port result.0 }
        ensures noted { I.tells → IfSome result.2 (λ n. n.over ≡ false → noted n.pass ≡ takes_noted (I.taken result.0)) }
        ensures known { IfSome result.2 (λ n. WaitsOn C.recordings n.number n.pass) }
    {
        let RecordedIn {
            link,
            port,
            noter,
            of: _,
        } = self;
        (link, port, noter)
    }
}

impl<I: LinkIn, R: Wait + Drop, C: Call> LinkIn for RecordedIn<I, R, C> {
    ghost tells = { I.tells };

    ghost taken = { λ end. I.taken end.link };

    ghost closed = { λ end. I.closed end.link };

    ghost moment = { λ end. I.moment end.link };

    ghost faults = { λ end. I.faults end.link };

    ghost port = { λ end. I.port end.link };

    fn take(&mut self, out: &mut Packet, until: u64) -> Result<LinkTake, Failed> {
        let Ok(taken) = self.link.take(out, until) else {
            return Err(Failed);
        };
        if let Some(noter) = &mut self.noter {
            note_taken(noter, taken, out.as_slice());
        }
        Ok(taken)
    }
}

/// The outbound end of a link that is recorded: each packet that it is given is noted, at the last moment that the clock told.
#[derive(Drop)]
pub struct RecordedOut<O: LinkOut, R, C: Call> {
    link: O,
    /// That of the link.
    port: u16,
    noter: Option<Noter<R>>,
    of: PhantomData<C>,
    ghost at: { port ≡ O.port link },
    ghost noted: { O.tells → IfSome noter (λ n. n.over ≡ false → AreGiven (noted n.pass) (O.given link)) } by { Prim.hlevel props },
    ghost known: { IfSome noter (λ n. WaitsOn C.recordings n.number n.pass) } by { Prim.hlevel props },
}

impl<O: LinkOut, R, C: Call> RecordedOut<O, R, C> {
    /// The end over this one, which was opened at this port, and whose recording this one notes.
    pub(crate) fn new(link: O, port: u16, noter: Option<Noter<R>>) -> RecordedOut<O, R, C>
        requires at { port ≡ O.port link }
        requires noted { O.tells → IfSome noter (λ n. n.over ≡ false → AreGiven (noted n.pass) (O.given link)) }
        requires known { IfSome noter (λ n. WaitsOn C.recordings n.number n.pass) }
        ensures { result.link ≡ link }
    {
        RecordedOut {
            link,
            port,
            noter,
            of: PhantomData,
        }
    }

    /// The end below, its port, and who notes.
    pub(crate) fn into_parts(self) -> (O, u16, Option<Noter<R>>)
        ensures link { result.0 ≡ self.link }
        ensures at { result.1 ≡ O.port result.0 }
        ensures noted { O.tells → IfSome result.2 (λ n. n.over ≡ false → AreGiven (noted n.pass) (O.given result.0)) }
        ensures known { IfSome result.2 (λ n. WaitsOn C.recordings n.number n.pass) }
    {
        let RecordedOut {
            link,
            port,
            noter,
            of: _,
        } = self;
        (link, port, noter)
    }
}

impl<O: LinkOut, R: Wait + Drop, C: Call> LinkOut for RecordedOut<O, R, C> {
    type Clock = O::Clock;

    ghost tells = { O.tells };

    ghost given = { λ end. O.given end.link };

    ghost faults = { λ end. O.faults end.link };

    ghost port = { λ end. O.port end.link };

    fn give(&mut self, beat: &Beat<'_, O::Clock>, packet: &[u8]) -> Result<(), Failed> {
        let Ok(()) = self.link.give(beat, packet) else {
            return Err(Failed);
        };
        if let Some(noter) = &mut self.noter {
            noter.note_now(packet);
        }
        Ok(())
    }
}
