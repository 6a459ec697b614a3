//! Where an operator is heard and answered.
ghost use Rattle.std.specs.Prelude.{◌≡◌, IfOk};

use crate::OperatorPort;
use crate::lines::{append_leg, append_turns};
use crate::requests::{Request, request_of};
use crate::seats::{Counts, LegSwitch};
use file_spec::Conference;
use rtt_base::{Full, NoMemory, Packet};
use std::alloc::Global;
use std::sync::Arc;
use std::sync::atomic::{AtomicBool, Ordering};

/// How many datagrams are looked at in one pause: so many that a thousand a second hide nobody, and so few that no turn is late.
const MOST_HEARD: u32 = 256;

/// One octet more than what is asked has at most: a word of 64 octets and ` state`.
const ROOM: usize = 71;

/// What came at the port of an operator.
enum OperatorInput {
    /// Nothing, by now.
    Nothing,
    /// What nobody is answered for.
    Other,
    Asked(Request),
}

/// Where an operator is heard and answered, who knows the word.
#[derive(Drop)]
pub struct Desk<P> {
    conference: Conference,
    pub(crate) port: P,
    /// Of each leg what is told of it.
    legs: Vec<Arc<Counts, Global>>,
    /// How many of them have a link.
    seated: usize,
    /// Says that the call is to end.
    stop: Arc<AtomicBool, Global>,
    /// How many turns were made.
    made: u64,
    lines: Box<Packet>,
}

impl<P: OperatorPort> Desk<P> {
    /// The desk of a call of this conference, at this port. It takes all memory that it needs. Where the conference has no operator
    /// nobody is answered.
    pub fn new(alloc: Global, conference: Conference, port: P) -> Result<Desk<P>, NoMemory>
        ensures conference { IfOk result (λ desk. desk.conference ≡ conference) }
        ensures port { IfOk result (λ desk. desk.port ≡ port) }
        ensures begins { IfOk result (λ desk. (desk.seated ≡ 0) × (desk.made ≡ 0)) }
    {
        let mut legs = Vec::new(alloc);
        for _ in 0..conference.legs.len() {
            legs.push(Arc::new(alloc, Counts::new())?)?;
        }
        Ok(Desk {
            conference,
            port,
            legs,
            seated: 0,
            stop: Arc::new(alloc, AtomicBool::new(false))?,
            made: 0,
            lines: Box::new(alloc, Packet::new())?,
        })
    }

    /// The seat of the next leg, where there is one.
    pub(crate) fn next_seat(&mut self) -> Option<LegSwitch> {
        let counts = self.legs.get(self.seated)?;
        let leg = self.conference.legs.as_slice().get(self.seated)?;
        let seat = LegSwitch {
            counts: Arc::try_clone(counts).ok()?,
            stop: Arc::try_clone(&self.stop).ok()?,
            ssrc: leg.ssrc,
            follow: leg.follow,
            payload_types: leg.payload_types,
        };
        self.seated = self.seated.saturating_add(1);
        Some(seat)
    }

    /// A turn was made: answers what was asked since the one before, at this moment (milliseconds).
    pub(crate) fn turned(&mut self, now: u64) {
        self.made = self.made.saturating_add(1);
        for _ in 0..MOST_HEARD {
            match self.hear() {
                OperatorInput::Nothing => return,
                OperatorInput::Other => {}
                OperatorInput::Asked(Request::State) => self.tell(now),
                OperatorInput::Asked(Request::Stop) => self.stop.store(true, Ordering::SeqCst),
            }
        }
    }

    // What came at the port next.
    fn hear(&mut self) -> OperatorInput {
        let mut room = [0u8; ROOM];
        let Some(count) = self.port.receive(&mut room) else {
            return OperatorInput::Nothing;
        };
        let Some(operator) = &self.conference.service.operator else {
            return OperatorInput::Other;
        };
        match request_of(operator.word.as_str().as_bytes(), &room[..count.min(ROOM)]) {
            Some(request) => OperatorInput::Asked(request),
            None => OperatorInput::Other,
        }
    }

    // Tells how the call stands.
    fn tell(&mut self, now: u64) {
        self.lines.clear();
        if self.append_lines(now).is_ok() {
            self.port.answer(self.lines.as_slice());
        }
    }

    // Appends all lines. They fit: a name has 32 octets at most, and there are 16 legs at most.
    fn append_lines(&mut self, now: u64) -> Result<(), Full> {
        let conference = &self.conference;
        let lines = &mut self.lines;
        append_turns(self.made, u64::from(conference.turns), lines)?;
        for (leg, counts) in conference.legs.as_slice().iter().zip(&self.legs) {
            append_leg(&leg.name, counts, now, lines)?;
        }
        Ok(())
    }
}
