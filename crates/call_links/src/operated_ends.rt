//! The inbound end of a link of a call that an operator may stop.
ghost use Rattle.std.specs.Prelude.{◌≡◌, false};

use crate::courses::Course;
use crate::seats::LegSwitch;
use link_io::{LinkIn, LinkTake};
use rtt_base::{Failed, Packet};

/// The inbound end of a link that is closed for good once the call is stopped and what lies there was given, 256 datagrams at most. What
/// else comes is told as the end below tells it. It is counted where it has a seat. Its faults and its moments are those of the end
/// below.
#[derive(Drop)]
pub struct OperatedIn<I: LinkIn> {
    pub(crate) link: I,
    seat: Option<LegSwitch>,
    course: Course,
}

impl<I: LinkIn> OperatedIn<I> {
    /// The end over this one, of a call that goes on.
    pub(crate) fn new(link: I, seat: Option<LegSwitch>) -> OperatedIn<I>
        ensures over { result.link ≡ link }
        ensures goes_on { result.course.ended ≡ false }
    {
        OperatedIn {
            link,
            seat,
            course: Course::new(),
        }
    }

    /// The end below.
    pub(crate) fn into_link(self) -> I
        ensures { result ≡ self.link }
    {
        let OperatedIn {
            link,
            seat: _,
            course: _,
        } = self;
        link
    }

    // Whether the call is to end.
    fn is_stopping(&self) -> bool {
        match &self.seat {
            Some(seat) => seat.is_stopping(),
            None => false,
        }
    }

    // Counts what was told.
    fn count(&self, told: LinkTake, octets: &[u8]) {
        if let Some(seat) = &self.seat {
            seat.count(told, octets);
        }
    }
}

impl<I: LinkIn> LinkIn for OperatedIn<I> {
    ghost use Rattle.std.specs.Prelude.{◌||◌, []};

    ghost tells = { ⊥ };

    ghost taken = { λ _. [] };

    ghost closed = { λ end. end.course.ended || I.closed end.link };

    ghost moment = { λ end. I.moment end.link };

    ghost faults = { λ end. I.faults end.link };

    ghost port = { λ end. I.port end.link };

    fn take(&mut self, out: &mut Packet, until: u64) -> Result<LinkTake, Failed> {
        let stopping = self.is_stopping();
        let until = if stopping { 0 } else { until };
        let Ok(taken) = self.link.take(out, until) else {
            return Err(Failed);
        };
        self.course = self.course.after(stopping, taken.came);
        let told = LinkTake {
            at: taken.at,
            came: self.course.told(taken.came),
        };
        self.count(told, out.as_slice());
        Ok(told)
    }
}
