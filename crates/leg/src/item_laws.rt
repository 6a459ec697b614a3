//! Laws of what is asked of legs, and of what they gave.
ghost use Rattle.leg.specs.Done.{DoneIsAll};
ghost use Rattle.leg.specs.Laws.{AskedAreMixed, LegsStayAsTold};

use rtt_io::Source;

/// Where each leg of a conference hears its stream in its input, the chunks that count are those that the conference mixes,
/// and each leg stays as its line says.
pub fn conference_is_asked()
    ensures chunks { AskedAreMixed }
    ensures stays { LegsStayAsTold }
{}

/// Where a leg at its queue has pushed its last answer, it has pushed the texts of its recording, keep-alives aside, and then its
/// end; or its fault.
pub fn done_is_all<S: Source>()
    ensures { DoneIsAll S.tells S.left S.faults S.name }
{}
