//! The laws. No code stands here.
ghost use Rattle.mix_loop.specs.Laws.{CallsAreLive, EndIsAll, EndIsCovered, LegsCover, ServedAreAnswered, ServingIsLive};
ghost use Rattle.mix_loop.specs.Served.{BrokenIsServed, ClosedIsServed, DoneIsServed};

use crate::{Consumer, MixerCalls};
use link_io::LinkIn;
use rtt_io::Gate;

/// Where calls were made in a live run of what was popped, they are a live run of the core, by what the links gave.
pub fn calls_are_live()
    ensures { CallsAreLive }
{}

/// What was popped of a leg is the first of what it gives by what its link gave.
pub fn legs_cover<L: LinkIn>()
    ensures { LegsCover L.LinkIn }
{}

/// What was popped of a leg that was started and came back is covered by what its link gave.
pub fn served_are_answered<L: LinkIn, G: Gate>()
    ensures { ServedAreAnswered G L.LinkIn }
{}

/// Turns that were made of legs whose links gave this are a live run.
pub fn serving_is_live<I: Consumer, M: MixerCalls>()
    ensures { ServingIsLive I.popped M.stands }
{}

/// Where the end of a leg was popped, its link is closed, and all that is heard of it was popped.
pub fn end_is_all<L: LinkIn>()
    ensures { EndIsAll L.LinkIn }
{}

/// Where items are covered by what a link gave, and have the end, the link is closed, and their texts are all that is heard.
pub fn covered_end_is_all()
    ensures { EndIsCovered }
{}

/// Turns that were made of the legs of a conference are a live call of it: all turns, those until all links were closed and
/// nothing was left, or those until it broke off.
pub fn turns_are_served<I: Consumer, M: MixerCalls>()
    ensures done { DoneIsServed I.popped M.stands }
    ensures closed { ClosedIsServed I.popped M.stands }
    ensures broken { BrokenIsServed I.popped M.stands }
{}
