//! A law of a live call.
ghost use Rattle.mix_loop.specs.Begun.{MayBegin};

use crate::MixerCalls;
use crate::pops::Consumer;

/// Where all legs came and nothing was popped of them, turns may begin.
pub fn turns_may_begin<I: Consumer, M: MixerCalls>()
    ensures { MayBegin I.popped M.stands }
{}
