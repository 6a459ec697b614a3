//! What holds of what is heard of a leg over a link. No code stands here.
ghost use Rattle.live_spec.specs.TallyLaws.{TalliesAddUp};
ghost use Rattle.live_spec.specs.ToldLaws.{FirstHopInParts, FormersStay, ReadyIsFront, ReadyStays, SendersTakeOver, TextsAreHeard, Unfollowed};

/// What is heard of a leg, followed or not: the texts of its chunks; what is ready of these comes first, and stays. A leg that is
/// not followed is heard by the packets of its SSRC, as one stream.
pub fn live_is_heard()
    ensures plain { Unfollowed }
    ensures texts { TextsAreHeard }
    ensures front { ReadyIsFront }
    ensures stays { ReadyStays }
{}

/// Each sender is heard by its own packets alone, and what was heard of the senders before stays.
pub fn senders_take_over()
    ensures senders { SendersTakeOver }
    ensures stays { FormersStay }
{}

/// Where the packets of each sender come of a lawful history, what is heard of the leg is what is kept of each, in order, a
/// marker between.
pub fn parts_are_kept()
    ensures { FirstHopInParts }
{}

/// Each datagram that comes is counted once, and by one cause; what is counted as text are the packets of those who are heard, and
/// these are the senders. A leg that is not followed has one at most.
pub fn tallies_add_up()
    ensures { TalliesAddUp }
{}
