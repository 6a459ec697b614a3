//! What holds of the definitions. No code stands here.
ghost use Rattle.live_spec.specs.Senders.{CallsTellInTurn};
ghost use Rattle.live_spec.specs.HeadLive.{LinksApart, LinksStay, OneSenderIsHeard, ServedIsHeadLive, UnfollowedHasOneSender};

/// A live call of a conference of links keeps what it promises, whatever its links give and whenever its turns come: each
/// terminal is given the packets of a lawful history, which tells it of each other leg a front of what is heard of that, and
/// all of it where the links are closed.
pub fn live_calls_keep()
    ensures { ServedIsHeadLive }
{}

/// A leg is heard as one stream, that of its sender, where nobody took over; and from the sender of a leg that is not followed
/// nobody takes over.
pub fn one_sender_is_heard()
    ensures heard { OneSenderIsHeard }
    ensures unfollowed { UnfollowedHasOneSender }
{}

/// Of a leg that is followed a live call tells each aware terminal what each sender typed, one behind the other: in pieces of
/// blocks, the octets in order, each at most once. A piece is absent only where every packet carrying its block on the first hop, or
/// carrying the piece on the second, was lost or late, or where it is not given yet; and between packets that came a marker stands
/// there.
pub fn calls_tell_in_turn()
    ensures { CallsTellInTurn }
{}

/// In a conference of links no leg comes later or goes, and each has a place.
pub fn links_stay()
    ensures { LinksStay }
{}

/// In a conference of links each leg has a port of its own.
pub fn links_are_apart()
    ensures { LinksApart }
{}
