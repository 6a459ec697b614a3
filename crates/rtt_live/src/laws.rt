//! The laws of a live call.
ghost use Rattle.rtt_live.specs.Calls.{LinksAreApart};
ghost use Rattle.rtt_live.specs.Sent.{SentIsGiven};

/// Of what the calls of a conference's mixer send the packets to a terminal are those that are given to it.
pub fn sent_is_given()
    ensures { SentIsGiven }
{}

/// Whatever a conference file of links says: each leg's input is a port of its own, each leg has a place, and none comes later or
/// goes.
pub fn links_are_apart()
    ensures { LinksAreApart }
{}
