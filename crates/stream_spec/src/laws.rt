//! The laws of a stream: what is heard of a lawful history, whatever packets were lost, repeated, reordered or late;
//! and what a sender makes.
ghost use Rattle.std.specs.Prelude.{◌≡◌, ◌%◌, ◌<◌, ℕ, List};
ghost use Rattle.wire_spec.specs.Packets.{Arrival};
ghost use Rattle.stream_spec.specs.Lists.{In};
ghost use Rattle.stream_spec.specs.Numbering.{Numbered, RisingNumbers, nearest, used};
ghost use Rattle.stream_spec.specs.History.{Come, History, Placed, places};
ghost use Rattle.stream_spec.specs.Kept.{ArePlaces, Marker, NoGap, kept};
ghost use Rattle.stream_spec.specs.Own.{Own, Sent, Stream, sent_history};
ghost use Rattle.stream_spec.specs.HeardLaws.{AllAreTold, BlocksAreThoseCarried, BlocksRise, ChunksAreHeard, HeardIsByUsed, HeardIsTold, MarkerStands, NextAddsTexts, ReadyNeverFalls};
ghost use Rattle.stream_spec.specs.NumberLaws.{EndsWhereSettled, GivenUpHasCause, LowerIsFarther, NoneIsNearer, OctetsAreReadyInOrder, OctetsNeverFall, RecordingsNeverFall, SettledChunksStay, SettledPacketsStay, UsedCameInTime};
ghost use Rattle.stream_spec.specs.StillLaws.{StillComes, StillIsFiltered, StillIsLawful, StillIsNumbered, StillIsPlaced, StillIsText, StillIsUsed, StillNeverFalls, StillPlacesCame, TextIsStill};
ghost use Rattle.stream_spec.specs.SentLaws.{LastIsSent, OwnIsPacket, OwnPacketsCome, PacketsTellHistory, QuietIsClosed, SentIsLawful};

/// What is heard of a source is what the places that came in time tell of it.
pub fn heard_is_kept()
    ensures places { (wait : ℕ) (h : History) (a : List Arrival) → Come h a → ArePlaces h (places wait h a) }
    ensures heard { HeardIsTold }
{}

/// What is heard is told by the used packets, and packet by packet: each adds a marker or none, and its new texts, to
/// what those of lower numbers tell.
pub fn heard_one_by_one()
    ensures used { HeardIsByUsed }
    ensures next { NextAddsTexts }
{}

/// The blocks rise, each at most once, and a block is there exactly where one of its carriers came.
pub fn carriers_decide()
    ensures rising { BlocksRise }
    ensures exact { BlocksAreThoseCarried }
{}

/// Where a block is absent, and some place below it and some later place of its source came, a marker stands after all
/// blocks below it and before all blocks above it.
pub fn marker_stands()
    ensures { MarkerStands }
{}

/// Where no place between the first and the last that came is missing, there is no marker. Where all places came, the
/// blocks are all entries of the source with text.
pub fn no_gap_no_marker()
    ensures no_marker { (h : History) (i : List Placed) (s : ℕ) → NoGap i → In Marker (kept h i s) → ⊥ }
    ensures all { AllAreTold }
{}

/// A number is congruent to its sequence number and nearest to the greatest number before it. On a tie it is the lower
/// one: each lower number that is congruent lies farther.
pub fn numbers_are_nearest()
    ensures congruent { (top seq : ℕ) → seq < 65536 → nearest top seq % 65536 ≡ seq }
    ensures nearest { NoneIsNearer }
    ensures lower { LowerIsFarther }
{}

/// The texts of the chunks are what is heard. Where times never fall, their ready moments never fall.
pub fn chunks_are_heard()
    ensures texts { ChunksAreHeard }
    ensures ready { ReadyNeverFalls }
{}

/// What is sent, each entry where it may be, is a lawful history of its own packets, and is closed where nothing is
/// left to repeat.
pub fn sent_is_lawful()
    ensures lawful { SentIsLawful }
    ensures own { (c : Stream) (past : List Sent) → Own c.generations (sent_history c past) }
    ensures last { LastIsSent }
    ensures closed { QuietIsClosed }
{}

/// The packets of an own history are its packets, wherever they come, and together they tell it.
pub fn own_packets_tell()
    ensures packet { OwnIsPacket }
    ensures come { OwnPacketsCome }
    ensures history { PacketsTellHistory }
{}

/// The used packets are exactly those that came in time, in rising number.
pub fn used_came_in_time()
    ensures rising { (wait : ℕ) (past : List Numbered) → RisingNumbers (used wait past) }
    ensures exact { UsedCameInTime }
{}

/// A number is given up by a moment exactly where one of two causes has come by then. Where times never fall, the moments
/// that end a number, from the first on, are those by which it came or is given up.
pub fn numbers_end()
    ensures causes { GivenUpHasCause }
    ensures by_then { EndsWhereSettled }
{}

/// The times of a recording's arrivals never fall, and so the ready moments of what is heard never fall.
pub fn recordings_never_fall()
    ensures items { RecordingsNeverFall }
    ensures times { OctetsNeverFall }
    ensures ready { OctetsAreReadyInOrder }
{}

/// Later arrivals keep what is settled. The used packets that are ready by `t` stay, with the moments at which they are
/// ready, and stand before all others, whatever comes at `t` or later; and so do the chunks that are ready by `t`.
pub fn settled_stays()
    ensures packets { SettledPacketsStay }
    ensures chunks { SettledChunksStay }
{}

/// Without keep-alives a lawful history is lawful, and what comes of it comes of that. A text that is left is as it was;
/// times, numbers and places are the same, and the same packets are used. What is heard are the chunks that are no
/// keep-alives.
pub fn still_keeps()
    ensures lawful { StillIsLawful }
    ensures come { StillComes }
    ensures placed { StillIsPlaced }
    ensures same { TextIsStill }
    ensures numbers { StillIsNumbered }
    ensures used { StillIsUsed }
    ensures places { StillPlacesCame }
    ensures falls { StillNeverFalls }
    ensures texts { StillIsText }
    ensures chunks { StillIsFiltered }
{}
