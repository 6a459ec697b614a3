//! What holds of the mixer after all calls that are allowed. No code stands here.
ghost use Rattle.mixer.specs.Laws.{AllowedAreEvents, AsksAreComposed, AsksComeBefore, AwareCarryFront, AwareMaySend, BatchesAreSent, ComposedAreSent, DueAreServed, DueComeNearer, GivenArePart, GivenGoOrWait, GivenWentWhereIdle, ListenersCame, NoneWaitsBefore, OwnNeverWaits, PacketsComeNear, RepeatersWait, SentAreComposed, SentIsLawful, SentIsOwn, SentMayCome, TakenAreShort, TakenAreTexts, TakenHadRoom, TurnsMaySend, UnawareMaySend, WaitingAreShort, WaitingAreTexts};

/// Calls that are allowed come to the same as events of the core, where what was taken are all chunks of the legs. These are
/// texts, and fit into a packet.
pub fn allowed_are_events()
    ensures events { AllowedAreEvents }
    ensures texts { TakenAreTexts }
    ensures short { TakenAreShort }
{}

/// What a turn sends may be sent: at a terminal that is aware, at one that is not, and at any.
pub fn turns_send_next()
    ensures any { TurnsMaySend }
    ensures aware { AwareMaySend }
    ensures unaware { UnawareMaySend }
{}

/// What waits at a terminal are texts that fit into a packet, and nothing of its own leg. Nothing waits where the leg never
/// came, and a leg that listens came.
pub fn texts_wait()
    ensures texts { WaitingAreTexts }
    ensures short { WaitingAreShort }
    ensures own { OwnNeverWaits }
    ensures fresh { NoneWaitsBefore }
    ensures came { ListenersCame }
{}

/// A turn comes at a later media time than all asks of a terminal's composer before it.
pub fn asks_come_before()
    ensures { AsksComeBefore }
{}

/// Each chunk of a leg that is taken goes once, and in order, to each other terminal that listens then: it was sent there or
/// still waits. Where the mixer is idle all were sent. At an aware terminal its packets carry a front of these texts.
pub fn chunks_go_once()
    ensures taken { TakenHadRoom }
    ensures sent { GivenGoOrWait }
    ensures idle { GivenWentWhereIdle }
    ensures carried { AwareCarryFront }
    ensures part { GivenArePart }
{}

/// The packets of the batches of all turns, one batch behind the other, are what was sent.
pub fn batches_are_sent()
    ensures { BatchesAreSent }
{}

/// Where the earlier of two successive packets of a source, or one of those before it, is still to be repeated, the later
/// one comes at most `gap` of media time behind it; and a leg with such text holds a place, and waits the less the nearer it
/// is to its turn.
pub fn packets_come_near()
    ensures near { PacketsComeNear }
    ensures waits { RepeatersWait }
{}

/// A leg that is due at a turn is served within as many turns as there are places but the terminal's own, that turn among
/// them, whatever is called meanwhile. Each turn that serves another one brings it nearer to its own.
pub fn due_legs_are_served()
    ensures soon { DueAreServed }
    ensures nearer { DueComeNearer }
{}

/// What is sent to each terminal is a lawful history of the mixer's own packets, and whatever of these comes, in whatever
/// order, comes from that history.
pub fn sent_is_lawful()
    ensures lawful { SentIsLawful }
    ensures own { SentIsOwn }
    ensures come { SentMayCome }
{}

/// At a terminal that is not aware the texts are those that the composer gives, and it gives what was sent of each leg.
pub fn one_text_is_composed()
    ensures composed { AsksAreComposed }
    ensures texts { SentAreComposed }
    ensures given { ComposedAreSent }
{}
