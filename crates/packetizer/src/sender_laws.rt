//! What a sender sends over a whole script. No code stands here.
ghost use Rattle.std.specs.Prelude.{◌≤◌, ◌∷◌, ℕ, List, length, IsUtf8};
ghost use Rattle.stream_spec.specs.History.{Lawful};
ghost use Rattle.stream_spec.specs.Own.{Own};
ghost use Rattle.stream_spec.specs.Typed.{Event, Ask, whole_front};
ghost use Rattle.packetizer.specs.declared.senders.SenderSettings.{SenderSettings};
ghost use Rattle.packetizer.specs.SenderStanding.{history_sent};
ghost use Rattle.packetizer.specs.SenderLaws.{OfEach, IsSentInOrder, IsOfLastEntry, IsSentAtEnd, IsClosedAtEnd, IsDueFrom, IsOverAtNone, IsNoLonger};

/// All that was typed is sent in order, up to what waits.
pub fn all_is_sent_in_order()
    ensures { (settings : SenderSettings) (past : List Event) → IsSentInOrder settings past }
{}

/// What is sent is a lawful history, each entry of which has the sender's generations.
pub fn history_is_lawful()
    ensures lawful { OfEach (λ settings past. Lawful (history_sent settings past)) }
    ensures own { (settings : SenderSettings) (past : List Event)
        → Own settings.generations (history_sent settings past) }
{}

/// The packet of an ask is that of the last entry of the history with this ask.
pub fn sent_packets_are_own()
    ensures { (settings : SenderSettings) (past : List Event) (t : ℕ) → IsOfLastEntry settings past t }
{}

/// Where nothing waits and nothing is left to be repeated, all that was typed was sent, and each text was
/// repeated as often as it is to be.
pub fn end_is_closed()
    ensures sent { (settings : SenderSettings) (past : List Event) → IsSentAtEnd settings past }
    ensures closed { OfEach (λ settings past. IsClosedAtEnd settings past) }
{}

/// From the moment that `next_due` names a packet is due, and not before. Where it names none after an ask, nothing
/// waits and nothing is left to be repeated.
pub fn due_from_next()
    ensures some { (settings : SenderSettings) (past : List Event) (m t : ℕ) → IsDueFrom settings past m t }
    ensures none { (settings : SenderSettings) (past : List Event) (t : ℕ) → IsOverAtNone settings (Ask t ∷ past) }
{}

/// A front of whole characters cuts no character, and no longer one fits.
pub fn front_is_longest()
    ensures whole { (n : ℕ) (octets : List ℕ) → IsUtf8 octets → IsUtf8 (whole_front n octets) }
    ensures fits { (n : ℕ) (octets : List ℕ) → IsUtf8 octets → length (whole_front n octets) ≤ n }
    ensures longest { (n k : ℕ) (octets : List ℕ) → IsUtf8 octets → IsNoLonger n k octets }
{}
