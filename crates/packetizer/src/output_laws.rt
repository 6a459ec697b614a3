//! What an output sends over its life. No code stands here.
ghost use Rattle.std.specs.Prelude.{List};
ghost use Rattle.stream_spec.specs.History.{Placed, Lawful};
ghost use Rattle.stream_spec.specs.Own.{Sent, Own};
ghost use Rattle.packetizer.specs.declared.outputs.PacketizerSettings.{PacketizerSettings};
ghost use Rattle.packetizer.specs.OutputLaws.{OfEach, IsClosedAtEnd, IsOfLastEntry, history_sent};

/// What is sent is a lawful history of own packets, and a closed one where nothing is left to be repeated.
pub fn output_is_lawful()
    ensures lawful { OfEach (λ settings past. Lawful (history_sent settings past)) }
    ensures own { (settings : PacketizerSettings) (past : List Sent)
        → Own settings.generations (history_sent settings past) }
    ensures closed { (settings : PacketizerSettings) (past : List Sent) → IsClosedAtEnd settings past }
{}

/// The packet that is sent is the one of the last entry of the history with it.
pub fn packets_are_own()
    ensures { (settings : PacketizerSettings) (past : List Sent) (e : Sent) (x : Placed)
        → IsOfLastEntry settings past e x }
{}
