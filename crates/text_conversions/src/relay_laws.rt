//! What holds of frames that are relayed and heard again. No code stands here.
ghost use Rattle.std.specs.Prelude.{ℕ, List};
ghost use Rattle.file_spec.specs.declared.frames.Frame.{Frame};
ghost use Rattle.packetizer.specs.declared.senders.SenderSettings.{SenderSettings};
ghost use Rattle.text_conversions.specs.RelayLaws.{ComesBack};

/// A channel behind a relay gives the text of all frames back, in order.
pub fn channels_give_back()
    ensures { (settings : SenderSettings) (fs : List Frame) (t : ℕ) → ComesBack settings fs t }
{}
