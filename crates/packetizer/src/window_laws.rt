//! What windows and packets of a stream of at most three generations keep. No code stands here.
ghost use Rattle.packetizer.specs.WindowLaws.{PacketsAreShort, PacketsFit, WindowsRepeat};

/// The blocks of a window are those that repeat what was sent of its source last.
pub fn windows_repeat()
    ensures { WindowsRepeat }
{}

/// A packet of a stream of at most three generations has octets that are read back, at most 4224 of them.
pub fn packets_fit()
    ensures fits { PacketsFit }
    ensures few { PacketsAreShort }
{}
