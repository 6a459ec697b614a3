//! Who writes the texts that are heard of a recording.
ghost use Rattle.std.specs.Prelude.{OnOk, IsUtf8};
ghost use Rattle.stream_spec.specs.Ready.{chunk_of};
ghost use Rattle.recording_views.specs.Writing.{Texts, WritesText};

use rtt_base::{Chunk, NoMemory};

/// Writes the texts that are heard of a recording, one after another.
pub trait TextWriter {
    /// To what it writes.
    type Out;

    /// To the first of these it wrote these texts, oldest first, and it is the second.
    ghost wrote: { Self → Self.Out → Self.Out → Texts → Type 0 };

    /// Writes the next text.
    fn write(&self, text: &Chunk, out: &mut Self::Out) -> Result<(), NoMemory>
        requires { IsUtf8 text.now.text }
        ensures { OnOk result (WritesText (wrote self.now) out.old out.new (chunk_of text.now)) };
}
