//! The work of `script`: each text of a recording becomes a line.
ghost use Rattle.std.specs.Prelude.{IfOk};
ghost use Rattle.rtpdump_io.specs.Reading.{to_come};
ghost use Rattle.rtpdump_io.specs.Calls.{ReadsToEnd};
ghost use Rattle.recording_views.specs.Writing.{IsTranscript};

use crate::heard_texts::write_texts;
use crate::script_lines::append_line;
use crate::text_writers::TextWriter;
use command_spec::ReadRequest;
use rtpdump_io::{DumpReader, RecordingFault};
use rtt_base::{Bytes, Chunk, NoMemory as OutOfMemory};
use rtt_io::Source;
use std::alloc::Global;

/// Writes texts as lines of a script.
struct ScriptLines;

impl TextWriter for ScriptLines {
    ghost use Rattle.recording_views.specs.Writing.{AreLines};

    type Out = Bytes;

    ghost wrote = { λ writer. AreLines };

    fn write(&self, text: &Chunk, out: &mut Bytes) -> Result<(), OutOfMemory> {
        append_line(text, out)
    }
}

/// What `script` prints of a recording: a line for each text that is heard of the source, with the moment in milliseconds at
/// which it could be read first.
pub fn script_recording<S: Source>(
    alloc: Global,
    reader: &mut DumpReader<S>,
    request: ReadRequest,
) -> Result<Bytes, RecordingFault>
    ensures printed { S.tells → IfOk result (IsTranscript request (to_come S.left reader.old)) }
    ensures reads { ReadsToEnd S.tells S.left S.faults S.name reader.old reader.new result }
{
    let mut out = Bytes::new(alloc);
    write_texts(alloc, reader, request, &ScriptLines, &mut out)?;
    Ok(out)
}
