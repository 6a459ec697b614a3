//! The line of a text that was heard.
ghost use Rattle.std.specs.Prelude.{◌≡◌, ◌++◌, OnOk, IsUtf8, codes, decimal};
ghost use Rattle.stream_spec.specs.Ready.{chunk_of};
ghost use Rattle.command_spec.specs.Transcripts.{chunk_line};

use crate::escapes::append_escaped;
use itoa::Buffer;
use rtt_base::{Bytes, Chunk, NoMemory};

/// Appends a moment in milliseconds and a space.
fn append_moment(at: u64, out: &mut Bytes) -> Result<(), NoMemory>
    ensures { OnOk result (out.new ≡ out.old ++ (decimal at ++ codes " ")) }
{
    let mut digits = Buffer::new();
    out.append(digits.format(at).as_bytes())?;
    out.append(b" ")
}

/// Appends the line of a text, if anything is left of it.
pub(crate) fn append_line(chunk: &Chunk, out: &mut Bytes) -> Result<(), NoMemory>
    requires { IsUtf8 chunk.now.text }
    ensures { OnOk result (out.new ≡ out.old ++ chunk_line (chunk_of chunk.now)) }
{
    let line = out.len();
    append_moment(chunk.ready, out)?;
    let text = out.len();
    append_escaped(chunk.text.as_slice(), out)?;
    if out.len() == text {
        out.truncate(line);
        return Ok(());
    }
    out.push(b'\n')
}
