//! Lines of print. Where memory runs out a part of one may be appended.
ghost use Rattle.std.specs.Prelude.{◌≡◌, ◌++◌, OnOk, decimal};
ghost use Rattle.command_spec.specs.Showing.{number_line};
ghost use Rattle.report_spec.specs.Showing.{counted, title_of};

use crate::losses::Losses;
use itoa::Buffer;
use rtt_base::{Bytes, NoMemory};

/// Appends a number and what stands before it.
pub(crate) fn append_number(before: &[u8], number: u64, out: &mut Bytes) -> Result<(), NoMemory>
    ensures { OnOk result (out.new ≡ out.old ++ before.now ++ decimal number) }
{
    let mut digits = Buffer::new();
    out.append(before)?;
    out.append(digits.format(number).as_bytes())
}

/// Appends a line of a number, where it is not 0.
pub(crate) fn append_number_line(
    before: &[u8],
    number: u64,
    out: &mut Bytes,
) -> Result<(), NoMemory>
    ensures { OnOk result (out.new ≡ out.old ++ number_line before.now number) }
{
    if number == 0 {
        return Ok(());
    }
    append_number(before, number, out)?;
    out.append(b"\n")
}

/// Appends a number and the words before it, where it is not 0.
fn append_counted(words: &[u8], number: u64, out: &mut Bytes) -> Result<(), NoMemory>
    ensures { OnOk result (out.new ≡ out.old ++ counted words.now number) }
{
    if number == 0 {
        return Ok(());
    }
    append_number(words, number, out)
}

/// Appends the first line of a stream, whose packets came from one moment to another, in milliseconds.
pub(crate) fn append_title(
    ssrc: u32,
    from: u32,
    to: u32,
    missed: Losses,
    out: &mut Bytes,
) -> Result<(), NoMemory>
    ensures { OnOk result (out.new ≡ out.old ++ title_of ssrc from to missed.lost missed.late) }
{
    append_number(b"== ", u64::from(ssrc), out)?;
    append_number(b" from ", u64::from(from), out)?;
    append_number(b" to ", u64::from(to), out)?;
    append_counted(b" lost ", missed.lost, out)?;
    append_counted(b" late ", missed.late, out)?;
    out.append(b"\n")
}
