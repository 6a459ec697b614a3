//! What was read of a board, as it is printed.
ghost use Rattle.std.specs.Prelude.{◌≡◌, ◌++◌, ◌<◌, ◌≤◌, true, length, OnOk};
ghost use Rattle.file_spec.specs.Conferences.{meaning_of};
ghost use Rattle.live_spec.specs.Watched.{board_line};
ghost use Rattle.rtt_live.specs.Lines.{totals_of};

use crate::ViewParts;
use file_spec::{Conference, LegLine};
use itoa::Buffer;
use live_board::{BoardReader, Tail};
use rtt_base::{Bytes, NoMemory};
use std::alloc::Global;

/// Appends the line of a leg, of which so many octets were taken.
fn append_line(leg: &LegLine, total: u64, printed: &mut Bytes) -> Result<(), NoMemory>
    ensures { OnOk result (printed.new ≡ printed.old ++ board_line leg.now total) }
{
    let mut digits = Buffer::new();
    printed.append(b"-- board ")?;
    printed.append(leg.name.as_slice())?;
    printed.append(b" total ")?;
    printed.append(digits.format(total).as_bytes())?;
    printed.append(b"\n")
}

/// Appends the lines of all legs, in leg order, as they are read of a board to which nothing more comes.
fn append_lines(
    conference: &Conference,
    mut reader: BoardReader,
    printed: &mut Bytes,
) -> Result<(), NoMemory>
    requires ended { reader.ended ≡ true }
    requires each { length conference.now.legs ≤ reader.legs }
    ensures { OnOk result (printed.new ≡ printed.old ++ totals_of (meaning_of conference.now) reader.seen) }
{
    let mut tail = Tail::new();
    for leg in 0..conference.legs.len() {
        reader.read(leg, &mut tail);
        append_line(&conference.legs.as_slice()[leg], tail.total, printed)?;
    }
    Ok(())
}

/// Appends the lines of all legs to what is printed.
pub(crate) fn add_lines(
    alloc: Global,
    conference: &Conference,
    reader: BoardReader,
    printed: &mut ViewParts,
) -> Result<(), NoMemory>
    requires ended { reader.ended ≡ true }
    requires each { length conference.now.legs ≤ reader.legs }
    ensures { OnOk result (printed.new ≡ printed.old ++ totals_of (meaning_of conference.now) reader.seen) }
{
    let mut lines = Bytes::new(alloc);
    append_lines(conference, reader, &mut lines)?;
    printed.append(alloc, lines.as_slice())
}
