ghost use Rattle.std.specs.Prelude.{◌≡◌, ◌<◌, false};

use crate::{Board, BoardReader, BoardWriter, Tail};
use rtt_base::limits::MOST_TEXT_OCTETS;
use rtt_base::{Chunk, NoMemory, Text};
use std::alloc::{AllocError, Global};
use std::sync::Wait;
use std::test::Fail;
use std::thread::{Threads, join, map_vec};

// A change of a leg, by so many times one octet.
fn change(source: u8, octet: u8, count: usize) -> Chunk {
    let mut text = Text::new();
    for _ in 0..count {
        if text.len() < MOST_TEXT_OCTETS {
            text.push(octet);
        }
    }
    Chunk {
        source,
        ready: 0,
        text,
    }
}

// What is shown of a leg: the total, how many octets, the first of them and the last.
fn shown(reader: &mut BoardReader, leg: usize, tail: &mut Tail) -> [u64; 4]
    requires { leg < reader.old.legs }
    ensures { (reader.new.legs ≡ reader.old.legs) × (reader.new.board ≡ reader.old.board) }
{
    reader.read(leg, tail);
    let last = tail.last.as_slice();
    let first = last.first().copied().unwrap_or(0) as u64;
    let end = last.last().copied().unwrap_or(0) as u64;
    [tail.total, last.len() as u64, first, end]
}

// What is read of two legs after 3000 octets of the first were published, and after more were added that were not.
fn three_thousand<R: Wait>(rt: &R, alloc: Global) -> Result<[[u64; 4]; 3], NoMemory> {
    let (mut writer, mut reader) = Board::new(rt, alloc, 2)?;
    let mut tail = Tail::new();
    let good = writer.add(&change(0, 65, 1000)).is_ok()
        && writer.add(&change(0, 66, 1000)).is_ok()
        && writer.add(&change(0, 67, 1000)).is_ok();
    writer.publish(rt);
    let first = shown(&mut reader, 0, &mut tail);
    let more = writer.add(&change(0, 68, 10)).is_ok();
    let again = shown(&mut reader, 0, &mut tail);
    let other = shown(&mut reader, 1, &mut tail);
    writer.close(rt);
    if good && more {
        Ok([first, again, other])
    } else {
        Err(NoMemory)
    }
}

#[test]
fn the_last_2048_of_3000_octets_are_shown(rt: HostRuntime) -> Result<(), Fail> {
    let [first, again, other] = three_thousand(&rt, rt.alloc())?;
    assert!(rt; first == [3000, 2048, 65, 67]);
    assert!(rt; again == [3000, 2048, 65, 67]);
    assert!(rt; other == [0, 0, 0, 0]);
    Ok(())
}

// What is read of a leg behind each of three calls that publish, by a reader that is told nothing.
fn untold<R: Wait>(rt: &R, alloc: Global) -> Result<[[u64; 4]; 3], NoMemory> {
    let (mut writer, mut reader) = Board::new(rt, alloc, 2)?;
    let mut tail = Tail::new();
    let one = writer.add(&change(1, 65, 1)).is_ok();
    writer.publish(rt);
    let first = shown(&mut reader, 1, &mut tail);
    let two = writer.add(&change(1, 66, 2)).is_ok();
    writer.publish(rt);
    let second = shown(&mut reader, 1, &mut tail);
    let three = writer.add(&change(1, 67, 3)).is_ok();
    let last = writer.last(rt);
    let third = shown(&mut reader, 1, &mut tail);
    writer.close(rt);
    let _unused = last?;
    if one && two && three {
        Ok([first, second, third])
    } else {
        Err(NoMemory)
    }
}

// No clause says that a read looks at what is shared: one that never did would leave the reader as it is.
#[test]
fn a_read_looks_for_what_was_published(rt: HostRuntime) -> Result<(), Fail> {
    let [first, second, third] = untold(&rt, rt.alloc())?;
    assert!(rt; first == [1, 1, 65, 65]);
    assert!(rt; second == [3, 3, 65, 66]);
    assert!(rt; third == [6, 6, 65, 67]);
    Ok(())
}

// Tells a reader what is published, where there is memory for a note.
fn inform(writer: &BoardWriter, reader: &mut BoardReader)
    requires { reader.old.board ≡ writer.now.board }
    ensures { (reader.new.board ≡ reader.old.board) × (reader.new.legs ≡ reader.old.legs) }
{
    if let Ok(note) = writer.tell() {
        reader.learn(note);
    }
}

// What is read after the end, of a leg and of one that got no change, and what a stranger's change does. The writer is gone by then.
fn to_the_end<R: Wait>(rt: &R, alloc: Global) -> Result<[[u64; 4]; 2], NoMemory> {
    let (mut writer, mut reader) = Board::new(rt, alloc, 3)?;
    let mut tail = Tail::new();
    let good = writer.add(&change(2, 65, 3)).is_ok() && writer.add(&change(7, 66, 5)).is_ok();
    inform(&writer, &mut reader);
    writer.publish(rt);
    let more = writer.add(&change(2, 67, 1)).is_ok();
    let last = writer.last(rt);
    writer.close(rt);
    reader.learn(last?);
    let mine = shown(&mut reader, 2, &mut tail);
    let other = shown(&mut reader, 0, &mut tail);
    if good && more {
        Ok([mine, other])
    } else {
        Err(NoMemory)
    }
}

#[test]
fn all_is_read_after_the_end(rt: HostRuntime) -> Result<(), Fail> {
    let [mine, other] = to_the_end(&rt, rt.alloc())?;
    assert!(rt; mine == [4, 4, 65, 67]);
    assert!(rt; other == [0, 0, 0, 0]);
    Ok(())
}

// The octet with this number.
fn octet_at(number: u64) -> u8 {
    (number % 251) as u8
}

// Publishes so many changes of one octet each, one by one.
fn publish_many<R: Wait>(rt: &R, writer: &mut BoardWriter, count: u64)
    requires { writer.old.ended ≡ false }
    ensures { (writer.new.ended ≡ false) × (writer.new.board ≡ writer.old.board) × (writer.new.legs ≡ writer.old.legs) }
{
    for number in 0..count {
        if writer.add(&change(0, octet_at(number), 1)).is_ok() {
            writer.publish(rt);
        }
    }
}

// Whether a state is one that was published: its first and its last octet are those of its total.
fn was_published(state: [u64; 4]) -> bool {
    let [total, len, first, end] = state;
    if total == 0 {
        return len == 0;
    }
    len == total.min(2048)
        && first == octet_at(total.saturating_sub(len)) as u64
        && end == octet_at(total.saturating_sub(1)) as u64
}

// Reads until so many octets came, or so often. The answer is whether all states were published ones, in their order.
fn read_many(mut reader: BoardReader, count: u64, most: u64) -> (BoardReader, bool)
    requires { 0 < reader.legs }
    ensures { (result.0.legs ≡ reader.legs) × (result.0.board ≡ reader.board) }
{
    let mut tail = Tail::new();
    let mut total = 0;
    let mut good = true;
    for _ in 0..most {
        let state = shown(&mut reader, 0, &mut tail);
        if state[0] < total || !was_published(state) {
            good = false;
        }
        total = state[0];
        if total >= count {
            break;
        }
    }
    (reader, good)
}

// What a thread saw that reads while another publishes, and its reader.
fn read_all(reader: BoardReader) -> (BoardReader, bool) {
    if reader.legs() == 0 {
        return (reader, false);
    }
    read_many(reader, 10_000, 100_000)
}

// So do all of these, each on a thread.
fn read_on_threads<R: Threads + Sync>(
    rt: &R,
    readers: Vec<BoardReader>,
) -> Result<Vec<(BoardReader, bool)>, NoMemory> {
    match map_vec(
        rt,
        readers,
        &|reader: BoardReader| -> (BoardReader, bool) { read_all(reader) },
    ) {
        Ok(read) => Ok(read),
        Err(AllocError) => Err(NoMemory),
    }
}

// Whether each saw only states that were published, in their order, and then has this one.
fn have_all(read: Vec<(BoardReader, bool)>, end: [u64; 4]) -> bool {
    let mut tail = Tail::new();
    for one in read {
        let (mut reader, good) = one;
        if reader.legs() == 0 {
            return false;
        }
        let last = shown(&mut reader, 0, &mut tail);
        if !good || last != end {
            return false;
        }
    }
    true
}

// Three threads read while this one publishes 10,000 times. The answer is how many there were, and whether all was as it is to be.
fn read_by_three<R: Threads + Wait + Sync>(
    rt: &R,
    alloc: Global,
    end: [u64; 4],
) -> Result<(usize, bool), NoMemory> {
    let (mut writer, readers) = Board::with_readers(rt, alloc, 2, 3)?;
    let (read, ()) = join(
        rt,
        move || read_on_threads(rt, readers),
        || publish_many(rt, &mut writer, 10_000),
    );
    let answer = match read {
        Ok(read) => Ok((read.len(), have_all(read, end))),
        Err(NoMemory) => Err(NoMemory),
    };
    writer.close(rt);
    answer
}

#[test]
fn three_threads_read_what_another_publishes(rt: HostRuntime) -> Result<(), Fail> {
    let end = [10_000, 2048, octet_at(7952) as u64, octet_at(9999) as u64];
    let (count, good) = read_by_three(&rt, rt.alloc(), end)?;
    assert!(rt; count == 3);
    assert!(rt; good);
    Ok(())
}
