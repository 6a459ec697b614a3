//! Examples of what waits, and the table beside one of plain lists.
ghost use Rattle.std.specs.Prelude.{◌≡◌, ◌<◌, ◌≤◌, length};

mod plain;

use crate::Slots;
use plain::{LEGS, Plain};
use rtt_base::limits::MOST_TEXT_OCTETS;
use rtt_base::{Chunk, Full, Text};
use std::alloc::Global;
use std::process::Abort;
use std::test::Fail;

/// Puts so many octets into the text, in place of what was there.
fn fill(text: &mut Text, octets: usize, first: u8) {
    text.clear();
    for index in 0..octets {
        if text.len() < MOST_TEXT_OCTETS {
            text.push((first ^ (index % 128) as u8) % 128);
        }
    }
}

/// A chunk of this source, of so many octets.
fn chunk_of_length(source: u8, octets: usize) -> Chunk
    ensures { result.source ≡ source }
{
    let mut text = Text::new();
    fill(&mut text, octets, b'A');
    Chunk {
        source,
        ready: 0,
        text,
    }
}

/// Offers a chunk. One whose text is no UTF-8 counts as refused.
fn offer(slots: &mut Slots, chunk: &Chunk) -> Result<(), Full>
    requires { chunk.now.source < length slots.old }
    ensures { length slots.new ≡ length slots.old }
{
    let Ok(_) = str::from_utf8(chunk.text.as_slice()) else {
        return Err(Full);
    };
    slots.offer(chunk)
}

/// How many of so many offers of the chunk are taken.
fn count_taken(slots: &mut Slots, chunk: &Chunk, offers: u32) -> u32
    requires { chunk.now.source < length slots.old }
    ensures { length slots.new ≡ length slots.old }
{
    let mut count = 0;
    for _ in 0..offers {
        if offer(slots, chunk).is_ok() {
            count += 1;
        }
    }
    count
}

#[test]
fn sixteen_chunks_of_a_thousand_octets_wait_and_no_more(rt: HostRuntime) -> Result<(), Fail> {
    let mut slots = Slots::new(rt.alloc(), 2)?;
    assert_eq!(rt; count_taken(&mut slots, &chunk_of_length(0, 1000), 17), 16);
    assert_eq!(rt; slots.waiting(1, 0), 16000);
    assert!(rt; offer(&mut slots, &chunk_of_length(0, 384)).is_ok());
    assert!(rt; offer(&mut slots, &chunk_of_length(0, 1)).is_err());
    assert!(rt; offer(&mut slots, &chunk_of_length(1, 1)).is_ok());
    Ok(())
}

#[test]
fn chunks_of_one_octet_wait_to_512(rt: HostRuntime) -> Result<(), Fail> {
    let mut slots = Slots::new(rt.alloc(), 2)?;
    let chunk = chunk_of_length(0, 1);
    assert_eq!(rt; count_taken(&mut slots, &chunk, 513), 512);
    let mut text = Text::new();
    slots.take(1, 0, 100, &mut text);
    assert_eq!(rt; text.len(), 100);
    assert_eq!(rt; count_taken(&mut slots, &chunk, 101), 100);
    Ok(())
}

#[test]
fn whole_chunks_are_taken_by_each_terminal_for_itself(rt: HostRuntime) -> Result<(), Fail> {
    let mut slots = Slots::new(rt.alloc(), 3)?;
    slots.listen(2, false);
    let mut chunk = chunk_of_length(0, 0);
    chunk.text.append("Hello, ".as_bytes())?;
    offer(&mut slots, &chunk)?;
    slots.listen(2, true);
    chunk.text.clear();
    chunk.text.append("world".as_bytes())?;
    offer(&mut slots, &chunk)?;
    assert_eq!(rt; slots.waiting(1, 0), 12);
    assert!(rt; !slots.has_waiting(0, 0));

    let mut text = Text::new();
    slots.take(1, 0, 11, &mut text);
    assert!(rt; text.as_slice() == "Hello, ".as_bytes());
    slots.take(1, 0, 5, &mut text);
    assert!(rt; text.as_slice() == "Hello, world".as_bytes());
    assert!(rt; !slots.has_waiting(1, 0));

    text.clear();
    slots.listen(2, false);
    offer(&mut slots, &chunk)?;
    assert_eq!(rt; slots.waiting(1, 0), 5);
    slots.take(2, 0, 1023, &mut text);
    assert!(rt; text.as_slice() == "world".as_bytes());
    assert!(rt; !slots.has_waiting(2, 0));
    Ok(())
}

/// Sixteen legs take fewer than 100 requests of memory: this passes where the 100th is refused.
#[test]
fn sixteen_legs_take_few_requests_of_memory(rt: HostRuntime) {
    assert!(rt; Slots::new(rt.alloc(), 16).is_ok());
}

/// Numbers that look like chance, from a linear congruence.
#[derive(Drop)]
struct Chance(u64);

impl Chance {
    fn below(&mut self, end: u64) -> u64
        requires { 0 < end }
        ensures { result < end }
    {
        self.0 = self
            .0
            .wrapping_mul(6364136223846793005)
            .wrapping_add(1442695040888963407);
        (self.0 >> 33) % end
    }
}

/// The table and the plain one, which are given the same calls.
#[derive(Drop)]
struct Both {
    slots: Slots,
    plain: Plain,
    listens: [bool; LEGS],
    chunk: Chunk,
    text: Text,
    plain_text: Text,
    ghost legs: { length slots ≡ 4 },
}

impl Both {
    fn new(alloc: Global) -> Result<Both, Fail> {
        Ok(Both {
            slots: Slots::new(alloc, LEGS)?,
            plain: Plain::new(alloc),
            listens: [true; LEGS],
            chunk: chunk_of_length(0, 0),
            text: Text::new(),
            plain_text: Text::new(),
        })
    }

    /// Whether both take the chunk.
    fn offer(&mut self, rt: &impl Abort, source: u8, octets: usize) -> Result<bool, Fail>
        requires { source < LEGS }
    {
        fill(&mut self.chunk.text, octets, source);
        self.chunk.source = source;
        let is_taken = self.plain.offer(&self.chunk)?;
        assert_eq!(rt; offer(&mut self.slots, &self.chunk).is_ok(), is_taken);
        Ok(is_taken)
    }

    fn take(&mut self, rt: &impl Abort, terminal: usize, source: usize, room: usize)
        requires { (terminal < LEGS) × (source < LEGS) × (room ≤ 1023) }
    {
        self.text.clear();
        self.plain_text.clear();
        self.slots.take(terminal, source, room, &mut self.text);
        self.plain
            .take(terminal, source, room, &mut self.plain_text);
        assert!(rt; self.text.as_slice() == self.plain_text.as_slice());
        assert_eq!(rt;
            self.slots.waiting(terminal, source),
            self.plain.waiting(terminal, source)
        );
    }

    /// The terminal listens no more, or again where nothing waits for it.
    fn turn(&mut self, terminal: usize)
        requires { terminal < LEGS }
    {
        let on = !self.listens[terminal];
        let mut is_free = true;
        for source in 0..LEGS {
            is_free = is_free && !self.plain.has_waiting(terminal, source);
        }
        if !on || is_free {
            self.slots.listen(terminal, on);
            self.plain.listen(terminal, on);
            self.listens[terminal] = on;
        }
    }

    /// Makes a call by chance, and looks at what waits. Whether a chunk was given back.
    fn step(&mut self, rt: &impl Abort, chance: &mut Chance) -> Result<bool, Fail> {
        let source = chance.below(4) as u8;
        let terminal = chance.below(4) as usize;
        let kind = chance.below(64);
        let octets = [1023, 0, 12, 300][chance.below(4) as usize];
        let mut is_full = false;
        if kind == 0 {
            self.turn(terminal);
        } else if kind < 40 {
            is_full = !self.offer(rt, source, octets)?;
        } else {
            self.take(rt, terminal, source as usize, octets);
        }
        let waits = self.plain.has_waiting(terminal, source as usize);
        assert_eq!(rt; self.slots.has_waiting(terminal, source as usize), waits);
        Ok(is_full)
    }
}

#[test]
fn rings_and_plain_lists_give_the_same(rt: HostRuntime) -> Result<(), Fail> {
    let mut both = Both::new(rt.alloc())?;
    let mut chance = Chance(1);
    let mut given_back = 0u32;
    for _ in 0..2000 {
        if both.step(&rt, &mut chance)? {
            given_back = given_back.saturating_add(1);
        }
    }
    assert!(rt; given_back > 100, "{given_back}");
    assert!(rt; given_back < 1000, "{given_back}");
    Ok(())
}
