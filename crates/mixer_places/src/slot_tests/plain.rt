//! The table of four legs as plain lists: of each source all chunks that were taken. Nothing is ever given up, and memory may run
//! out with each chunk.
ghost use Rattle.std.specs.Prelude.{◌<◌};

use mixer_spec::limits::{MOST_SPAN_CHUNKS, MOST_SPAN_OCTETS};
use rtt_base::{Chunk, NoMemory, Text};
use std::alloc::Global;

/// How many legs there are.
pub const LEGS: usize = 4;

/// A chunk that was taken.
#[derive(Drop)]
struct TakenChunk {
    text: Text,
    /// Of each terminal, whether it still waits there.
    waits: [bool; LEGS],
}

/// The chunks of one source.
#[derive(Drop)]
struct PlainLane {
    /// Of each terminal, whether it hears what comes.
    heard: [bool; LEGS],
    taken: Vec<TakenChunk>,
}

impl PlainLane {
    /// It is heard by each terminal but the source's own.
    fn new(alloc: Global, own: usize) -> PlainLane
        requires { own < LEGS }
    {
        let mut heard = [true; LEGS];
        heard[own] = false;
        PlainLane {
            heard,
            taken: Vec::new(alloc),
        }
    }

    /// Whether the chunks, from the oldest that still waits on, have room for one of so many octets.
    fn has_room(&self, octets: usize) -> bool {
        let mut chunks = 0usize;
        let mut all = octets;
        for taken in self.taken.iter() {
            if chunks > 0 || taken.waits.contains(&true) {
                chunks = chunks.saturating_add(1);
                all = all.saturating_add(taken.text.len());
            }
        }
        chunks == 0 || chunks < MOST_SPAN_CHUNKS && all <= MOST_SPAN_OCTETS
    }

    /// Takes the chunk, if there is room for it.
    fn offer(&mut self, chunk: &Chunk) -> Result<bool, NoMemory> {
        if !self.has_room(chunk.text.len()) {
            return Ok(false);
        }
        let mut text = Text::new();
        let _ = text.append(chunk.text.as_slice());
        self.taken.push(TakenChunk {
            text,
            waits: self.heard,
        })?;
        Ok(true)
    }

    /// How many octets wait at the terminal.
    fn waiting(&self, terminal: usize) -> usize
        requires { terminal < LEGS }
    {
        let mut octets = 0usize;
        for taken in self.taken.iter() {
            if taken.waits[terminal] {
                octets = octets.saturating_add(taken.text.len());
            }
        }
        octets
    }

    /// Whether a chunk waits at the terminal.
    fn has_waiting(&self, terminal: usize) -> bool
        requires { terminal < LEGS }
    {
        self.taken.iter().any(|taken| taken.waits[terminal])
    }

    /// Appends the longest list of whole chunks with at most `room` octets that waits at the terminal, and takes it from there.
    fn take(&mut self, terminal: usize, room: usize, text: &mut Text)
        requires { terminal < LEGS }
    {
        let mut left = room;
        for taken in self.taken.iter_mut() {
            if taken.waits[terminal] {
                if taken.text.len() > left {
                    return;
                }
                left -= taken.text.len();
                taken.waits[terminal] = false;
                let _ = text.append(taken.text.as_slice());
            }
        }
    }
}

/// The chunks that wait, as `Slots` has them.
#[derive(Drop)]
pub struct Plain {
    lanes: [PlainLane; LEGS],
}

impl Plain {
    /// Nothing waits, and every terminal listens.
    pub fn new(alloc: Global) -> Plain {
        Plain {
            lanes: [
                PlainLane::new(alloc, 0),
                PlainLane::new(alloc, 1),
                PlainLane::new(alloc, 2),
                PlainLane::new(alloc, 3),
            ],
        }
    }

    /// Whether the terminal hears what is offered from now on. Where it is to, nothing may wait for it.
    pub fn listen(&mut self, terminal: usize, on: bool)
        requires { terminal < LEGS }
    {
        for source in 0..LEGS {
            self.lanes[source].heard[terminal] = on && source != terminal;
        }
    }

    /// Lets a chunk of its source wait for each other terminal that listens, and says so. Not where the source's span with the
    /// chunk is too long.
    pub fn offer(&mut self, chunk: &Chunk) -> Result<bool, NoMemory>
        requires { chunk.now.source < LEGS }
    {
        self.lanes[chunk.source as usize].offer(chunk)
    }

    /// The octets of the source that wait at the terminal.
    pub fn waiting(&self, terminal: usize, source: usize) -> usize
        requires { (terminal < LEGS) × (source < LEGS) }
    {
        self.lanes[source].waiting(terminal)
    }

    /// Whether a chunk of the source waits at the terminal.
    pub fn has_waiting(&self, terminal: usize, source: usize) -> bool
        requires { (terminal < LEGS) × (source < LEGS) }
    {
        self.lanes[source].has_waiting(terminal)
    }

    /// Appends what waits of the source at the terminal, at most `room` octets in whole chunks, and takes it from there.
    pub fn take(&mut self, terminal: usize, source: usize, room: usize, text: &mut Text)
        requires { (terminal < LEGS) × (source < LEGS) }
    {
        self.lanes[source].take(terminal, room, text)
    }
}
