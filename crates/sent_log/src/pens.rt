//! What the next packet to a terminal needs of those before it.
ghost use Rattle.std.specs.Prelude.{◌≡◌, ◌+◌, ◌%◌, ◌<◌, true, All, List, length, map, slice_index_or, slice_set, vec_len, IfOk};
ghost use Rattle.sent_log.specs.declared.repeats.PacketKey.{PacketKey};
ghost use Rattle.sent_log.specs.Repeats.{anew, fresh, with_one};

use crate::repeats::{PacketKey, Repeats};
use rtt_base::NoMemory;
use std::alloc::Global;

/// What the next packet to a terminal needs of those before it, where all that was sent is kept elsewhere.
#[derive(Drop)]
pub struct Pen {
    /// The next sequence number.
    pub(crate) seq: u16,
    /// The last packets of each source.
    pub(crate) sources: Vec<Repeats>,
}

/// So many sources of which nothing was sent.
fn fresh_sources(alloc: Global, count: usize) -> Result<Vec<Repeats>, NoMemory>
    ensures count { IfOk result (λ sources. vec_len sources ≡ count) }
    ensures fresh { IfOk result (λ sources. All (λ r. r ≡ fresh) sources.items) }
{
    let mut sources = Vec::with_capacity(alloc, count)?;
    for _source in 0..count {
        sources.push(Repeats::new())?;
    }
    Ok(sources)
}

/// Nothing was sent of any of these.
fn forget_all(sources: &mut [Repeats])
    ensures { sources.new ≡ map anew sources.old }
{
    for source in sources.iter_mut() {
        *source = Repeats::new();
    }
}

impl Pen {
    /// A pen to so many sources that has written nothing; its first packet has this sequence number.
    pub fn new(alloc: Global, seq: u16, sources: usize) -> Result<Pen, NoMemory>
        ensures seq { IfOk result (λ pen. pen.seq ≡ seq) }
        ensures count { IfOk result (λ pen. vec_len pen.sources ≡ sources) }
        ensures fresh { IfOk result (λ pen. All (λ r. r ≡ fresh) pen.sources.items) }
    {
        let sources = fresh_sources(alloc, sources)?;
        Ok(Pen { seq, sources })
    }

    /// As if nothing was written.
    pub fn restart(&mut self, seq: u16)
        ensures seq { self.new.seq ≡ seq }
        ensures sources { self.new.sources.items ≡ map anew self.old.sources.items }
    {
        self.seq = seq;
        forget_all(&mut self.sources);
    }

    /// Counts the packet with this timestamp and number, of the source, which is kept.
    pub fn keep(&mut self, source: usize, timestamp: u32, number: usize)
        requires { source < length self.old.sources.items }
        ensures seq { self.new.seq ≡ (self.old.seq + 1) % 65536 }
        ensures sources { (d : List PacketKey) → self.new.sources.items
            ≡ slice_set self.old.sources.items source
            (with_one (record { sent = true; timestamp = timestamp; number = number })
            (slice_index_or self.old.sources.items source d)) }
    {
        self.sources[source].keep(PacketKey {
            sent: true,
            timestamp,
            number,
        });
        self.seq = self.seq.wrapping_add(1);
    }
}
