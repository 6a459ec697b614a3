//! Sinks in memory.
ghost use Rattle.std.specs.Prelude.{◌≡◌, ◌≤◌, [], ◌++◌, length, OnOk, OnErr};
ghost use Rattle.rtt_io.specs.Alike.{SameSink};
ghost use Rattle.rtt_io.specs.Counts.{Rose};
ghost use Rattle.rtt_io.specs.Fronts.{TakesFront};

use crate::Sink;
use rtt_base::{Bytes, Failed, NoMemory, Path};
use std::alloc::Global;

/// A write that is to fail.
#[derive(Clone, Copy, Debug, PartialEq, Eq)]
pub struct FailingWrite {
    /// Its number. The first write has number 1.
    pub write: u64,
    /// How many octets it still takes.
    pub through: usize,
}

/// A sink in memory, of whose writes some are to fail. A part is a write too. One for which there is no memory fails too.
#[derive(Debug, Drop)]
pub struct MemSink {
    pub(crate) name: Path,
    pub(crate) taken: Bytes,
    // how many writes were made
    writes: u64,
    pub(crate) failing: Vec<FailingWrite>,
    pub(crate) faults: u64,
}

impl Sink for MemSink {
    ghost tells = { Unit {0} };

    ghost took = { λ sink. sink.taken };

    ghost stored = { λ sink. sink.taken };

    ghost faults = { λ sink. sink.faults };

    ghost name = { λ sink. sink.name };

    fn write_part(&mut self, bytes: &[u8]) -> Result<(), Failed> {
        self.write(bytes)
    }

    fn write_all(&mut self, bytes: &[u8]) -> Result<(), Failed> {
        self.write(bytes)
    }
}

impl MemSink {
    /// An empty sink, none of whose writes is to fail. It takes no memory.
    pub fn new(alloc: Global, name: Path) -> MemSink
        ensures empty { ⟦<MemSink as Sink>⟧.took result ≡ [] }
        ensures named { ⟦<MemSink as Sink>⟧.name result ≡ name }
        ensures fresh { ⟦<MemSink as Sink>⟧.faults result ≡ 0 }
    {
        MemSink {
            name,
            taken: Bytes::new(alloc),
            writes: 0,
            failing: Vec::new(alloc),
            faults: 0,
        }
    }

    /// This write is to fail.
    pub fn fail_at(&mut self, write: FailingWrite) -> Result<(), NoMemory>
        ensures { SameSink ⟦<MemSink as Sink>⟧ self.old self.new }
    {
        self.failing.push(write)?;
        Ok(())
    }

    /// What it took so far.
    pub fn taken(&self) -> &[u8]
        ensures { result.now ≡ ⟦<MemSink as Sink>⟧.took self.now }
    {
        self.taken.as_slice()
    }

    // Makes one write: it takes all octets, or fails and took some of them from the front, or none.
    fn write(&mut self, bytes: &[u8]) -> Result<(), Failed>
        ensures never_falls { self.old.faults ≤ self.new.faults }
        ensures failed { OnErr result (Rose self.old.faults self.new.faults) }
        ensures same_name { self.new.name ≡ self.old.name }
        ensures calm { OnOk result (self.new.faults ≡ self.old.faults) }
        ensures appended { OnOk result (self.new.taken ≡ self.old.taken ++ bytes.now) }
        ensures prefix { OnErr result (TakesFront self.old.taken self.new.taken bytes.now) }
    {
        self.writes = self.writes.saturating_add(1);
        let through = self.through();
        let number = through.unwrap_or(bytes.len()).min(bytes.len());
        if self.taken.append(&bytes[..number]).is_err() || through.is_some() {
            self.faults = self.faults.saturating_add(1);
            return Err(Failed);
        }
        Ok(())
    }

    // How many octets the write of the present number still takes, where it is to fail.
    fn through(&self) -> Option<usize> {
        self.failing
            .iter()
            .find(|failing| failing.write == self.writes)
            .map(|failing| failing.through)
    }
}
