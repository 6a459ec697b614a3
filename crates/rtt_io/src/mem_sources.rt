//! Sources in memory.
ghost use Rattle.std.specs.Prelude.{◌≡◌, ◌≤◌, ◌<◌, [], ◌++◌, length, take};
ghost use Rattle.rtt_io.specs.Alike.{SameSource};

use crate::reads::hand_out;
use crate::{FailingCalls, Source};
use rtt_base::{Bytes, Failed, NoMemory, Path};
use std::alloc::Global;

/// A source in memory, of whose reads some are to fail.
#[derive(Debug, Drop)]
pub struct MemSource {
    pub(crate) name: Path,
    steady: SteadySource,
    pub(crate) reads: FailingCalls,
    pub(crate) faults: u64,
}

impl Source for MemSource {
    ghost use Rattle.std.specs.Prelude.{drop};

    ghost tells = { Unit {0} };

    ghost left = { λ source. drop source.steady.position source.steady.octets };

    ghost faults = { λ source. source.faults };

    ghost name = { λ source. source.name };

    fn read(&mut self, buf: &mut [u8]) -> Result<usize, Failed> {
        if self.reads.next_fails() {
            self.faults = self.faults.saturating_add(1);
            return Err(Failed);
        }
        Ok(self.steady.next(buf))
    }
}

impl MemSource {
    /// A source of these octets, none of whose reads is to fail. It takes no memory.
    pub fn new(alloc: Global, name: Path, octets: Bytes) -> MemSource
        ensures holds { ⟦<MemSource as Source>⟧.left result ≡ octets }
        ensures named { ⟦<MemSource as Source>⟧.name result ≡ name }
        ensures fresh { ⟦<MemSource as Source>⟧.faults result ≡ 0 }
    {
        MemSource {
            name,
            steady: SteadySource::new(octets),
            reads: FailingCalls::none(alloc),
            faults: 0,
        }
    }

    /// From now on one read answers at most `step` octets.
    pub fn set_step(&mut self, step: usize)
        requires { 0 < step }
        ensures { SameSource ⟦<MemSource as Source>⟧ self.old self.new }
    {
        self.steady.set_step(step);
    }

    /// The read of this number is to fail. The first one has number 1.
    pub fn fail_at(&mut self, read: u64) -> Result<(), NoMemory>
        ensures { SameSource ⟦<MemSource as Source>⟧ self.old self.new }
    {
        self.reads.fail_at(read)
    }
}

/// A source in memory that never fails. It has the empty name.
#[derive(Debug, Drop)]
pub struct SteadySource {
    octets: Bytes,
    // how many of them were read
    position: usize,
    // the most that one read answers
    step: usize,
    ghost within: { position ≤ length octets },
    ghost moves: { 0 < step },
}

impl Source for SteadySource {
    ghost use Rattle.std.specs.Prelude.{drop};

    ghost tells = { Unit {0} };

    ghost left = { λ source. drop source.position source.octets };

    ghost faults = { λ _. 0 };

    ghost name = { λ _. [] };

    fn read(&mut self, buf: &mut [u8]) -> Result<usize, Failed> {
        Ok(self.next(buf))
    }
}

impl SteadySource {
    /// A source of these octets. It takes no memory.
    pub fn new(octets: Bytes) -> SteadySource
        ensures { ⟦<SteadySource as Source>⟧.left result ≡ octets }
    {
        SteadySource {
            octets,
            position: 0,
            step: usize::MAX,
        }
    }

    /// From now on one read answers at most `step` octets.
    pub fn set_step(&mut self, step: usize)
        requires { 0 < step }
        ensures { ⟦<SteadySource as Source>⟧.left self.new ≡ ⟦<SteadySource as Source>⟧.left self.old }
    {
        self.step = step;
    }

    // Hands out the next octets, and answers how many.
    fn next(&mut self, buf: &mut [u8]) -> usize
        requires { 0 < length buf.old }
        ensures fits { result ≤ length buf.new }
        ensures given { ⟦<SteadySource as Source>⟧.left self.old ≡ take result buf.new ++ ⟦<SteadySource as Source>⟧.left self.new }
        ensures ended { result ≡ 0 → ⟦<SteadySource as Source>⟧.left self.old ≡ [] }
    {
        let number = hand_out(&self.octets.as_slice()[self.position..], buf, self.step);
        self.position += number;
        number
    }
}
