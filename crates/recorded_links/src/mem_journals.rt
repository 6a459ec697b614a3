//! Journals in memory.
ghost use Rattle.std.specs.Prelude.{◌≡◌, ℕ, List, None, Some, OnOk, OnErr, option_map};
ghost use Rattle.rtt_io.specs.Names.{Same, SameBut};

use crate::Journals;
use rtt_base::{Failed, NoMemory};
use rtt_io::{FailingCall, MemSink, MemWorld, World};
use std::alloc::Global;

/// Files in memory, and a list of the calls that are to fail. Where that list is empty, a call fails only where memory runs out, or
/// where a file is to be made under a name under which something is. That counts for every name.
#[derive(Debug, Drop)]
pub struct MemJournals {
    world: MemWorld,
    refused: u64,
}

impl Journals for MemJournals {
    ghost use Rattle.rtt_io.specs.Counts.{counted};

    type File = MemSink;

    ghost tells = { Unit {0} };

    ghost contents = { λ journals. ⟦<MemWorld as World>⟧.contents journals.world };

    ghost own_faults = { λ journals name. counted journals.refused (⟦<MemWorld as World>⟧.own_faults journals.world name) };

    ghost object_faults = { λ journals. ⟦<MemWorld as World>⟧.object_faults journals.world };

    fn begin(&mut self, name: &str) -> Result<MemSink, Failed> {
        if self.world.contents(name).is_some() {
            self.refused = self.refused.saturating_add(1);
            return Err(Failed);
        }
        self.world.create_sink(name)
    }

    fn done(&mut self, file: MemSink) {
        self.world.done_dst(file);
    }
}

impl MemJournals {
    /// Journals that hold nothing and in which no call is to fail. It takes no memory.
    pub fn new(alloc: Global) -> MemJournals
        ensures empty { (n : List ℕ) → ⟦<MemJournals as Journals>⟧.contents result n ≡ None }
        ensures fresh { (n : List ℕ) → ⟦<MemJournals as Journals>⟧.own_faults result n ≡ 0 }
        ensures fresh_objects { (n : List ℕ) → ⟦<MemJournals as Journals>⟧.object_faults result n ≡ 0 }
    {
        MemJournals {
            world: MemWorld::new(alloc),
            refused: 0,
        }
    }

    /// Puts a file there, in place of what was under its name.
    pub fn add_file(&mut self, name: &str, octets: &[u8]) -> Result<(), NoMemory>
        ensures ok { OnOk result (⟦<MemJournals as Journals>⟧.contents self.new name.now ≡ Some octets.now) }
        ensures others { SameBut name.now ⟦<MemJournals as Journals>⟧.contents self.old self.new }
        ensures err { OnErr result (Same ⟦<MemJournals as Journals>⟧.contents self.old self.new) }
        ensures same_own { Same ⟦<MemJournals as Journals>⟧.own_faults self.old self.new }
        ensures same_objects { Same ⟦<MemJournals as Journals>⟧.object_faults self.old self.new }
    {
        self.world.add_file(name, octets)
    }

    /// This call is to fail: a `begin` is one that creates, what a file takes is a write to it.
    pub fn fail(&mut self, call: FailingCall) -> Result<(), NoMemory>
        ensures same_contents { Same ⟦<MemJournals as Journals>⟧.contents self.old self.new }
        ensures same_own { Same ⟦<MemJournals as Journals>⟧.own_faults self.old self.new }
        ensures same_objects { Same ⟦<MemJournals as Journals>⟧.object_faults self.old self.new }
    {
        self.world.fail(call)
    }

    /// What is under a name.
    pub fn contents(&self, name: &str) -> Option<&[u8]>
        ensures { option_map (λ octets. octets.now) result ≡ ⟦<MemJournals as Journals>⟧.contents self.now name.now }
    {
        self.world.contents(name)
    }
}
