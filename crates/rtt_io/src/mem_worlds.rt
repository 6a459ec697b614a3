//! A world in memory.
ghost use Rattle.std.specs.Prelude.{◌≡◌, ℕ, List, [], Option, OnOk, OnErr, IfOk, IfSome, map, option_map, option_copied};
ghost use Rattle.rtt_io.specs.Files.{octets_of, own_of, objects_of};
ghost use Rattle.rtt_io.specs.Names.{Same, SameBut};
ghost use Rattle.rtt_io.specs.Worlds.{octets_held, own_counted, objects_counted, Stores, Counts};

use crate::mem_files::{MemFile, place};
use crate::{FailingCalls, FailingWrite, Faults, MemSink, MemSource, Sink, Source, World};
use rtt_base::{Bytes, Failed, NoMemory, Path};
use std::alloc::Global;

/// A call that is to fail.
#[derive(Debug, Drop)]
pub enum FailingCall {
    /// Each `open_source` of this name.
    Open(Path),
    /// A read of each source of this name, by its number. The first read has number 1.
    Read(Path, u64),
    /// Each `create_sink` of this name.
    Create(Path),
    /// A write to each sink of this name.
    Write(Path, FailingWrite),
}

/// Files in memory, and a list of the calls that are to fail. Where that list is empty, a call fails only where
/// memory runs out, or where a name is opened under which nothing is. A fault that no file can count, since none
/// has its name, counts for every name.
#[derive(Debug, Drop)]
pub struct MemWorld {
    alloc: Global,
    files: Vec<MemFile>,
    failing: Vec<FailingCall>,
    faults: Faults,
}

impl World for MemWorld {
    type Src = MemSource;

    type Dst = MemSink;

    type Part = MemSink;

    ghost tells = { Unit {0} };

    ghost contents = { λ world. octets_of world.files.items };

    ghost own_faults = { λ world. own_of world.faults world.files.items };

    ghost object_faults = { λ world. objects_of world.faults world.files.items };

    fn open_source(&mut self, name: &str) -> Result<MemSource, Failed> {
        match self.source(name) {
            Some(source) => Ok(source),
            None => {
                self.count(name, Faults::one_own());
                Err(Failed)
            }
        }
    }

    fn create_sink(&mut self, name: &str) -> Result<MemSink, Failed> {
        match self.sink(name) {
            Some(sink) if self.make_empty(name).is_ok() => Ok(sink),
            _ => {
                self.count(name, Faults::one_own());
                Err(Failed)
            }
        }
    }

    fn done_src(&mut self, source: MemSource) {
        self.count(source.name.as_str(), Faults::of_objects(source.faults));
    }

    fn done_dst(&mut self, sink: MemSink) {
        let taken = sink.taken;
        self.count(sink.name.as_str(), Faults::of_objects(sink.faults));
        self.store(sink.name.as_str(), taken);
    }

    // Where a call is to fail, each write is one of the sink.
    fn part(&self, name: &str) -> Option<MemSink> {
        if !self.failing.is_empty() {
            return None;
        }
        let path = Path::from_text(self.alloc, name).ok()?;
        Some(MemSink::new(self.alloc, path))
    }

    fn give(&mut self, part: MemSink, sink: &mut MemSink) -> Result<(), Failed> {
        sink.write_all(part.taken())
    }
}

impl MemWorld {
    /// A world that holds nothing and in which no call is to fail. It takes no memory.
    pub fn new(alloc: Global) -> MemWorld
        ensures empty { (n : List ℕ) → ⟦<MemWorld as World>⟧.contents result n ≡ None }
        ensures fresh { (n : List ℕ) → ⟦<MemWorld as World>⟧.own_faults result n ≡ 0 }
        ensures fresh_objects { (n : List ℕ) → ⟦<MemWorld as World>⟧.object_faults result n ≡ 0 }
    {
        MemWorld {
            alloc,
            files: Vec::new(alloc),
            failing: Vec::new(alloc),
            faults: Faults::none(),
        }
    }

    /// Puts a file into the world, in place of what was under its name.
    pub fn add_file(&mut self, name: &str, octets: &[u8]) -> Result<(), NoMemory>
        ensures ok { OnOk result (⟦<MemWorld as World>⟧.contents self.new name.now ≡ Some octets.now) }
        ensures others { SameBut name.now ⟦<MemWorld as World>⟧.contents self.old self.new }
        ensures err { OnErr result (Same ⟦<MemWorld as World>⟧.contents self.old self.new) }
        ensures same_own { Same ⟦<MemWorld as World>⟧.own_faults self.old self.new }
        ensures same_objects { Same ⟦<MemWorld as World>⟧.object_faults self.old self.new }
    {
        let mut copy = Bytes::new(self.alloc);
        copy.append(octets)?;
        self.make_empty(name)?;
        self.store(name, copy);
        Ok(())
    }

    /// This call is to fail.
    pub fn fail(&mut self, call: FailingCall) -> Result<(), NoMemory>
        ensures same_contents { Same ⟦<MemWorld as World>⟧.contents self.old self.new }
        ensures same_own { Same ⟦<MemWorld as World>⟧.own_faults self.old self.new }
        ensures same_objects { Same ⟦<MemWorld as World>⟧.object_faults self.old self.new }
    {
        self.failing.push(call)?;
        Ok(())
    }

    /// What is under a name.
    pub fn contents(&self, name: &str) -> Option<&[u8]>
        ensures { option_map (λ octets. octets.now) result ≡ ⟦<MemWorld as World>⟧.contents self.now name.now }
    {
        let at = place(self.files.as_slice(), name)?;
        Some(self.files[at].octets.as_slice())
    }

    // The source of a name, where its opening is not to fail, something is under the name and there is memory.
    fn source(&self, name: &str) -> Option<MemSource>
        ensures named { IfSome result (λ source. source.name ≡ name.now) }
        ensures fresh { IfSome result (λ source. source.faults ≡ 0) }
        ensures holds { IfSome result (λ source. octets_held self.now name.now ≡ Some (⟦<MemSource as Source>⟧.left source)) }
    {
        if self.fails_to_open(name) {
            return None;
        }
        let stored = self.contents(name)?;
        self.source_of(name, stored).ok()
    }

    // A source of these octets, with the reads that are to fail under this name.
    fn source_of(&self, name: &str, stored: &[u8]) -> Result<MemSource, NoMemory>
        ensures named { IfOk result (λ source. source.name ≡ name.now) }
        ensures fresh { IfOk result (λ source. source.faults ≡ 0) }
        ensures holds { IfOk result (λ source. ⟦<MemSource as Source>⟧.left source ≡ stored.now) }
    {
        let mut octets = Bytes::new(self.alloc);
        octets.append(stored)?;
        let mut source = MemSource::new(self.alloc, Path::from_text(self.alloc, name)?, octets);
        let (reads, _writes) = self.failing_of(name)?;
        source.reads = reads;
        Ok(source)
    }

    // The sink of a name, where its creation is not to fail and there is memory.
    fn sink(&self, name: &str) -> Option<MemSink>
        ensures named { IfSome result (λ sink. sink.name ≡ name.now) }
        ensures fresh { IfSome result (λ sink. sink.faults ≡ 0) }
        ensures empty { IfSome result (λ sink. sink.taken ≡ []) }
    {
        if self.fails_to_create(name) {
            return None;
        }
        let path = Path::from_text(self.alloc, name).ok()?;
        let mut sink = MemSink::new(self.alloc, path);
        let (_reads, writes) = self.failing_of(name).ok()?;
        sink.failing = writes;
        Some(sink)
    }

    fn fails_to_open(&self, name: &str) -> bool {
        self.failing.iter().any(|call| match call {
            FailingCall::Open(path) => path.as_str() == name,
            _ => false,
        })
    }

    fn fails_to_create(&self, name: &str) -> bool {
        self.failing.iter().any(|call| match call {
            FailingCall::Create(path) => path.as_str() == name,
            _ => false,
        })
    }

    // The reads and the writes of a name that are to fail.
    fn failing_of(&self, name: &str) -> Result<(FailingCalls, Vec<FailingWrite>), NoMemory> {
        let mut reads = FailingCalls::none(self.alloc);
        let mut writes = Vec::new(self.alloc);
        for call in &self.failing {
            match call {
                FailingCall::Read(path, read) if path.as_str() == name => reads.fail_at(*read)?,
                FailingCall::Write(path, write) if path.as_str() == name => writes.push(*write)?,
                _ => {}
            }
        }
        Ok((reads, writes))
    }

    // Makes what is under a name empty.
    fn make_empty(&mut self, name: &str) -> Result<(), NoMemory>
        ensures ok { OnOk result (octets_held self.new name.now ≡ Some []) }
        ensures others { SameBut name.now octets_held self.old self.new }
        ensures err { OnErr result (Same octets_held self.old self.new) }
        ensures same_own { Same own_counted self.old self.new }
        ensures same_objects { Same objects_counted self.old self.new }
    {
        if let Some(at) = place(self.files.as_slice(), name) {
            let file = &mut self.files[at];
            file.octets.clear();
            return Ok(());
        }
        let file = MemFile {
            name: Path::from_text(self.alloc, name)?,
            octets: Bytes::new(self.alloc),
            faults: Faults::none(),
        };
        self.files.push(file)?;
        Ok(())
    }

    // Puts octets in place of what is under a name, where something is.
    fn store(&mut self, name: &str, octets: Bytes)
        ensures { Stores name.now octets self.old self.new }
    {
        if let Some(at) = place(self.files.as_slice(), name) {
            let file = &mut self.files[at];
            file.octets = octets;
        }
    }

    // Counts so many more faults of a name.
    fn count(&mut self, name: &str, more: Faults)
        ensures { Counts name.now more self.old self.new }
    {
        match place(self.files.as_slice(), name) {
            Some(at) => {
                let file = &mut self.files[at];
                file.faults = file.faults.and(more);
            }
            None => self.faults = self.faults.and(more),
        }
    }
}
