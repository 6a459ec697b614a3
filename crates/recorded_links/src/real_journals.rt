//! Files of the system that grow.
ghost use Rattle.std.specs.Prelude.{◌≡◌, ℕ, List, IfSome};

use crate::Journals;
use rtt_base::{Failed, Path};
use rtt_io::{FileSink, Sink};
use std::alloc::Global;
use std::fs::File;
use std::rt::Files;

/// A file of the system that grows under its own name. What `write_part` takes, the system has when it returns; what `write_all`
/// takes, and what came before, is stored then.
#[derive(Drop)]
pub struct GrowingFile {
    sink: FileSink,
    faults: u64,
}

impl Sink for GrowingFile {
    ghost use Rattle.std.specs.Prelude.{[]};

    ghost tells = { ⊥ };

    ghost took = { λ _. [] };

    ghost stored = { λ _. [] };

    ghost faults = { λ file. file.faults };

    ghost name = { λ file. ⟦<FileSink as Sink>⟧.name file.sink };

    fn write_part(&mut self, bytes: &[u8]) -> Result<(), Failed> {
        let Ok(()) = self.sink.write_part(bytes) else {
            self.faults = self.faults.saturating_add(1);
            return Err(Failed);
        };
        Ok(())
    }

    fn write_all(&mut self, bytes: &[u8]) -> Result<(), Failed> {
        let Ok(()) = self.sink.write_all(bytes) else {
            self.faults = self.faults.saturating_add(1);
            return Err(Failed);
        };
        Ok(())
    }
}

/// The files of the system. One number of each kind counts the faults of all names.
#[derive(Drop)]
pub struct RealJournals<R> {
    rt: R,
    alloc: Global,
    own_faults: u64,
    object_faults: u64,
}

impl<R: Files<File = File>> RealJournals<R> {
    /// The files of this runtime. It takes no memory.
    pub fn new(rt: R, alloc: Global) -> RealJournals<R>
        ensures fresh { (n : List ℕ) → ⟦<RealJournals<R> as Journals>⟧.own_faults result n ≡ 0 }
        ensures fresh_objects { (n : List ℕ) → ⟦<RealJournals<R> as Journals>⟧.object_faults result n ≡ 0 }
    {
        RealJournals {
            rt,
            alloc,
            own_faults: 0,
            object_faults: 0,
        }
    }

    // A new file of this name, where the system makes one.
    fn file(&self, name: &str) -> Option<GrowingFile>
        ensures named { IfSome result (λ file. ⟦<GrowingFile as Sink>⟧.name file ≡ name.now) }
        ensures fresh { IfSome result (λ file. ⟦<GrowingFile as Sink>⟧.faults file ≡ 0) }
    {
        let path = Path::from_text(self.alloc, name).ok()?;
        let file = File::create_new(&self.rt, name).ok()?;
        Some(GrowingFile {
            sink: FileSink::new(file, path),
            faults: 0,
        })
    }
}

impl<R: Files<File = File>> Journals for RealJournals<R> {
    ghost use Rattle.std.specs.Prelude.{None};

    type File = GrowingFile;

    ghost tells = { ⊥ };

    ghost contents = { λ _ _. None };

    ghost own_faults = { λ journals _. journals.own_faults };

    ghost object_faults = { λ journals _. journals.object_faults };

    fn begin(&mut self, name: &str) -> Result<GrowingFile, Failed> {
        match self.file(name) {
            Some(file) => Ok(file),
            None => {
                self.own_faults = self.own_faults.saturating_add(1);
                Err(Failed)
            }
        }
    }

    fn done(&mut self, file: GrowingFile) {
        self.object_faults = self.object_faults.saturating_add(file.faults);
    }
}
