//! The real outside: files and the standard streams.
ghost use Rattle.std.specs.Prelude.{◌≡◌, ℕ, ◌≤◌, List, [], None, OnOk, OnErr, IfSome, unwrap_or};
ghost use Rattle.rtt_io.specs.Counts.{Rose};

use crate::new_files::{FileId, NewFile, PartFile, file_to_write, id_in, id_under, part_beside};
use crate::streams::{StoredWriter, read_once, write_stored, write_whole};
use crate::{Sink, Source, World};
use rtt_base::{Failed, Path};
use std::alloc::Global;
use std::fs;
use std::fs::File;
use std::io::{Read, Stderr, Stdout, Write};
use std::rt::Files;

/// A file that is read, or another reader. Where the reader tells what it holds, the source does.
#[derive(Drop)]
pub struct FileSource<F = File> {
    file: F,
    name: Path,
    faults: u64,
}

impl<F: Read> Source for FileSource<F> {
    ghost use Rattle.std.specs.Prelude.{IsSome, unwrap_or};

    ghost tells = { (f : F) → IsSome (F.remaining f) };

    ghost left = { λ source. unwrap_or (F.remaining source.file) [] };

    ghost faults = { λ source. source.faults };

    ghost name = { λ source. source.name };

    fn read(&mut self, buf: &mut [u8]) -> Result<usize, Failed> {
        match read_once(&mut self.file, buf) {
            Ok(number) => Ok(number),
            Err(failed) => {
                self.faults = self.faults.saturating_add(1);
                Err(failed)
            }
        }
    }
}

impl<F: Read> FileSource<F> {
    /// A source over this reader, which did not fail yet.
    pub fn new(file: F, name: Path) -> FileSource<F>
        ensures holds { ⟦<FileSource<F> as Source>⟧.left result ≡ unwrap_or (F.remaining file) [] }
        ensures named { ⟦<FileSource<F> as Source>⟧.name result ≡ name }
        ensures fresh { ⟦<FileSource<F> as Source>⟧.faults result ≡ 0 }
    {
        FileSource {
            file,
            name,
            faults: 0,
        }
    }
}

/// Hands on how a write ended, and counts it if it failed.
fn count_failed(written: Result<(), Failed>, faults: &mut u64) -> Result<(), Failed>
    ensures same { result ≡ written }
    ensures never_falls { faults.old ≤ faults.new }
    ensures calm { OnOk result (faults.new ≡ faults.old) }
    ensures failed { OnErr result (Rose faults.old faults.new) }
{
    if written.is_err() {
        *faults = faults.saturating_add(1);
    }
    written
}

/// A file that is written, or another writer. Where the writer tells what it took, the sink does. Each `write_all` waits until
/// its octets and those of the parts before are stored, so that a fault which the system tells only then is one of the write.
#[derive(Drop)]
pub struct FileSink<F = File> {
    pub(crate) file: F,
    pub(crate) name: Path,
    pub(crate) faults: u64,
}

impl<F: StoredWriter> Sink for FileSink<F> {
    ghost use Rattle.std.specs.Prelude.{IsSome, unwrap_or};

    ghost tells = { (f : F) → IsSome (F.contents f) };

    ghost took = { λ sink. unwrap_or (F.contents sink.file) [] };

    ghost stored = { λ sink. unwrap_or (F.contents sink.file) [] };

    ghost faults = { λ sink. sink.faults };

    ghost name = { λ sink. sink.name };

    fn write_part(&mut self, bytes: &[u8]) -> Result<(), Failed> {
        let written = write_whole(&mut self.file, bytes);
        count_failed(written, &mut self.faults)
    }

    fn write_all(&mut self, bytes: &[u8]) -> Result<(), Failed> {
        let written = write_stored(&mut self.file, bytes);
        count_failed(written, &mut self.faults)
    }
}

impl<F: StoredWriter> FileSink<F> {
    /// A sink over this writer, which did not fail yet.
    pub fn new(file: F, name: Path) -> FileSink<F>
        ensures holds { ⟦<FileSink<F> as Sink>⟧.took result ≡ unwrap_or (F.contents file) [] }
        ensures named { ⟦<FileSink<F> as Sink>⟧.name result ≡ name }
        ensures fresh { ⟦<FileSink<F> as Sink>⟧.faults result ≡ 0 }
    {
        FileSink {
            file,
            name,
            faults: 0,
        }
    }
}

/// A stream that is written. It has the empty name.
#[derive(Drop)]
pub struct StreamSink<W> {
    stream: W,
    faults: u64,
}

/// The standard output.
pub type StandardOutput = StreamSink<Stdout>;

/// The standard error.
pub type StandardError = StreamSink<Stderr>;

impl<W: Write> StreamSink<W> {
    /// A stream that did not fail yet.
    pub fn new(stream: W) -> StreamSink<W>
        ensures holds { ⟦<StreamSink<W> as Sink>⟧.took result ≡ unwrap_or (W.contents stream) [] }
        ensures fresh { ⟦<StreamSink<W> as Sink>⟧.faults result ≡ 0 }
    {
        StreamSink { stream, faults: 0 }
    }
}

impl<W: Write> Sink for StreamSink<W> {
    ghost use Rattle.std.specs.Prelude.{IsSome, unwrap_or};

    ghost tells = { (w : W) → IsSome (W.contents w) };

    ghost took = { λ sink. unwrap_or (W.contents sink.stream) [] };

    ghost stored = { λ sink. unwrap_or (W.contents sink.stream) [] };

    ghost faults = { λ sink. sink.faults };

    ghost name = { λ _. [] };

    fn write_part(&mut self, bytes: &[u8]) -> Result<(), Failed> {
        let written = write_whole(&mut self.stream, bytes);
        count_failed(written, &mut self.faults)
    }

    fn write_all(&mut self, bytes: &[u8]) -> Result<(), Failed> {
        let written = write_whole(&mut self.stream, bytes);
        count_failed(written, &mut self.faults)
    }
}

/// The files of the system. One number of each kind counts the faults of all names. An ordinary file that was made is not made a
/// second time, whatever its name then is.
#[derive(Drop)]
pub struct RealWorld<R> {
    rt: R,
    alloc: Global,
    own_faults: u64,
    object_faults: u64,
    /// The ordinary files that were made.
    made: Vec<FileId>,
}

impl<R: Files<File = File> + Copy + Send + Sync> RealWorld<R> {
    /// The files of this runtime. It takes no memory.
    pub fn new(rt: R, alloc: Global) -> RealWorld<R>
        ensures fresh { (n : List ℕ) → ⟦<RealWorld<R> as World>⟧.own_faults result n ≡ 0 }
        ensures fresh_objects { (n : List ℕ) → ⟦<RealWorld<R> as World>⟧.object_faults result n ≡ 0 }
    {
        RealWorld {
            rt,
            alloc,
            own_faults: 0,
            object_faults: 0,
            made: Vec::new(alloc),
        }
    }
}

impl<R: Files<File = File> + Copy> RealWorld<R> {
    // The file of a name, open for reading, where the system opens it.
    fn source(&self, name: &str) -> Option<FileSource>
        ensures named { IfSome result (λ source. source.name ≡ name.now) }
        ensures fresh { IfSome result (λ source. source.faults ≡ 0) }
    {
        let path = Path::from_text(self.alloc, name).ok()?;
        let file = fs::open(&self.rt, name).ok()?;
        Some(FileSource::new(file, path))
    }

    // Whether the file of a name was made.
    fn was_made(&self, name: &str) -> bool {
        match id_under(&self.rt, name) {
            Some(id) => self.made.iter().any(|other| *other == id),
            None => false,
        }
    }

    // What is to be the file of a name, where the system makes it and there is memory. Which file it is, where the system tells
    // that, is kept; room for that is made first, so that no file is made that can't be kept.
    fn sink(&mut self, name: &str) -> Option<NewFile<R>>
        ensures named { IfSome result (λ made. made.sink.name ≡ name.now) }
        ensures fresh { IfSome result (λ made. made.sink.faults ≡ 0) }
        ensures own { self.new.own_faults ≡ self.old.own_faults }
        ensures objects { self.new.object_faults ≡ self.old.object_faults }
    {
        if self.was_made(name) {
            return None;
        }
        let path = Path::from_text(self.alloc, name).ok()?;
        let Ok(()) = self.made.reserve(1) else {
            return None;
        };
        let (file, moves) = file_to_write(&self.rt, self.alloc, name)?;
        if let Ok(found) = file.metadata() {
            if let Some(id) = id_in(&found) {
                self.made.push_reserved(id);
            }
        }
        Some(NewFile::new(self.rt, FileSink::new(file, path), moves))
    }
}

impl<R: Files<File = File> + Copy + Send + Sync> World for RealWorld<R> {
    type Src = FileSource;

    type Dst = NewFile<R>;

    type Part = PartFile<R>;

    ghost tells = { ⊥ };

    ghost contents = { λ _ _. None };

    ghost own_faults = { λ world _. world.own_faults };

    ghost object_faults = { λ world _. world.object_faults };

    fn open_source(&mut self, name: &str) -> Result<FileSource, Failed> {
        match self.source(name) {
            Some(source) => Ok(source),
            None => {
                self.own_faults = self.own_faults.saturating_add(1);
                Err(Failed)
            }
        }
    }

    fn create_sink(&mut self, name: &str) -> Result<NewFile<R>, Failed> {
        match self.sink(name) {
            Some(sink) => Ok(sink),
            None => {
                self.own_faults = self.own_faults.saturating_add(1);
                Err(Failed)
            }
        }
    }

    fn done_src(&mut self, source: FileSource) {
        self.object_faults = self.object_faults.saturating_add(source.faults);
    }

    fn done_dst(&mut self, sink: NewFile<R>) {
        self.object_faults = self.object_faults.saturating_add(sink.faults());
        sink.end();
    }

    fn part(&self, name: &str) -> Option<PartFile<R>> {
        part_beside(self.rt, self.alloc, name)
    }

    // The file of the part is kept as one that was made.
    fn give(&mut self, part: PartFile<R>, sink: &mut NewFile<R>) -> Result<(), Failed> {
        if self.made.reserve(1).is_err() {
            return sink.fail();
        }
        if let Some(id) = part.id() {
            self.made.push_reserved(id);
        }
        sink.take_part(part)
    }
}
