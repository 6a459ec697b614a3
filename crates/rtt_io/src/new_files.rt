//! A file that takes its name once it is whole.
ghost use Rattle.std.specs.Prelude.{◌≡◌, ◌≤◌, IfSome, IsErr, OnOk, OnErr};
ghost use Rattle.rtt_io.specs.Counts.{Rose};

use crate::{FileSink, Sink};
use itoa::Buffer;
use rtt_base::{Failed, Path};
use std::alloc::{AllocError, Global};
use std::fs;
use std::fs::{File, Metadata, OpenOptions};
use std::io::ErrorKind;
use std::os::unix::fs::MetadataExt;
use std::rt::Files;

/// What stands behind the name of a file that does not have its own name yet, and before a number. No name in a conference has
/// a space.
const BESIDE: &str = ".rtt-part ";

/// How many such names are tried.
const MOST_BESIDE: u32 = 100;

/// The two names of a file that is written beside the one whose place it is to take.
#[derive(Debug, Drop)]
pub(crate) struct Move {
    from: String,
    to: String,
}

/// A file of the system that is written. An ordinary file is written beside its name, and takes the name when its octets are
/// stored, with the first `write_all`; so under the name lies the whole, or what lay there before. A device, a pipe, a link and a file of several names are
/// written where they stand.
#[derive(Drop)]
pub struct NewFile<R> {
    rt: R,
    pub(crate) sink: FileSink,
    /// The move that is still to be made.
    moves: Option<Move>,
}

/// A text of its own.
fn copy_of(alloc: Global, text: &str) -> Result<String, AllocError> {
    let mut copy = String::new(alloc);
    copy.push_str(text)?;
    Ok(copy)
}

/// The move of a file that is to have this name, and now has the one beside it that has this number.
fn move_to(alloc: Global, name: &str, number: u32) -> Result<Move, AllocError> {
    let mut from = copy_of(alloc, name)?;
    from.push_str(BESIDE)?;
    from.push_str(Buffer::new().format(number))?;
    let to = copy_of(alloc, name)?;
    Ok(Move { from, to })
}

/// Whether the file under a name may be written.
fn may_be_written<R: Files<File = File>>(rt: &R, name: &str) -> bool {
    OpenOptions::new().write(true).open(rt, name).is_ok()
}

/// Whether the name is free, or that of an ordinary file that may be written and has no other name.
fn is_replaceable<R: Files<File = File>>(rt: &R, name: &str) -> bool {
    match fs::symlink_metadata(rt, name) {
        Ok(found) => found.is_file() && found.nlink() == 1 && may_be_written(rt, name),
        Err(error) => error.kind() == ErrorKind::NotFound,
    }
}

/// A new file under the first of the names beside a name at which nothing is, where one of them is free and it can be made. It may be
/// written by whom the file under the name may be.
fn file_beside<R: Files<File = File>>(
    rt: &R,
    alloc: Global,
    name: &str,
) -> Result<Option<(File, Move)>, AllocError> {
    for number in 1..=MOST_BESIDE {
        let moves = move_to(alloc, name, number)?;
        match File::create_new(rt, moves.from.as_str()) {
            Ok(file) => {
                if let Ok(found) = fs::symlink_metadata(rt, name) {
                    let _same = file.set_permissions(found.permissions());
                }
                return Ok(Some((file, moves)));
            }
            Err(error) if error.kind() == ErrorKind::AlreadyExists => {}
            Err(_) => return Ok(None),
        }
    }
    Ok(None)
}

/// The file to write for a name, and the move that then is to be made, if one is. Where none can be made beside it, it is
/// written where it stands.
pub(crate) fn file_to_write<R: Files<File = File>>(
    rt: &R,
    alloc: Global,
    name: &str,
) -> Option<(File, Option<Move>)> {
    if is_replaceable(rt, name) {
        if let Some((file, moves)) = file_beside(rt, alloc, name).ok()? {
            return Some((file, Some(moves)));
        }
    }
    let file = fs::create(rt, name).ok()?;
    Some((file, None))
}

/// Which of the system's ordinary files a file is, whatever its names.
#[derive(Clone, Copy, Debug, PartialEq, Eq)]
pub(crate) struct FileId {
    device: u64,
    inode: u64,
}

/// Which file this tells of, where that is an ordinary one.
pub(crate) fn id_in(found: &Metadata) -> Option<FileId> {
    if !found.is_file() {
        return None;
    }
    Some(FileId {
        device: found.dev(),
        inode: found.ino(),
    })
}

/// Which ordinary file lies under a name, at the end of its links.
pub(crate) fn id_under<R: Files<File = File>>(rt: &R, name: &str) -> Option<FileId> {
    let found = fs::metadata(rt, name).ok()?;
    id_in(&found)
}

impl<R: Files<File = File> + Copy> NewFile<R> {
    /// A file that did not fail yet.
    pub(crate) fn new(rt: R, sink: FileSink, moves: Option<Move>) -> NewFile<R>
        ensures { result.sink ≡ sink }
    {
        NewFile { rt, sink, moves }
    }

    /// How often it failed.
    pub(crate) fn faults(&self) -> u64
        ensures { result ≡ self.now.sink.faults }
    {
        self.sink.faults
    }

    /// Gives the file its name, if it does not have it yet.
    fn take_name(&mut self) -> Result<(), Failed>
        ensures { self.new.sink ≡ self.old.sink }
    {
        let moved = match &self.moves {
            Some(moves) => fs::rename(&self.rt, moves.from.as_str(), moves.to.as_str()).is_ok(),
            None => true,
        };
        if !moved {
            return Err(Failed);
        }
        self.moves = None;
        Ok(())
    }

    /// Counts a fault.
    pub(crate) fn fail(&mut self) -> Result<(), Failed>
        ensures fails { IsErr result }
        ensures rose { Rose self.old.sink.faults self.new.sink.faults }
        ensures never_falls { self.old.sink.faults ≤ self.new.sink.faults }
        ensures same_name { self.new.sink.name ≡ self.old.sink.name }
    {
        self.sink.faults = self.sink.faults.saturating_add(1);
        Err(Failed)
    }

    /// Where the file of a part is to go: in the place of the empty one beside the name, or under the name where none was made
    /// beside it.
    fn place_of_part(&self) -> Option<&str> {
        match &self.moves {
            Some(moves) => Some(moves.from.as_str()),
            None if is_replaceable(&self.rt, self.sink.name.as_str()) => Some(
                self.sink.name.as_str(),
            ),
            None => None,
        }
    }

    /// Takes the file of a part for the one that is empty, stores it and gives it the name. What is no ordinary file takes no part.
    pub(crate) fn take_part(&mut self, part: PartFile<R>) -> Result<(), Failed>
        ensures never_falls { self.old.sink.faults ≤ self.new.sink.faults }
        ensures failed { OnErr result (Rose self.old.sink.faults self.new.sink.faults) }
        ensures calm { OnOk result (self.new.sink.faults ≡ self.old.sink.faults) }
        ensures same_name { self.new.sink.name ≡ self.old.sink.name }
    {
        let moved = match self.place_of_part() {
            Some(place) => part.move_to(place),
            None => None,
        };
        match moved {
            Some(file) => {
                self.sink.file = file;
                self.write_all(&[])
            }
            None => self.fail(),
        }
    }

    /// Nothing more is written. A file to which nothing was written takes its name, and one that failed is removed.
    pub(crate) fn end(mut self) {
        if self.sink.faults == 0 {
            let _named = self.take_name();
        }
        if let Some(moves) = &self.moves {
            let _gone = fs::remove_file(&self.rt, moves.from.as_str());
        }
    }
}

impl<R: Files<File = File> + Copy> Sink for NewFile<R> {
    ghost use Rattle.std.specs.Prelude.{[]};

    ghost tells = { ⊥ };

    ghost took = { λ _. [] };

    ghost stored = { λ _. [] };

    ghost faults = { λ file. file.sink.faults };

    ghost name = { λ file. file.sink.name };

    fn write_part(&mut self, bytes: &[u8]) -> Result<(), Failed> {
        self.sink.write_part(bytes)
    }

    fn write_all(&mut self, bytes: &[u8]) -> Result<(), Failed> {
        let written = self.sink.write_all(bytes);
        if written.is_err() {
            return Err(Failed);
        }
        match self.take_name() {
            Ok(()) => Ok(()),
            Err(failed) => {
                self.sink.faults = self.sink.faults.saturating_add(1);
                Err(failed)
            }
        }
    }
}

/// A file beside a name that an ordinary file may have. It is removed where it is let go.
pub struct PartFile<R: Files<File = File> + Copy> {
    rt: R,
    sink: FileSink,
    from: String,
}

/// A new file beside the name, where an ordinary file may have that.
pub(crate) fn part_beside<R: Files<File = File> + Copy>(
    rt: R,
    alloc: Global,
    name: &str,
) -> Option<PartFile<R>> {
    if !is_replaceable(&rt, name) {
        return None;
    }
    let path = Path::from_text(alloc, name).ok()?;
    let (file, moves) = file_beside(&rt, alloc, name).ok()??;
    let sink = FileSink::new(file, path);
    Some(PartFile {
        rt,
        sink,
        from: moves.from,
    })
}

impl<R: Files<File = File> + Copy> PartFile<R> {
    /// Which file it is.
    pub(crate) fn id(&self) -> Option<FileId> {
        id_in(&self.sink.file.metadata().ok()?)
    }

    /// The file, under this name in place of what is there.
    fn move_to(self, name: &str) -> Option<File> {
        if fs::rename(&self.rt, self.from.as_str(), name).is_err() {
            return None;
        }
        let PartFile {
            rt: _,
            sink,
            from: _,
        } = self;
        Some(sink.file)
    }
}

impl<R: Files<File = File> + Copy> Drop for PartFile<R> {
    fn drop(self) {
        let PartFile { rt, sink: _, from } = self;
        let _gone = fs::remove_file(&rt, from.as_str());
    }
}

/// What it takes is stored once a sink was given it.
impl<R: Files<File = File> + Copy> Sink for PartFile<R> {
    ghost use Rattle.std.specs.Prelude.{[]};

    ghost tells = { ⊥ };

    ghost took = { λ _. [] };

    ghost stored = { λ _. [] };

    ghost faults = { λ part. part.sink.faults };

    ghost name = { λ part. part.sink.name };

    fn write_part(&mut self, bytes: &[u8]) -> Result<(), Failed> {
        self.sink.write_part(bytes)
    }

    fn write_all(&mut self, bytes: &[u8]) -> Result<(), Failed> {
        self.sink.write_part(bytes)
    }
}
