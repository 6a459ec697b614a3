//! The files of a world in memory.
ghost use Rattle.std.specs.Prelude.{◌≡◌, position};
ghost use Rattle.rtt_io.specs.Files.{is_named};

use crate::Faults;
use rtt_base::{Bytes, Path};

/// What is under a name, with the faults of that name.
#[derive(Debug, Drop)]
pub struct MemFile {
    pub name: Path,
    pub octets: Bytes,
    pub faults: Faults,
}

/// The place of the first file of this name.
pub fn place(files: &[MemFile], name: &str) -> Option<usize>
    ensures { result ≡ position (is_named name.now) files.now }
{
    files.iter().position(|file| file.name.as_str() == name)
}
