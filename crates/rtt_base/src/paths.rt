//! The name of a file, or of the far end of a link.
ghost use Rattle.std.specs.Prelude.{◌≡◌, IfOk};

use crate::NoMemory;
use std::alloc::Global;
use std::marker::Model;

/// A text that names a file or the far end of a link. Contracts see its octets.
#[derive(Debug, Drop)]
pub struct Path {
    text: String,
}

impl Model for Path {
    ghost use Rattle.std.specs.Prelude.{ℕ, List, string_bytes};

    ghost Value = { List ℕ };

    ghost view = { λ p. string_bytes p.text };
}

impl Path {
    /// A path with this text.
    pub fn from_text(alloc: Global, text: &str) -> Result<Path, NoMemory>
        ensures { IfOk result (λ path. path ≡ text.now) }
    {
        match String::from_str(alloc, text) {
            Ok(text) => Ok(Path { text }),
            Err(_) => Err(NoMemory),
        }
    }

    pub fn as_str(&self) -> &str
        ensures { result.now ≡ self.now }
    {
        self.text.as_str()
    }
}
