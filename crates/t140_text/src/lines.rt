//! The lines that a text shows.
ghost use Rattle.std.specs.Prelude.{◌≡◌, string_bytes};
ghost use Rattle.std.specs.List.{join_with_byte};
ghost use Rattle.view_spec.specs.Shown.{lines_of};

use std::alloc::Global;
use std::marker::Model;

/// One or more lines, seen as the list of their texts.
#[derive(Debug, Drop)]
pub struct Lines {
    // the lines with LF between each two
    text: String,
}

impl Model for Lines {
    ghost use Rattle.std.specs.Prelude.{ℕ, List, string_bytes};
    ghost use Rattle.view_spec.specs.Shown.{lines_of};

    ghost Value = { List (List ℕ) };

    ghost view = { λ l. lines_of (string_bytes l.text) };
}

impl Lines {
    /// The lines of a text in which each new line is LF.
    pub(crate) fn of(text: String) -> Lines
        ensures { result ≡ lines_of (string_bytes text) }
    {
        Lines { text }
    }

    /// The lines with LF between each two.
    pub fn joined(&self) -> &str
        ensures lines { lines_of result.now ≡ self.now }
        ensures joined { result.now ≡ join_with_byte 10 self.now }
    {
        self.text.as_str()
    }
}
