//! Scripts.
ghost use Rattle.std.specs.Prelude.{◌≡◌, ◌<◌, [], ◌∷◌, ◌++◌, length, OnOk, OnErr, Some, slice_get};
ghost use Rattle.script_text.specs.ScriptLines.{line_of};

use crate::ScriptLine;
use crate::spans::Span;
use rtt_base::{Bytes, NoMemory};
use std::alloc::Global;
use std::marker::Model;

/// Script lines in the file's order. Their texts stand one behind the other, so a script takes memory in its own size.
/// It keeps the allocator that it was made with. Contracts see its lines.
#[derive(Debug, Drop)]
pub struct Script {
    texts: Bytes,
    spans: Vec<Span>,
}

impl Model for Script {
    ghost use Rattle.std.specs.Prelude.{List};
    ghost use Rattle.file_spec.specs.Script.{ScriptLine};
    ghost use Rattle.script_text.specs.Spans.{lines_in, AreWithin};

    ghost Value = { List ScriptLine };

    ghost view = { λ s. lines_in s.texts s.spans.items };

    ghost invariant = { λ s. AreWithin s.texts s.spans.items };
}

impl Script {
    /// No lines, which takes no memory.
    pub fn new(alloc: Global) -> Script
        ensures { result ≡ [] }
    {
        Script {
            texts: Bytes::new(alloc),
            spans: Vec::new(alloc),
        }
    }

    /// The number of lines.
    pub fn len(&self) -> usize
        ensures { result ≡ length self.now }
    {
        self.spans.len()
    }

    /// The line at an index, from 0.
    pub fn line(&self, index: usize) -> ScriptLine<'_>
        requires { index < length self.now }
        ensures { slice_get self.now index ≡ Some (line_of result) }
    {
        let span = self.spans[index];
        ScriptLine {
            line: span.line,
            at: span.at,
            text: &self.texts.as_slice()[span.from..span.to],
        }
    }

    /// Appends a line. After `NoMemory` the list is as before.
    #[inline(always)]
    pub fn push(&mut self, line: ScriptLine<'_>) -> Result<(), NoMemory>
        ensures ok { OnOk result (self.new ≡ self.old ++ line_of line.entry ∷ []) }
        ensures err { OnErr result (self.new ≡ self.old) }
    {
        let from = self.texts.len();
        self.texts.append(line.text)?;
        let to = self.texts.len();
        let span = Span {
            line: line.line,
            at: line.at,
            from,
            to,
        };
        match self.spans.push(span) {
            Ok(()) => Ok(()),
            Err(_) => {
                self.texts.truncate(from);
                Err(NoMemory)
            }
        }
    }
}
