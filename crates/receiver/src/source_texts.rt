//! What is heard of a source.
ghost use Rattle.std.specs.Prelude.{◌≡◌, []};

use rtt_base::Bytes;
use std::alloc::Global;

/// What was heard of one source so far.
#[derive(Debug, Drop)]
pub struct SourceText {
    /// Its texts, one after another, with the markers between them.
    pub text: Bytes,
    /// How many markers were put: a U+FFFD that was typed is none.
    pub markers: u64,
}

impl SourceText {
    /// Nothing was heard.
    pub fn new(alloc: Global) -> SourceText
        ensures text { result.text ≡ [] }
        ensures markers { result.markers ≡ 0 }
    {
        SourceText {
            text: Bytes::new(alloc),
            markers: 0,
        }
    }
}
