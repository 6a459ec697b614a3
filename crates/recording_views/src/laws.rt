//! The law of what is printed.
ghost use Rattle.std.specs.Prelude.{ℕ, List};
ghost use Rattle.command_spec.specs.declared.requests.ReadRequest.{ReadRequest};
ghost use Rattle.recording_views.specs.Laws.{IsScript};

/// What is printed of a recording is read as the script of what was heard, unless it is too large: the same texts at the same
/// moments, where each text is one that a line of a script can say. So it can be sent again.
pub fn transcripts_are_scripts()
    ensures { (r : ReadRequest) (octets : List ℕ) → IsScript r octets }
{}
