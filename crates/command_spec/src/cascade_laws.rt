//! What holds of the definitions. No code stands here.
ghost use Rattle.command_spec.specs.Laws.{HeardAreSendable, RecordingsAreHeard, RecordingsAreMixed, RecordingsAreRead, SplitsAreHeard, SplitsAreRead};

/// A split is read to its end, and what is heard of it are the texts of its chunks put together, each whole: none is lost, and
/// no marker is added, however long a gap is waited for.
pub fn splits_are_legs()
    ensures read { SplitsAreRead }
    ensures heard { SplitsAreHeard }
{}

/// The same holds of the splits of any recording, whatever it has: what is heard of its sources are texts of 1 to 1023 octets. It
/// holds also of what a mixer hears of a split, to which keep-alives are no text, however long it lets texts be.
pub fn recordings_are_split()
    ensures sendable { HeardAreSendable }
    ensures read { RecordingsAreRead }
    ensures heard { RecordingsAreHeard }
    ensures mixed { RecordingsAreMixed }
{}
