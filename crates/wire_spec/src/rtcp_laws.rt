//! The laws of the definitions.
ghost use Rattle.wire_spec.specs.Laws.{EventsAreReadBack};

/// What was written is read back.
pub fn events_are_read_back()
    ensures { EventsAreReadBack }
{}
