//! Laws of what comes to a terminal.
ghost use Rattle.playback.specs.Laws.{UnplannedRecordsComeAsWritten};

/// Where no line of a plan is of a terminal, and the records to it were written in order of their moments, they come to
/// it as they were written.
pub fn unplanned_records_come_as_written()
    ensures { UnplannedRecordsComeAsWritten }
{}
